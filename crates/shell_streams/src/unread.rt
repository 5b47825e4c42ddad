ghost use Rattle.std.specs.Prelude.{◌≡◌, ◌+◌, ◌-◌, ◌<◌, ◌≤◌, ℕ, [], Ok, false, true, length, take, drop, IfOk, OnErr};
ghost use Rattle.oc_bytes.specs.Outcome.{Known, Faulted};
ghost use Rattle.shell_streams.specs.Packets.{LosesNothing};
ghost use Rattle.shell_streams.specs.Inner.Held.{IsDry, ReadsAfter};

use oc_bytes::{Failed, NoMemory, Source};
use std::alloc::Global;
use std::marker::Model;

/// The number of bytes from which on no more are held when more are read.
const MOST_HELD: usize = 4_098;

/// The size of the buffer: 65,536 bytes are free after what is held, wherever that stands in the
/// first two times `MOST_HELD` bytes.
const BUFFER: usize = 73_732;

/// The bytes of an input that were read and aren't taken yet. They are read in pieces of up to
/// 65,536 bytes.
#[derive(Drop)]
pub struct Unread {
    bytes: Vec<u8>,
    at: usize,
    end: usize,
}

impl Model for Unread {
    ghost use Rattle.std.specs.Prelude.{◌≡◌, ◌≤◌, List, ℕ, vec_len, slice_range};

    ghost Value = { List ℕ };

    ghost view = { λ u. slice_range u.bytes.items u.at u.end };

    ghost invariant = { λ u.
        (u.at ≤ u.end) × (u.end ≤ vec_len u.bytes) × (vec_len u.bytes ≡ 73732) };
}

impl Unread {
    /// Nothing is read yet.
    pub fn new(alloc: Global) -> Result<Unread, NoMemory>
        ensures { IfOk result (λ u. u ≡ []) }
    {
        let bytes = vec![in alloc; 0; BUFFER]?;
        Ok(Unread {
            bytes,
            at: 0,
            end: 0,
        })
    }

    /// The bytes that are held.
    pub fn held(&self) -> &[u8]
        ensures { result.now ≡ self.now }
    {
        &self.bytes[self.at..self.end]
    }

    /// Takes the first `n` of them.
    pub fn pass(&mut self, n: usize)
        requires { n ≤ length self.old }
        ensures { self.new ≡ drop n self.old }
    {
        self.at += n;
    }

    /// Reads at least one byte more after those that are held, and says whether there was one.
    pub fn more<S: Source>(&mut self, source: &mut S) -> Result<bool, Failed>
        requires { length self.old < MOST_HELD }
        // What is held:
        ensures rest { LosesNothing self.old (S.left source.old) self.new (S.left source.new) }
        ensures grew { result ≡ Ok true → length self.old < length self.new }
        ensures ended { result ≡ Ok false → (self.new ≡ self.old) × IsDry (S.left source.new) }
        ensures kept { OnErr result (self.new ≡ self.old) }
        // The faults of the source:
        ensures later { S.faults source.old ≤ S.faults source.new }
        ensures cause { OnErr result (Faulted S.faults source.old source.new) }
    {
        let held = self.end - self.at;
        let at = with_room(&mut self.bytes, self.at, held);
        self.at = at;
        self.end = at + held;
        let n = read_behind(source, &mut self.bytes, self.end)?;
        self.end += n;
        Ok(n > 0)
    }
}

/// Moves the `n` bytes from `at` on to the front, where they stand far after it, and says from
/// where on they stand.
fn with_room(bytes: &mut [u8], at: usize, n: usize) -> usize
    requires few { n < MOST_HELD }
    requires within { at + n ≤ length bytes.old }
    ensures front { result < MOST_HELD }
    ensures within { result ≤ at }
    ensures same { take n (drop result bytes.new) ≡ take n (drop at bytes.old) }
{
    if at < MOST_HELD {
        return at;
    }
    let (front, rear) = bytes.split_at_mut(at);
    front[..n].copy_from_slice(&rear[..n]);
    0
}

/// Reads into the bytes from `start` on.
fn read_behind<S: Source>(source: &mut S, bytes: &mut [u8], start: usize) -> Result<usize, Failed>
    requires { start < length bytes.old }
    // What was read:
    ensures front { take start bytes.new ≡ take start bytes.old }
    ensures within { IfOk result (λ n. start + n ≤ length bytes.old) }
    ensures read { IfOk result (λ n.
        Known (S.left source.old) (S.left source.new) (λ before after.
        ReadsAfter bytes.new before after start n)) }
    ensures nothing { OnErr result (S.left source.new ≡ S.left source.old) }
    // The faults of the source:
    ensures later { S.faults source.old ≤ S.faults source.new }
    ensures cause { OnErr result (Faulted S.faults source.old source.new) }
{
    source.read(&mut bytes[start..])
}
