ghost use Rattle.std.specs.Prelude.{◌≡◌, ◌+◌, ◌<◌, ◌≤◌, ◌↔◌, ◌++◌, ℕ, List, Option, [], map, length, IsTrue, Ok, None, true, IfOk, IfErr, IfSome, OnErr, false};
ghost use Rattle.oc_bytes.specs.Outcome.{Known, Faulted};
ghost use Rattle.section_stream.specs.Kept.{view_bytes};
ghost use Rattle.shell_streams.specs.Cuts.{Bytes};
ghost use Rattle.shell_streams.specs.Packets.{onto_left, HasCut, Halts, HasEnded, HasTaken, Stops, is_ready, LosesNothing};
ghost use Rattle.shell_streams.specs.Inner.Held.{IsDry};
ghost use Rattle.shell_streams.specs.Inner.Packets.{AreAllTaken};

use crate::input::InputFault;
use crate::sections::goes_on;
use crate::unread::Unread;
use carousel_profile::PACKET_LENGTH;
use oc_bytes::{Failed, NoMemory, Source};
use section_stream::PacketDemux;
use std::alloc::Global;

/// The most packets that are taken.
pub const MOST_PACKETS: u32 = 16_777_216;

/// Reads an input packet by packet, and cuts the sections of one PID out of it.
#[derive(Drop)]
pub struct PacketReader {
    unread: Unread,
    demux: PacketDemux,
    /// How many packets may still be taken.
    most: u32,
}

impl PacketReader {
    /// A reader of the PID `pid`, 0 to 8,191, that has taken no packet.
    pub fn new(alloc: Global, pid: u16) -> Result<PacketReader, NoMemory>
        ensures { IfOk result (λ r. (start : Option Bytes) → HasCut pid r start start []) }
    {
        Ok(PacketReader {
            unread: Unread::new(alloc)?,
            demux: PacketDemux::new(alloc, pid)?,
            most: MOST_PACKETS,
        })
    }

    /// Whether the next packet is held and may be taken, so that `next` reads nothing before it.
    pub fn is_ready(&self) -> bool
        ensures { result ≡ is_ready self.now }
    {
        self.unread.held().len() >= PACKET_LENGTH && self.most > 0
    }

    /// Takes the next packet, and gives the sections that it completes, in order; `None` where the
    /// input has ended. A last piece of fewer than 188 bytes is counted and passed over.
    ///
    /// `TooLong` comes exactly where [`MOST_PACKETS`] packets were taken and at least a byte more
    /// is read, `Failed` where the source fails, and `NoMemory` where the sections find no memory.
    /// Where the next packet is ready `NoMemory` alone can come.
    pub fn next<S: Source>(&mut self, source: &mut S) -> Result<Option<Vec<Vec<u8>>>, InputFault>
        // What is answered:
        ensures next { IfOk result (λ out.
            IfSome out (λ out.
            (pid : ℕ) (start : Option Bytes) (cs : List Bytes)
            → HasCut pid self.old start (S.left source.old) cs
            → HasCut pid self.new start (S.left source.new) (cs ++ map view_bytes out.items))) }
        ensures fewer { IfOk result (λ out. IfSome out (λ _. self.new.most < self.old.most)) }
        ensures ended { result ≡ Ok None
            → (pid : ℕ) (start : Option Bytes) (cs : List Bytes)
            → HasCut pid self.old start (S.left source.old) cs
            → Known start (S.left source.new) (HasEnded pid cs) }
        // When a fault comes:
        ensures stopped { IfErr result (λ s.
            (pid : ℕ) (start : Option Bytes) (cs : List Bytes)
            → HasCut pid self.old start (S.left source.old) cs
            → Known start (S.left source.new) (Halts pid cs s)) }
        ensures needed { IfErr result (λ s.
            (s ≡ InputFault.NoMemory → ⊥) → is_ready self.old ≡ false) }
        ensures later { S.faults source.old ≤ S.faults source.new }
        ensures read_fault { IfErr result (λ s.
            s ≡ InputFault.Failed → Faulted S.faults source.old source.new) }
    {
        if !has_next(&mut self.unread, self.most, source)? {
            if !self.unread.held().is_empty() {
                self.demux.short();
            }
            return Ok(None);
        }
        let Some(packet) = self.unread.held().first_chunk::<PACKET_LENGTH>() else {
            unreachable!();
        };
        let sections = self.demux.feed(packet)?;
        self.unread.pass(PACKET_LENGTH);
        self.most -= 1;
        Ok(Some(sections))
    }
}

/// Reads until the next packet is held, and says whether there is one; so many may still be taken.
pub fn has_next<S: Source>(
    unread: &mut Unread,
    most: u32,
    source: &mut S,
) -> Result<bool, InputFault>
    // What is answered:
    ensures next { result ≡ Ok true → (PACKET_LENGTH ≤ length unread.new) × (0 < most) }
    ensures rest { LosesNothing unread.old (S.left source.old) unread.new (S.left source.new) }
    ensures ended { result ≡ Ok false
        → (start : Option Bytes) (packets : List Bytes)
        → HasTaken packets most start (onto_left unread.old (S.left source.old))
        → Known start (S.left source.new) (AreAllTaken packets) }
    // When a fault comes:
    ensures stopped { IfErr result (λ s.
        (start : Option Bytes) (packets : List Bytes)
        → HasTaken packets most start (onto_left unread.old (S.left source.old))
        → Known start (S.left source.new) (Stops packets s)) }
    ensures needed { OnErr result (0 < most → length unread.old < PACKET_LENGTH) }
    ensures later { S.faults source.old ≤ S.faults source.new }
    ensures read_fault { IfErr result (λ s.
        s ≡ InputFault.Failed → Faulted S.faults source.old source.new) }
{
    if most > 0 {
        return Ok(has_packet(unread, source)?);
    }
    if goes_on(unread, source)? {
        Err(InputFault::TooLong)
    } else {
        Ok(false)
    }
}

/// Reads until a whole packet is held, and says whether there is one.
fn has_packet<S: Source>(unread: &mut Unread, source: &mut S) -> Result<bool, Failed>
    // What is answered:
    ensures whole { IfOk result (λ whole. IsTrue whole ↔ (PACKET_LENGTH ≤ length unread.new)) }
    ensures ended { result ≡ Ok false → IsDry (S.left source.new) }
    ensures short { OnErr result (length unread.new < PACKET_LENGTH) }
    ensures needed { OnErr result (length unread.old < PACKET_LENGTH) }
    // What is left of the source:
    ensures rest { LosesNothing unread.old (S.left source.old) unread.new (S.left source.new) }
    ensures later { S.faults source.old ≤ S.faults source.new }
    ensures cause { OnErr result (Faulted S.faults source.old source.new) }
{
    loop {
        let whole = unread.held().len() >= PACKET_LENGTH;
        if whole || !unread.more(source)? {
            return Ok(whole);
        }
    }
}
