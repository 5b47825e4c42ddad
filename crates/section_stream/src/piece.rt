ghost use Rattle.std.specs.Prelude.{◌≡◌, ◌≤◌, ◌+◌, ◌++◌, [], length, take, drop};

use carousel_profile::PACKET_LENGTH;
use std::marker::Model;

/// At most 188 bytes, kept in place: no call takes memory.
#[derive(Drop)]
pub struct Piece {
    bytes: [u8; PACKET_LENGTH],
    len: usize,
}

impl Model for Piece {
    ghost use Rattle.std.specs.Prelude.{◌≤◌, ℕ, List, take};
    ghost use Rattle.carousel_profile.specs.declared.TheConstants.{PACKET_LENGTH};

    ghost Value = { List ℕ };

    ghost view = { λ p. take p.len p.bytes };

    ghost invariant = { λ p. p.len ≤ PACKET_LENGTH };
}

impl Piece {
    pub fn new() -> Piece
        ensures { result ≡ [] }
    {
        Piece {
            bytes: [0; PACKET_LENGTH],
            len: 0,
        }
    }

    #[inline]
    pub fn len(&self) -> usize
        ensures { result ≡ length self.now }
    {
        self.len
    }

    #[inline]
    pub fn as_slice(&self) -> &[u8]
        ensures { result.now ≡ self.now }
    {
        &self.bytes[..self.len]
    }

    pub fn append(&mut self, more: &[u8])
        requires { length self.old + length more.now ≤ PACKET_LENGTH }
        ensures { self.new ≡ self.old ++ more.now }
    {
        copy_at(&mut self.bytes, self.len, more);
        self.len += more.len();
    }

    pub fn replace(&mut self, bytes: &[u8])
        requires { length bytes.now ≤ PACKET_LENGTH }
        ensures { self.new ≡ bytes.now }
    {
        copy_at(&mut self.bytes, 0, bytes);
        self.len = bytes.len();
    }

    pub fn completed(&self, behind: &[u8]) -> [u8; PACKET_LENGTH]
        requires { length self.now + length behind.now ≡ PACKET_LENGTH }
        ensures { result ≡ self.now ++ behind.now }
    {
        let mut packet = self.bytes;
        copy_at(&mut packet, self.len, behind);
        packet
    }
}

/// Writes these bytes over those from `at` on.
pub fn copy_at(to: &mut [u8], at: usize, bytes: &[u8])
    requires { at + length bytes.now ≤ length to.old }
    ensures { to.new ≡ take at to.old ++ (bytes.now ++ drop (at + length bytes.now) to.old) }
{
    to[at..at + bytes.len()].copy_from_slice(bytes);
}
