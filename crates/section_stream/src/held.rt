ghost use Rattle.std.specs.Prelude.{◌≡◌, ◌<◌, ◌≤◌, ◌+◌, ◌++◌, [], length, not};
ghost use Rattle.section_stream.specs.Packing.{is_none};

use crate::parts::Parts;
use crate::piece::Piece;
use std::marker::Model;

/// What a packer holds back. First come the last bytes of a section that began in earlier packets,
/// then the sections that begin in the next packet. Both leave room in that packet.
#[derive(Drop)]
pub struct Held {
    bytes: Piece,
    tail: usize,
}

impl Model for Held {
    ghost use Rattle.std.specs.Prelude.{◌≤◌, ◌<◌, length, take, drop};
    ghost use Rattle.section_stream.specs.Packing.{Back};

    ghost Value = { Back };

    ghost view = { λ h. record { tail = take h.tail h.bytes; body = drop h.tail h.bytes } };

    ghost invariant = { λ h. (h.tail ≤ length h.bytes) × (length h.bytes < 183) };
}

impl Held {
    pub fn new() -> Held
        ensures { result ≡ record { tail = []; body = [] } }
    {
        Held {
            bytes: Piece::new(),
            tail: 0,
        }
    }

    pub fn bytes(&self) -> &[u8]
        ensures bytes { result.now ≡ self.now.tail ++ self.now.body }
        ensures few { length result.now < 183 }
    {
        self.bytes.as_slice()
    }

    pub fn tail(&self) -> u8
        ensures { result ≡ length self.now.tail }
    {
        self.tail as u8
    }

    /// Whether a section begins in the next packet.
    pub fn begins(&self) -> bool
        ensures { result ≡ not (is_none self.now.body) }
    {
        self.tail < self.bytes.len()
    }

    pub fn append(&mut self, section: &Parts)
        requires { length self.old.tail + length self.old.body + length section.now < 183 }
        ensures { self.new ≡ record { tail = self.old.tail; body = self.old.body ++ section.now } }
    {
        section.append_to(&mut self.bytes);
    }

    /// Holds back the last bytes of a begun section alone.
    pub fn replace(&mut self, tail: &Parts)
        requires { length tail.now < 183 }
        ensures { self.new ≡ record { tail = tail.now; body = [] } }
    {
        self.bytes.replace(&[]);
        tail.append_to(&mut self.bytes);
        self.tail = tail.len();
    }
}
