ghost use Rattle.std.specs.Prelude.{◌≡◌, ◌++◌, ◌∷◌, ◌<◌, ◌≤◌, ◌+◌, [], List, length, map, IfOk, IsErr, OnOk, OnErr};
ghost use Rattle.section_stream.specs.Cuts.{Bytes, candidates};
ghost use Rattle.section_stream.specs.Kept.{view_bytes};
ghost use Rattle.section_stream.specs.Pieces.{packets_of, StandsForBytes};
ghost use Rattle.section_stream.specs.Rules.{fresh, StandsFor, up};

use crate::counts::Counts;
use crate::piece::Piece;
use crate::receiver::Receiver;
use carousel_profile::PACKET_LENGTH;
use oc_bytes::NoMemory;
use std::alloc::Global;
use std::marker::Model;
use std::mem::swap;

/// The most bytes of a piece.
pub const MOST_PIECE: usize = 65_536;

/// Cuts the sections of one PID out of transport packets (ISO/IEC 13818-1, 2.4.4). It takes whole
/// packets, or their bytes in pieces of any size.
///
/// `unfinished` is the first bytes of a packet whose other bytes haven't come yet.
#[derive(Drop)]
pub struct Demux {
    alloc: Global,
    receiver: Receiver,
    /// Takes the packets of a piece. If memory runs out, `receiver` is as it was.
    spare: Receiver,
    unfinished: Piece,
}

impl Model for Demux {
    ghost use Rattle.std.specs.Prelude.{◌<◌, length};
    ghost use Rattle.section_stream.specs.Rules.{DemuxState};
    ghost use Rattle.carousel_profile.specs.declared.TheConstants.{PACKET_LENGTH};

    ghost Value = { DemuxState };

    ghost view = { λ d.
        record {
          pid = d.receiver.pid;
          last = d.receiver.last;
          opened = d.receiver.opened;
          counts =
              d.receiver.counts;
          unfinished = d.unfinished;
        } };

    ghost invariant = { λ d. length d.unfinished < PACKET_LENGTH };
}

impl Demux {
    /// A demultiplexer of the PID `pid` before its first packet. It reserves all its memory.
    pub fn new(alloc: Global, pid: u16) -> Result<Demux, NoMemory>
        ensures fresh { IfOk result (λ d. d ≡ fresh pid) }
        ensures stands { IfOk result (λ d. StandsFor d []) }
        ensures bytes { IfOk result (λ d. StandsForBytes d []) }
    {
        Ok(Demux {
            alloc,
            receiver: Receiver::new(alloc, pid)?,
            spare: Receiver::new(alloc, pid)?,
            unfinished: Piece::new(),
        })
    }

    /// Takes one packet and answers the sections that it completes, in the order in which they
    /// opened: 0 to 61 of them, each of 3 to 4,096 bytes. `specs/Rules.antt` has the rules.
    ///
    /// Call it only where `pending` is 0. Memory can run out only at a packet that completes a
    /// section.
    #[inline]
    pub fn feed(&mut self, packet: &[u8; PACKET_LENGTH]) -> Result<Vec<Vec<u8>>, NoMemory>
        requires { self.old.unfinished ≡ [] }
        // What it stands for after the packet:
        ensures stands { OnOk result ((packets : List Bytes)
            → StandsFor self.old packets
            → StandsFor self.new (packets ++ packet.now ∷ [])) }
        ensures pid { OnOk result (self.new.pid ≡ self.old.pid) }
        ensures short { OnOk result (self.new.counts.short_tail ≡ self.old.counts.short_tail) }
        ensures whole { self.new.unfinished ≡ [] }
        // What it answers:
        ensures cuts { IfOk result (λ out.
            (packets : List Bytes)
            → StandsFor self.old packets
            → candidates self.old.pid (packets ++ packet.now ∷ [])
            ≡ candidates self.old.pid packets ++ map view_bytes out.items) }
        ensures completes { OnErr result ((packets : List Bytes)
            → StandsFor self.old packets
            → length (candidates self.old.pid packets)
            < length (candidates self.old.pid (packets ++ packet.now ∷ []))) }
        // If memory runs out:
        ensures err { OnErr result (self.new ≡ self.old) }
    {
        self.receiver.feed(packet)
    }

    /// Takes the next bytes, at most [`MOST_PIECE`]. Each 188 bytes of all pieces are one packet.
    /// The answer is the sections of the packets that end in this piece, as `feed` answers them.
    ///
    /// Memory can run out only at a piece that completes a section.
    pub fn feed_bytes(&mut self, piece: &[u8]) -> Result<Vec<Vec<u8>>, NoMemory>
        requires { length piece.now ≤ MOST_PIECE }
        // What it stands for after the piece:
        ensures stands { OnOk result ((bytes : Bytes)
            → StandsForBytes self.old bytes
            → StandsForBytes self.new (bytes ++ piece.now)) }
        ensures pid { OnOk result (self.new.pid ≡ self.old.pid) }
        ensures short { OnOk result (self.new.counts.short_tail ≡ self.old.counts.short_tail) }
        // What it answers:
        ensures cuts { IfOk result (λ out.
            (bytes : Bytes)
            → StandsForBytes self.old bytes
            → candidates self.old.pid (packets_of (bytes ++ piece.now))
            ≡ candidates self.old.pid (packets_of bytes) ++ map view_bytes out.items) }
        // If memory runs out:
        ensures memory { IsErr result
            → PACKET_LENGTH ≤ length self.old.unfinished + length piece.now }
        ensures completes { OnErr result ((bytes : Bytes)
            → StandsForBytes self.old bytes
            → length (candidates self.old.pid (packets_of bytes))
            < length (candidates self.old.pid (packets_of (bytes ++ piece.now)))) }
        ensures err { OnErr result (self.new ≡ self.old) }
    {
        let mut out = Vec::new(self.alloc);
        let missing = PACKET_LENGTH - self.unfinished.len();
        if piece.len() < missing {
            self.unfinished.append(piece);
            return Ok(out);
        }
        let (front, behind) = piece.split_at(missing);
        self.spare.copy(&self.receiver);
        self.spare
            .step(&self.unfinished.completed(front), &mut out)?;
        let rest = self.spare.take_all(behind, &mut out)?;
        self.unfinished.replace(rest);
        swap(&mut self.receiver, &mut self.spare);
        Ok(out)
    }

    /// How many bytes of an unfinished packet it keeps, 0 to 187.
    pub fn pending(&self) -> usize
        ensures bytes { result ≡ length self.now.unfinished }
        ensures few { result ≤ 187 }
    {
        self.unfinished.len()
    }

    /// The counts so far.
    pub fn counts(&self) -> Counts
        ensures { result ≡ self.now.counts }
    {
        self.receiver.counts()
    }

    /// Counts an input that ended with fewer than 188 bytes.
    pub fn short(&mut self)
        ensures stands { (packets : List Bytes)
            → StandsFor self.old packets
            → StandsFor self.new packets }
        ensures bytes { (bytes : Bytes)
            → StandsForBytes self.old bytes
            → StandsForBytes self.new bytes }
        ensures only { self.new
            ≡ record self.old
            { counts = record self.old.counts { short_tail = up self.old.counts.short_tail } } }
    {
        self.receiver.short();
    }
}
