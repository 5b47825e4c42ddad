ghost use Rattle.std.specs.Prelude.{◌≡◌, ◌++◌, ◌∷◌, ◌<◌, [], List, length, map, IfOk, OnOk, OnErr};
ghost use Rattle.section_stream.specs.Cuts.{Bytes, candidates};
ghost use Rattle.section_stream.specs.Kept.{view_bytes};
ghost use Rattle.section_stream.specs.Rules.{fresh, StandsFor, up};

use crate::counts::Counts;
use crate::receiver::Receiver;
use carousel_profile::PACKET_LENGTH;
use oc_bytes::NoMemory;
use std::alloc::Global;
use std::marker::Model;

/// Cuts the sections of one PID out of whole transport packets. Unlike `Demux` it takes no pieces,
/// so its `feed` has no condition and it needs no second buffer.
#[derive(Drop)]
pub struct PacketDemux {
    receiver: Receiver,
}

impl Model for PacketDemux {
    ghost use Rattle.std.specs.Prelude.{[]};
    ghost use Rattle.section_stream.specs.Rules.{DemuxState};

    ghost Value = { DemuxState };

    ghost view = { λ d.
        record {
          pid = d.receiver.pid;
          last = d.receiver.last;
          opened = d.receiver.opened;
          counts =
              d.receiver.counts;
          unfinished = [];
        } };
}

impl PacketDemux {
    /// A demultiplexer of the PID `pid` before its first packet. It reserves all its memory.
    pub fn new(alloc: Global, pid: u16) -> Result<PacketDemux, NoMemory>
        ensures fresh { IfOk result (λ d. d ≡ fresh pid) }
        ensures stands { IfOk result (λ d. StandsFor d []) }
    {
        Ok(PacketDemux {
            receiver: Receiver::new(alloc, pid)?,
        })
    }

    /// Takes one packet, as `Demux::feed` does.
    #[inline]
    pub fn feed(&mut self, packet: &[u8; PACKET_LENGTH]) -> Result<Vec<Vec<u8>>, NoMemory>
        // What it stands for after the packet:
        ensures stands { OnOk result ((packets : List Bytes)
            → StandsFor self.old packets
            → StandsFor self.new (packets ++ packet.now ∷ [])) }
        ensures pid { OnOk result (self.new.pid ≡ self.old.pid) }
        ensures short { OnOk result (self.new.counts.short_tail ≡ self.old.counts.short_tail) }
        // What it answers:
        ensures cuts { IfOk result (λ out.
            (packets : List Bytes)
            → StandsFor self.old packets
            → candidates self.old.pid (packets ++ packet.now ∷ [])
            ≡ candidates self.old.pid packets ++ map view_bytes out.items) }
        ensures completes { OnErr result ((packets : List Bytes)
            → StandsFor self.old packets
            → length (candidates self.old.pid packets)
            < length (candidates self.old.pid (packets ++ packet.now ∷ []))) }
        // If memory runs out:
        ensures err { OnErr result (self.new ≡ self.old) }
    {
        self.receiver.feed(packet)
    }

    /// The counts so far.
    pub fn counts(&self) -> Counts
        ensures { result ≡ self.now.counts }
    {
        self.receiver.counts()
    }

    /// Counts an input that ended with fewer than 188 bytes.
    pub fn short(&mut self)
        ensures stands { (packets : List Bytes)
            → StandsFor self.old packets
            → StandsFor self.new packets }
        ensures only { self.new
            ≡ record self.old
            { counts = record self.old.counts { short_tail = up self.old.counts.short_tail } } }
    {
        self.receiver.short();
    }
}
