//! Who hears the packets of an input.

ghost use Rattle.std.specs.Prelude.{[], IfOk};
ghost use Rattle.reception_report.specs.Inner.Hearing.{HasHeard};

use crate::following::Follower;
use crate::front::Front;
use carousel_profile::PACKET_LENGTH;
use oc_bytes::NoMemory;
use section_stream::PacketDemux;
use shell_streams::{PacketListener, hear_each};
use std::alloc::Global;

/// Who hears the packets of an input.
#[derive(Drop)]
pub(crate) struct Ear {
    /// It cuts the sections of the PID.
    pub(crate) demux: PacketDemux,
    /// It hears them.
    pub(crate) follower: Follower,
    pub(crate) front: Front,
}

impl Ear {
    /// One that hears the PID `pid`, 0 to 8,191, and heard nothing yet.
    pub(crate) fn new(alloc: Global, pid: u16) -> Result<Ear, NoMemory>
        ensures { IfOk result (λ ear. HasHeard pid ear []) }
    {
        Ok(Ear {
            demux: PacketDemux::new(alloc, pid)?,
            follower: Follower::new(alloc)?,
            front: Front::new(alloc)?,
        })
    }
}

impl PacketListener for Ear {
    ghost use Rattle.reception_report.specs.Inner.Hearing.{HasHeard};

    ghost heard = { λ start now packets. HasHeard start.demux.pid now packets };

    fn hear(&mut self, packet: &[u8; PACKET_LENGTH]) -> Result<(), NoMemory> {
        let sections = self.demux.feed(packet)?;
        hear_each(&sections, &mut self.follower)?;
        self.front.take(packet)?;
        Ok(())
    }
}
