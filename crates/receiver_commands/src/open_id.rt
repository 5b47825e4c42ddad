ghost use Rattle.std.specs.Prelude.{◌≡◌, ◌++◌, ◌∷◌, [], List, Some, None, map, OnOk};
ghost use Rattle.std.specs.Arc.{arc_value};
ghost use Rattle.path_resolver.specs.Shots.{held_of};
ghost use Rattle.section_stream.specs.Cuts.{Bytes};
ghost use Rattle.tuner_core.specs.Heard.{as_heard};
ghost use Rattle.tuner_core.specs.LookBack.{held_after};
ghost use Rattle.shell_streams.specs.Carriers.{Hears};
ghost use Rattle.shell_streams.specs.Sending.{IsInTime, IsFlushed};
ghost use Rattle.receiver_commands.specs.Over.{over, out_over};
ghost use Rattle.receiver_commands.specs.OpenId.{OpensId, sections_by_id};
ghost use Rattle.receiver_commands.specs.Inner.Seeking.{HasHeard};

use crate::answers::write_answers;
use crate::open::status_of;
use crate::receiver::Receiver;
use crate::status::Status;
use carousel_profile::PACKET_LENGTH;
use oc_bytes::{NoMemory, Source};
use path_resolver::Shot;
use path_tree::Path;
use psi_tables::{Find, Finder};
use section_stream::PacketDemux;
use shell_streams::{InputFault, Output, PacketListener, hear_all_packets, hear_each};
use std::alloc::Global;
use std::sync::Arc;
use tuner_core::Tuner;

/// It seeks the PID of its carousel first.
#[derive(Drop)]
struct Seeker {
    alloc: Global,
    finder: Finder,
    /// None until the carousel is found.
    stream: Option<PacketDemux>,
    receiver: Receiver,
}

impl PacketListener for Seeker {
    ghost use Rattle.receiver_commands.specs.Inner.Seeking.{HasHeard};

    ghost heard = { λ start now packets. HasHeard start.finder.directory.carousel now packets };

    fn hear(&mut self, packet: &[u8; PACKET_LENGTH]) -> Result<(), NoMemory> {
        match &mut self.stream {
            Some(stream) => {
                let sections = stream.feed(packet)?;
                hear_each(&sections, &mut self.receiver)
            }
            None => self.seek(packet),
        }
    }
}

impl Seeker {
    fn seek(&mut self, packet: &[u8; PACKET_LENGTH]) -> Result<(), NoMemory>
        requires { self.old.stream ≡ None }
        ensures { OnOk result ((packets : List Bytes)
            → HasHeard self.old.finder.directory.carousel self.old packets
            → HasHeard self.old.finder.directory.carousel self.new (packets ++ packet.now ∷ [])) }
    {
        self.finder.feed(packet)?;
        if let Find::At(pid) = self.finder.find() {
            let stream = PacketDemux::new(self.alloc, pid)?;
            self.stream = Some(stream);
        }
        Ok(())
    }
}

/// Writes the answers to the paths by the carousel's id, any 32-bit number: those of `open` after
/// the packet at which `find` first gives a PID. Without a PID each is `no-carousel`. The whole
/// input is read first, once.
pub fn open_id<S: Source, O: Output>(
    alloc: Global,
    carousel: u32,
    paths: &[Path],
    source: &mut S,
    out: &mut O,
) -> Status
    requires { IsFlushed (O.state out.old) }
    ensures opens { OpensId carousel paths.now result (over S.left S.faults source.old source.new)
        (out_over O.state out.old out.new) }
    ensures same { (O.state out.new).name ≡ (O.state out.old).name }
    ensures in_time { IsInTime (O.state out.old) (O.state out.new) }
{
    match receive_by_id(alloc, carousel, source) {
        Ok(shot) => status_of(write_answers(alloc, &*shot, paths, out)),
        Err(fault) => Status::from(fault),
    }
}

fn receive_by_id<S: Source>(
    alloc: Global,
    carousel: u32,
    source: &mut S,
) -> Result<Arc<Shot>, InputFault>
    ensures { Hears (sections_by_id carousel)
        (λ shot sections. held_of (arc_value shot) ≡ held_after (map as_heard sections)) result
        (S.left source.old) (S.left source.new) (S.faults source.old) (S.faults source.new) }
{
    let finder = Finder::new(alloc, carousel)?;
    let mut seeker = Seeker {
        alloc,
        finder,
        stream: None,
        receiver: Receiver {
            tuner: Tuner::new(alloc),
        },
    };
    hear_all_packets(alloc, source, &mut seeker)?;
    Ok(seeker.receiver.tuner.shot(0, 0)?)
}
