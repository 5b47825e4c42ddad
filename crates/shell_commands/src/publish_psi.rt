ghost use Rattle.std.specs.Prelude.{◌≡◌, OnOk};
ghost use Rattle.std.specs.List.{All, concat};
ghost use Rattle.generation.specs.Layouts.{cycle_sections};
ghost use Rattle.section_stream.specs.Packing.{IsSectionLike};
ghost use Rattle.psi_tables.specs.Written.{announcer_packets, after_announcing};
ghost use Rattle.shell_streams.specs.Sending.{Puts, IsInTime, IsFlushed};
ghost use Rattle.receiver_commands.specs.Over.{over, out_over};
ghost use Rattle.shell_commands.specs.Announced.{cycles_sent, senders_start};
ghost use Rattle.shell_commands.specs.PublishPsi.{PublishesPsi};

use crate::publish::{PID, first_generation};
use carousel_profile::PACKET_LENGTH;
use carousel_world::publications_can_be_packed;
use cycle_planner::Weigh;
use cycle_sender::{Sender, put_packets};
use folder_store::Folders;
use generation::{Generation, generations_are_of_the_lists};
use psi_tables::Announcer;
use receiver_commands::Status;
use shell_streams::{Output, OutputFault};
use std::alloc::Global;

/// Publishes a folder as `publish` does, with the PAT on PID 0 and the map table of program 1 on
/// PID 32 before each cycle (ISO/IEC 13818-1, 2.4.4). Each cycle is a group of its own, and each
/// PID has counters of its own.
pub fn publish_psi<O: Output, F: Folders>(
    alloc: Global,
    folder: &str,
    carousel: u32,
    cycles: u32,
    weigh: Weigh,
    out: &mut O,
    folders: &mut F,
) -> Status
    requires { IsFlushed (O.state out.old) }
    ensures publishes { PublishesPsi folder.now carousel weigh.weights cycles result
        (out_over O.state out.old out.new) (over F.tree F.faults folders.old folders.new) }
    ensures same { (O.state out.new).name ≡ (O.state out.old).name }
    ensures in_time { IsInTime (O.state out.old) (O.state out.new) }
{
    generations_are_of_the_lists();
    publications_can_be_packed();
    match first_generation(alloc, folder, carousel, &weigh, folders) {
        Ok(generation) => match send_announced(alloc, &generation, &weigh, carousel, cycles, out) {
            Ok(()) => Status::Done,
            Err(fault) => Status::from(fault),
        },
        Err(status) => status,
    }
}

/// Each cycle comes after the tables.
fn send_announced<O: Output>(
    alloc: Global,
    generation: &Generation,
    weigh: &Weigh,
    carousel: u32,
    cycles: u32,
    out: &mut O,
) -> Result<(), OutputFault>
    requires { All IsSectionLike (cycle_sections weigh.now.weights generation.now) }
    ensures puts { Puts result (O.state out.old) (O.state out.new)
        (concat
        (cycles_sent (cycle_sections weigh.now.weights generation.now) cycles
        (senders_start carousel))) }
    ensures empty { OnOk result (IsFlushed (O.state out.new)) }
{
    let mut announcer = Announcer::new(alloc, carousel)?;
    let mut sender = Sender::new(alloc, PID);
    for _ in 0..cycles {
        announce(&mut announcer, &mut sender.packets, out)?;
        sender.send_group(generation, weigh, out)?;
    }
    out.flush()
}

/// Sends the tables once. `room` is for their packets.
fn announce<O: Output>(
    announcer: &mut Announcer,
    room: &mut Vec<[u8; PACKET_LENGTH]>,
    out: &mut O,
) -> Result<(), OutputFault>
    ensures puts { Puts result (O.state out.old) (O.state out.new)
        (concat (announcer_packets announcer.old)) }
    ensures counters { OnOk result (announcer.new ≡ after_announcing announcer.old) }
{
    room.clear();
    announcer.packets(room)?;
    put_packets(room, out)
}
