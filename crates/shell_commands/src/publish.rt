ghost use Rattle.std.specs.Prelude.{◌≡◌, ◌<◌, map, IfOk, IfErr, OnOk};
ghost use Rattle.std.specs.List.{All};
ghost use Rattle.std.specs.Arc.{arc_value};
ghost use Rattle.generation.specs.Layouts.{section_of, cycle_items, cycle_sections};
ghost use Rattle.section_stream.specs.Packing.{IsSectionLike};
ghost use Rattle.carousel_world.specs.Publishing.{repeat_list};
ghost use Rattle.shell_streams.specs.Sending.{Puts, IsInTime, IsFlushed};
ghost use Rattle.receiver_commands.specs.Over.{over, out_over};
ghost use Rattle.shell_commands.specs.Publish.{Publishes};
ghost use Rattle.shell_commands.specs.Inner.Cycles.{IsOfFolder, Refused, group_bytes};

use carousel_profile::CAROUSEL_PID;
use carousel_world::publications_can_be_packed;
use cycle_planner::Weigh;
use cycle_sender::Sender;
use folder_store::{Folders, edits_make_the_files, read_tree};
use generation::{Generation, generations_are_of_the_lists};
use generation_catalogue::Journal;
use path_tree::Edits;
use receiver_commands::Status;
use shell_streams::{Output, OutputFault};
use std::alloc::Global;
use std::sync::Arc;

/// The PID of a carousel, if the command names none.
pub const PID: u16 = CAROUSEL_PID;

/// Who commits the folder; nobody asks.
const EDITOR: u32 = 1;

/// Publishes a folder: one commit of it makes generation 1, which is written as packets (ISO/IEC
/// 13818-1, 2.4.3) in `cycles` whole cycles, 1 to 1,000, as one group of sections. Continuity
/// counters begin at 0.
///
/// `pid` is 0 to 8,191, `folder` a path text, and `carousel` any 32-bit id. Nothing is written if
/// the folder can't be read or its tree is refused.
pub fn publish<O: Output, F: Folders>(
    alloc: Global,
    pid: u16,
    folder: &str,
    carousel: u32,
    cycles: u32,
    weigh: Weigh,
    out: &mut O,
    folders: &mut F,
) -> Status
    requires pending { IsFlushed (O.state out.old) }
    requires in_range { pid < 8192 }
    ensures publishes { Publishes pid folder.now carousel weigh.weights cycles result
        (out_over O.state out.old out.new) (over F.tree F.faults folders.old folders.new) }
    ensures same { (O.state out.new).name ≡ (O.state out.old).name }
    ensures in_time { IsInTime (O.state out.old) (O.state out.new) }
{
    generations_are_of_the_lists();
    publications_can_be_packed();
    match first_generation(alloc, folder, carousel, &weigh, folders) {
        Ok(generation) => match send(alloc, pid, &generation, &weigh, cycles, out) {
            Ok(()) => Status::Done,
            Err(fault) => Status::from(fault),
        },
        Err(status) => status,
    }
}

/// Generation 1, made of the folder by one commit.
pub fn first_generation<F: Folders>(
    alloc: Global,
    folder: &str,
    carousel: u32,
    weigh: &Weigh,
    folders: &mut F,
) -> Result<Arc<Generation>, Status>
    ensures made { IfOk result (λ g.
        IsOfFolder folder.now carousel (F.tree folders.old) (arc_value g)) }
    ensures refused { IfErr result
        (Refused folder.now carousel (over F.tree F.faults folders.old folders.new)) }
{
    edits_make_the_files();
    let edits = read_tree(alloc, folders, folder)?;
    let edits = Edits::new(edits);
    let mut journal = Journal::new(alloc, carousel, weigh.kept())?;
    journal.commit_edits(EDITOR, edits)?;
    // Only for what it proves: the commit's tree can be published.
    let _entries = journal.entries();
    let generation = Arc::try_clone(journal.current())?;
    Ok(generation)
}

/// All cycles are one group.
fn send<O: Output>(
    alloc: Global,
    pid: u16,
    generation: &Generation,
    weigh: &Weigh,
    cycles: u32,
    out: &mut O,
) -> Result<(), OutputFault>
    requires in_range { pid < 8192 }
    requires like { All IsSectionLike (cycle_sections weigh.now.weights generation.now) }
    ensures puts { Puts result (O.state out.old) (O.state out.new)
        (group_bytes pid
        (map (section_of generation.now)
        (repeat_list cycles (cycle_items weigh.now.weights generation.now)))) }
    ensures empty { OnOk result (IsFlushed (O.state out.new)) }
{
    let mut sender = Sender::new(alloc, pid);
    for _ in 0..cycles {
        sender.send_cycle(generation, weigh, out)?;
    }
    sender.finish(out)?;
    out.flush()
}
