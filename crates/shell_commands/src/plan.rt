ghost use Rattle.std.specs.Prelude.{◌≡◌, ◌≤◌};
ghost use Rattle.shell_streams.specs.Sending.{IsInTime, IsFlushed};
ghost use Rattle.receiver_commands.specs.Over.{over, out_over};
ghost use Rattle.shell_commands.specs.Plan.{TellsPlan};
ghost use Rattle.shell_commands.specs.Inner.Plan.{plan_status};

use cycle_planner::Weigh;
use folder_store::Folders;
use publication_plan::PlanEnd;
use receiver_commands::Status;
use shell_streams::{Output, OutputFault};
use std::alloc::Global;

/// Tells what [`publish`](crate::publish::publish) would send: a folder's objects and modules, and
/// how long a cycle is at `bitrate` bits a second, at least 1; or why it can't.
pub fn plan<O: Output, F: Folders>(
    alloc: Global,
    folder: &str,
    carousel: u32,
    bitrate: u32,
    weigh: &Weigh,
    out: &mut O,
    folders: &mut F,
) -> Status
    requires pending { IsFlushed (O.state out.old) }
    requires rate { 1 ≤ bitrate }
    ensures tells { TellsPlan folder.now carousel weigh.now.weights bitrate result
        (out_over O.state out.old out.new) (over F.tree F.faults folders.old folders.new)
        (F.refused folders.new) }
    ensures same { (O.state out.new).name ≡ (O.state out.old).name }
    ensures in_time { IsInTime (O.state out.old) (O.state out.new) }
{
    let planned = publication_plan::plan(alloc, folder, carousel, bitrate, weigh, out, folders);
    status_of(planned)
}

fn status_of(planned: Result<PlanEnd, OutputFault>) -> Status
    ensures { result ≡ plan_status planned }
{
    match planned {
        Ok(PlanEnd::Published) => Status::Done,
        Ok(PlanEnd::Refused) => Status::NotAll,
        Ok(PlanEnd::Unreadable) => Status::FolderFault,
        Err(fault) => Status::from(fault),
    }
}
