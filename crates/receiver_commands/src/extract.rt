ghost use Rattle.std.specs.Prelude.{◌≡◌};
ghost use Rattle.shell_streams.specs.Sending.{IsInTime, IsFlushed};
ghost use Rattle.receiver_commands.specs.Over.{over, out_over};
ghost use Rattle.receiver_commands.specs.Extract.{Extracts};
ghost use Rattle.receiver_commands.specs.Inner.Extract.{extract_status};

use crate::receiver::receive;
use crate::status::Status;
use folder_extract::Extracted;
use folder_store::Store;
use oc_bytes::Source;
use shell_streams::{Carrier, Output, OutputFault};
use std::alloc::Global;

/// Extracts the files and folders on the PID `pid`, 0 to 8,190, into the folder `folder`, which it
/// makes, and then writes a line of each path of `list`. The whole input is read before anything is
/// made. A store's path is `folder` and the path's names.
pub fn extract<S: Source, O: Output, T: Store>(
    alloc: Global,
    pid: u16,
    folder: &str,
    source: &mut S,
    out: &mut O,
    store: &mut T,
) -> Status
    requires { IsFlushed (O.state out.old) }
    ensures extracts { Extracts pid folder.now result (over S.left S.faults source.old source.new)
        (out_over O.state out.old out.new) (over T.tree T.faults store.old store.new) }
    ensures same { (O.state out.new).name ≡ (O.state out.old).name }
    ensures in_time { IsInTime (O.state out.old) (O.state out.new) }
{
    match receive(alloc, Carrier::Packets(pid), source) {
        Ok(shot) => status_of(folder_extract::extract(alloc, &shot, folder, store, out)),
        Err(fault) => Status::from(fault),
    }
}

fn status_of(ended: Result<Extracted, OutputFault>) -> Status
    ensures { result ≡ extract_status ended }
{
    match ended {
        Ok(Extracted::All) => Status::Done,
        Ok(Extracted::NotAll) => Status::NotAll,
        Ok(Extracted::Failed) => Status::FolderFault,
        Err(fault) => Status::from(fault),
    }
}
