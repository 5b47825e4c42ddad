ghost use Rattle.std.specs.Prelude.{◌≡◌};
ghost use Rattle.shell_streams.specs.Sending.{IsInTime, IsFlushed};
ghost use Rattle.receiver_commands.specs.Over.{over, out_over};
ghost use Rattle.receiver_commands.specs.Inspect.{Inspects};
ghost use Rattle.receiver_commands.specs.Inner.Inspect.{report_status};

use crate::status::Status;
use oc_bytes::Source;
use reception_report::{SyncPlace, receive_packets, write_report};
use shell_streams::{Output, OutputFault};
use std::alloc::Global;

/// Writes a report on all packets: what a receiver of the PID `pid`, 0 to 8,190, holds after them,
/// and what it passed over. The whole input is read before anything is written.
pub fn inspect<S: Source, O: Output>(alloc: Global, pid: u16, source: &mut S, out: &mut O) -> Status
    requires { IsFlushed (O.state out.old) }
    ensures inspects { Inspects pid result (over S.left S.faults source.old source.new)
        (out_over O.state out.old out.new) }
    ensures same { (O.state out.new).name ≡ (O.state out.old).name }
    ensures in_time { IsInTime (O.state out.old) (O.state out.new) }
{
    match receive_packets(alloc, pid, source) {
        Ok(reception) => status_of(reception.sync, write_report(alloc, &reception, out)),
        Err(fault) => Status::from(fault),
    }
}

/// `NotPackets` if the sync byte is elsewhere.
fn status_of(sync: Option<SyncPlace>, written: Result<(), OutputFault>) -> Status
    ensures { result ≡ report_status sync written }
{
    match (written, sync) {
        (Ok(()), None) => Status::Done,
        (Ok(()), Some(place)) => Status::NotPackets(place),
        (Err(fault), _) => Status::from(fault),
    }
}
