ghost use Rattle.std.specs.Prelude.{◌≡◌, OnOk};
ghost use Rattle.shell_streams.specs.Sending.{IsInTime, Puts, IsFlushed};
ghost use Rattle.shell_words.specs.Complaints.{complaint_line};
ghost use Rattle.receiver_commands.specs.Over.{out_over};
ghost use Rattle.receiver_commands.specs.Why.{SaysWhy};
ghost use Rattle.receiver_commands.specs.Inner.Why.{why_status};

use crate::status::Status;
use shell_streams::{Output, OutputFault};
use shell_words::{Complaint, complaint_text};
use std::alloc::Global;

/// Writes one line on what is wrong with the words of a command line, or that they fit.
pub fn why<O: Output>(alloc: Global, complaint: Complaint, out: &mut O) -> Status
    requires { IsFlushed (O.state out.old) }
    ensures says { SaysWhy complaint result (out_over O.state out.old out.new) }
    ensures same { (O.state out.new).name ≡ (O.state out.old).name }
    ensures in_time { IsInTime (O.state out.old) (O.state out.new) }
{
    match write_complaint(alloc, complaint, out) {
        Ok(()) => status_of(complaint),
        Err(fault) => Status::from(fault),
    }
}

fn status_of(complaint: Complaint) -> Status
    ensures { result ≡ why_status complaint }
{
    match complaint {
        Complaint::Fits => Status::NotAll,
        _ => Status::Done,
    }
}

fn write_complaint<O: Output>(
    alloc: Global,
    complaint: Complaint,
    out: &mut O,
) -> Result<(), OutputFault>
    ensures puts { Puts result (O.state out.old) (O.state out.new) (complaint_line complaint) }
    ensures empty { OnOk result (IsFlushed (O.state out.new)) }
{
    let line = complaint_text(alloc, complaint)?;
    out.put(line.as_bytes())?;
    out.flush()
}
