ghost use Rattle.std.specs.Prelude.{◌≡◌};
ghost use Rattle.shell_streams.specs.Sending.{IsInTime, IsFlushed};
ghost use Rattle.receiver_commands.specs.Over.{over, out_over};
ghost use Rattle.receiver_commands.specs.Open.{Answers, asks_paths, asks_all};
ghost use Rattle.receiver_commands.specs.Inner.Statuses.{answer_status};

use crate::answers::write_answers;
use crate::listing::write_list;
use crate::receiver::receive;
use crate::status::Status;
use oc_bytes::Source;
use path_tree::Path;
use shell_streams::{Carrier, Output, OutputFault};
use std::alloc::Global;

/// Writes the answers to the paths, in order, of one receiver that heard the whole source.
/// `carrier` says how sections come; a PID there is 0 to 8,190. The whole input is read first.
pub fn open<S: Source, O: Output>(
    alloc: Global,
    carrier: Carrier,
    paths: &[Path],
    source: &mut S,
    out: &mut O,
) -> Status
    requires { IsFlushed (O.state out.old) }
    ensures answers { Answers carrier (asks_paths paths.now) result
        (over S.left S.faults source.old source.new) (out_over O.state out.old out.new) }
    ensures same { (O.state out.new).name ≡ (O.state out.old).name }
    ensures in_time { IsInTime (O.state out.old) (O.state out.new) }
{
    match receive(alloc, carrier, source) {
        Ok(shot) => status_of(write_answers(alloc, &*shot, paths, out)),
        Err(fault) => Status::from(fault),
    }
}

/// Writes a line of each path of [`path_listing::listed_paths`] of one receiver that heard the
/// whole source, and `more` if more than [`path_listing::MOST_LISTED`] follow. `carrier` is as in
/// [`open`]; `NotAll` also comes after `more`.
pub fn list<S: Source, O: Output>(
    alloc: Global,
    carrier: Carrier,
    source: &mut S,
    out: &mut O,
) -> Status
    requires { IsFlushed (O.state out.old) }
    ensures answers { Answers carrier asks_all result (over S.left S.faults source.old source.new)
        (out_over O.state out.old out.new) }
    ensures same { (O.state out.new).name ≡ (O.state out.old).name }
    ensures in_time { IsInTime (O.state out.old) (O.state out.new) }
{
    match receive(alloc, carrier, source) {
        Ok(shot) => status_of(write_list(alloc, &shot, out)),
        Err(fault) => Status::from(fault),
    }
}

/// Each answer is found or not.
pub(crate) fn status_of(written: Result<bool, OutputFault>) -> Status
    ensures { result ≡ answer_status written }
{
    match written {
        Ok(true) => Status::Done,
        Ok(false) => Status::NotAll,
        Err(fault) => Status::from(fault),
    }
}
