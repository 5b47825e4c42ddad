//! Reports of rehearsals.
ghost use Rattle.std.specs.Prelude.{◌≡◌};

use crate::texts::{on_one_line, spelled};
use cycle_planner::{GREATEST_ID, Weigh};
use oc_bytes::MemSink;
use rehearsal::rehearse;
use session_script::read_parts;
use shell_streams::{Buffered, OutputFault, room};
use std::alloc::Global;
use test_rows::{Row, RowFault};

/// What a call of a rehearsal answers.
pub(crate) fn call(alloc: Global, row: &Row<'_>) -> Result<Option<String>, RowFault> {
    match row.name() {
        "rehearse" => Ok(Some(report(alloc, row)?)),
        _ => Ok(None),
    }
}

/// `rehearse TEXT`: the report of the script, where each module is sent once a cycle.
fn report(alloc: Global, row: &Row<'_>) -> Result<String, RowFault> {
    let text = spelled(alloc, row);
    let Ok(parts) = read_parts(alloc, text.as_bytes()) else {
        return Err(RowFault::BadRow);
    };
    let call = Box::new(
        alloc,
        |_id: u16| -> u8
            ensures { result ≡ 1 }
        { 1 },
    );
    let Ok(call) = call else {
        return Err(RowFault::NoMemory);
    };
    let weigh = Weigh::new([1; GREATEST_ID], call);
    let mut sink = MemSink::new(alloc, Vec::new(alloc), 1000);
    let mut room = room(alloc)?;
    let mut out = Buffered::new(&mut sink, &mut room);
    match rehearse(alloc, parts, weigh, &mut out) {
        Ok(()) => written(alloc, sink.written()),
        Err(OutputFault::Failed) => Ok(String::from_str(alloc, "failed")?),
        Err(OutputFault::NoMemory) => Err(RowFault::NoMemory),
    }
}

fn written(alloc: Global, bytes: &[u8]) -> Result<String, RowFault> {
    match str::from_utf8(bytes) {
        Ok(text) => Ok(on_one_line(alloc, text)?),
        Err(_) => Ok(String::from_str(alloc, "no text")?),
    }
}
