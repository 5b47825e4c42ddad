use crate::bytes::Named;
use crate::row::{Row, RowFault};
use std::alloc::Global;
use std::io;

/// What answers the calls of rows, one after another.
pub trait Calls {
    /// What the call of a row answers, as one line without its end.
    fn call(&mut self, alloc: Global, row: &Row<'_>) -> Result<String, RowFault>;
}

/// Reads the rows of standard input, and writes a line for each: what its call answers, or the fault.
pub fn answer_rows<C: Calls>(rt: &HostRuntime, calls: &mut C) -> io::Result<()> {
    let mut named = Named::new(rt.alloc());
    for line in rt.lines(rt.alloc()) {
        let line = line?;
        if line.is_empty() || line.starts_with('#') {
            println!(rt; "{line}")?;
        } else {
            answer(rt, calls, &mut named, line.as_str())?;
        }
    }
    Ok(())
}

/// Writes the line of one row.
fn answer<C: Calls>(
    rt: &HostRuntime,
    calls: &mut C,
    named: &mut Named,
    line: &str,
) -> io::Result<()> {
    let answered = match name(rt.alloc(), named, line) {
        Ok(true) => String::from_str(rt.alloc(), line).map_err(|_| RowFault::NoMemory),
        Ok(false) => called(rt.alloc(), calls, named, line),
        Err(fault) => Err(fault),
    };
    match answered {
        Ok(text) => println!(rt; "{text}"),
        Err(fault) => println!(rt; "{fault}"),
    }
}

/// Gives bytes the name that a row `let NAME BYTES` says, and tells whether it is such a row.
fn name(alloc: Global, named: &mut Named, line: &str) -> Result<bool, RowFault> {
    let row = Row::new(alloc, named, line)?;
    if row.name() != "let" {
        return Ok(false);
    }
    let text = String::from_str(alloc, row.word(0)?)?;
    let bytes = row.bytes(alloc, 1)?;
    drop(row);
    named.put(alloc, text.as_str(), bytes)?;
    Ok(true)
}

fn called<C: Calls>(
    alloc: Global,
    calls: &mut C,
    named: &Named,
    line: &str,
) -> Result<String, RowFault> {
    let row = Row::new(alloc, named, line)?;
    let answer = calls.call(alloc, &row);
    row.answered(answer)
}
