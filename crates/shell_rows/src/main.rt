//! What the shell's crates answer, row by row: scripts and what is wrong with them, the words of commands, the texts of answers and
//! refusals, the reports of rehearsals, and whole commands over input, output and folders in memory.
#![tactic(auto)]

mod commands;
mod ends;
mod folders;
mod notices;
mod reports;
mod scripts;
mod texts;
mod watchers;
mod weights;
mod words;

use commands::Commands;
use std::alloc::Global;
use std::io;
use test_rows::{Calls, Row, RowFault, answer_rows};

/// The crates of the shell, and the ends that the next command has.
#[derive(Drop)]
struct Shell {
    commands: Commands,
}

impl Calls for Shell {
    fn call(&mut self, alloc: Global, row: &Row<'_>) -> Result<String, RowFault> {
        if let Some(line) = scripts::call(alloc, row) {
            return line.done();
        }
        if let Some(line) = words::call(alloc, row) {
            return line.done();
        }
        if let Some(text) = reports::call(alloc, row)? {
            return Ok(text);
        }
        self.commands.call(alloc, row)
    }
}

fn main(rt: HostRuntime) -> io::Result<()> {
    let mut shell = Shell {
        commands: Commands::new(rt.alloc()),
    };
    answer_rows(&rt, &mut shell)
}
