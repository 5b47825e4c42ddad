//! A script, read line by line.
ghost use Rattle.std.specs.Prelude.{◌≡◌, ◌<◌, true, Ok, Err, [], List, length, IfOk, OnOk, OnErr, IsErrOf};
ghost use Rattle.oc_bytes.specs.Outcome.{Gives, MakesList};
ghost use Rattle.session_script.specs.Scripts.{cause, script_of_parts};
ghost use Rattle.session_script.specs.Scripts as scripts;
ghost use Rattle.session_script.specs.Grammar.{meaning_of};
ghost use Rattle.session_script.specs.Inner.{with_actor};
ghost use Rattle.session_script.specs.Memory.{AsksForMemory};
ghost use Rattle.session_script.specs.Ranges.{AreListed, IsInRanges};

use crate::line::{Part, Said, read_line};
use crate::script::{Finale, Parts, Script, ScriptFault, TaskLine};
use crate::words::LineFault;
use indexmap::IndexSet;
use oc_bytes::NoMemory;
use std::alloc::Global;
use std::mem;

/// What the lines so far say.
#[derive(Drop)]
struct Reading {
    alloc: Global,
    /// At most the greatest `u32`.
    number: u32,
    /// The part that is reached.
    part: Part,
    /// In the order of the first lines that name them.
    editors: IndexSet<u32>,
    readers: IndexSet<u32>,
    before: Vec<TaskLine>,
    during: Vec<TaskLine>,
    settle: Option<u32>,
    finales: Vec<Finale>,
}

impl Reading {
    ghost use Rattle.session_script.specs.Grammar.{Saying};
    ghost use Rattle.session_script.specs.Memory.{line_asks, is_kept};
    ghost use Rattle.session_script.specs.Inner.{view_said, Suits, StandsFor, Adds, IsShaped, Reads, script_read, SaysSomething};

    fn new(alloc: Global) -> Reading
        ensures { StandsFor result [] }
    {
        Reading {
            alloc,
            number: 0,
            part: Part::Opening,
            editors: IndexSet::new(alloc),
            readers: IndexSet::new(alloc),
            before: Vec::new(alloc),
            during: Vec::new(alloc),
            settle: None,
            finales: Vec::new(alloc),
        }
    }

    /// After a refusal it is of no use.
    fn read(&mut self, line: &[u8]) -> Result<(), ScriptFault>
        ensures says { (above : List Saying)
            → StandsFor self.old above
            → Reads result above line.now self.new }
        ensures memory { result ≡ Err ScriptFault.NoMemory
            → line_asks self.old.part line.now ≡ true }
    {
        let number = self.number.saturating_add(1);
        match read_line(self.alloc, self.part, line) {
            Ok(said) => {
                self.number = number;
                self.add(said)?;
                Ok(())
            }
            Err(LineFault::Bad(cause)) => Err(ScriptFault::BadLine(number, cause)),
            Err(LineFault::NoMemory) => Err(ScriptFault::NoMemory),
        }
    }

    fn add(&mut self, said: Said) -> Result<(), NoMemory>
        requires { Suits self.old.part (view_said said) }
        ensures adds { OnOk result (IsShaped self.old → Adds self.old self.new (view_said said)) }
        ensures memory { OnErr result (is_kept (Ok (view_said said)) ≡ true) }
    {
        let number = self.number;
        match said {
            Said::Passed => Ok(()),
            Said::Starts => {
                self.part = Part::Running;
                self.before = mem::replace(&mut self.during, Vec::new(self.alloc));
                Ok(())
            }
            Said::Does(task) => {
                mention(&mut self.editors, task.editor())?;
                mention(&mut self.readers, task.reader())?;
                self.during.push(TaskLine { number, task })?;
                Ok(())
            }
            Said::Settles => {
                self.part = Part::Closing;
                self.settle = Some(number);
                Ok(())
            }
            Said::Finale(reader, path) => {
                self.part = Part::Closing;
                mention(&mut self.readers, Some(reader))?;
                self.finales.push(Finale {
                    number,
                    reader,
                    path,
                })?;
                Ok(())
            }
        }
    }

    fn finish(self) -> Result<Parts, NoMemory>
        ensures script { IfOk result (λ parts. script_of_parts parts ≡ script_read self) }
        ensures memory { OnErr result (SaysSomething (script_read self)) }
    {
        Ok(Parts {
            editors: listed(self.alloc, &self.editors)?,
            readers: listed(self.alloc, &self.readers)?,
            before: self.before,
            during: self.during,
            settle: self.settle,
            finales: self.finales,
        })
    }
}

/// Puts a new actor last.
fn mention(actors: &mut IndexSet<u32>, actor: Option<u32>) -> Result<(), NoMemory>
    ensures { OnOk result (actors.new.keys ≡ with_actor actors.old.keys actor) }
{
    if let Some(actor) = actor {
        actors.insert(actor)?;
    }
    Ok(())
}

fn listed(alloc: Global, actors: &IndexSet<u32>) -> Result<Vec<u32>, NoMemory>
    ensures list { MakesList result actors.now.keys }
    ensures memory { OnErr result (0 < length actors.now.keys) }
{
    let mut list = Vec::with_capacity(alloc, actors.len())?;
    list.extend_from_slice(actors.as_slice())?;
    Ok(list)
}

/// Reads a script in its parts, or names its first line that doesn't fit.
///
/// Line feeds end lines. Lines that are empty or begin with `#` say nothing, and are counted. Words
/// have single spaces between them. EDITOR and READER are 1 to 64. Numbers are decimal digits
/// without sign or leading zeros. PATH is as `Path::parse` takes it.
///
/// | Line | Says |
/// |---|---|
/// | `put EDITOR PATH HEX` | an edit: a file; two hexadecimal digits a byte, or `-` |
/// | `fill EDITOR PATH LENGTH FROM` | an edit: 0 to 16,777,217 bytes made from FROM, 0 to 255 |
/// | `remove EDITOR PATH` | an edit: no file |
/// | `mkdir EDITOR PATH` | an edit: a kept folder |
/// | `rmdir EDITOR PATH` | an edit: no kept folder |
/// | `commit EDITOR` | the editor's edits since its last commit |
/// | `draw N FATE..` | 1 to 1,048,576 sections; at most 65,536 packets have a fate |
/// | `open READER PATH` | a reader opens a path |
/// | `start` | the lines above are the first stage; at most once |
/// | `settle` | two draws after all others; at most once |
/// | `finale READER PATH` | an open after all that |
///
/// `kCOUNT` keeps and `dCOUNT` loses 1 to 65,536 packets; `fBIT` inverts bit 0 to 1,503 of one.
/// Only finales may follow `settle` or a finale. A line's first cause is its keyword, its part, and
/// then word by word.
///
/// A draw of 14 bytes can ask for 262,144 bytes of memory, 4 for each fate. Filled files aren't
/// made here.
pub fn read_parts(alloc: Global, text: &[u8]) -> Result<Parts, ScriptFault>
    ensures grammar { Gives script_of_parts cause result (meaning_of text.now) }
    ensures ranges { IfOk result (λ parts. IsInRanges (script_of_parts parts)) }
    ensures listed { IfOk result (λ parts. AreListed (script_of_parts parts)) }
    ensures asks { IfOk result (λ parts.
        0 < length (script_of_parts parts).lines → AsksForMemory text.now) }
    ensures memory { IsErrOf result ScriptFault.NoMemory → AsksForMemory text.now }
{
    let mut reading = Reading::new(alloc);
    for line in text.split(|byte| *byte == b'\n') {
        reading.read(line)?;
    }
    Ok(reading.finish()?)
}

/// As [`read_parts`], in one list of lines.
pub fn parse(alloc: Global, text: &[u8]) -> Result<Script, ScriptFault>
    ensures grammar { Gives scripts.view cause result (meaning_of text.now) }
    ensures ranges { IfOk result (λ script. IsInRanges (scripts.view script)) }
    ensures memory { IsErrOf result ScriptFault.NoMemory → AsksForMemory text.now }
{
    let parts = read_parts(alloc, text)?;
    Ok(parts.into_script(alloc)?)
}
