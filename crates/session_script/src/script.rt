//! What a script says, in its parts and as one list of lines, and why a text is none.
ghost use Rattle.std.specs.Prelude.{◌≡◌, ◌++◌, ◌<◌, length, map, IfOk, OnOk, OnErr};
ghost use Rattle.session_script.specs.Scripts.{view, view_line, task_line, finale_line, script_of_parts};

use oc_bytes::{Blob, NoMemory};
use path_tree::Path;
use std::alloc::{AllocError, Global};
use std::fmt;
use thiserror::Error;
use ts_packet::Fate;

/// Why a line doesn't fit: the first cause from the left.
#[derive(Clone, Copy, Debug, PartialEq, Eq)]
pub enum LineCause {
    /// The first word is no keyword.
    Unknown,
    /// A second `start` or `settle`, or another line than `finale` after `settle` or a `finale`.
    Order,
    /// A word is no number, or out of range.
    BadNumber,
    /// A word is no path.
    BadPath,
    /// A word is neither `-` nor hexadecimal digits of one or more bytes.
    BadHex,
    /// A word is no fate, or makes more than 65,536.
    BadFate,
    /// A word is missing.
    Missing,
    /// A word follows the last one.
    Extra,
}

impl fmt::Display for LineCause {
    ghost use Rattle.session_script.specs.Scripts.{cause_text};
    ghost use Rattle.std.specs.Prelude.{Some};

    ghost output = { λ c. Some (cause_text c) };

    fn fmt<W: fmt::Write>(&self, f: &mut fmt::Formatter<W>) -> fmt::Result {
        f.write_str(match self {
            LineCause::Unknown => "unknown word",
            LineCause::Order => "out of order",
            LineCause::BadNumber => "bad number",
            LineCause::BadPath => "bad path",
            LineCause::BadHex => "bad hex",
            LineCause::BadFate => "bad fate",
            LineCause::Missing => "word missing",
            LineCause::Extra => "extra word",
        })
    }
}

impl std::error::Error for LineCause {}

/// Why a text gives no script.
#[derive(Clone, Copy, Debug, PartialEq, Eq, Error)]
pub enum ScriptFault {
    /// The first line that doesn't fit, from 1, at most the greatest `u32`, and its cause.
    #[error("line {0}: {1}")]
    BadLine(u32, LineCause),
    /// Memory ran out.
    #[error("out of memory")]
    NoMemory,
}

impl From<AllocError> for ScriptFault {
    ghost use Rattle.std.specs.Prelude.{◌≡◌};
    ghost use Rattle.session_script.specs.declared.script.ScriptFault.TheVariants.{NoMemory};

    ghost from_gives = { λ _ e. e ≡ NoMemory };

    fn from(_error: AllocError) -> ScriptFault {
        ScriptFault::NoMemory
    }
}

/// When a line is run.
#[derive(Clone, Copy, Debug, PartialEq, Eq)]
pub enum Stage {
    /// Above `start`, in written order on one thread.
    Before,
    /// Any other line but those of `After`.
    During,
    /// `settle` and finales.
    After,
}

/// What a line does, as [`Task`] says. A finale is an `open`.
#[derive(Drop)]
pub enum Action {
    Put(u32, Path, Blob),
    Fill(u32, Path, u32, u8),
    Remove(u32, Path),
    MakeFolder(u32, Path),
    RemoveFolder(u32, Path),
    Commit(u32),
    Draw(u32, Vec<Fate>),
    Open(u32, Path),
    /// Two draws of 1,048,576 sections without fates.
    Settle,
}

/// A line that does something.
#[derive(Drop)]
pub struct Line {
    /// Counted from 1 with lines that say nothing, at most the greatest `u32`.
    pub number: u32,
    pub stage: Stage,
    pub action: Action,
}

/// What a text says.
#[derive(Drop)]
pub struct Script {
    /// In the order of the first lines that name them.
    pub editors: Vec<u32>,
    /// As the editors.
    pub readers: Vec<u32>,
    /// In written order.
    pub lines: Vec<Line>,
}

/// What an actor does. Editors and readers are 1 to 64.
#[derive(Drop)]
pub enum Task {
    /// `put`: a file of these bytes.
    Put(u32, Path, Blob),
    /// `fill`: 0 to 16,777,217 bytes; byte i is FROM + 7i + i/256 modulo 256.
    Fill(u32, Path, u32, u8),
    /// `remove`: no file.
    Remove(u32, Path),
    /// `mkdir`: a kept folder.
    MakeFolder(u32, Path),
    /// `rmdir`: no kept folder.
    RemoveFolder(u32, Path),
    /// `commit`: the editor's edits since its last commit.
    Commit(u32),
    /// `draw`: 1 to 1,048,576 sections; packet i has fate i modulo their number, 0 to 65,536.
    /// Without fates all arrive.
    Draw(u32, Vec<Fate>),
    /// `open`: a reader opens a path.
    Open(u32, Path),
}

impl Task {
    ghost use Rattle.session_script.specs.Scripts.{view_action, act_of, editor_of, reader_of};

    /// The editor whose task it is, if any.
    pub fn editor(&self) -> Option<u32>
        ensures { result ≡ editor_of (act_of self.now) }
    {
        match self {
            Task::Put(editor, ..)
            | Task::Fill(editor, ..)
            | Task::Remove(editor, _)
            | Task::MakeFolder(editor, _)
            | Task::RemoveFolder(editor, _)
            | Task::Commit(editor) => Some(*editor),
            Task::Draw(..) | Task::Open(..) => None,
        }
    }

    /// The reader whose task it is, if any.
    pub fn reader(&self) -> Option<u32>
        ensures { result ≡ reader_of (act_of self.now) }
    {
        match self {
            Task::Open(reader, _) => Some(*reader),
            _ => None,
        }
    }

    fn into_action(self) -> Action
        ensures { view_action result ≡ act_of self }
    {
        match self {
            Task::Put(editor, path, content) => Action::Put(editor, path, content),
            Task::Fill(editor, path, size, from) => Action::Fill(editor, path, size, from),
            Task::Remove(editor, path) => Action::Remove(editor, path),
            Task::MakeFolder(editor, path) => Action::MakeFolder(editor, path),
            Task::RemoveFolder(editor, path) => Action::RemoveFolder(editor, path),
            Task::Commit(editor) => Action::Commit(editor),
            Task::Draw(asked, fates) => Action::Draw(asked, fates),
            Task::Open(reader, path) => Action::Open(reader, path),
        }
    }
}

/// A task, and its line's number, as [`Line`]'s.
#[derive(Drop)]
pub struct TaskLine {
    pub number: u32,
    pub task: Task,
}

/// An open after all else, and its line's number.
#[derive(Drop)]
pub struct Finale {
    pub number: u32,
    /// 1 to 64.
    pub reader: u32,
    pub path: Path,
}

/// What a script says, in its parts.
#[derive(Drop)]
pub struct Parts {
    /// In the order of the first lines that name them.
    pub editors: Vec<u32>,
    /// As the editors.
    pub readers: Vec<u32>,
    /// Above `start`, in written order; none without `start`.
    pub before: Vec<TaskLine>,
    /// Below `start`, in written order.
    pub during: Vec<TaskLine>,
    /// The line of `settle`, if any.
    pub settle: Option<u32>,
    /// In written order.
    pub finales: Vec<Finale>,
}

impl Parts {
    /// The same as one list, in written order. Without lines it takes no memory.
    #[tactic(auto, using(crate::proofs::Lists::line_count))]
    pub fn into_script(self, alloc: Global) -> Result<Script, NoMemory>
        ensures script { IfOk result (λ script. view script ≡ script_of_parts self) }
        ensures memory { OnErr result (0 < length (script_of_parts self).lines) }
    {
        let mut lines = Vec::new(alloc);
        add_tasks(&mut lines, Stage::Before, self.before)?;
        add_tasks(&mut lines, Stage::During, self.during)?;
        if let Some(number) = self.settle {
            lines.push(Line {
                number,
                stage: Stage::After,
                action: Action::Settle,
            })?;
        }
        add_finales(&mut lines, self.finales)?;
        Ok(Script {
            editors: self.editors,
            readers: self.readers,
            lines,
        })
    }
}

fn add_tasks(lines: &mut Vec<Line>, stage: Stage, tasks: Vec<TaskLine>) -> Result<(), NoMemory>
    ensures added { OnOk result
        (map view_line lines.new.items
        ≡ map view_line lines.old.items ++ map (task_line stage) tasks.items) }
    ensures memory { OnErr result (0 < length tasks.items) }
{
    for line in tasks {
        lines.push(Line {
            number: line.number,
            stage,
            action: line.task.into_action(),
        })?;
    }
    Ok(())
}

fn add_finales(lines: &mut Vec<Line>, finales: Vec<Finale>) -> Result<(), NoMemory>
    ensures added { OnOk result
        (map view_line lines.new.items
        ≡ map view_line lines.old.items ++ map finale_line finales.items) }
    ensures memory { OnErr result (0 < length finales.items) }
{
    for last in finales {
        lines.push(Line {
            number: last.number,
            stage: Stage::After,
            action: Action::Open(last.reader, last.path),
        })?;
    }
    Ok(())
}
