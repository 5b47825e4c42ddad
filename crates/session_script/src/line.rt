//! What one line says.
ghost use Rattle.std.specs.Prelude.{◌≡◌, Err, true, is_ok, IfOk, bytes_eq};
ghost use Rattle.oc_bytes.specs.Outcome.{Gives};
ghost use Rattle.session_script.specs.Scripts.{act_of};
ghost use Rattle.session_script.specs.Ranges.{IsActor, IsInRange};
ghost use Rattle.session_script.specs.Grammar.{keyword_of, put_by, fill_by, commit_by, named_by, draw_by, said_by, line_by};
ghost use Rattle.session_script.specs.Grammar as grammar;
ghost use Rattle.session_script.specs.Memory.{reaches_path, asks_by, line_asks};
ghost use Rattle.session_script.specs.Inner.{words_left, line_cause, view_said, Suits, SaysInRange};

use crate::script::{LineCause, Task};
use crate::words::{LineFault, MOST_FILLED, Words, actor, content, fates, number, path};
use cycle_planner::MOST_DRAWN;
use path_tree::Path;
use std::alloc::Global;

/// The first word of a line.
#[derive(Clone, Copy)]
pub enum Keyword {
    Put,
    Fill,
    Remove,
    MakeFolder,
    RemoveFolder,
    Commit,
    Draw,
    Open,
    Start,
    Settle,
    Finale,
}

impl Keyword {
    /// Byte for byte.
    pub fn parse(word: &[u8]) -> Option<Keyword>
        ensures { result ≡ keyword_of word.now }
    {
        if is(word, "put") {
            Some(Keyword::Put)
        } else if is(word, "fill") {
            Some(Keyword::Fill)
        } else if is(word, "remove") {
            Some(Keyword::Remove)
        } else if is(word, "mkdir") {
            Some(Keyword::MakeFolder)
        } else if is(word, "rmdir") {
            Some(Keyword::RemoveFolder)
        } else if is(word, "commit") {
            Some(Keyword::Commit)
        } else if is(word, "draw") {
            Some(Keyword::Draw)
        } else if is(word, "open") {
            Some(Keyword::Open)
        } else if is(word, "start") {
            Some(Keyword::Start)
        } else if is(word, "settle") {
            Some(Keyword::Settle)
        } else if is(word, "finale") {
            Some(Keyword::Finale)
        } else {
            None
        }
    }
}

fn is(word: &[u8], text: &str) -> bool
    ensures { result ≡ bytes_eq word.now text.now }
{
    word == text.as_bytes()
}

/// The part of a script.
#[derive(Clone, Copy, Debug, PartialEq, Eq)]
pub enum Part {
    /// Above any `start`, `settle` and `finale`.
    Opening,
    /// Below `start`.
    Running,
    /// Below `settle` or a `finale`.
    Closing,
}

/// What a line says.
#[derive(Drop)]
pub enum Said {
    /// Nothing: it is empty or begins with `#`.
    Passed,
    /// Threads start below it.
    Starts,
    /// What an actor does.
    Does(Task),
    /// The session settles.
    Settles,
    /// This reader opens this path after all others.
    Finale(u32, Path),
}

/// `EDITOR PATH HEX`
fn put(alloc: Global, mut words: Words) -> Result<Task, LineFault>
    ensures gives { Gives act_of line_cause result (put_by (words_left words.entry)) }
    ensures range { IfOk result (λ task. IsInRange (act_of task)) }
    ensures memory { result ≡ Err LineFault.NoMemory
        → reaches_path (words_left words.entry) ≡ true }
{
    let editor = actor(&mut words)?;
    let path = path(alloc, &mut words)?;
    let content = content(alloc, &mut words)?;
    words.end()?;
    Ok(Task::Put(editor, path, content))
}

/// `EDITOR PATH LENGTH FROM`
fn fill(alloc: Global, mut words: Words) -> Result<Task, LineFault>
    ensures gives { Gives act_of line_cause result (fill_by (words_left words.entry)) }
    ensures range { IfOk result (λ task. IsInRange (act_of task)) }
    ensures memory { result ≡ Err LineFault.NoMemory
        → reaches_path (words_left words.entry) ≡ true }
{
    let editor = actor(&mut words)?;
    let path = path(alloc, &mut words)?;
    let size = number(&mut words, 0, MOST_FILLED)?;
    let from = number(&mut words, 0, 255)?;
    words.end()?;
    Ok(Task::Fill(editor, path, size, from as u8))
}

/// `EDITOR`
fn commit(mut words: Words) -> Result<Task, LineFault>
    ensures gives { Gives act_of line_cause result (commit_by (words_left words.entry)) }
    ensures range { IfOk result (λ task. IsInRange (act_of task)) }
    ensures plain { result ≡ Err LineFault.NoMemory → ⊥ }
{
    let editor = actor(&mut words)?;
    words.end()?;
    Ok(Task::Commit(editor))
}

/// `N FATE..`
fn draw(alloc: Global, mut words: Words) -> Result<Task, LineFault>
    ensures gives { Gives act_of line_cause result (draw_by (words_left words.entry)) }
    ensures range { IfOk result (λ task. IsInRange (act_of task)) }
    ensures memory { result ≡ Err LineFault.NoMemory
        → is_ok (draw_by (words_left words.entry)) ≡ true }
{
    let asked = number(&mut words, 1, MOST_DRAWN)?;
    let fates = fates(alloc, words)?;
    Ok(Task::Draw(asked, fates))
}

/// `EDITOR PATH` or `READER PATH`
fn named(alloc: Global, mut words: Words) -> Result<(u32, Path), LineFault>
    ensures gives { Gives (λ named. (named.0, named.1)) line_cause result
        (named_by (words_left words.entry)) }
    ensures range { IfOk result (λ named. IsActor named.0) }
    ensures memory { result ≡ Err LineFault.NoMemory
        → reaches_path (words_left words.entry) ≡ true }
{
    let actor = actor(&mut words)?;
    let path = path(alloc, &mut words)?;
    words.end()?;
    Ok((actor, path))
}

/// What follows a line's first word, if it may be in this part.
fn say(alloc: Global, part: Part, keyword: Keyword, mut words: Words) -> Result<Said, LineFault>
    requires { grammar.may_stand part keyword ≡ true }
    ensures gives { Gives view_said line_cause result (said_by keyword (words_left words.entry)) }
    ensures suits { IfOk result (λ said. Suits part (view_said said)) }
    ensures range { IfOk result (λ said. SaysInRange (view_said said)) }
    ensures memory { result ≡ Err LineFault.NoMemory
        → asks_by keyword (words_left words.entry) ≡ true }
{
    match keyword {
        Keyword::Put => Ok(Said::Does(put(alloc, words)?)),
        Keyword::Fill => Ok(Said::Does(fill(alloc, words)?)),
        Keyword::Remove => {
            let (editor, path) = named(alloc, words)?;
            Ok(Said::Does(Task::Remove(editor, path)))
        }
        Keyword::MakeFolder => {
            let (editor, path) = named(alloc, words)?;
            Ok(Said::Does(Task::MakeFolder(editor, path)))
        }
        Keyword::RemoveFolder => {
            let (editor, path) = named(alloc, words)?;
            Ok(Said::Does(Task::RemoveFolder(editor, path)))
        }
        Keyword::Commit => Ok(Said::Does(commit(words)?)),
        Keyword::Draw => Ok(Said::Does(draw(alloc, words)?)),
        Keyword::Open => {
            let (reader, path) = named(alloc, words)?;
            Ok(Said::Does(Task::Open(reader, path)))
        }
        Keyword::Start => {
            words.end()?;
            Ok(Said::Starts)
        }
        Keyword::Settle => {
            words.end()?;
            Ok(Said::Settles)
        }
        Keyword::Finale => {
            let (reader, path) = named(alloc, words)?;
            Ok(Said::Finale(reader, path))
        }
    }
}

fn may_stand(part: Part, keyword: Keyword) -> bool
    ensures { result ≡ grammar.may_stand part keyword }
{
    match (part, keyword) {
        (Part::Opening, _) | (Part::Closing, Keyword::Finale) => true,
        (Part::Running, Keyword::Start) | (Part::Closing, _) => false,
        (Part::Running, _) => true,
    }
}

/// What a line says in this part, or why it doesn't fit.
pub fn read_line(alloc: Global, part: Part, line: &[u8]) -> Result<Said, LineFault>
    ensures gives { Gives view_said line_cause result (line_by part line.now) }
    ensures suits { IfOk result (λ said. Suits part (view_said said)) }
    ensures range { IfOk result (λ said. SaysInRange (view_said said)) }
    ensures memory { result ≡ Err LineFault.NoMemory → line_asks part line.now ≡ true }
{
    match line {
        [] | [b'#', ..] => Ok(Said::Passed),
        _ => {
            let mut words = Words::of(line);
            let Some(first) = words.next() else {
                return Ok(Said::Passed);
            };
            let Some(keyword) = Keyword::parse(first) else {
                return Err(LineFault::Bad(LineCause::Unknown));
            };
            if !may_stand(part, keyword) {
                return Err(LineFault::Bad(LineCause::Order));
            }
            say(alloc, part, keyword, words)
        }
    }
}
