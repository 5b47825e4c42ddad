//! Scripts of sessions.

use crate::texts::spelled;
use session_script::{Action, Line as ScriptLine, Script, ScriptFault, Stage, parse};
use std::alloc::Global;
use test_rows::{Line, Row, RowFault};
use ts_packet::Fate;

/// What a call of a script's text answers.
pub(crate) fn call(alloc: Global, row: &Row<'_>) -> Option<Line> {
    match row.name() {
        "parse" => Some(parsed(alloc, row)),
        "fates" => Some(fates_of_the_first_line(alloc, row)),
        "fault" => Some(fault(alloc, row)),
        _ => None,
    }
}

/// `parse TEXT`: the script of the text, or the line that doesn't fit and its cause.
fn parsed(alloc: Global, row: &Row<'_>) -> Line {
    let text = spelled(alloc, row);
    match parse(alloc, text.as_bytes()) {
        Ok(script) => shown(row.line(), &script),
        Err(ScriptFault::BadLine(number, cause)) => {
            row.line().value("", &number).value(": ", &cause)
        }
        Err(ScriptFault::NoMemory) => row.failed(RowFault::NoMemory),
    }
}

/// `fault TEXT`: the text of the fault.
fn fault(alloc: Global, row: &Row<'_>) -> Line {
    let text = spelled(alloc, row);
    match parse(alloc, text.as_bytes()) {
        Ok(_) => row.line().text("none"),
        Err(fault) => row.line().value("", &fault),
    }
}

/// `fates TEXT`: how many lines the script has, how many sections its first line draws, how many fates that has, and the first and
/// the last of them.
fn fates_of_the_first_line(alloc: Global, row: &Row<'_>) -> Line {
    let text = spelled(alloc, row);
    match parse(alloc, text.as_bytes()) {
        Ok(script) => first_line_text(row, &script),
        Err(_) => row.failed(RowFault::BadRow),
    }
}

fn first_line_text(row: &Row<'_>, script: &Script) -> Line {
    crosses_threads(script);
    let line = row
        .line()
        .value("", &script.lines.len())
        .text(" line, draw ");
    match script.lines.first() {
        Some(first) => draw_text(line, &first.action),
        None => line.failed(RowFault::BadRow),
    }
}

fn draw_text(line: Line, action: &Action) -> Line {
    match action {
        Action::Draw(asked, fates) => {
            let line = line.value("", asked).value(", ", &fates.len());
            ends_text(line.text(" fates, "), fates)
        }
        _ => line.failed(RowFault::BadRow),
    }
}

/// Puts the first and the last fate behind what stands.
fn ends_text(line: Line, fates: &[Fate]) -> Line {
    match (fates.first(), fates.last()) {
        (Some(first), Some(last)) => fate_text(fate_text(line, first).text(" to "), last),
        _ => line.failed(RowFault::BadRow),
    }
}

/// A script can be made in one thread and run in others.
fn crosses_threads<T: Send + Sync>(_: &T) {}

/// The editors, the readers, and each line with its number and its stage.
fn shown(line: Line, script: &Script) -> Line {
    let line = numbers_text(line.text("editors"), &script.editors);
    let line = numbers_text(line.text(", readers"), &script.readers);
    lines_text(line, &script.lines)
}

fn numbers_text(mut line: Line, numbers: &[u32]) -> Line {
    for number in numbers {
        line = line.value(" ", number);
    }
    line
}

fn lines_text(mut line: Line, lines: &[ScriptLine]) -> Line {
    for one in lines {
        line = line_text(line, one);
    }
    line
}

fn line_text(line: Line, one: &ScriptLine) -> Line {
    let line = line.value("; ", &one.number).text(stage_text(one.stage));
    action_text(line, &one.action)
}

fn stage_text(stage: Stage) -> &'static str {
    match stage {
        Stage::Before => " before ",
        Stage::During => " during ",
        Stage::After => " after ",
    }
}

fn action_text(line: Line, action: &Action) -> Line {
    match action {
        Action::Commit(editor) => line.value("commit ", editor),
        Action::Draw(asked, fates) => fates_text(line.value("draw ", asked), fates),
        Action::Open(reader, path) => line.value("open ", reader).value(" ", path),
        Action::Settle => line.text("settle"),
        edit => edit_text(line, edit),
    }
}

fn edit_text(line: Line, action: &Action) -> Line {
    match action {
        Action::Put(editor, path, content) => line
            .value("put ", editor)
            .value(" ", path)
            .bytes(" ", content.bytes()),
        Action::Fill(editor, path, size, from) => line
            .value("fill ", editor)
            .value(" ", path)
            .value(" ", size)
            .value(" ", from),
        Action::Remove(editor, path) => line.value("remove ", editor).value(" ", path),
        Action::MakeFolder(editor, path) => line.value("mkdir ", editor).value(" ", path),
        Action::RemoveFolder(editor, path) => line.value("rmdir ", editor).value(" ", path),
        _ => line,
    }
}

fn fates_text(mut line: Line, fates: &[Fate]) -> Line {
    for fate in fates {
        line = fate_text(line.text(" "), fate);
    }
    line
}

fn fate_text(line: Line, fate: &Fate) -> Line {
    match fate {
        Fate::Keep => line.text("k"),
        Fate::Lose => line.text("d"),
        Fate::Flip(bit) => line.value("f", bit),
    }
}
