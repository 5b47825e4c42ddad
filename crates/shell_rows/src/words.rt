//! The words of commands, and the texts of answers and refusals.

use crate::texts::on_one_line;
use generation_catalogue::Refusal;
use path_resolver::Answer;
use path_tree::{EditFault, Name, Path, print_name};
use shell_words::{
    Command, Complaint, WordsFault, answer_text, answered_text, command, complaint_text,
    first_complaint, refusal_text,
};
use std::alloc::Global;
use test_rows::{Line, Row, RowFault};

/// What a call on words and texts answers.
pub(crate) fn call(alloc: Global, row: &Row<'_>) -> Option<Line> {
    match row.name() {
        "command" => Some(commanded(alloc, row)),
        "complaint" => Some(complained(alloc, row)),
        "words-fault" => Some(row.line().value("", &WordsFault::Words)),
        "answer" => Some(answer(alloc, row)),
        "answered" => Some(answered(alloc, row)),
        "refusal" => Some(refused(alloc, row)),
        _ => None,
    }
}

/// `command WORD..`: the command that the words name, as words again. A word `''` stands for the empty word.
fn commanded(alloc: Global, row: &Row<'_>) -> Line {
    match command(alloc, &words_of(alloc, row)) {
        Ok(command) => command_text(alloc, row.line(), &command),
        Err(WordsFault::Words) => row.line().text("bad words"),
        Err(WordsFault::NoMemory) => row.failed(RowFault::NoMemory),
    }
}

/// `complaint WORD..`: what is wrong with the words.
fn complained(alloc: Global, row: &Row<'_>) -> Line {
    match first_complaint(alloc, &words_of(alloc, row)) {
        Ok(complaint) => with_complaint(alloc, row.line(), complaint),
        Err(_) => row.failed(RowFault::NoMemory),
    }
}

fn with_complaint(alloc: Global, line: Line, complaint: Complaint) -> Line {
    match complaint_text(alloc, complaint) {
        Ok(text) => line.made("", on_one_line(alloc, text.as_str())),
        Err(_) => line.failed(RowFault::NoMemory),
    }
}

/// The words of a row, of which `''` is the empty one.
pub(crate) fn words_of(alloc: Global, row: &Row<'_>) -> Vec<String> {
    let mut words = Vec::new(alloc);
    for place in 0..row.len() {
        push_word(alloc, row, row.text(place), &mut words);
    }
    words
}

fn push_word(alloc: Global, row: &Row<'_>, word: &str, words: &mut Vec<String>) {
    match String::from_str(alloc, if word == "''" { "" } else { word }) {
        Ok(word) => row.push(words, word),
        Err(_) => row.fail(RowFault::NoMemory),
    }
}

fn command_text(alloc: Global, line: Line, command: &Command) -> Line {
    match command {
        Command::Assemble {
            id,
            version,
            size,
            download,
        } => line
            .value("assemble ", id)
            .value(" ", version)
            .value(" ", size)
            .value(" ", download),
        Command::Record(pid) => line.value("record ", pid),
        Command::List(pid) => line.value("list ", pid),
        Command::Rehearse => line.text("rehearse"),
        Command::Session => line.text("session"),
        Command::Big(size) => line.value("big ", size),
        Command::Find(carousel) => line.value("find ", carousel),
        Command::Inspect(pid) => line.value("inspect ", pid),
        Command::Extract(pid, folder) => line.value("extract ", pid).value(" ", folder),
        Command::Why(complaint) => with_complaint(alloc, line.text("why "), *complaint),
        other => opened_or_sent(alloc, line, other),
    }
}

/// Puts a command that opens paths behind what stands, or one that sends a folder.
fn opened_or_sent(alloc: Global, line: Line, command: &Command) -> Line {
    match command {
        Command::OpenSections(paths) => with_paths(line.text("open sections"), paths),
        Command::Open(pid, paths) => with_paths(line.value("open ", pid), paths),
        Command::OpenId(carousel, paths) => with_paths(line.value("open-id ", carousel), paths),
        Command::Mounts(table, paths) => with_paths(with_table(alloc, line, table), paths),
        Command::Watch(pid, paths) => with_paths(line.value("watch ", pid), paths),
        other => sent(line, other),
    }
}

/// Puts a command that sends a folder behind what stands.
fn sent(line: Line, command: &Command) -> Line {
    match command {
        Command::Publish(folder, carousel, cycles) => {
            folder_text(line.text("publish"), folder, *carousel).value(" ", cycles)
        }
        Command::PublishPsi(folder, carousel, cycles) => {
            folder_text(line.text("publish-psi"), folder, *carousel).value(" ", cycles)
        }
        Command::PublishOn(pid, folder, carousel, cycles) => {
            folder_text(line.value("publish-on ", pid), folder, *carousel).value(" ", cycles)
        }
        Command::Plan(folder, carousel, bitrate) => {
            folder_text(line.text("plan"), folder, *carousel).value(" ", bitrate)
        }
        Command::Air(pid, folder, carousel, cycles) => {
            folder_text(line.value("air ", pid), folder, *carousel).value(" ", cycles)
        }
        _ => line,
    }
}

fn folder_text(line: Line, folder: &str, carousel: u32) -> Line {
    line.text(" ").text(folder).value(" ", &carousel)
}

/// Puts `mounts` and its table behind what stands.
fn with_table(alloc: Global, line: Line, table: &[(Name, u16)]) -> Line {
    let mut line = line.text("mounts");
    let mut mark = " ";
    for (name, pid) in table {
        line = line
            .made(mark, print_name(alloc, name.bytes()))
            .value("=", pid);
        mark = ",";
    }
    line
}

fn with_paths(mut line: Line, paths: &[Path]) -> Line {
    for path in paths {
        line = line.value(" ", path);
    }
    line
}

/// `answer ANSWER`: the text of an answer.
fn answer(alloc: Global, row: &Row<'_>) -> Line {
    match answer_of(row, 0) {
        Some(answer) => row.line().made("", answer_text(alloc, &answer)),
        None => row.failed(RowFault::BadRow),
    }
}

/// `answered PATH ANSWER`: the line of a path, whose text is given as bytes, and its answer.
fn answered(alloc: Global, row: &Row<'_>) -> Line {
    match (path_of(alloc, row, 0), answer_of(row, 1)) {
        (Ok(path), Some(answer)) => answered_line(alloc, row, &path, &answer),
        _ => row.failed(RowFault::BadRow),
    }
}

fn answered_line(alloc: Global, row: &Row<'_>, path: &Path, answer: &Answer) -> Line {
    match answered_text(alloc, path, answer) {
        Ok(text) => row.line().made("", on_one_line(alloc, text.as_str())),
        Err(_) => row.failed(RowFault::NoMemory),
    }
}

/// The answer that a word names, with the numbers after it.
fn answer_of(row: &Row<'_>, place: usize) -> Option<Answer> {
    match row.text(place) {
        "NoSuch" => Some(Answer::NoSuch),
        "NoCarousel" => Some(Answer::NoCarousel),
        "Elsewhere" => Some(Answer::Elsewhere),
        word => answer_on_a_module(row, word, place.saturating_add(1)),
    }
}

/// The answer that a word names, and a module's id at a place.
fn answer_on_a_module(row: &Row<'_>, word: &str, place: usize) -> Option<Answer> {
    let module = row.short(place);
    match word {
        "NotYet" => Some(Answer::NotYet(module)),
        "Compressed" => Some(Answer::Compressed(module)),
        "Bad" => Some(Answer::Bad(module, row.count(place.saturating_add(1)))),
        "Dangling" => Some(Answer::Dangling(module)),
        "OtherKind" => Some(Answer::OtherKind(module)),
        _ => None,
    }
}

/// `refusal NAME ..`: the text of a refusal.
fn refused(alloc: Global, row: &Row<'_>) -> Line {
    match refusal_of(alloc, row) {
        Ok(refusal) => row.line().made("", refusal_text(alloc, &refusal)),
        Err(fault) => row.failed(fault),
    }
}

/// The refusal that the first word names, with the values after it.
fn refusal_of(alloc: Global, row: &Row<'_>) -> Result<Refusal, RowFault> {
    match row.text(0) {
        "SeasonFull" => Ok(Refusal::SeasonFull(row.wide(1))),
        "JournalFull" => Ok(Refusal::JournalFull(row.wide(1))),
        "Edit" => Ok(Refusal::Edit(row.count(1), fault_of(row.text(2))?)),
        "TooManyObjects" => Ok(Refusal::TooManyObjects(row.long(1))),
        "FolderTooLarge" => Ok(Refusal::FolderTooLarge(path_of(alloc, row, 1)?)),
        "TooManyBytes" => Ok(Refusal::TooManyBytes(row.wide(1))),
        "TooManyModules" => Ok(Refusal::TooManyModules(row.count(1))),
        _ => Err(RowFault::BadRow),
    }
}

fn fault_of(word: &str) -> Result<EditFault, RowFault> {
    match word {
        "NoSuchFile" => Ok(EditFault::NoSuchFile),
        "FolderThere" => Ok(EditFault::FolderThere),
        "ThroughFile" => Ok(EditFault::ThroughFile),
        "FileTooLarge" => Ok(EditFault::FileTooLarge),
        "FileThere" => Ok(EditFault::FileThere),
        "NoSuchFolder" => Ok(EditFault::NoSuchFolder),
        "NotEmpty" => Ok(EditFault::NotEmpty),
        _ => Err(RowFault::BadRow),
    }
}

/// The path whose text the word at a place says as bytes.
fn path_of(alloc: Global, row: &Row<'_>, place: usize) -> Result<Path, RowFault> {
    match Path::parse(alloc, &row.octets(place)) {
        Ok(path) => Ok(path),
        Err(_) => Err(RowFault::BadRow),
    }
}
