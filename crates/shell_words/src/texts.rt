ghost use Rattle.std.specs.Prelude.{◌≡◌};
ghost use Rattle.oc_bytes.specs.Outcome.{Spells};
ghost use Rattle.shell_words.specs.Texts.{answer_line, answered_line, refusal_line, fault_text};

use generation_catalogue::Refusal;
use oc_bytes::NoMemory;
use path_resolver::Answer;
use path_tree::{EditFault, Path};
use std::alloc::Global;

/// What an answer is, and after a space each: a file's length in bytes, a folder's number of names,
/// or a fault's module and place.
pub fn answer_text(alloc: Global, answer: &Answer) -> Result<String, NoMemory>
    ensures { Spells result (answer_line answer.now) }
{
    match answer {
        Answer::File(file) => {
            let length = file.bytes().len();
            format!(in alloc; "file {length}")
        }
        Answer::Folder(folder) => {
            let count = folder.count();
            format!(in alloc; "folder {count}")
        }
        Answer::NoSuch => String::from_str(alloc, "no-such"),
        Answer::NotYet(module) => format!(in alloc; "not-yet {module}"),
        Answer::NoCarousel => String::from_str(alloc, "no-carousel"),
        Answer::Elsewhere => String::from_str(alloc, "elsewhere"),
        Answer::Compressed(module) => format!(in alloc; "compressed {module}"),
        Answer::Bad(module, place) => format!(in alloc; "bad {module} {place}"),
        Answer::Dangling(module) => format!(in alloc; "dangling {module}"),
        Answer::OtherKind(module) => format!(in alloc; "other-kind {module}"),
    }
}

/// A path's text, a space, the answer's text and a line feed.
pub fn answered_text(alloc: Global, path: &Path, answer: &Answer) -> Result<String, NoMemory>
    ensures { Spells result (answered_line path.now answer.now) }
{
    let answer = answer_text(alloc, answer)?;
    let mut text = path.print()?;
    text.push(' ')?;
    text.push_str(answer.as_str())?;
    text.push('\n')?;
    Ok(text)
}

/// Why a commit is refused, and after a space each: the number past its limit, an edit's place,
/// from 0, and its fault, or a folder's path.
pub fn refusal_text(alloc: Global, refusal: &Refusal) -> Result<String, NoMemory>
    ensures { Spells result (refusal_line refusal.now) }
{
    match refusal {
        Refusal::SeasonFull(number) => format!(in alloc; "season-full {number}"),
        Refusal::JournalFull(total) => format!(in alloc; "journal-full {total}"),
        Refusal::Edit(place, fault) => {
            let fault = fault_text(*fault);
            format!(in alloc; "edit {place} {fault}")
        }
        Refusal::TooManyObjects(objects) => format!(in alloc; "too-many-objects {objects}"),
        Refusal::FolderTooLarge(path) => {
            let path = path.print()?;
            format!(in alloc; "folder-too-large {path}")
        }
        Refusal::TooManyBytes(bytes) => format!(in alloc; "too-many-bytes {bytes}"),
        Refusal::TooManyModules(modules) => format!(in alloc; "too-many-modules {modules}"),
    }
}

fn fault_text(fault: EditFault) -> &'static str
    ensures { result.now ≡ fault_text fault }
{
    match fault {
        EditFault::NoSuchFile => "no-such-file",
        EditFault::FolderThere => "folder-there",
        EditFault::ThroughFile => "through-file",
        EditFault::FileTooLarge => "file-too-large",
        EditFault::FileThere => "file-there",
        EditFault::NoSuchFolder => "no-such-folder",
        EditFault::NotEmpty => "not-empty",
    }
}
