//! The lines of notices.

ghost use Rattle.std.specs.Prelude.{◌≡◌, ◌++◌, ◌∷◌, [], IfOk, codes};
ghost use Rattle.std.specs.List.{flat_map};
ghost use Rattle.std.specs.Option.{is_none, option_map, unwrap_or};
ghost use Rattle.std.specs.String.{string_bytes};
ghost use Rattle.oc_bytes.specs.Outcome.{Spells};
ghost use Rattle.folder_playout.specs.Lines.{commit_words, cycle_line, difference_words, notice_line, refused_words, with_path};
ghost use Rattle.folder_playout.specs.Notices.{Began, kept_notices};
ghost use Rattle.folder_playout.specs.Readings.{is_no_memory};

use crate::notices::Difference;
use crate::reading::Unread;
use folder_store::TreeFault;
use generation_catalogue::Refusal;
use oc_bytes::NoMemory;
use path_tree::EditFault;
use shell_words::refusal_text;
use std::alloc::Global;

/// `generation N cycle C files F modules M bytes B` and a line feed. Cycle `cycle`, from 1, is the
/// generation's first, and `difference` what a receiver fetches again.
pub fn began_text(
    alloc: Global,
    number: u64,
    cycle: u32,
    difference: Difference,
) -> Result<String, NoMemory>
    ensures { Spells result (notice_line (Began number cycle difference)) }
{
    let words = difference_words(alloc, difference)?;
    began_line(alloc, number, cycle, &words)
}

fn began_line(alloc: Global, number: u64, cycle: u32, words: &str) -> Result<String, NoMemory>
    ensures { Spells result (cycle_line (codes "generation") number cycle words.now) }
{
    format!(in alloc; "generation {number} cycle {cycle} {words}\n")
}

fn difference_words(alloc: Global, difference: Difference) -> Result<String, NoMemory>
    ensures { Spells result (difference_words difference) }
{
    let files = difference.files;
    let modules = difference.modules;
    let bytes = difference.bytes;
    format!(in alloc; "files {files} modules {modules} bytes {bytes}")
}

/// `kept N cycle C`, why no tree was read, and a line feed; no text after `Unread::NoMemory`.
/// Cycles count from 1. Why is `unreadable`, `too-deep`, `bad-name` or `file-too-large` with the
/// path, or the refusal's text.
pub fn kept_text(
    alloc: Global,
    number: u64,
    cycle: u32,
    cause: &Unread,
) -> Result<Option<String>, NoMemory>
    ensures text { IfOk result (λ text.
        unwrap_or (option_map string_bytes text) []
        ≡ flat_map notice_line (kept_notices number cycle cause.now)) }
    ensures none { IfOk result (λ text. is_none text ≡ is_no_memory cause.now) }
{
    let words = match cause {
        Unread::Failed(path) => format!(in alloc; "unreadable {path}")?,
        Unread::Refused(fault, path) => refused_words(alloc, fault, path)?,
        Unread::NoMemory => return Ok(None),
    };
    Ok(Some(kept_line(alloc, number, cycle, &words)?))
}

fn kept_line(alloc: Global, number: u64, cycle: u32, words: &str) -> Result<String, NoMemory>
    ensures { Spells result (cycle_line (codes "kept") number cycle words.now) }
{
    format!(in alloc; "kept {number} cycle {cycle} {words}\n")
}

fn refused_words(
    alloc: Global,
    fault: &TreeFault,
    path: &Option<String>,
) -> Result<String, NoMemory>
    ensures { Spells result (refused_words fault.now (option_map string_bytes path.now)) }
{
    match fault {
        TreeFault::TooDeep => with_path(alloc, "too-deep", path),
        TreeFault::BadName => with_path(alloc, "bad-name", path),
        TreeFault::Commit(refusal) => commit_words(alloc, refusal, path),
    }
}

fn with_path(alloc: Global, word: &str, path: &Option<String>) -> Result<String, NoMemory>
    ensures { Spells result (with_path word.now (option_map string_bytes path.now)) }
{
    match path {
        Some(path) => format!(in alloc; "{word} {path}"),
        None => String::from_str(alloc, word),
    }
}

/// A file that is too large is named by its path, if that is known.
fn commit_words(alloc: Global, refusal: &Refusal, path: &Option<String>) -> Result<String, NoMemory>
    ensures { Spells result (commit_words refusal.now (option_map string_bytes path.now)) }
{
    match (refusal, path) {
        (Refusal::Edit(_, EditFault::FileTooLarge), Some(path)) => {
            format!(in alloc; "file-too-large {path}")
        }
        _ => refusal_text(alloc, refusal),
    }
}
