//! Why a folder can't be published.

ghost use Rattle.std.specs.Prelude.{◌≡◌, ◌≤◌, ◌++◌, ◌∷◌, [], Some, None, IfOk, IsErrOf, IsSomeAnd, codes};
ghost use Rattle.std.specs.Option.{option_map};
ghost use Rattle.std.specs.String.{string_bytes};
ghost use Rattle.oc_bytes.specs.Outcome.{Faulted, Spells};
ghost use Rattle.path_tree.specs.Edits.{apply_all};
ghost use Rattle.folder_store.specs.Folders.{IsRefused, MayFail, WhereTold};
ghost use Rattle.folder_store.specs.Surveys.{view_survey};
ghost use Rattle.publication_plan.specs.Inner.Judging.{SizeFails};
ghost use Rattle.publication_plan.specs.Refusals.{IsNoFile, cause_text, limit_of, size_at, size_in, size_told};
ghost use Rattle.publication_plan.specs.Inner.Refusals.{refused_path};
ghost use Rattle.publication_plan.specs.Telling.{number_text, refused_line, unreadable_line};
ghost use Rattle.shell_words.specs.Texts.{line};

use biop_object::MOST_FOLDER_SIZE;
use cycle_planner::GREATEST_ID;
use dsi_dii::MOST_TOTAL_SIZE;
use folder_store::{FolderFault, Folders, Surveyed};
use generation::{MOST_OBJECTS, large_folder_size};
use generation_catalogue::{MOST_PUT_BYTES, Refusal};
use oc_bytes::NoMemory;
use path_tree::{ApplyFault, Edit, EditFault, MOST_CONTENT, Tree, apply};
use shell_words::refusal_text;
use std::alloc::{AllocError, Global};

/// The most bytes of a name of a path.
pub const MOST_NAME: u64 = 254;

/// The bytes up to which the size of a file is counted that is too large. This project's own limit.
pub const MOST_SIZED: usize = 536_870_913;

/// The line of a refusal, with the size and the limit that there are.
pub(crate) fn refused_text(
    alloc: Global,
    cause: &str,
    size: Option<u64>,
    limit: Option<u64>,
) -> Result<String, NoMemory>
    ensures { Spells result (refused_line cause.now size limit) }
{
    let size = number_text(alloc, size)?;
    let limit = number_text(alloc, limit)?;
    joined(alloc, cause, &size, &limit)
}

fn joined(alloc: Global, cause: &str, size: &str, limit: &str) -> Result<String, NoMemory>
    ensures { Spells result (line (codes "refused " ++ cause.now ++ size.now ++ limit.now)) }
{
    format!(in alloc; "refused {cause}{size}{limit}\n")
}

/// The line of a path that breaks a rule of the walk.
pub(crate) fn rule_text(
    alloc: Global,
    rule: &str,
    path: &str,
    limit: u64,
) -> Result<String, NoMemory>
    ensures { Spells result (refused_line (rule.now ++ 32 ∷ path.now) None (Some limit)) }
{
    let cause = format!(in alloc; "{rule} {path}")?;
    refused_text(alloc, &cause, None, Some(limit))
}

/// The line of the file that is too large, where its size can't be read.
pub(crate) fn unread_text(
    alloc: Global,
    edits: &[Edit],
    refusal: &Refusal,
) -> Result<String, NoMemory>
    ensures { Spells result (unreadable_line (refused_path edits.now refusal.now)) }
{
    if let Refusal::Edit(place, _) = refusal {
        if let Some(edit) = edits.get(*place) {
            let path = edit.path();
            return format!(in alloc; "unreadable {path}\n");
        }
    }
    String::from_str(alloc, "unreadable /\n")
}

fn number_text(alloc: Global, number: Option<u64>) -> Result<String, NoMemory>
    ensures { Spells result (number_text number) }
{
    match number {
        Some(number) => format!(in alloc; " {number}"),
        None => Ok(String::new(alloc)),
    }
}

/// The cause of a refusal. A file that is too large is named by its path.
pub(crate) fn cause_of(alloc: Global, edits: &[Edit], refusal: &Refusal) -> Result<String, NoMemory>
    ensures { Spells result (cause_text edits.now refusal.now) }
{
    match refusal {
        Refusal::Edit(place, EditFault::FileTooLarge) => match edits.get(*place) {
            Some(edit) => {
                let path = edit.path();
                format!(in alloc; "file-too-large {path}")
            }
            None => refusal_text(alloc, refusal),
        },
        _ => refusal_text(alloc, refusal),
    }
}

/// The limit that a refusal is of.
pub(crate) fn limit_in(refusal: &Refusal) -> Option<u64>
    ensures { result ≡ limit_of refusal.now }
{
    match refusal {
        Refusal::JournalFull(_) => Some(MOST_PUT_BYTES),
        Refusal::Edit(_, EditFault::FileTooLarge) => Some(MOST_CONTENT as u64),
        Refusal::TooManyObjects(_) => Some(MOST_OBJECTS as u64),
        Refusal::FolderTooLarge(_) => Some(u64::from(MOST_FOLDER_SIZE)),
        Refusal::TooManyBytes(_) => Some(u64::from(MOST_TOTAL_SIZE)),
        Refusal::TooManyModules(_) => Some(GREATEST_ID as u64),
        Refusal::SeasonFull(_) | Refusal::Edit(..) => None,
    }
}

/// The size that passes the limit, where the cause doesn't tell it: that of a file is read again,
/// and counted up to [`MOST_SIZED`].
pub(crate) fn size_of<F: Folders>(
    alloc: Global,
    folders: &mut F,
    survey: &Surveyed,
    refusal: &Refusal,
) -> Result<Option<u64>, FolderFault>
    ensures size { IfOk result (λ n.
        WhereTold (F.tree folders.old) (λ t.
        n ≡ size_told t (view_survey survey.now) (apply_all [] survey.now.edits.items)
        refusal.now)) }
    ensures fault { IsErrOf result FolderFault.Failed
        → SizeFails (F.tree folders.old) (Faulted F.faults folders.old folders.new)
        (F.refused folders.new) survey.now refusal.now }
    ensures same { F.tree folders.new ≡ F.tree folders.old }
    ensures later { F.faults folders.old ≤ F.faults folders.new }
{
    match refusal {
        Refusal::Edit(_, EditFault::FileTooLarge) => file_size(alloc, folders, &survey.large),
        Refusal::FolderTooLarge(_) => Ok(folder_size(alloc, &survey.edits)?),
        _ => Ok(None),
    }
}

fn file_size<F: Folders>(
    alloc: Global,
    folders: &mut F,
    large: &Option<String>,
) -> Result<Option<u64>, FolderFault>
    ensures size { IfOk result (λ n.
        WhereTold (F.tree folders.old) (λ t. n ≡ size_at t (option_map string_bytes large.now))) }
    ensures fault { IsErrOf result FolderFault.Failed
        → MayFail (Faulted F.faults folders.old folders.new) (F.tree folders.old)
        (IsNoFile (option_map string_bytes large.now)) }
    ensures failed { IsErrOf result FolderFault.Failed
        → IsSomeAnd (option_map string_bytes large.now) (IsRefused (F.refused folders.new)) }
    ensures same { F.tree folders.new ≡ F.tree folders.old }
    ensures later { F.faults folders.old ≤ F.faults folders.new }
{
    match large {
        Some(text) => {
            let content = folders.read(alloc, text, MOST_SIZED)?;
            Ok(Some(content.len() as u64))
        }
        None => Ok(None),
    }
}

/// How many bytes the object has of the first folder that is too large in the tree that these
/// edits make.
fn folder_size(alloc: Global, edits: &[Edit]) -> Result<Option<u64>, NoMemory>
    ensures { IfOk result (λ n. n ≡ size_in (apply_all [] edits.now)) }
{
    match apply(alloc, &Tree::empty(alloc), edits) {
        Ok(tree) => match large_folder_size(alloc, &tree)? {
            Some(size) => Ok(Some(u64::from(size))),
            None => Ok(None),
        },
        Err(ApplyFault::Edit(..)) => Ok(None),
        Err(ApplyFault::NoMemory) => Err(AllocError),
    }
}
