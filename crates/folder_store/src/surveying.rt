ghost use Rattle.std.specs.Prelude.{◌≡◌, ◌≤◌, ◌⊎◌, Ok, Err, false, true, nat_lt, IfOk, IfErr, IsErrAnd};
ghost use Rattle.oc_bytes.specs.Outcome.{Faulted};
ghost use Rattle.generation_catalogue.specs.History.{put_bytes};
ghost use Rattle.generation_catalogue.specs.declared.journal.TheConstants.{MOST_PUT_BYTES};
ghost use Rattle.folder_store.specs.Folders.{is_folder_at, IsRefused, MayFail, IsNoFolder, WhereTold};
ghost use Rattle.folder_store.specs.Walk.{edits_of, IsTooDeep, IsBadName};
ghost use Rattle.folder_store.specs.Surveys.{at_in, first_large, survey_of, text_at, view_survey};

use crate::folders::Folders;
use crate::reading::{Gathered, Place, ReadTree, walk_folder};
use crate::sights::{Sights, Standing};
use path_tree::{Edit, Path};
use std::alloc::{AllocError, Global};

/// What a folder holds, as publishing takes it.
#[derive(Drop)]
pub struct Surveyed {
    /// What [`read_tree`](crate::read_tree) answers.
    pub edits: Vec<Edit>,
    /// The links and other kinds that were passed over, in the order of paths.
    pub left: Vec<Standing>,
    /// The path text of the first file of more than [`path_tree::MOST_CONTENT`] bytes.
    pub large: Option<String>,
}

/// Why a folder gives no survey.
#[derive(Drop)]
pub struct SurveyFault {
    /// What [`read_tree`](crate::read_tree) answers.
    pub cause: ReadTree,
    /// The file or folder at fault; none for the surveyed folder itself.
    pub at: Option<Standing>,
}

impl From<AllocError> for SurveyFault {
    ghost use Rattle.std.specs.Prelude.{◌≡◌};
    ghost use Rattle.folder_store.specs.declared.reading.ReadTree.TheVariants.{NoMemory};

    ghost from_gives = { λ _ f. f.cause ≡ NoMemory };

    fn from(_error: AllocError) -> SurveyFault {
        SurveyFault {
            cause: ReadTree::NoMemory,
            at: None,
        }
    }
}

/// Reads a folder as [`read_tree`](crate::read_tree) does, and answers also what was passed over
/// and which file is too large, or what is at fault.
///
/// The answer is complete if at most [`generation_catalogue::MOST_PUT_BYTES`] are read. `at` is the
/// first entry in the order of paths that breaks a rule. After a `FolderFault` it is what the walk
/// came to last.
pub fn survey<F: Folders>(
    alloc: Global,
    folders: &mut F,
    root: &str,
) -> Result<Surveyed, SurveyFault>
    // What is answered:
    ensures edits { IfOk result (λ s.
        WhereTold (F.tree folders.old) (λ t. edits_of t root.now ≡ Ok s.edits.items)) }
    ensures look { IfOk result (λ s.
        WhereTold (F.tree folders.old) (λ t.
        nat_lt MOST_PUT_BYTES (put_bytes s.edits.items) ≡ false
        → survey_of t root.now ≡ Ok (view_survey s))) }
    ensures large { IfOk result (λ s. (view_survey s).large ≡ first_large root.now s.edits.items) }
    // When each error comes, and what it names:
    ensures too_deep { IfErr result (λ f.
        f.cause ≡ ReadTree.TooDeep
        → WhereTold (F.tree folders.old) (λ t.
        (edits_of t root.now ≡ Err IsTooDeep) × (survey_of t root.now ≡ Err (at_in f.at)))) }
    ensures bad_name { IfErr result (λ f.
        f.cause ≡ ReadTree.BadName
        → WhereTold (F.tree folders.old) (λ t.
        (edits_of t root.now ≡ Err IsBadName) × (survey_of t root.now ≡ Err (at_in f.at)))) }
    ensures fault { IfErr result (λ f.
        f.cause ≡ ReadTree.FolderFault
        → MayFail (Faulted F.faults folders.old folders.new) (F.tree folders.old)
        (IsNoFolder root.now)) }
    ensures named { IfErr result (λ f.
        f.cause ≡ ReadTree.FolderFault
        → IsRefused (F.refused folders.new) (text_at root.now f.at)) }
    ensures no_folder { WhereTold (F.tree folders.old) (λ t.
        is_folder_at t root.now ≡ false
        → IsErrAnd result (λ f. (f.cause ≡ ReadTree.FolderFault) ⊎ (f.cause ≡ ReadTree.NoMemory))) }
    // What is asked for, and what stays:
    ensures owed { WhereTold (F.tree folders.old) (λ t.
        is_folder_at t root.now ≡ true → F.strayed folders.new ≡ F.strayed folders.old) }
    ensures same { F.tree folders.new ≡ F.tree folders.old }
    ensures later { F.faults folders.old ≤ F.faults folders.new }
{
    let Ok(path) = Path::parse(alloc, b"/") else {
        return Err(SurveyFault {
            cause: ReadTree::NoMemory,
            at: None,
        });
    };
    let text = String::from_str(alloc, root)?;
    let mut gathered = Gathered {
        edits: Vec::new(alloc),
        read: 0,
    };
    let mut sights = Sights {
        left: Vec::new(alloc),
        large: None,
        at: None,
    };
    let place = Place { path, text };
    match walk_folder(alloc, folders, &place, &mut gathered, &mut sights) {
        Ok(()) => Ok(Surveyed {
            edits: gathered.edits,
            left: sights.left,
            large: sights.large,
        }),
        Err(cause) => Err(SurveyFault {
            cause,
            at: sights.at,
        }),
    }
}
