ghost use Rattle.std.specs.Prelude.{◌≡◌, ◌+◌, ◌∷◌, [], Err, IfOk};
ghost use Rattle.std.specs.Option.{option_map};
ghost use Rattle.std.specs.String.{string_bytes};
ghost use Rattle.oc_bytes.specs.Outcome.{Gives, cap_at_u64};
ghost use Rattle.path_tree.specs.Texts.{text_of};
ghost use Rattle.generation.specs.Lawful.{IsPublishable};
ghost use Rattle.generation_catalogue.specs.History.{put_bytes, put_size};
ghost use Rattle.generation_catalogue.specs.Requests.{commit_cause};
ghost use Rattle.folder_store.specs.Surveys.{at_in, names_at};
ghost use Rattle.folder_playout.specs.Inner.Faults.{Tells, of_walk};
ghost use Rattle.folder_playout.specs.Readings.{by_judgement, judged, path_told, reading_in};

use crate::reading::{Trees, Unread};
use folder_store::{Folders, ReadTree, SurveyFault, TreeFault, place_text, survey};
use generation::{Publishable, checked};
use generation_catalogue::{CommitFault, MOST_PUT_BYTES, Refusal};
use oc_bytes::NoMemory;
use path_tree::{Edit, EditFault, Tree, apply};
use std::alloc::{AllocError, Global};

/// A folder of the outside, whose tree is read anew each time.
#[derive(Drop)]
pub struct FolderTrees<'a, F: Folders> {
    alloc: Global,
    folders: &'a mut F,
    folder: &'a str,
}

impl<'a, F: Folders> FolderTrees<'a, F> {
    /// `folder` is its path text. Nothing is read yet.
    pub fn new(alloc: Global, folders: &'a mut F, folder: &'a str) -> FolderTrees<'a, F>
        ensures same { result.folders.ghost_name ≡ folders.entry.ghost_name }
        ensures now { result.folders.now ≡ folders.old }
        ensures folder { result.folder.now ≡ folder.now }
    {
        FolderTrees {
            alloc,
            folders,
            folder,
        }
    }
}

impl<F: Folders> Trees for FolderTrees<'_, F> {
    ghost use Rattle.folder_playout.specs.Readings.{AreRead};

    ghost answered = { λ a b readings.
        (b.folders.ghost_name ≡ a.folders.ghost_name)
        × (b.folder ≡ a.folder)
        × AreRead a.folder.now (F.tree a.folders.now) (F.tree b.folders.now)
        (F.faults a.folders.now) (F.faults b.folders.now) readings };

    /// Refusals come in the order of `publish`'s.
    fn read(&mut self) -> Result<Publishable, Unread> {
        match survey(self.alloc, self.folders, self.folder) {
            Ok(survey) => tree_of(self.alloc, &survey.edits),
            Err(fault) => Err(walk_fault(self.alloc, &fault)?),
        }
    }
}

fn walk_fault(alloc: Global, fault: &SurveyFault) -> Result<Unread, NoMemory>
    ensures { IfOk result (λ unread.
        reading_in (Err unread)
        ≡ of_walk fault.now.cause (text_of (names_at (at_in fault.now.at)))) }
{
    let path = place_text(alloc, &fault.at)?;
    match fault.cause {
        ReadTree::FolderFault => Ok(Unread::Failed(path)),
        ReadTree::TooDeep => Ok(Unread::Refused(TreeFault::TooDeep, Some(path))),
        ReadTree::BadName => Ok(Unread::Refused(TreeFault::BadName, Some(path))),
        ReadTree::NoMemory => Err(AllocError),
    }
}

/// The tree that edits make of the empty one, or the first refusal, with the path at fault.
fn tree_of(alloc: Global, edits: &[Edit]) -> Result<Publishable, Unread>
    ensures tells { Tells result (by_judgement edits.now (judged edits.now) ∷ []) }
    ensures publishable { IfOk result IsPublishable }
{
    match judge(alloc, edits) {
        Ok(tree) => Ok(tree),
        Err(CommitFault::Refused(refusal)) => {
            let path = path_told(alloc, edits, &refusal)?;
            Err(Unread::Refused(TreeFault::Commit(refusal), path))
        }
        Err(CommitFault::NoMemory) => Err(Unread::NoMemory),
    }
}

/// The path of a file that is too large; no other refusal lacks its path.
fn path_told(alloc: Global, edits: &[Edit], refusal: &Refusal) -> Result<Option<String>, NoMemory>
    ensures { IfOk result (λ path. option_map string_bytes path ≡ path_told edits.now refusal.now) }
{
    match refusal {
        Refusal::Edit(place, EditFault::FileTooLarge) => match edits.get(*place) {
            Some(edit) => Ok(Some(edit.path().print()?)),
            None => Ok(None),
        },
        _ => Ok(None),
    }
}

/// As the first commit of a carousel.
fn judge(alloc: Global, edits: &[Edit]) -> Result<Publishable, CommitFault>
    ensures judged { Gives (λ t. t) commit_cause result (judged edits.now) }
    ensures publishable { IfOk result IsPublishable }
{
    let total = total_of(edits);
    if total > MOST_PUT_BYTES {
        return Err(CommitFault::Refused(Refusal::JournalFull(total)));
    }
    let tree = apply(alloc, &Tree::empty(alloc), edits)?;
    Ok(checked(alloc, tree)?)
}

/// At most the greatest `u64`.
fn total_of(edits: &[Edit]) -> u64
    ensures { result ≡ cap_at_u64 (put_bytes edits.now) }
{
    let mut total = 0u64;
    for edit in edits {
        total = total.saturating_add(size_put(edit));
    }
    total
}

fn size_put(edit: &Edit) -> u64
    ensures { result ≡ put_size edit.now }
{
    match edit {
        Edit::Put(_, content) => content.bytes().len() as u64,
        Edit::Remove(_) | Edit::MakeFolder(_) | Edit::RemoveFolder(_) => 0,
    }
}
