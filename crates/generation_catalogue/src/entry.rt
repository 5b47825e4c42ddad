ghost use Rattle.std.specs.Prelude.{◌≡◌, Err, IfOk};
ghost use Rattle.generation_catalogue.specs.History.{is_entered};
ghost use Rattle.generation_catalogue.specs.Requests.{of_edits, of_limit};
ghost use Rattle.generation_catalogue.specs.declared.entry.CommitFault.TheVariants.{NoMemory as OutOfMemory};
ghost use Rattle.generation_catalogue.specs.declared.entry.DrawFault.TheVariants.{NoMemory as NoMemoryToDraw};

use cycle_planner::Item;
use generation::{Generation, Limit};
use oc_bytes::NoMemory;
use path_tree::{ApplyFault, EditFault, Edits, Path};
use std::alloc::{AllocError, AllocFailed};
use std::sync::Arc;
use thiserror::Error;

/// Why a commit is refused: the first of these that holds.
#[derive(Debug, Drop, Error)]
pub enum Refusal {
    /// The current generation's number, [`dsi_dii::LAST_GENERATION`].
    #[error("the generation number is {0}, the greatest")]
    SeasonFull(u64),
    /// The bytes put by all entries and this commit, more than
    /// [`MOST_PUT_BYTES`](crate::MOST_PUT_BYTES).
    #[error("all entries put {0} bytes, more than 536,870,912")]
    JournalFull(u64),
    /// The place of an edit, from 0, and its fault.
    #[error("edit {0}: {1}")]
    Edit(usize, EditFault),
    /// How many objects, more than [`generation::MOST_OBJECTS`].
    #[error("there would be {0} objects, more than 8,192")]
    TooManyObjects(u32),
    /// The folder whose object has more than [`biop_object::MOST_FOLDER_SIZE`] bytes.
    #[error("the object of folder {0} would have more than 1,048,576 bytes")]
    FolderTooLarge(Path),
    /// The objects' bytes, more than [`dsi_dii::MOST_TOTAL_SIZE`].
    #[error("the objects would have {0} bytes, more than 268,435,456")]
    TooManyBytes(u64),
    /// How many modules, more than [`cycle_planner::GREATEST_ID`].
    #[error("the objects would take {0} modules, more than 2,224")]
    TooManyModules(usize),
}

impl Refusal {
    /// The same refusal again.
    pub fn share(&self) -> Result<Refusal, NoMemory>
        ensures { IfOk result (λ r. r ≡ self.now) }
    {
        Ok(match self {
            Refusal::SeasonFull(number) => Refusal::SeasonFull(*number),
            Refusal::JournalFull(total) => Refusal::JournalFull(*total),
            Refusal::Edit(place, fault) => Refusal::Edit(*place, *fault),
            Refusal::TooManyObjects(objects) => Refusal::TooManyObjects(*objects),
            Refusal::FolderTooLarge(path) => Refusal::FolderTooLarge(path.share()?),
            Refusal::TooManyBytes(bytes) => Refusal::TooManyBytes(*bytes),
            Refusal::TooManyModules(modules) => Refusal::TooManyModules(*modules),
        })
    }

    /// Whether such a commit makes an entry.
    pub fn is_entered(&self) -> bool
        ensures { result ≡ is_entered (Err self.now) }
    {
        !matches!(self, Refusal::SeasonFull(_) | Refusal::JournalFull(_))
    }
}

/// Why a commit gives no generation.
#[derive(Debug, Drop, Error)]
pub enum CommitFault {
    /// By the rules.
    #[error("the commit is refused: {0}")]
    Refused(Refusal),
    /// Out of memory.
    #[error("out of memory")]
    NoMemory,
}

impl From<AllocError> for CommitFault {
    ghost from_gives = { λ _ e. e ≡ OutOfMemory };

    fn from(_e: AllocError) -> CommitFault {
        CommitFault::NoMemory
    }
}

impl From<ApplyFault> for CommitFault {
    ghost from_gives = { λ f e. e ≡ of_edits f };

    fn from(fault: ApplyFault) -> CommitFault {
        match fault {
            ApplyFault::Edit(place, fault) => CommitFault::Refused(Refusal::Edit(place, fault)),
            ApplyFault::NoMemory => CommitFault::NoMemory,
        }
    }
}

impl From<Limit> for CommitFault {
    ghost from_gives = { λ l e. e ≡ of_limit l };

    fn from(limit: Limit) -> CommitFault {
        match limit {
            Limit::TooManyObjects(objects) => CommitFault::Refused(Refusal::TooManyObjects(
                objects,
            )),
            Limit::FolderTooLarge(path) => CommitFault::Refused(Refusal::FolderTooLarge(path)),
            Limit::TooManyBytes(bytes) => CommitFault::Refused(Refusal::TooManyBytes(bytes)),
            Limit::TooManyModules(modules) => CommitFault::Refused(Refusal::TooManyModules(
                modules,
            )),
            Limit::NoMemory => CommitFault::NoMemory,
        }
    }
}

/// One entry of the history.
#[derive(Drop)]
pub enum Entry {
    /// The editor's number, the edits, and the new generation's number or why there is none.
    Commit {
        editor: u32,
        edits: Edits,
        outcome: Result<u64, Refusal>,
    },
    /// How many items were asked for, 1 to [`cycle_planner::MOST_DRAWN`], their generation's
    /// number, the first one's place in the cycle, from 0, and how many were given.
    Draw {
        asked: u32,
        generation: u64,
        first: u64,
        count: u64,
    },
}

/// Why a draw gives no items.
#[derive(Debug, Drop, Error)]
pub enum DrawFault {
    /// [`MOST_DRAWS`](crate::MOST_DRAWS), which are entered already.
    #[error("{0} draws are entered, the most")]
    DrawsFull(u64),
    /// Out of memory.
    #[error("out of memory")]
    NoMemory,
}

impl From<AllocError> for DrawFault {
    ghost from_gives = { λ _ e. e ≡ NoMemoryToDraw };

    fn from(_e: AllocError) -> DrawFault {
        DrawFault::NoMemory
    }
}

/// Items to be sent next, in the cycle's order.
#[derive(Drop)]
pub struct Batch {
    /// The current generation at the draw.
    pub generation: Arc<Generation>,
    /// The first item's place in the cycle, from 0.
    pub first: u64,
    /// At least one.
    pub items: Vec<Item>,
}
