ghost use Rattle.std.specs.Prelude.{◌≡◌, ◌++◌, List, IfOk};
ghost use Rattle.generation.specs.Lawful.{IsPublishable};
ghost use Rattle.folder_playout.specs.Readings.{Reading, reading_in};

use folder_store::TreeFault;
use generation::Publishable;
use std::alloc::AllocError;
use thiserror::Error;

/// Why there is no tree. Texts of paths begin with `/`, which alone is the folder itself.
#[derive(Debug, Drop, Error)]
pub enum Unread {
    /// The outside failed, or the folder isn't there. The path is the last one tried.
    #[error("{0} could not be read")]
    Failed(String),
    /// The tree can't be sent. The path at fault is given if the refusal lacks it.
    #[error("the tree is refused: {0}")]
    Refused(TreeFault, Option<String>),
    /// Memory ran out.
    #[error("out of memory")]
    NoMemory,
}

impl From<AllocError> for Unread {
    ghost use Rattle.std.specs.Prelude.{◌≡◌};
    ghost use Rattle.folder_playout.specs.declared.reading.Unread.TheVariants as unread;

    ghost from_gives = { λ _ e. e ≡ unread.NoMemory };

    fn from(_error: AllocError) -> Unread {
        Unread::NoMemory
    }
}

impl Unread {
    ghost use Rattle.folder_playout.specs.Readings.{is_no_memory as lacks_memory};

    pub(crate) fn is_no_memory(&self) -> bool
        ensures { result ≡ lacks_memory self.now }
    {
        matches!(self, Unread::NoMemory)
    }
}

/// Where trees come from.
pub trait Trees {
    ghost use Rattle.std.specs.Prelude.{List};
    ghost use Rattle.folder_playout.specs.Readings.{Reading};

    /// From the first value to the second exactly these answers were given, in order.
    ghost answered: { Self → Self → List Reading → Type 0 };

    /// The tree that is there now. Earlier readings have no part in it.
    fn read(&mut self) -> Result<Publishable, Unread>
        ensures publishable { IfOk result IsPublishable }
        ensures answered { (start : Self) (before : List Reading)
            → answered start self.old before
            → answered start self.new (before ++ reading_in result) };
}
