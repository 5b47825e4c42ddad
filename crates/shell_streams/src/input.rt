ghost use Rattle.std.specs.Prelude.{◌≡◌};

use oc_bytes::Failed;
use std::alloc::AllocError;
use thiserror::Error;

/// Why an input wasn't taken to its end.
#[derive(Clone, Copy, Debug, PartialEq, Eq, Error)]
pub enum InputFault {
    /// The source failed.
    #[error("the read failed")]
    Failed,
    /// The input goes on after the most that is taken.
    #[error("the input is too long")]
    TooLong,
    /// There was no memory.
    #[error("out of memory")]
    NoMemory,
}

impl From<Failed> for InputFault {
    ghost use Rattle.shell_streams.specs.declared.input.InputFault.TheVariants as faults;

    ghost from_gives = { λ _ f. f ≡ faults.Failed };

    fn from(_e: Failed) -> InputFault {
        InputFault::Failed
    }
}

impl From<AllocError> for InputFault {
    ghost use Rattle.shell_streams.specs.declared.input.InputFault.TheVariants as faults;

    ghost from_gives = { λ _ f. f ≡ faults.NoMemory };

    fn from(_e: AllocError) -> InputFault {
        InputFault::NoMemory
    }
}
