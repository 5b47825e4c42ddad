use std::alloc::AllocError;
use thiserror::Error;

/// Why mounts make no table: the first mount that breaks a rule, by its place from 0, and the first
/// such rule in this order.
#[derive(Clone, Copy, Debug, PartialEq, Eq, Error)]
pub enum TableFault {
    /// There are more than [`MOST_MOUNTS`](crate::MOST_MOUNTS) mounts, whatever they are.
    #[error("more than 16 mounts")]
    TooMany,
    /// The name isn't 1 to [`MOST_NAME`](crate::MOST_NAME) lower case letters or digits.
    #[error("mount {0}: the name isn't 1 to 32 lower case letters or digits")]
    BadName(usize),
    /// The PID is above [`MOST_PID`](crate::MOST_PID).
    #[error("mount {0}: the PID is above 8190")]
    BadPid(usize),
    /// An earlier mount has the name.
    #[error("mount {0}: an earlier mount has the name")]
    NameTwice(usize),
    /// An earlier mount has the PID.
    #[error("mount {0}: an earlier mount has the PID")]
    PidTwice(usize),
    /// There is no memory.
    #[error("out of memory")]
    NoMemory,
}

impl From<AllocError> for TableFault {
    ghost use Rattle.std.specs.Prelude.{◌≡◌};
    ghost use Rattle.mount_table.specs.declared.fault.TableFault.TheVariants.{NoMemory};

    ghost from_gives = { λ _ e. e ≡ NoMemory };

    fn from(_error: AllocError) -> TableFault {
        TableFault::NoMemory
    }
}
