use crate::places::Complaint;
use path_tree::{Name, Path};
use std::alloc::{AllocError, AllocFailed};
use thiserror::Error;

/// A command with the values of its words.
#[derive(Drop)]
pub enum Command {
    /// `assemble ID VERSION SIZE DOWNLOAD`: a module out of sections. A 16-bit id, an 8-bit
    /// version, a size in bytes, at most [`block_assembler::MOST_MODULE_SIZE`], and a download's
    /// 32-bit id.
    Assemble {
        id: u16,
        version: u8,
        size: u32,
        download: u32,
    },
    /// `open sections PATH..`: answers out of sections.
    OpenSections(Vec<Path>),
    /// `open PID PATH..`: answers out of packets; PIDs are 0 to 8,190.
    Open(u16, Vec<Path>),
    /// `record PID`: the sections in packets.
    Record(u16),
    /// `list PID`: every path.
    List(u16),
    /// `publish FOLDER CAROUSEL CYCLES`: packets of a folder, named by at least a byte. Any 32-bit
    /// id, and 1 to 1,000 cycles.
    Publish(String, u32, u32),
    /// `rehearse`: a script's events, one after another.
    Rehearse,
    /// `session`: a script's events, by many threads.
    Session,
    /// `big N`: a generated session of this size, 1 to 16.
    Big(u32),
    /// `find CAROUSEL`: the PID of the carousel of this id.
    Find(u32),
    /// `open-id CAROUSEL PATH..`: answers from the carousel of this id.
    OpenId(u32, Vec<Path>),
    /// `publish-psi FOLDER CAROUSEL CYCLES`: `publish`, and tables that name the carousel.
    PublishPsi(String, u32, u32),
    /// `publish-on PID FOLDER CAROUSEL CYCLES`: `publish` on a PID.
    PublishOn(u16, String, u32, u32),
    /// `mounts TABLE PATH..`: answers from several carousels. Names are 1 to
    /// [`MOST_MOUNT_NAME`](crate::MOST_MOUNT_NAME) lower case letters or digits, and may be here
    /// twice, as PIDs may.
    Mounts(Vec<(Name, u16)>, Vec<Path>),
    /// `watch PID PATH..`: the changes of at most [`MOST_WATCHED`](crate::MOST_WATCHED) paths'
    /// answers, repeated ones included.
    Watch(u16, Vec<Path>),
    /// `plan FOLDER CAROUSEL BITRATE`: what `publish` would send, at 1 to 4,294,967,295 bits a
    /// second.
    Plan(String, u32, u32),
    /// `inspect PID`: what a receiver holds and passed over.
    Inspect(u16),
    /// `extract PID FOLDER`: files into a new folder, named by at least a byte.
    Extract(u16, String),
    /// `air PID FOLDER CAROUSEL CYCLES`: a folder on the air, for 1 to 4,294,967,295 cycles.
    Air(u16, String, u32, u32),
    /// `why WORDS..`: what is wrong with other words.
    Why(Complaint),
}

/// Why there is no command.
#[derive(Clone, Copy, Debug, PartialEq, Eq, Error)]
pub enum WordsFault {
    /// The words fit no command.
    #[error("the words are no command with its values")]
    Words,
    /// Memory ran out.
    #[error("out of memory")]
    NoMemory,
}

impl From<AllocError> for WordsFault {
    ghost use Rattle.std.specs.Prelude.{◌≡◌};
    ghost use Rattle.shell_words.specs.declared.words.WordsFault.TheVariants.{NoMemory};

    ghost from_gives = { λ _ e. e ≡ NoMemory };

    fn from(_error: AllocError) -> WordsFault {
        WordsFault::NoMemory
    }
}

impl<T: Drop> From<AllocFailed<T>> for WordsFault {
    ghost use Rattle.std.specs.Prelude.{◌≡◌};
    ghost use Rattle.shell_words.specs.declared.words.WordsFault.TheVariants.{NoMemory};

    ghost from_gives = { λ _ e. e ≡ NoMemory };

    fn from(_error: AllocFailed<T>) -> WordsFault {
        WordsFault::NoMemory
    }
}
