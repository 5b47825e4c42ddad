ghost use Rattle.std.specs.Prelude.{◌≡◌, IfOk};
ghost use Rattle.std.specs.String.{string_bytes};
ghost use Rattle.std.specs.Option.{option_map};
ghost use Rattle.oc_bytes.specs.Outcome.{Spells};
ghost use Rattle.receiver_commands.specs.Statuses.{code_of, line_of, script_text as text_of_script, tree_text as text_of_tree};

use folder_store::{ReadTree, TreeFault};
use generation_catalogue::CommitFault;
use mount_table::TableFault;
use oc_bytes::NoMemory;
use reception_report::{SyncPlace, sync_text};
use session_script::{LineCause, ScriptFault};
use shell_streams::{InputFault, OutputFault};
use shell_words::{WordsFault, refusal_text};
use std::alloc::{AllocError, Global};

/// How a command ended.
#[derive(Drop)]
pub enum Status {
    /// All was read and written. `why`: some word doesn't fit.
    Done,
    /// Some answer isn't found, or a limit or a name cut `list` or `extract` short. `find`: no PID.
    /// `plan`: the folder can't be published. `why`: the words fit.
    NotAll,
    /// `inspect`: where the sync byte is instead.
    NotPackets(SyncPlace),
    /// The words name no command with its values, or the table of `mounts` is refused.
    Words,
    /// `rehearse`: the first line that doesn't fit, from 1, at most the greatest `u32`, and its
    /// first cause.
    BadLine(u32, LineCause),
    /// The source failed.
    ReadFault,
    /// The sink failed.
    WriteFault,
    /// The folders or the store failed, the named folder is none, or something is in `extract`'s
    /// way.
    FolderFault,
    /// The folder makes no tree that can be sent. `air`: or the season is full.
    TreeRefused(TreeFault),
    /// The input goes on after the most that the command takes.
    InputTooLong,
    /// Memory ran out.
    NoMemory,
    /// The least number of a missing block, 0 to 4,142.
    Incomplete(u32),
}

impl Status {
    /// The exit status of the program, 0 to 10.
    pub fn code(&self) -> u8
        ensures { result ≡ code_of self.now }
    {
        match self {
            Status::Done => 0,
            Status::NotAll | Status::NotPackets(_) => 1,
            Status::Words => 2,
            Status::BadLine(..) => 3,
            Status::ReadFault => 4,
            Status::WriteFault => 5,
            Status::FolderFault => 6,
            Status::TreeRefused(_) => 7,
            Status::InputTooLong => 8,
            Status::NoMemory => 9,
            Status::Incomplete(_) => 10,
        }
    }

    /// The line for standard error, without its line feed; none for `Done` and `NotAll`.
    pub fn line(&self, alloc: Global) -> Result<Option<String>, NoMemory>
        ensures { IfOk result (λ line. option_map string_bytes line ≡ line_of self.now) }
    {
        let text = match self {
            Status::Done | Status::NotAll => return Ok(None),
            Status::NotPackets(place) => {
                let text = sync_text(alloc, *place)?;
                let text = text.as_str();
                format!(in alloc; "carousel: {text}")?
            }
            Status::Words => String::from_str(alloc, "carousel: bad words")?,
            Status::BadLine(number, cause) => {
                let text = script_text(alloc, *number, *cause)?;
                let text = text.as_str();
                format!(in alloc; "carousel: {text}")?
            }
            Status::ReadFault => String::from_str(alloc, "carousel: read fault")?,
            Status::WriteFault => String::from_str(alloc, "carousel: write fault")?,
            Status::FolderFault => String::from_str(alloc, "carousel: folder fault")?,
            Status::TreeRefused(fault) => {
                let text = tree_text(alloc, fault)?;
                let text = text.as_str();
                format!(in alloc; "carousel: tree refused: {text}")?
            }
            Status::InputTooLong => String::from_str(alloc, "carousel: input too long")?,
            Status::NoMemory => String::from_str(alloc, "carousel: no memory")?,
            Status::Incomplete(block) => format!(in alloc; "carousel: block {block} is missing")?,
        };
        Ok(Some(text))
    }
}

fn script_text(alloc: Global, number: u32, cause: LineCause) -> Result<String, NoMemory>
    ensures { Spells result (text_of_script number cause) }
{
    let cause = cause.to_string(alloc)?;
    let mut text = format!(in alloc; "script line {number}: ")?;
    text.push_str(cause.as_str())?;
    Ok(text)
}

fn tree_text(alloc: Global, fault: &TreeFault) -> Result<String, NoMemory>
    ensures { Spells result (text_of_tree fault.now) }
{
    match fault {
        TreeFault::TooDeep => String::from_str(alloc, "too-deep"),
        TreeFault::BadName => String::from_str(alloc, "bad-name"),
        TreeFault::Commit(refusal) => refusal_text(alloc, refusal),
    }
}

impl From<AllocError> for Status {
    ghost use Rattle.receiver_commands.specs.declared.status.Status.TheVariants as status;

    ghost from_gives = { λ _ s. s ≡ status.NoMemory };

    fn from(_e: AllocError) -> Status {
        Status::NoMemory
    }
}

impl From<WordsFault> for Status {
    ghost use Rattle.receiver_commands.specs.Statuses.{words_status};

    ghost from_gives = { λ fault s. s ≡ words_status fault };

    fn from(fault: WordsFault) -> Status {
        match fault {
            WordsFault::Words => Status::Words,
            WordsFault::NoMemory => Status::NoMemory,
        }
    }
}

impl From<InputFault> for Status {
    ghost use Rattle.receiver_commands.specs.Statuses.{input_status};

    ghost from_gives = { λ fault s. s ≡ input_status fault };

    fn from(fault: InputFault) -> Status {
        match fault {
            InputFault::Failed => Status::ReadFault,
            InputFault::TooLong => Status::InputTooLong,
            InputFault::NoMemory => Status::NoMemory,
        }
    }
}

impl From<OutputFault> for Status {
    ghost use Rattle.receiver_commands.specs.Statuses.{output_status};

    ghost from_gives = { λ fault s. s ≡ output_status fault };

    fn from(fault: OutputFault) -> Status {
        match fault {
            OutputFault::Failed => Status::WriteFault,
            OutputFault::NoMemory => Status::NoMemory,
        }
    }
}

impl From<ScriptFault> for Status {
    ghost use Rattle.receiver_commands.specs.Statuses.{script_status};

    ghost from_gives = { λ fault s. s ≡ script_status fault };

    fn from(fault: ScriptFault) -> Status {
        match fault {
            ScriptFault::BadLine(number, cause) => Status::BadLine(number, cause),
            ScriptFault::NoMemory => Status::NoMemory,
        }
    }
}

impl From<ReadTree> for Status {
    ghost use Rattle.receiver_commands.specs.Statuses.{walk_status};

    ghost from_gives = { λ fault s. s ≡ walk_status fault };

    fn from(fault: ReadTree) -> Status {
        match fault {
            ReadTree::FolderFault => Status::FolderFault,
            ReadTree::TooDeep => Status::TreeRefused(TreeFault::TooDeep),
            ReadTree::BadName => Status::TreeRefused(TreeFault::BadName),
            ReadTree::NoMemory => Status::NoMemory,
        }
    }
}

impl From<TableFault> for Status {
    ghost use Rattle.receiver_commands.specs.Statuses.{table_status};

    ghost from_gives = { λ fault s. s ≡ table_status fault };

    fn from(fault: TableFault) -> Status {
        match fault {
            TableFault::NoMemory => Status::NoMemory,
            TableFault::TooMany
            | TableFault::BadName(_)
            | TableFault::BadPid(_)
            | TableFault::NameTwice(_)
            | TableFault::PidTwice(_) => Status::Words,
        }
    }
}

impl From<CommitFault> for Status {
    ghost use Rattle.receiver_commands.specs.Statuses.{commit_status};

    ghost from_gives = { λ fault s. s ≡ commit_status fault };

    fn from(fault: CommitFault) -> Status {
        match fault {
            CommitFault::Refused(refusal) => Status::TreeRefused(TreeFault::Commit(refusal)),
            CommitFault::NoMemory => Status::NoMemory,
        }
    }
}
