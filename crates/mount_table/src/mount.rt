ghost use Rattle.std.specs.Prelude.{◌≡◌, slice_get};
ghost use Rattle.std.specs.List.{list_all};
ghost use Rattle.path_tree.specs.Paths.{name_cmp, same_name};
ghost use Rattle.mount_table.specs.Mounts as table;
ghost use Rattle.mount_table.specs.Mounts.{fault_at, refusal_of, IsTableOf};

use crate::fault::TableFault;
use carousel_profile::MOST_PID;
use path_tree::Name;
use std::cmp::Ordering;

/// The most mounts of a table.
pub const MOST_MOUNTS: usize = 16;

/// The most bytes of a mount's name.
pub const MOST_NAME: usize = 32;

/// A carousel under a name.
#[derive(Debug, Drop)]
pub struct Mount {
    /// The first name of each path on it: in a table 1 to [`MOST_NAME`] lower case letters or
    /// digits.
    pub name: Name,
    /// The PID of its packets: in a table 0 to [`MOST_PID`].
    pub pid: u16,
}

impl Mount {
    /// Whether the mount has this name.
    pub fn is_named(&self, name: &[u8]) -> bool
        ensures { result ≡ same_name self.now.name name.now }
    {
        self.name.bytes() == name
    }

    fn compare(&self, other: &Mount) -> Ordering
        ensures { result ≡ name_cmp self.now.name other.now.name }
    {
        self.name.bytes().cmp(&other.name.bytes())
    }
}

fn is_letter_or_digit(byte: u8) -> bool
    ensures { result ≡ table.is_letter_or_digit byte }
{
    byte.is_ascii_lowercase() || byte.is_ascii_digit()
}

fn are_letters_or_digits(bytes: &[u8]) -> bool
    ensures { result ≡ list_all table.is_letter_or_digit bytes.now }
{
    bytes.iter().all(|byte| is_letter_or_digit(*byte))
}

fn is_mount_name(name: &[u8]) -> bool
    ensures { result ≡ table.is_mount_name name.now }
{
    !name.is_empty() && name.len() <= MOST_NAME && are_letters_or_digits(name)
}

fn has_name(mounts: &[Mount], name: &[u8]) -> bool
    ensures { result ≡ table.has_name name.now mounts.now }
{
    mounts.iter().any(|mount| mount.is_named(name))
}

fn has_pid(mounts: &[Mount], pid: u16) -> bool
    ensures { result ≡ table.has_pid pid mounts.now }
{
    mounts.iter().any(|mount| mount.pid == pid)
}

fn fault_of(place: usize, earlier: &[Mount], mount: &Mount) -> Option<TableFault>
    ensures { result ≡ fault_at place earlier.now mount.now }
{
    if !is_mount_name(mount.name.bytes()) {
        Some(TableFault::BadName(place))
    } else if mount.pid > MOST_PID {
        Some(TableFault::BadPid(place))
    } else if has_name(earlier, mount.name.bytes()) {
        Some(TableFault::NameTwice(place))
    } else if has_pid(earlier, mount.pid) {
        Some(TableFault::PidTwice(place))
    } else {
        None
    }
}

/// Why these mounts make no table.
pub fn refusal(mounts: &[Mount]) -> Option<TableFault>
    ensures { result ≡ refusal_of mounts.now }
{
    if mounts.len() > MOST_MOUNTS {
        return Some(TableFault::TooMany);
    }
    first_fault(mounts)
}

fn first_fault(mounts: &[Mount]) -> Option<TableFault>
    ensures { result ≡ slice_get (table.faults_of mounts.now) 0 }
{
    for (place, mount) in mounts.iter().enumerate() {
        if let Some(fault) = fault_of(place, &mounts[..place], mount) {
            return Some(fault);
        }
    }
    None
}

/// Sorts mounts by name.
pub fn sort_by_name(mounts: &mut [Mount])
    ensures { IsTableOf mounts.old mounts.new }
{
    mounts.sort_unstable_by(|mount, other| mount.compare(other));
}
