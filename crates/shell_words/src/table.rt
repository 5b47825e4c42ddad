//! The word that names carousels and their PIDs.

ghost use Rattle.std.specs.Prelude.{◌≡◌, ◌≤◌, true, length, option_map, IfOk, IfSome};
ghost use Rattle.std.specs.List.{list_all};
ghost use Rattle.oc_bytes.specs.Outcome.{Gives};
ghost use Rattle.shell_words.specs.Values as values;
ghost use Rattle.shell_words.specs.Words as commands;

use crate::values::pid;
use crate::words::WordsFault;
use path_tree::Name;
use std::alloc::Global;

/// The most bytes of a name in a table.
pub const MOST_MOUNT_NAME: usize = 32;

/// One or more of NAME=PID, with commas between.
pub fn table(alloc: Global, word: &str) -> Result<Vec<(Name, u16)>, WordsFault>
    ensures gives { Gives (λ table. table.items) commands.cause result
        (commands.or_misfit (values.table_in word.now)) }
    ensures ranges { IfOk result (λ table. values.IsTable table.items) }
{
    let mut table = Vec::new(alloc);
    for text in word.split(',') {
        let entry = entry(alloc, text)?;
        table.push(entry)?;
    }
    Ok(table)
}

fn entry(alloc: Global, text: &str) -> Result<(Name, u16), WordsFault>
    ensures gives { Gives (λ entry. entry) commands.cause result
        (commands.or_misfit (values.entry_in text.now)) }
    ensures ranges { IfOk result values.IsEntry }
{
    let Some((name, pid)) = parts(text) else {
        return Err(WordsFault::Words);
    };
    let bytes = Vec::from_slice(alloc, name.as_bytes())?;
    Ok((Name::new(bytes), pid))
}

/// Split at the first equals sign.
fn parts(text: &str) -> Option<(&str, u16)>
    ensures value { values.entry_in text.now ≡ option_map (λ p. (p.0.now, p.1)) result }
    ensures ranges { IfSome result (λ p. values.IsEntry (p.0.now, p.1)) }
    ensures short { IfSome result (λ p. length p.0.now ≤ MOST_MOUNT_NAME) }
{
    let (name, behind) = text.split_once('=')?;
    if !is_mount_name(name.as_bytes()) {
        return None;
    }
    Some((name, pid(behind)?))
}

/// 1 to [`MOST_MOUNT_NAME`] lower case letters or digits.
fn is_mount_name(name: &[u8]) -> bool
    ensures value { result ≡ values.is_mount_name name.now }
    ensures short { result ≡ true → length name.now ≤ MOST_MOUNT_NAME }
{
    !name.is_empty() && name.len() <= MOST_MOUNT_NAME && are_lower_or_digits(name)
}

fn are_lower_or_digits(text: &[u8]) -> bool
    ensures { result ≡ list_all values.is_lower_or_digit text.now }
{
    text.iter()
        .all(|byte| byte.is_ascii_lowercase() || byte.is_ascii_digit())
}
