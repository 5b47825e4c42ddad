//! The values that single words stand for.

ghost use Rattle.std.specs.Prelude.{◌≡◌, ◌≤◌, ◌<◌, length, IfOk, IfSome};
ghost use Rattle.std.specs.String.{string_bytes};
ghost use Rattle.oc_bytes.specs.Outcome.{Gives};
ghost use Rattle.shell_words.specs.Values.{word_bytes};
ghost use Rattle.oc_bytes.specs.Decimals as decimals;
ghost use Rattle.shell_words.specs.Values as values;
ghost use Rattle.shell_words.specs.Words as commands;

use crate::words::WordsFault;
use path_tree::{Path, PathFault};
use std::alloc::Global;

/// The greatest PID of a stream; 8,191 is stuffing's (ISO/IEC 13818-1, 2.4.3.3).
pub const MOST_PID: u32 = carousel_profile::MOST_PID as u32;

/// The most paths that are watched.
pub const MOST_WATCHED: usize = 1_024;

/// Whether a word begins with `-`.
pub fn begins_with_dash(word: &String) -> bool
    ensures { result ≡ values.begins_with_dash (string_bytes word.now) }
{
    word.as_bytes().first() == Some(&b'-')
}

/// The PID that a text spells.
pub fn pid(text: &str) -> Option<u16>
    ensures value { result ≡ values.pid_in text.now }
    ensures bound { IfSome result (λ pid. pid ≤ MOST_PID) }
{
    let pid = oc_bytes::decimal(text.as_bytes(), 0, MOST_PID)?;
    Some(pid as u16)
}

/// The number that a word spells, from `least` to `greatest`.
pub fn decimal(word: &String, least: u32, greatest: u32) -> Option<u32>
    ensures value { result ≡ decimals.decimal_in least greatest (string_bytes word.now) }
    ensures least { IfSome result (λ n. least ≤ n) }
    ensures greatest { IfSome result (λ n. n ≤ greatest) }
{
    oc_bytes::decimal(word.as_bytes(), least, greatest)
}

/// The paths of one or more words.
pub fn paths(alloc: Global, words: &[String]) -> Result<Vec<Path>, WordsFault>
    requires { 0 < length words.now }
    ensures { Gives (λ paths. paths.items) commands.cause result
        (commands.or_misfit (values.paths_in (word_bytes words.now))) }
{
    let mut paths = Vec::new(alloc);
    for word in words {
        paths.push(path(alloc, word)?)?;
    }
    Ok(paths)
}

/// The paths of 1 to [`MOST_WATCHED`] words.
pub fn watched(alloc: Global, words: &[String]) -> Result<Vec<Path>, WordsFault>
    requires { 0 < length words.now }
    ensures gives { Gives (λ paths. paths.items) commands.cause result
        (commands.or_misfit (values.watched_in (word_bytes words.now))) }
    ensures few { IfOk result (λ paths. length paths.items ≤ MOST_WATCHED) }
{
    if words.len() <= MOST_WATCHED {
        paths(alloc, words)
    } else {
        Err(WordsFault::Words)
    }
}

fn path(alloc: Global, word: &String) -> Result<Path, WordsFault>
    ensures { Gives (λ path. path) commands.cause result
        (commands.or_misfit (values.path_in (string_bytes word.now))) }
{
    match Path::parse(alloc, word.as_bytes()) {
        Ok(path) => Ok(path),
        Err(PathFault::NoMemory) => Err(WordsFault::NoMemory),
        Err(_) => Err(WordsFault::Words),
    }
}

/// Any word but the empty one.
pub fn folder(alloc: Global, word: &String) -> Result<String, WordsFault>
    ensures { Gives string_bytes commands.cause result
        (commands.or_misfit (values.folder_in (string_bytes word.now))) }
{
    if word.is_empty() {
        return Err(WordsFault::Words);
    }
    Ok(String::from_str(alloc, word.as_str())?)
}
