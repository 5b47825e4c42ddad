ghost use Rattle.std.specs.Prelude.{◌≡◌, ◌≤◌, length, IfOk, IfSome};
ghost use Rattle.std.specs.String.{string_bytes};
ghost use Rattle.std.specs.Option.{option_map};
ghost use Rattle.std.specs.List.{list_any};
ghost use Rattle.oc_bytes.specs.Outcome.{Gives};
ghost use Rattle.shell_words.specs.Values.{word_bytes};
ghost use Rattle.shell_words.specs.Words as commands;
ghost use Rattle.shell_words.specs.Inner.Words as inner;
ghost use Rattle.shell_words.specs.Inner.Keywords.{words_by};
ghost use Rattle.shell_words.specs.Inner.Counting.{Fits};

use crate::counting::count;
use crate::keyword::Keyword;
use crate::places::{asks_why, first_complaint};
use crate::table::table;
use crate::values;
use crate::values::{MOST_PID, begins_with_dash};
use crate::words::{Command, WordsFault};
use block_assembler::MOST_MODULE_SIZE;
use std::alloc::Global;

/// The most cycles of one publication.
pub const MOST_CYCLES: u32 = 1_000;

/// The most cycles of a folder on the air.
pub const MOST_AIR_CYCLES: u32 = u32::MAX;

/// The most bits a second.
pub const MOST_BITRATE: u32 = u32::MAX;

/// The greatest size of a generated session.
pub const MOST_BIG: u32 = 16;

/// The command that the words name, the program's name left out, with its values.
///
/// Only behind `why` may a word begin with `-`. Numbers are decimal digits without sign or leading
/// zeros, in the ranges of [`Command`](crate::Command). A folder has at least one byte, a path is
/// as `Path::parse` takes it, and a table is NAME=PID, with commas between several.
pub fn command(alloc: Global, words: &[String]) -> Result<Command, WordsFault>
    ensures gives { commands.ReadsAs result (commands.command_of (word_bytes words.now)) }
    ensures sized { IfOk result commands.IsSized }
{
    if asks_why(words) {
        Ok(Command::Why(first_complaint(alloc, &words[1..])?))
    } else {
        plain_command(alloc, words)
    }
}

/// Of any command but `why`.
fn plain_command(alloc: Global, words: &[String]) -> Result<Command, WordsFault>
    ensures gives { commands.ReadsAs result (commands.plain_command_of (word_bytes words.now)) }
    ensures sized { IfOk result commands.IsSized }
{
    if words.is_empty() || has_dash(words) {
        return Err(WordsFault::Words);
    }
    let Some(keyword) = Keyword::parse(words[0].as_str()) else {
        return Err(WordsFault::Words);
    };
    count(alloc, keyword, words)?;
    read(alloc, keyword, &words[1..])
}

fn has_dash(words: &[String]) -> bool
    ensures { result ≡ list_any (λ word. commands.begins_with_dash (string_bytes word)) words.now }
{
    words.iter().any(|word| begins_with_dash(word))
}

fn read(alloc: Global, keyword: Keyword, words: &[String]) -> Result<Command, WordsFault>
    requires { Fits keyword (length words.now) }
    ensures gives { commands.ReadsBy result (words_by keyword (word_bytes words.now)) }
    ensures sized { IfOk result commands.IsSized }
{
    match keyword {
        Keyword::Assemble => assemble(words).ok_or(WordsFault::Words),
        Keyword::Open => open(alloc, words),
        Keyword::Record => match only_pid(words) {
            Some(pid) => Ok(Command::Record(pid)),
            None => Err(WordsFault::Words),
        },
        Keyword::List => match only_pid(words) {
            Some(pid) => Ok(Command::List(pid)),
            None => Err(WordsFault::Words),
        },
        Keyword::Publish => {
            let (folder, carousel, cycles) = publication(alloc, words, MOST_CYCLES)?;
            Ok(Command::Publish(folder, carousel, cycles))
        }
        Keyword::Rehearse => Ok(Command::Rehearse),
        Keyword::Session => Ok(Command::Session),
        Keyword::Big => big(words).ok_or(WordsFault::Words),
        Keyword::Find => find(words).ok_or(WordsFault::Words),
        Keyword::OpenId => open_id(alloc, words),
        Keyword::PublishPsi => {
            let (folder, carousel, cycles) = publication(alloc, words, MOST_CYCLES)?;
            Ok(Command::PublishPsi(folder, carousel, cycles))
        }
        Keyword::PublishOn => publish_on(alloc, words),
        Keyword::Mounts => mounts(alloc, words),
        Keyword::Watch => watch(alloc, words),
        Keyword::Plan => {
            let (folder, carousel, bitrate) = publication(alloc, words, MOST_BITRATE)?;
            Ok(Command::Plan(folder, carousel, bitrate))
        }
        Keyword::Inspect => match only_pid(words) {
            Some(pid) => Ok(Command::Inspect(pid)),
            None => Err(WordsFault::Words),
        },
        Keyword::Extract => extract(alloc, words),
        Keyword::Air => air(alloc, words),
    }
}

fn assemble(words: &[String]) -> Option<Command>
    requires { length words.now ≡ 4 }
    ensures by { option_map commands.view result ≡ commands.assemble_by (word_bytes words.now) }
    ensures sized { IfSome result commands.IsSized }
{
    let [id, version, size, download] = words else {
        unreachable!();
    };
    let id = values::decimal(id, 0, 65_535)?;
    let version = values::decimal(version, 0, 255)?;
    let size = values::decimal(size, 0, MOST_MODULE_SIZE)?;
    let download = values::decimal(download, 0, u32::MAX)?;
    Some(Command::Assemble {
        id: id as u16,
        version: version as u8,
        size,
        download,
    })
}

fn open(alloc: Global, words: &[String]) -> Result<Command, WordsFault>
    requires { 2 ≤ length words.now }
    ensures gives { commands.ReadsBy result (commands.open_by (word_bytes words.now)) }
    ensures sized { IfOk result commands.IsSized }
{
    if words[0].as_str() == "sections" {
        let paths = values::paths(alloc, &words[1..])?;
        return Ok(Command::OpenSections(paths));
    }
    let Some(pid) = values::pid(words[0].as_str()) else {
        return Err(WordsFault::Words);
    };
    let paths = values::paths(alloc, &words[1..])?;
    Ok(Command::Open(pid, paths))
}

fn only_pid(words: &[String]) -> Option<u16>
    requires { length words.now ≡ 1 }
    ensures by { result ≡ commands.pid_by (word_bytes words.now) }
    ensures bound { IfSome result (λ pid. pid ≤ MOST_PID) }
{
    let [pid] = words else {
        unreachable!();
    };
    values::pid(pid.as_str())
}

/// The number is 1 to `greatest`.
fn publication(
    alloc: Global,
    words: &[String],
    greatest: u32,
) -> Result<(String, u32, u32), WordsFault>
    requires { length words.now ≡ 3 }
    ensures gives { Gives inner.publication_view commands.cause result
        (commands.or_misfit (commands.publication_in greatest (word_bytes words.now))) }
    ensures sized { IfOk result (λ p. commands.IsPublication greatest (string_bytes p.0) p.2) }
{
    let [folder, carousel, number] = words else {
        unreachable!();
    };
    let Some(carousel) = values::decimal(carousel, 0, u32::MAX) else {
        return Err(WordsFault::Words);
    };
    let Some(number) = values::decimal(number, 1, greatest) else {
        return Err(WordsFault::Words);
    };
    let folder = values::folder(alloc, folder)?;
    Ok((folder, carousel, number))
}

fn publish_on(alloc: Global, words: &[String]) -> Result<Command, WordsFault>
    requires { length words.now ≡ 4 }
    ensures gives { commands.ReadsBy result (commands.publish_on_by (word_bytes words.now)) }
    ensures sized { IfOk result commands.IsSized }
{
    let Some(pid) = values::pid(words[0].as_str()) else {
        return Err(WordsFault::Words);
    };
    let (folder, carousel, cycles) = publication(alloc, &words[1..], MOST_CYCLES)?;
    Ok(Command::PublishOn(pid, folder, carousel, cycles))
}

fn air(alloc: Global, words: &[String]) -> Result<Command, WordsFault>
    requires { length words.now ≡ 4 }
    ensures gives { commands.ReadsBy result (commands.air_by (word_bytes words.now)) }
    ensures sized { IfOk result commands.IsSized }
{
    let Some(pid) = values::pid(words[0].as_str()) else {
        return Err(WordsFault::Words);
    };
    let (folder, carousel, cycles) = publication(alloc, &words[1..], MOST_AIR_CYCLES)?;
    Ok(Command::Air(pid, folder, carousel, cycles))
}

fn extract(alloc: Global, words: &[String]) -> Result<Command, WordsFault>
    requires { length words.now ≡ 2 }
    ensures gives { commands.ReadsBy result (commands.extract_by (word_bytes words.now)) }
    ensures sized { IfOk result commands.IsSized }
{
    let [pid, folder] = words else {
        unreachable!();
    };
    let Some(pid) = values::pid(pid.as_str()) else {
        return Err(WordsFault::Words);
    };
    let folder = values::folder(alloc, folder)?;
    Ok(Command::Extract(pid, folder))
}

fn mounts(alloc: Global, words: &[String]) -> Result<Command, WordsFault>
    requires { 2 ≤ length words.now }
    ensures gives { commands.ReadsBy result (commands.mounts_by (word_bytes words.now)) }
    ensures sized { IfOk result commands.IsSized }
{
    let table = table(alloc, words[0].as_str())?;
    let paths = values::paths(alloc, &words[1..])?;
    Ok(Command::Mounts(table, paths))
}

fn watch(alloc: Global, words: &[String]) -> Result<Command, WordsFault>
    requires { 2 ≤ length words.now }
    ensures gives { commands.ReadsBy result (commands.watch_by (word_bytes words.now)) }
    ensures sized { IfOk result commands.IsSized }
{
    let Some(pid) = values::pid(words[0].as_str()) else {
        return Err(WordsFault::Words);
    };
    let paths = values::watched(alloc, &words[1..])?;
    Ok(Command::Watch(pid, paths))
}

fn find(words: &[String]) -> Option<Command>
    requires { length words.now ≡ 1 }
    ensures by { option_map commands.view result ≡ commands.find_by (word_bytes words.now) }
    ensures sized { IfSome result commands.IsSized }
{
    let [carousel] = words else {
        unreachable!();
    };
    let carousel = values::decimal(carousel, 0, u32::MAX)?;
    Some(Command::Find(carousel))
}

fn open_id(alloc: Global, words: &[String]) -> Result<Command, WordsFault>
    requires { 2 ≤ length words.now }
    ensures gives { commands.ReadsBy result (commands.open_id_by (word_bytes words.now)) }
    ensures sized { IfOk result commands.IsSized }
{
    let Some(carousel) = values::decimal(&words[0], 0, u32::MAX) else {
        return Err(WordsFault::Words);
    };
    let paths = values::paths(alloc, &words[1..])?;
    Ok(Command::OpenId(carousel, paths))
}

fn big(words: &[String]) -> Option<Command>
    requires { length words.now ≡ 1 }
    ensures by { option_map commands.view result ≡ commands.big_by (word_bytes words.now) }
    ensures sized { IfSome result commands.IsSized }
{
    let [size] = words else {
        unreachable!();
    };
    let size = values::decimal(size, 1, MOST_BIG)?;
    Some(Command::Big(size))
}
