//! The counts of a generated session.
ghost use Rattle.std.specs.Prelude.{◌≡◌, ◌+◌, ◌<◌, ◌^◌, ◌++◌, if◌then◌else◌, map, OnOk};
ghost use Rattle.std.specs.List.{sum};
ghost use Rattle.oc_bytes.specs.Outcome.{Spells, MakesList};
ghost use Rattle.carousel_world.specs.Events.{view};
ghost use Rattle.history_merge.specs.Merging.{known_view};
ghost use Rattle.history_merge.specs.Merged.{is_open_by};
ghost use Rattle.session.specs.Sessions.{accepted_in, is_accepted as is_accepted_by_name};
ghost use Rattle.carousel_shell.specs.Big as specs;
ghost use Rattle.carousel_shell.specs.Inner.Big as inner;

use carousel_world::{Event, Reply};
use oc_bytes::NoMemory;
use path_resolver::Answer;
use std::alloc::Global;

/// The first reader's opens before its finales.
const FIRST_OPENS: u64 = 64;

/// The line of a generated session of this size.
pub(crate) fn big_line(
    alloc: Global,
    size: u32,
    told: &[(Event, Reply)],
) -> Result<String, NoMemory>
    ensures { Spells result (specs.big_line size (map known_view told.now)) }
{
    let commits = accepted(told);
    let lengths = finale_lengths(alloc, told)?;
    let files = lengths.len();
    let bytes = total(&lengths);
    counts_line(alloc, size, commits, files, bytes)
}

fn counts_line(
    alloc: Global,
    size: u32,
    commits: u64,
    files: usize,
    bytes: u128,
) -> Result<String, NoMemory>
    ensures { Spells result (specs.counts_line size commits files bytes) }
{
    format!(in alloc; "big {size} editors {size} commits {commits} files {files} bytes {bytes}\n")
}

fn accepted(told: &[(Event, Reply)]) -> u64
    ensures { result ≡ accepted_in (map known_view told.now) }
{
    let mut commits = 0;
    for one in told {
        if is_accepted(&one.1) {
            commits += 1;
        }
    }
    commits
}

fn is_accepted(reply: &Reply) -> bool
    ensures { result ≡ is_accepted_by_name reply.now }
{
    matches!(reply, Reply::Committed(_))
}

/// The size in bytes of each file that a finale answered.
fn finale_lengths(alloc: Global, told: &[(Event, Reply)]) -> Result<Vec<u64>, NoMemory>
    ensures { MakesList result (specs.finale_lengths (map known_view told.now)) }
{
    let mut lengths = Vec::new(alloc);
    let mut opens = 0;
    for one in told {
        push_length(&mut lengths, opens, one)?;
        opens = opens_after(opens, &one.0);
    }
    Ok(lengths)
}

/// Only an open after the first reader's first [`FIRST_OPENS`] is a finale.
fn push_length(lengths: &mut Vec<u64>, opens: u64, one: &(Event, Reply)) -> Result<(), NoMemory>
    ensures { OnOk result
        (lengths.new.items ≡ lengths.old.items ++ inner.length_more opens (known_view one.now)) }
{
    if opens < FIRST_OPENS || !is_first(&one.0) {
        return Ok(());
    }
    match reply_length(&one.1) {
        Some(length) => {
            lengths.push(length)?;
            Ok(())
        }
        None => Ok(()),
    }
}

/// The first reader's opens, this event included.
fn opens_after(opens: u64, event: &Event) -> u64
    requires { opens + 1 < 2 ^ 64 }
    ensures { result ≡ opens + (if is_open_by 1 (view event.now) then 1 else 0) }
{
    if is_first(event) { opens + 1 } else { opens }
}

fn is_first(event: &Event) -> bool
    ensures { result ≡ is_open_by 1 (view event.now) }
{
    match event {
        Event::Open { reader, path: _ } => *reader == 1,
        _ => false,
    }
}

/// None unless a file is answered.
fn reply_length(reply: &Reply) -> Option<u64>
    ensures { result ≡ specs.reply_length reply.now }
{
    match reply {
        Reply::Opened { label: _, answer } => answer_length(answer),
        _ => None,
    }
}

fn answer_length(answer: &Answer) -> Option<u64>
    ensures { result ≡ specs.answer_length answer.now }
{
    match answer {
        Answer::File(file) => Some(file.bytes().len() as u64),
        _ => None,
    }
}

fn total(lengths: &[u64]) -> u128
    ensures { result ≡ sum lengths.now }
{
    let mut total: u128 = 0;
    for bytes in lengths {
        total += u128::from(*bytes);
    }
    total
}
