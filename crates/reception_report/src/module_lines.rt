//! The lines of modules.

ghost use Rattle.std.specs.Prelude.{◌≡◌, ◌≤◌, ◌++◌, ◌∷◌, if◌then◌else◌, IfOk};
ghost use Rattle.std.specs.String.{string_bytes};
ghost use Rattle.oc_bytes.specs.Outcome.{Spells, AddsText};
ghost use Rattle.reception_report.specs.Missing as missing;
ghost use Rattle.reception_report.specs.Inner.Missing as inner;
ghost use Rattle.reception_report.specs.Telling as telling;

use crate::lines::numbers_line;
use module_cache::{Line, Slot, Stored};
use oc_bytes::NoMemory;
use std::alloc::Global;

/// The line of a module that a held DII lists.
pub(crate) fn module_line(alloc: Global, line: &Line) -> Result<String, NoMemory>
    ensures { Spells result (telling.module_line line.now) }
{
    let there = there_text(alloc, &line.stored)?;
    numbers_line(
        alloc,
        &[
            ("module", u64::from(line.line.id)),
            (" version", u64::from(line.line.version)),
            (" size", u64::from(line.line.size)),
            (" blocks", u64::from(count_there(&line.stored))),
            (" of", u64::from(line.stored.block_count())),
        ],
        there.as_str(),
    )
}

/// How many blocks of a module are there.
fn count_there(stored: &Stored) -> u32
    ensures { result ≡ missing.count_there stored.now }
{
    let mut count = 0;
    for block in 0..stored.block_count() {
        count += one_where(stored.is_there(block as u16));
    }
    count
}

fn one_where(there: bool) -> u32
    ensures one { result ≡ (if there then 1 else 0) }
    ensures few { result ≤ 1 }
{
    if there { 1 } else { 0 }
}

/// What is there of a module.
fn there_text(alloc: Global, stored: &Stored) -> Result<String, NoMemory>
    ensures { Spells result (telling.there_text stored.now) }
{
    match stored.slot() {
        Slot::Whole(_) => String::from_str(alloc, " whole"),
        Slot::Compressed => String::from_str(alloc, " compressed"),
        Slot::Partial | Slot::Unlisted => missing_text(alloc, stored),
    }
}

/// The numbers of the blocks that are missing, as runs.
fn missing_text(alloc: Global, stored: &Stored) -> Result<String, NoMemory>
    ensures { Spells result (telling.missing_text stored.now) }
{
    let mut text = String::from_str(alloc, " missing")?;
    let mut begun = None;
    let blocks = stored.block_count();
    for block in 0..blocks {
        begun = step(
            alloc,
            &mut text,
            begun,
            block,
            stored.is_there(block as u16),
        )?;
    }
    step(alloc, &mut text, begun, blocks, true)?;
    Ok(text)
}

/// Goes on by one block: where one that is missing begins a run, or one that is there ends it,
/// which is added then.
fn step(
    alloc: Global,
    text: &mut String,
    begun: Option<u32>,
    block: u32,
    there: bool,
) -> Result<Option<u32>, NoMemory>
    requires { inner.IsBegun begun block }
    ensures text { IfOk result (λ next.
        string_bytes text.new ≡ string_bytes text.old ++ inner.ended_text begun block there) }
    ensures begun { IfOk result (λ next. next ≡ missing.begun_after begun block there) }
{
    match (begun, there) {
        (None, false) => Ok(Some(block)),
        (Some(first), true) => {
            push_run(alloc, text, first, block - 1)?;
            Ok(None)
        }
        (begun, _) => Ok(begun),
    }
}

/// Adds a run of numbers after a space.
fn push_run(alloc: Global, text: &mut String, first: u32, last: u32) -> Result<(), NoMemory>
    ensures { AddsText result text.old text.new (32 ∷ missing.run_text (first, last)) }
{
    let run = if first == last {
        format!(in alloc; " {first}")?
    } else {
        format!(in alloc; " {first}-{last}")?
    };
    text.push_str(run.as_str())
}
