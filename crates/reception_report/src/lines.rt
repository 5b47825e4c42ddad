//! The lines of a report.

ghost use Rattle.std.specs.Prelude.{◌≡◌, ◌++◌, ◌∷◌, [], List, codes, length, option_map, IfOk, OnOk};
ghost use Rattle.std.specs.Fmt.{decimal};
ghost use Rattle.std.specs.List.{flat_map, fold};
ghost use Rattle.std.specs.String.{string_bytes};
ghost use Rattle.hex.specs.Hex.{encode_lower};
ghost use Rattle.oc_bytes.specs.Outcome.{cap_at_u64, Spells};
ghost use Rattle.path_tree.specs.Paths.{Bytes};
ghost use Rattle.path_resolver.specs.Shots.{held_of, view_gateway};
ghost use Rattle.shell_words.specs.Texts.{line};
ghost use Rattle.reception_report.specs.Outcomes.{CountsAre};
ghost use Rattle.reception_report.specs.Telling as telling;

use crate::outcome::{ALL_OUTCOMES, Outcome};
use crate::tally::Tally;
use ior_tap::Location;
use module_cache::Tuned;
use oc_bytes::NoMemory;
use path_resolver::{Gateway, Shot, home_of, resolve};
use path_tree::Path;
use section_stream::Counts;
use shell_words::answer_text;
use std::alloc::Global;

/// The line of the fifteen counts.
pub(crate) fn counts_line(alloc: Global, counts: &Counts) -> Result<String, NoMemory>
    ensures { Spells result (telling.counts_line counts.now) }
{
    numbers_line(
        alloc,
        &[
            ("packets", counts.packets),
            (" no-sync", counts.no_sync),
            (" errored", counts.errored),
            (" scrambled", counts.scrambled),
            (" reserved", counts.reserved),
            (" bad-field", counts.bad_field),
            (" other-pid", counts.other_pid),
            (" no-payload", counts.no_payload),
            (" duplicates", counts.duplicates),
            (" jumps", counts.jumps),
            (" orphans", counts.orphans),
            (" bad-pointer", counts.bad_pointer),
            (" cut", counts.cut),
            (" oversize", counts.oversize),
            (" short-tail", counts.short_tail),
        ],
        "",
    )
}

/// The line of names with their numbers, one after another, and of what follows them.
pub(crate) fn numbers_line(
    alloc: Global,
    numbers: &[(&str, u64)],
    rest: &str,
) -> Result<String, NoMemory>
    ensures { IfOk result (λ text.
        string_bytes text
        ≡ line (fold (λ text n. telling.with_field text n.0.now n.1) [] numbers.now ++ rest.now)) }
{
    let mut text = String::new(alloc);
    push_numbers(alloc, &mut text, numbers)?;
    text.push_str(rest)?;
    text.push_str("\n")?;
    Ok(text)
}

/// Adds names with their numbers, one after another.
fn push_numbers(alloc: Global, text: &mut String, numbers: &[(&str, u64)]) -> Result<(), NoMemory>
    ensures { OnOk result
        (string_bytes text.new
        ≡ fold (λ text n. telling.with_field text n.0.now n.1) (string_bytes text.old)
        numbers.now) }
{
    for row in numbers {
        push_number(alloc, text, row.0, row.1)?;
    }
    Ok(())
}

/// Adds a name, a space and a number.
pub(crate) fn push_number(
    alloc: Global,
    text: &mut String,
    name: &str,
    number: u64,
) -> Result<(), NoMemory>
    ensures { OnOk result
        (string_bytes text.new ≡ string_bytes text.old ++ name.now ++ 32 ∷ decimal number) }
{
    let field = format!(in alloc; "{name} {number}")?;
    text.push_str(field.as_str())
}

/// The line of how many candidates there were, and how many of each kind.
pub(crate) fn candidates_line(
    alloc: Global,
    candidates: u64,
    tally: &Tally,
) -> Result<String, NoMemory>
    ensures { IfOk result (λ text.
        (cs : List Bytes)
        → candidates ≡ cap_at_u64 (length cs)
        → CountsAre tally.now cs
        → string_bytes text ≡ telling.candidates_line cs) }
{
    let mut text = format!(in alloc; "candidates {candidates}")?;
    push_counts(alloc, &mut text, tally, &ALL_OUTCOMES)?;
    text.push_str("\n")?;
    Ok(text)
}

/// Adds how many candidates are of each of these kinds.
fn push_counts(
    alloc: Global,
    text: &mut String,
    tally: &Tally,
    outcomes: &[Outcome],
) -> Result<(), NoMemory>
    ensures { OnOk result ((cs : List Bytes)
        → CountsAre tally.now cs
        → string_bytes text.new
        ≡ string_bytes text.old ++ flat_map (telling.count_text cs) outcomes.now) }
{
    for outcome in outcomes {
        push_count(alloc, text, tally, *outcome)?;
    }
    Ok(())
}

fn push_count(
    alloc: Global,
    text: &mut String,
    tally: &Tally,
    outcome: Outcome,
) -> Result<(), NoMemory>
    ensures { OnOk result ((cs : List Bytes)
        → CountsAre tally.now cs
        → string_bytes text.new ≡ string_bytes text.old ++ telling.count_text cs outcome) }
{
    text.push_str(" ")?;
    push_number(alloc, text, outcome.name(), tally.number(outcome))?;
    Ok(())
}

/// The line of the gateway.
pub(crate) fn gateway_line(alloc: Global, gateway: &Option<Gateway>) -> Result<String, NoMemory>
    ensures { Spells result (telling.gateway_line (option_map view_gateway gateway.now)) }
{
    match gateway {
        None => String::from_str(alloc, "gateway none\n"),
        Some(gateway) => located(alloc, &gateway.location),
    }
}

/// The line of the gateway at this location.
fn located(alloc: Global, location: &Location) -> Result<String, NoMemory>
    ensures { Spells result (telling.located location.now) }
{
    let key = key_text(alloc, location.key.bytes())?;
    numbers_line(
        alloc,
        &[
            ("gateway carousel", u64::from(location.carousel)),
            (" module", u64::from(location.module)),
        ],
        key.as_str(),
    )
}

fn key_text(alloc: Global, key: &[u8]) -> Result<String, NoMemory>
    ensures { Spells result (codes " key " ++ encode_lower key.now) }
{
    let key = hex::encode(alloc, key)?;
    format!(in alloc; " key {key}")
}

/// The line of the label and the epoch.
pub(crate) fn label_line(alloc: Global, label: Option<u64>, epoch: u64) -> Result<String, NoMemory>
    ensures { Spells result (telling.label_line label epoch) }
{
    match label {
        Some(label) => format!(in alloc; "label {label} epoch {epoch}\n"),
        None => format!(in alloc; "label none epoch {epoch}\n"),
    }
}

/// The line of a held DII.
pub(crate) fn dii_line(alloc: Global, tuned: &Tuned) -> Result<String, NoMemory>
    ensures { Spells result (telling.dii_line tuned.now) }
{
    let modules = tuned.lines().len() as u64;
    numbers_line(
        alloc,
        &[
            ("dii identification", u64::from(tuned.identification())),
            (" version", u64::from(tuned.version())),
            (" download", u64::from(tuned.download())),
            (" block-size", u64::from(tuned.block_size())),
            (" modules", modules),
        ],
        "",
    )
}

/// The line of a path, with its answer and its module.
pub(crate) fn path_line(alloc: Global, shot: &Shot, path: &Path) -> Result<String, NoMemory>
    ensures { Spells result (telling.path_line (held_of shot.now) path.now) }
{
    let answer = resolve(shot, path)?;
    let answer = answer_text(alloc, &answer)?;
    let place = path.print()?;
    path_text(alloc, place.as_str(), answer.as_str(), home_of(shot, path))
}

fn path_text(
    alloc: Global,
    place: &str,
    answer: &str,
    home: Option<u16>,
) -> Result<String, NoMemory>
    ensures { Spells result (telling.path_text place.now answer.now home) }
{
    let mut text = String::from_str(alloc, "path ")?;
    text.push_str(place)?;
    text.push_str(" ")?;
    text.push_str(answer)?;
    push_home(alloc, &mut text, home)?;
    text.push_str("\n")?;
    Ok(text)
}

fn push_home(alloc: Global, text: &mut String, home: Option<u16>) -> Result<(), NoMemory>
    ensures { OnOk result (string_bytes text.new ≡ telling.with_home (string_bytes text.old) home) }
{
    if let Some(home) = home {
        push_number(alloc, text, " module", u64::from(home))?;
    }
    Ok(())
}
