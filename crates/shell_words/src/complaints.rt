//! The texts of complaints.

ghost use Rattle.std.specs.Prelude.{◌≡◌};
ghost use Rattle.oc_bytes.specs.Outcome.{Spells};
ghost use Rattle.shell_words.specs.Complaints as complaints;
ghost use Rattle.shell_words.specs.declared.places.Complaint.TheVariants.{Misfit};
ghost use Rattle.shell_words.specs.declared.places.Slot.TheVariants.{Source, Table};

use crate::places::{Complaint, Slot};
use crate::table::MOST_MOUNT_NAME;
use crate::values::MOST_PID;
use oc_bytes::NoMemory;
use std::alloc::Global;

/// The line of a complaint: the word's number, the name of what it stands for on the page of help,
/// and its range or form.
pub fn complaint_text(alloc: Global, complaint: Complaint) -> Result<String, NoMemory>
    ensures { Spells result (complaints.complaint_line complaint) }
{
    match complaint {
        Complaint::Fits => String::from_str(alloc, "fits\n"),
        Complaint::Unknown => String::from_str(alloc, "word 1 COMMAND unknown\n"),
        Complaint::Misfit(number, slot) => misfit_text(alloc, number, slot),
        Complaint::TooMany(number) => format!(in alloc; "word {number} too many\n"),
        Complaint::TooFew(slot) => {
            let name = slot_name(slot);
            format!(in alloc; "too few {name}\n")
        }
    }
}

fn misfit_text(alloc: Global, number: usize, slot: Slot) -> Result<String, NoMemory>
    ensures { Spells result (complaints.complaint_line (Misfit number slot)) }
{
    let name = slot_name(slot);
    let rule = rule_text(alloc, slot)?;
    let mut text = format!(in alloc; "word {number} {name} ")?;
    text.push_str(rule.as_str())?;
    text.push('\n')?;
    Ok(text)
}

/// As on the pages of help.
fn slot_name(slot: Slot) -> &'static str
    ensures { result.now ≡ complaints.slot_name slot }
{
    match slot {
        Slot::Command => "COMMAND",
        Slot::Id => "ID",
        Slot::Version => "VERSION",
        Slot::Size => "SIZE",
        Slot::Download => "DOWNLOAD",
        Slot::Pid | Slot::Source => "PID",
        Slot::Path => "PATH",
        Slot::Folder => "FOLDER",
        Slot::Carousel => "CAROUSEL",
        Slot::Cycles | Slot::AirCycles => "CYCLES",
        Slot::Bitrate => "BITRATE",
        Slot::Editors => "N",
        Slot::Table => "TABLE",
    }
}

fn rule_text(alloc: Global, slot: Slot) -> Result<String, NoMemory>
    ensures { Spells result (complaints.rule_text slot) }
{
    match slot.range() {
        Some((least, greatest)) => range_text(alloc, least, greatest),
        None => form_text(alloc, slot),
    }
}

fn range_text(alloc: Global, least: u32, greatest: u32) -> Result<String, NoMemory>
    ensures { Spells result (complaints.range_text least greatest) }
{
    format!(in alloc; "{least} to {greatest}")
}

fn form_text(alloc: Global, slot: Slot) -> Result<String, NoMemory>
    ensures { Spells result (complaints.form_text slot) }
{
    match slot {
        Slot::Source => source_text(alloc),
        Slot::Path => String::from_str(alloc, "/, or / before each of 1 to 16 names"),
        Slot::Folder => String::from_str(alloc, "not empty, and not beginning with -"),
        Slot::Table => table_text(alloc),
        _ => String::from_str(alloc, "a command"),
    }
}

fn source_text(alloc: Global) -> Result<String, NoMemory>
    ensures { Spells result (complaints.form_text Source) }
{
    let pid = range_text(alloc, 0, MOST_PID)?;
    format!(in alloc; "{pid}, or sections")
}

fn table_text(alloc: Global) -> Result<String, NoMemory>
    ensures { Spells result (complaints.form_text Table) }
{
    let length = range_text(alloc, 1, MOST_MOUNT_NAME as u32)?;
    let pid = range_text(alloc, 0, MOST_PID)?;
    format!(in alloc;
        "NAME=PID, or several with commas between; NAME {length} letters a to z or digits, PID {pid}"
    )
}
