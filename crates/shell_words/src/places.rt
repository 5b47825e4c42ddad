//! What may stand behind a command's word, and what is wrong with words that don't fit.

ghost use Rattle.std.specs.Prelude.{◌≡◌, ◌<◌, ◌+◌, ◌^◌, true, length, is_some, IfOk};
ghost use Rattle.std.specs.String.{string_bytes};
ghost use Rattle.shell_words.specs.Places as places;
ghost use Rattle.shell_words.specs.Values.{path_in, table_in, word_bytes};
ghost use Rattle.shell_words.specs.Complaints.{FitsIsAccepted, FirstIsNamed};

use crate::keyword::Keyword;
use crate::parsing::{MOST_AIR_CYCLES, MOST_BIG, MOST_BITRATE, MOST_CYCLES};
use crate::table::table;
use crate::values;
use crate::values::{MOST_PID, MOST_WATCHED, begins_with_dash};
use crate::words::WordsFault;
use block_assembler::MOST_MODULE_SIZE;
use oc_bytes::NoMemory;
use path_tree::{Path, PathFault};
use std::alloc::{AllocError, Global};

/// What a word stands for.
#[derive(Clone, Copy, Debug, PartialEq, Eq)]
pub enum Slot {
    /// The command: the first word.
    Command,
    /// A module's id.
    Id,
    /// A module's version.
    Version,
    /// A module's size in bytes.
    Size,
    /// A download's id.
    Download,
    /// A PID.
    Pid,
    /// A PID, or the word `sections`.
    Source,
    /// A path in a carousel.
    Path,
    /// A folder of the system.
    Folder,
    /// A carousel's id.
    Carousel,
    /// How many cycles are sent.
    Cycles,
    /// How many cycles of a folder on the air.
    AirCycles,
    /// How many bits a second.
    Bitrate,
    /// The size of a generated session.
    Editors,
    /// Names of carousels with their PIDs.
    Table,
}

/// What is wrong with a command line. Words count from 1, the command's.
#[derive(Clone, Copy, Debug, PartialEq, Eq)]
pub enum Complaint {
    /// Nothing.
    Fits,
    /// The first word names no command.
    Unknown,
    /// The first word that doesn't fit: it begins with `-`, or isn't in its range or form.
    Misfit(usize, Slot),
    /// The first word that is too many.
    TooMany(usize),
    /// All words fit, and this one is missing.
    TooFew(Slot),
}

/// How many paths follow a command's other words.
#[derive(Clone, Copy)]
pub enum Paths {
    /// None.
    NoPaths,
    /// One or more.
    AnyPaths,
    /// One up to this number.
    UpTo(usize),
}

/// Paths excepted.
fn first_slots(keyword: Keyword) -> &'static [Slot]
    ensures { result.now ≡ places.first_slots keyword }
{
    match keyword {
        Keyword::Assemble => &[Slot::Id, Slot::Version, Slot::Size, Slot::Download],
        Keyword::Open => &[Slot::Source],
        Keyword::Publish | Keyword::PublishPsi => &[Slot::Folder, Slot::Carousel, Slot::Cycles],
        Keyword::Rehearse | Keyword::Session => &[],
        Keyword::Big => &[Slot::Editors],
        Keyword::Find | Keyword::OpenId => &[Slot::Carousel],
        Keyword::PublishOn => &[Slot::Pid, Slot::Folder, Slot::Carousel, Slot::Cycles],
        Keyword::Mounts => &[Slot::Table],
        Keyword::Record | Keyword::List | Keyword::Watch | Keyword::Inspect => &[Slot::Pid],
        Keyword::Plan => &[Slot::Folder, Slot::Carousel, Slot::Bitrate],
        Keyword::Extract => &[Slot::Pid, Slot::Folder],
        Keyword::Air => &[Slot::Pid, Slot::Folder, Slot::Carousel, Slot::AirCycles],
    }
}

fn paths_behind(keyword: Keyword) -> Paths
    ensures { result ≡ places.paths_behind keyword }
{
    match keyword {
        Keyword::Open | Keyword::OpenId | Keyword::Mounts => Paths::AnyPaths,
        Keyword::Watch => Paths::UpTo(MOST_WATCHED),
        Keyword::Assemble
        | Keyword::Record
        | Keyword::List
        | Keyword::Publish
        | Keyword::Rehearse
        | Keyword::Session
        | Keyword::Big
        | Keyword::Find
        | Keyword::PublishPsi
        | Keyword::PublishOn
        | Keyword::Plan
        | Keyword::Inspect
        | Keyword::Extract
        | Keyword::Air => Paths::NoPaths,
    }
}

/// Places count from 0.
fn path_slot(paths: Paths, place: usize) -> Option<Slot>
    ensures { result ≡ places.path_slot paths place }
{
    match paths {
        Paths::NoPaths => None,
        Paths::AnyPaths => Some(Slot::Path),
        Paths::UpTo(most) => { if place < most { Some(Slot::Path) } else { None } }
    }
}

fn least_paths(paths: Paths) -> usize
    ensures { result ≡ places.least_paths paths }
{
    match paths {
        Paths::NoPaths => 0,
        Paths::AnyPaths | Paths::UpTo(_) => 1,
    }
}

/// None if no word may be there. Places count from 0.
fn slot_at(keyword: Keyword, place: usize) -> Option<Slot>
    ensures { result ≡ places.slot_at keyword place }
{
    let slots = first_slots(keyword);
    if place < slots.len() {
        Some(slots[place])
    } else {
        path_slot(paths_behind(keyword), place - slots.len())
    }
}

fn needed(keyword: Keyword) -> usize
    ensures { result ≡ places.needed keyword }
{
    first_slots(keyword).len() + least_paths(paths_behind(keyword))
}

impl Slot {
    /// The least and the greatest number, if it stands for one.
    pub(crate) fn range(self) -> Option<(u32, u32)>
        ensures { result ≡ places.range_of self }
    {
        match self {
            Slot::Id => Some((0, 65_535)),
            Slot::Version => Some((0, 255)),
            Slot::Size => Some((0, MOST_MODULE_SIZE)),
            Slot::Download | Slot::Carousel => Some((0, u32::MAX)),
            Slot::Pid => Some((0, MOST_PID)),
            Slot::Cycles => Some((1, MOST_CYCLES)),
            Slot::AirCycles => Some((1, MOST_AIR_CYCLES)),
            Slot::Bitrate => Some((1, MOST_BITRATE)),
            Slot::Editors => Some((1, MOST_BIG)),
            Slot::Command | Slot::Source | Slot::Path | Slot::Folder | Slot::Table => None,
        }
    }

    fn has_value(self, alloc: Global, word: &String) -> Result<bool, NoMemory>
        ensures { IfOk result (λ b. b ≡ places.has_value self (string_bytes word.now)) }
    {
        match self.range() {
            Some((least, greatest)) => Ok(values::decimal(word, least, greatest).is_some()),
            None => self.has_form(alloc, word),
        }
    }

    /// False of a slot that stands for a number alone.
    fn has_form(self, alloc: Global, word: &String) -> Result<bool, NoMemory>
        ensures { IfOk result (λ b. b ≡ places.has_form self (string_bytes word.now)) }
    {
        match self {
            Slot::Source => Ok(is_source(word.as_str())),
            Slot::Path => is_path(alloc, word),
            Slot::Folder => Ok(!word.is_empty()),
            Slot::Table => is_table(alloc, word),
            _ => Ok(false),
        }
    }
}

fn is_source(word: &str) -> bool
    ensures { result ≡ places.has_form Slot.Source word.now }
{
    word == "sections" || values::pid(word).is_some()
}

fn is_path(alloc: Global, word: &String) -> Result<bool, NoMemory>
    ensures { IfOk result (λ b. b ≡ is_some (path_in (string_bytes word.now))) }
{
    match Path::parse(alloc, word.as_bytes()) {
        Ok(_) => Ok(true),
        Err(PathFault::NoMemory) => Err(AllocError),
        Err(_) => Ok(false),
    }
}

fn is_table(alloc: Global, word: &String) -> Result<bool, NoMemory>
    ensures { IfOk result (λ b. b ≡ is_some (table_in (string_bytes word.now))) }
{
    match table(alloc, word.as_str()) {
        Ok(_) => Ok(true),
        Err(WordsFault::NoMemory) => Err(AllocError),
        Err(WordsFault::Words) => Ok(false),
    }
}

/// Places count from 0.
fn breaks(alloc: Global, keyword: Keyword, place: usize, word: &String) -> Result<bool, NoMemory>
    ensures { IfOk result (λ b. b ≡ places.breaks keyword place (string_bytes word.now)) }
{
    if begins_with_dash(word) {
        return Ok(true);
    }
    match slot_at(keyword, place) {
        None => Ok(true),
        Some(slot) => {
            let fits = slot.has_value(alloc, word)?;
            Ok(!fits)
        }
    }
}

fn complaint_at(keyword: Keyword, place: usize) -> Complaint
    requires { place + 2 < 2 ^ 64 }
    ensures { result ≡ places.complaint_at place (places.slot_at keyword place) }
{
    match slot_at(keyword, place) {
        Some(slot) => Complaint::Misfit(place + 2, slot),
        None => Complaint::TooMany(place + 2),
    }
}

/// Each of the words fits.
fn complaint_after(keyword: Keyword, count: usize) -> Complaint
    ensures { result ≡ places.complaint_after keyword count }
{
    if count < needed(keyword) {
        Complaint::TooFew(slot_at(keyword, count).unwrap_or(Slot::Path))
    } else {
        Complaint::Fits
    }
}

fn complaint_behind(
    alloc: Global,
    keyword: Keyword,
    words: &[String],
) -> Result<Complaint, NoMemory>
    ensures { IfOk result (λ c.
        c ≡ places.complaint_by keyword (length words.now)
        (places.first_breaking keyword (word_bytes words.now))) }
{
    for (place, word) in words.iter().enumerate() {
        if breaks(alloc, keyword, place, word)? {
            return Ok(complaint_at(keyword, place));
        }
    }
    Ok(complaint_after(keyword, words.len()))
}

/// What is wrong with the words, the program's name left out: the first that breaks a rule of
/// [`command`](crate::command), and what it stands for. Words behind `why` may be anything.
pub fn first_complaint(alloc: Global, words: &[String]) -> Result<Complaint, NoMemory>
    ensures gives { IfOk result (λ c. c ≡ places.complaint_of (word_bytes words.now)) }
    ensures fits { FitsIsAccepted (word_bytes words.now) }
    ensures first { FirstIsNamed (word_bytes words.now) }
{
    if asks_why(words) {
        return Ok(Complaint::Fits);
    }
    if words.is_empty() {
        return Ok(Complaint::TooFew(Slot::Command));
    }
    match Keyword::parse(words[0].as_str()) {
        Some(keyword) => complaint_behind(alloc, keyword, &words[1..]),
        None => Ok(Complaint::Unknown),
    }
}

/// Whether the command is `why`.
pub(crate) fn asks_why(words: &[String]) -> bool
    ensures value { result ≡ places.asks_why (word_bytes words.now) }
    ensures some { result ≡ true → 0 < length words.now }
{
    match words {
        [] => false,
        [first, ..] => first.as_str() == "why",
    }
}
