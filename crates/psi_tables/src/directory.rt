ghost use Rattle.std.specs.Prelude.{◌≡◌, ◌++◌, ◌∷◌, ◌<◌, [], ℕ, List, true, false, length, map, Some, None, IfOk, IsErr, OnOk, ◌==◌, ◌&&◌};
ghost use Rattle.std.specs.List.{find, position_from, list_any};
ghost use Rattle.std.specs.Option.{option_map};
ghost use Rattle.section_stream.specs.Cuts.{Bytes};
ghost use Rattle.section_stream.specs.Kept.{view_bytes};
ghost use Rattle.psi_tables.specs.Pats.{PatFields, view_pat};
ghost use Rattle.psi_tables.specs.Receiving.{pid_of};
ghost use Rattle.psi_tables.specs.Finding as finding;
ghost use Rattle.psi_tables.specs.Inner.Finding as inner;
ghost use Rattle.psi_tables.specs.Finding.{choose, is_section, lines_in_section, listed_pids, pat_in};
ghost use Rattle.psi_tables.specs.Stands.{FollowedState, DirectoryState, FollowsEach, Keeps, view_followed, view_directory, section_kept};
ghost use Rattle.psi_tables.specs.Inner.Stands.{named_by, found_by};
ghost use Rattle.psi_tables.specs.Inner.Steps.{put, Each, Heard, becomes_followed};

use crate::finder::Find;
use crate::followed::{Followed, named_for_program};
use crate::pat::decode_pat;
use crate::{Pat, PatLine, PsiFault};
use carousel_profile::PACKET_LENGTH;
use oc_bytes::NoMemory;
use section_stream::PacketDemux;
use std::alloc::{AllocError, Global};

/// The most PIDs that are followed.
pub const MOST_FOLLOWED: usize = 64;

/// The PAT's sections, and what came on the PIDs that it listed.
#[derive(Drop)]
pub struct Directory {
    pub alloc: Global,
    pub carousel: u32,
    /// The version of the table in force.
    pub newest: Option<u8>,
    /// The last section of each version and number.
    pub sections: Vec<Pat>,
    pub followed: Vec<Followed>,
}

/// Neither the line of the network's information, nor one with the PAT's own PID.
fn is_program(line: PatLine) -> bool
    ensures { result ≡ finding.is_program line }
{
    line.program != 0 && line.pid != 0
}

fn place_of(sections: &[Pat], version: u8, number: u8) -> Option<usize>
    ensures { result ≡ position_from (λ p. (p.version == version) && (p.number == number)) 0
        sections.now }
{
    sections
        .iter()
        .position(|kept| kept.version == version && kept.number == number)
}

/// Replaces the section of this version and number, or adds one.
fn note(sections: &mut Vec<Pat>, pat: Pat) -> Result<(), AllocError>
    ensures { OnOk result
        (map view_pat sections.new.items
        ≡ put (is_section pat.version pat.number) (view_pat pat)
        (map view_pat sections.old.items)) }
{
    match place_of(sections, pat.version, pat.number) {
        Some(place) => sections[place] = pat,
        None => sections.push(pat)?,
    }
    Ok(())
}

fn is_followed(followed: &[Followed], pid: u16) -> bool
    ensures { result ≡ list_any (λ f. f.pid == pid) followed.now }
{
    followed.iter().any(|one| one.pid == pid)
}

/// Whether a line's PID is to be followed from now on.
fn is_wanted(followed: &[Followed], line: PatLine) -> bool
    ensures { result ≡ becomes_followed followed.now line }
{
    is_program(line) && followed.len() < MOST_FOLLOWED && !is_followed(followed, line.pid)
}

/// Follows a wanted line's PID from the next packet on.
fn follow(alloc: Global, followed: &mut Vec<Followed>, line: PatLine) -> Result<(), NoMemory>
    ensures { OnOk result ((carousel : ℕ) (packets : List Bytes) (before : List (ℕ × ℕ))
        → FollowsEach carousel packets (map view_followed followed.old.items) (choose before)
        → FollowsEach carousel packets (map view_followed followed.new.items)
        (choose (before ++ listed_pids (length packets) (line ∷ [])))) }
{
    if !is_wanted(followed, line) {
        return Ok(());
    }
    let demux = PacketDemux::new(alloc, line.pid)?;
    followed.push(Followed {
        pid: line.pid,
        demux,
        programs: Vec::new(alloc),
    })?;
    Ok(())
}

fn follow_all(
    alloc: Global,
    followed: &mut Vec<Followed>,
    lines: &[PatLine],
) -> Result<(), NoMemory>
    ensures { OnOk result ((carousel : ℕ) (packets : List Bytes) (before : List (ℕ × ℕ))
        → FollowsEach carousel packets (map view_followed followed.old.items) (choose before)
        → FollowsEach carousel packets (map view_followed followed.new.items)
        (choose (before ++ listed_pids (length packets) lines.now))) }
{
    for line in lines {
        follow(alloc, followed, *line)?;
    }
    Ok(())
}

/// Whether the packet completed a section on a followed PID.
fn feed_all(
    alloc: Global,
    carousel: u32,
    followed: &mut [Followed],
    pid: u16,
    packet: &[u8; PACKET_LENGTH],
) -> Result<bool, NoMemory>
    requires { pid_of packet.now ≡ Some pid }
    ensures { IfOk result (λ completed.
        Each (Heard carousel packet.now completed) (map view_followed followed.old)
        (map view_followed followed.new)) }
{
    let mut completed = false;
    for one in followed.iter_mut() {
        if one.feed(alloc, carousel, pid, packet)? {
            completed = true;
        }
    }
    Ok(completed)
}

fn section_of(sections: &[Pat], version: u8, number: u8) -> Option<&Pat>
    ensures { option_map (λ p. p.now) result
        ≡ find (λ p. (p.version == version) && (p.number == number)) sections.now }
{
    sections
        .iter()
        .find(|kept| kept.version == version && kept.number == number)
}

fn followed_on(followed: &[Followed], pid: u16) -> Option<&Followed>
    ensures { option_map (λ f. f.now) result ≡ find (λ f. f.pid == pid) followed.now }
{
    followed.iter().find(|one| one.pid == pid)
}

/// The stream that a line's map table names.
fn named_by_line(followed: &[Followed], line: PatLine) -> Option<u16>
    ensures { result ≡ named_by (map view_followed followed.now) line }
{
    match followed_on(followed, line.pid) {
        Some(one) => named_for_program(&one.programs, line.program),
        None => None,
    }
}

/// The first stream that the lines' map tables name.
fn named_by_lines(followed: &[Followed], lines: &[PatLine]) -> Option<u16>
    ensures { result ≡ finding.first_named (named_by (map view_followed followed.now)) lines.now }
{
    for line in lines {
        if is_program(*line) {
            let named = named_by_line(followed, *line);
            if named.is_some() {
                return named;
            }
        }
    }
    None
}

impl Directory {
    /// Takes a section of PID 0, and ignores one that isn't of the PAT. `Err` is out of memory.
    pub fn take(&mut self, section: &[u8]) -> Result<(), NoMemory>
        ensures keeps { OnOk result ((packets : List Bytes) (pats : List PatFields)
            (before : List (ℕ × ℕ))
            → Keeps packets (view_directory self.old) pats before
            → Keeps packets (view_directory self.new) (pats ++ inner.list_of (pat_in section.now))
            (before ++ listed_pids (length packets) (lines_in_section (pat_in section.now)))) }
        ensures carousel { self.new.carousel ≡ self.old.carousel }
    {
        let pat = match decode_pat(self.alloc, section) {
            Ok(pat) => pat,
            Err(PsiFault::NotPsi(_)) => return Ok(()),
            Err(PsiFault::NoMemory) => return Err(AllocError),
        };
        follow_all(self.alloc, &mut self.followed, &pat.lines)?;
        self.newest = Some(pat.version);
        note(&mut self.sections, pat)
    }

    /// Takes the sections of PID 0, in order. `Err` is out of memory.
    pub fn take_all(&mut self, sections: &[Vec<u8>]) -> Result<(), NoMemory>
        ensures keeps { OnOk result ((packets : List Bytes) (pats : List PatFields)
            (before : List (ℕ × ℕ))
            → Keeps packets (view_directory self.old) pats before
            → Keeps packets (view_directory self.new)
            (pats ++ finding.pats_among (map view_bytes sections.now))
            (before ++ inner.listed_by (length packets) (map view_bytes sections.now))) }
        ensures carousel { self.new.carousel ≡ self.old.carousel }
    {
        for section in sections {
            self.take(section)?;
        }
        Ok(())
    }

    /// Whether a packet completed a section on a followed PID.
    pub fn feed(&mut self, pid: u16, packet: &[u8; PACKET_LENGTH]) -> Result<bool, NoMemory>
        requires { pid_of packet.now ≡ Some pid }
        ensures followed { IfOk result (λ completed.
            Each (Heard self.old.carousel packet.now completed) (view_directory self.old).followed
            (view_directory self.new).followed) }
        ensures rest { (self.new.carousel ≡ self.old.carousel)
            × (self.new.newest ≡ self.old.newest)
            × (map view_pat self.new.sections.items ≡ map view_pat self.old.sections.items) }
        ensures memory { IsErr result
            → list_any (λ f. f.pid == pid) self.old.followed.items ≡ true }
    {
        if !is_followed(&self.followed, pid) {
            return Ok(false);
        }
        feed_all(self.alloc, self.carousel, &mut self.followed, pid, packet)
    }

    /// Where the carousel is.
    pub fn search(&self) -> Find
        ensures { result ≡ found_by (view_directory self.now) }
    {
        let Some(version) = self.newest else {
            return Find::NoPat;
        };
        match self.first_named(version) {
            Some(pid) => Find::At(pid),
            None => Find::NotNamed,
        }
    }

    fn named_in_section(&self, version: u8, number: u8) -> Option<u16>
        ensures { result ≡ finding.first_named (named_by (view_directory self.now).followed)
            (lines_in_section (section_kept (view_directory self.now).sections version number)) }
    {
        match section_of(&self.sections, version, number) {
            Some(pat) => named_by_lines(&self.followed, &pat.lines),
            None => None,
        }
    }

    fn first_named(&self, version: u8) -> Option<u16>
        ensures { result ≡ finding.first_named (named_by (view_directory self.now).followed)
            (finding.lines_of_sections (section_kept (view_directory self.now).sections version)
            256) }
    {
        for number in 0..256u16 {
            if let Some(pid) = self.named_in_section(version, number as u8) {
                return Some(pid);
            }
        }
        None
    }
}
