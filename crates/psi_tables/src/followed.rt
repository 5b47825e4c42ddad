ghost use Rattle.std.specs.Prelude.{◌≡◌, ◌++◌, ◌∷◌, ◌<◌, [], List, false, map, Option, IfOk, OnOk, Some, ◌==◌};
ghost use Rattle.std.specs.List.{find, position_from};
ghost use Rattle.std.specs.Option.{option_map};
ghost use Rattle.section_stream.specs.Cuts.{Bytes};
ghost use Rattle.section_stream.specs.Kept.{view_bytes};
ghost use Rattle.psi_tables.specs.Pmts.{view_pmt};
ghost use Rattle.psi_tables.specs.Receiving.{pid_of};
ghost use Rattle.psi_tables.specs.Finding as finding;
ghost use Rattle.psi_tables.specs.Stands.{Hears, view_followed, named_for};
ghost use Rattle.psi_tables.specs.Inner.Steps.{put, after_pmt, after_pmts};

use crate::pmt::decode_pmt;
use crate::{Pmt, PmtLine, PsiFault};
use carousel_profile::PACKET_LENGTH;
use oc_bytes::NoMemory;
use section_stream::PacketDemux;
use std::alloc::{AllocError, Global};

/// A program whose map table came.
#[derive(Clone, Copy, Debug)]
pub struct Program {
    pub program: u16,
    /// The PID that its last map table names first for the carousel.
    pub named: Option<u16>,
}

/// A PID that a PAT listed, and what came on it since.
#[derive(Drop)]
pub struct Followed {
    pub pid: u16,
    pub demux: PacketDemux,
    /// One entry a program.
    pub programs: Vec<Program>,
}

fn is_named(carousels: &[u32], carousel: u32) -> bool
    ensures { result ≡ finding.is_in carousel carousels.now }
{
    carousels.iter().any(|named| *named == carousel)
}

fn line_naming(lines: &[PmtLine], carousel: u32) -> Option<&PmtLine>
    ensures { option_map (λ l. l.now) result
        ≡ find (λ l. finding.is_in carousel l.carousels.items) lines.now }
{
    lines
        .iter()
        .find(|line| is_named(&line.carousels, carousel))
}

/// The PID of the first stream that names the carousel.
fn named_in(pmt: &Pmt, carousel: u32) -> Option<u16>
    ensures { result ≡ finding.names carousel (view_pmt pmt.now) }
{
    match line_naming(&pmt.lines, carousel) {
        Some(line) => Some(line.pid),
        None => None,
    }
}

fn place_of(programs: &[Program], program: u16) -> Option<usize>
    ensures { result ≡ position_from (λ e. e.program == program) 0 programs.now }
{
    programs.iter().position(|entry| entry.program == program)
}

/// Replaces a program's entry, or adds one.
fn note(programs: &mut Vec<Program>, entry: Program) -> Result<(), AllocError>
    ensures { OnOk result
        (programs.new.items ≡ put (λ e. e.program == entry.program) entry programs.old.items) }
{
    match place_of(programs, entry.program) {
        Some(place) => programs[place] = entry,
        None => programs.push(entry)?,
    }
    Ok(())
}

fn entry_of(programs: &[Program], program: u16) -> Option<&Program>
    ensures { option_map (λ e. e.now) result ≡ find (λ e. e.program == program) programs.now }
{
    programs.iter().find(|entry| entry.program == program)
}

/// The stream that a program's last map table names.
pub fn named_for_program(programs: &[Program], program: u16) -> Option<u16>
    ensures { result ≡ named_for program programs.now }
{
    match entry_of(programs, program) {
        Some(entry) => entry.named,
        None => None,
    }
}

impl Followed {
    /// Ignores a section that is no map table.
    fn take(&mut self, alloc: Global, carousel: u32, section: &[u8]) -> Result<(), NoMemory>
        ensures programs { OnOk result
            (self.new.programs.items
            ≡ after_pmt carousel self.old.programs.items (finding.pmt_in section.now)) }
        ensures pid { self.new.pid ≡ self.old.pid }
        ensures demux { self.new.demux ≡ self.old.demux }
    {
        let pmt = match decode_pmt(alloc, section) {
            Ok(pmt) => pmt,
            Err(PsiFault::NotPsi(_)) => return Ok(()),
            Err(PsiFault::NoMemory) => return Err(AllocError),
        };
        let entry = Program {
            program: pmt.program,
            named: named_in(&pmt, carousel),
        };
        note(&mut self.programs, entry)
    }

    fn take_all(
        &mut self,
        alloc: Global,
        carousel: u32,
        sections: &[Vec<u8>],
    ) -> Result<(), NoMemory>
        ensures programs { OnOk result
            (self.new.programs.items
            ≡ after_pmts carousel self.old.programs.items (map view_bytes sections.now)) }
        ensures pid { self.new.pid ≡ self.old.pid }
        ensures demux { self.new.demux ≡ self.old.demux }
    {
        for section in sections {
            self.take(alloc, carousel, section)?;
        }
        Ok(())
    }

    /// Whether a packet completed a section on the PID. `Err` is out of memory.
    pub fn feed(
        &mut self,
        alloc: Global,
        carousel: u32,
        pid: u16,
        packet: &[u8; PACKET_LENGTH],
    ) -> Result<bool, NoMemory>
        requires { pid_of packet.now ≡ Some pid }
        ensures hears { OnOk result ((packets : List Bytes)
            → Hears carousel (view_followed self.old) packets
            → Hears carousel (view_followed self.new) (packets ++ packet.now ∷ [])) }
        ensures pid { OnOk result (self.new.pid ≡ self.old.pid) }
        ensures quiet { IfOk result (λ completed.
            completed ≡ false → self.new.programs.items ≡ self.old.programs.items) }
    {
        if pid != self.pid {
            return Ok(false);
        }
        let sections = self.demux.feed(packet)?;
        self.take_all(alloc, carousel, &sections)?;
        Ok(!sections.is_empty())
    }
}
