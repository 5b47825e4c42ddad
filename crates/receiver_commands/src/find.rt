ghost use Rattle.std.specs.Prelude.{◌≡◌, IfOk, OnOk};
ghost use Rattle.oc_bytes.specs.Outcome.{Spells};
ghost use Rattle.psi_tables.specs.Finding.{found_in};
ghost use Rattle.shell_streams.specs.Carriers.{Hears, all_packets};
ghost use Rattle.shell_streams.specs.Sending.{Puts, IsInTime, IsFlushed};
ghost use Rattle.receiver_commands.specs.Over.{over, out_over};
ghost use Rattle.receiver_commands.specs.Find as finding;
ghost use Rattle.receiver_commands.specs.Find.{Finds};

use crate::open::status_of;
use crate::status::Status;
use carousel_profile::PACKET_LENGTH;
use oc_bytes::{NoMemory, Source};
use psi_tables::{Find, Finder};
use shell_streams::{InputFault, Output, OutputFault, PacketListener, hear_all_packets};
use std::alloc::Global;

#[derive(Drop)]
struct Seeking {
    finder: Finder,
}

impl PacketListener for Seeking {
    ghost use Rattle.std.specs.Prelude.{◌≡◌};
    ghost use Rattle.psi_tables.specs.Stands.{StandsFor};

    ghost heard = { λ start now packets.
        (now.finder.directory.carousel ≡ start.finder.directory.carousel)
        × StandsFor now.finder packets };

    fn hear(&mut self, packet: &[u8; PACKET_LENGTH]) -> Result<(), NoMemory> {
        self.finder.feed(packet)
    }
}

/// Writes the PID of the carousel of the id `carousel`, any 32-bit number, by the PAT and the map
/// tables (ISO/IEC 13818-1, 2.4.4). The line is `no-pat` if no section of the PAT came, and
/// `not-named` if no map table in force names it. The whole input is read first.
pub fn find<S: Source, O: Output>(
    alloc: Global,
    carousel: u32,
    source: &mut S,
    out: &mut O,
) -> Status
    requires { IsFlushed (O.state out.old) }
    ensures finds { Finds carousel result (over S.left S.faults source.old source.new)
        (out_over O.state out.old out.new) }
    ensures same { (O.state out.new).name ≡ (O.state out.old).name }
    ensures in_time { IsInTime (O.state out.old) (O.state out.new) }
{
    match place(alloc, carousel, source) {
        Ok(found) => status_of(write_found(alloc, found, out)),
        Err(fault) => Status::from(fault),
    }
}

fn place<S: Source>(alloc: Global, carousel: u32, source: &mut S) -> Result<Find, InputFault>
    ensures { Hears all_packets (λ found packets. found ≡ found_in carousel packets) result
        (S.left source.old) (S.left source.new) (S.faults source.old) (S.faults source.new) }
{
    let finder = Finder::new(alloc, carousel)?;
    let mut seeking = Seeking { finder };
    hear_all_packets(alloc, source, &mut seeking)?;
    Ok(seeking.finder.find())
}

/// Says whether it is a PID.
fn write_found<O: Output>(alloc: Global, found: Find, out: &mut O) -> Result<bool, OutputFault>
    ensures found { IfOk result (λ all. all ≡ finding.is_at found) }
    ensures puts { Puts result (O.state out.old) (O.state out.new) (finding.found_line found) }
    ensures empty { OnOk result (IsFlushed (O.state out.new)) }
{
    let line = found_line(alloc, found)?;
    out.put(line.as_bytes())?;
    out.flush()?;
    Ok(matches!(found, Find::At(_)))
}

fn found_line(alloc: Global, found: Find) -> Result<String, NoMemory>
    ensures { Spells result (finding.found_line found) }
{
    match found {
        Find::NoPat => String::from_str(alloc, "no-pat\n"),
        Find::NotNamed => String::from_str(alloc, "not-named\n"),
        Find::At(pid) => format!(in alloc; "{pid}\n"),
    }
}
