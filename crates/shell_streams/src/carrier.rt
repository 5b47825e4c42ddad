ghost use Rattle.std.specs.Prelude.{◌++◌, ◌∷◌, [], List, map, OnOk};
ghost use Rattle.section_stream.specs.Kept.{view_bytes};
ghost use Rattle.shell_streams.specs.Cuts.{Bytes};
ghost use Rattle.shell_streams.specs.Carriers.{Hears, sections_by};

use crate::input::InputFault;
use crate::packets::PacketReader;
use crate::sections::{goes_on, next_section};
use crate::unread::Unread;
use oc_bytes::{NoMemory, Source};
use std::alloc::Global;

/// How the sections of an input stand in it.
#[derive(Clone, Copy, Debug, PartialEq, Eq)]
pub enum Carrier {
    /// Back to back, of which at most so many are taken.
    Sections(u32),
    /// In the packets of a PID, 0 to 8,191, of which at most [`MOST_PACKETS`](crate::MOST_PACKETS)
    /// are taken.
    Packets(u16),
}

/// Who hears the sections of an input, one after another.
pub trait Listener {
    ghost use Rattle.std.specs.Prelude.{List};
    ghost use Rattle.shell_streams.specs.Cuts.{Bytes};

    /// From the first value on to the second these sections were heard, in order, and no other.
    ghost heard: { Self → Self → List Bytes → Type 0 };

    /// Hears the next one.
    fn hear(&mut self, section: &[u8]) -> Result<(), NoMemory>
        ensures { OnOk result ((start : Self) (sections : List Bytes)
            → heard start self.old sections
            → heard start self.new (sections ++ section.now ∷ [])) };
}

/// Lets a listener that heard nothing hear all sections of the source.
pub fn hear_all<S: Source, L: Listener>(
    alloc: Global,
    carrier: Carrier,
    source: &mut S,
    listener: &mut L,
) -> Result<(), InputFault>
    requires { L.heard listener.old listener.old [] }
    ensures { Hears (sections_by carrier) (λ _. L.heard listener.old listener.new) result
        (S.left source.old) (S.left source.new) (S.faults source.old) (S.faults source.new) }
{
    match carrier {
        Carrier::Sections(most) => hear_sections(alloc, most, source, listener),
        Carrier::Packets(pid) => hear_packets(alloc, pid, source, listener),
    }
}

fn hear_sections<S: Source, L: Listener>(
    alloc: Global,
    most: u32,
    source: &mut S,
    listener: &mut L,
) -> Result<(), InputFault>
    requires { L.heard listener.old listener.old [] }
    ensures { Hears (sections_by (Carrier.Sections most)) (λ _. L.heard listener.old listener.new)
        result (S.left source.old) (S.left source.new) (S.faults source.old) (S.faults source.new) }
{
    let mut unread = Unread::new(alloc)?;
    for taken in 0..most {
        let Some(len) = next_section(&mut unread, source)? else {
            return Ok(());
        };
        listener.hear(&unread.held()[..len])?;
        unread.pass(len);
    }
    if goes_on(&mut unread, source)? {
        Err(InputFault::TooLong)
    } else {
        Ok(())
    }
}

fn hear_packets<S: Source, L: Listener>(
    alloc: Global,
    pid: u16,
    source: &mut S,
    listener: &mut L,
) -> Result<(), InputFault>
    requires { L.heard listener.old listener.old [] }
    ensures { Hears (sections_by (Carrier.Packets pid)) (λ _. L.heard listener.old listener.new)
        result (S.left source.old) (S.left source.new) (S.faults source.old) (S.faults source.new) }
{
    let mut reader = PacketReader::new(alloc, pid)?;
    while let Some(sections) = reader.next(source)? {
        hear_each(&sections, listener)?;
    }
    Ok(())
}

/// Lets a listener hear sections, in order.
pub fn hear_each<L: Listener>(sections: &[Vec<u8>], listener: &mut L) -> Result<(), NoMemory>
    ensures { OnOk result ((start : L) (before : List Bytes)
        → L.heard start listener.old before
        → L.heard start listener.new (before ++ map view_bytes sections.now)) }
{
    for section in sections {
        listener.hear(section)?;
    }
    Ok(())
}
