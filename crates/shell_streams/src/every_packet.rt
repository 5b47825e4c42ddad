ghost use Rattle.std.specs.Prelude.{◌≡◌, ◌++◌, ◌∷◌, [], List, length, IfOk, OnOk};
ghost use Rattle.oc_bytes.specs.Outcome.{Known};
ghost use Rattle.section_stream.specs.Pieces.{rest_of};
ghost use Rattle.shell_streams.specs.Cuts.{Bytes};
ghost use Rattle.shell_streams.specs.Carriers.{Hears, all_packets};

use crate::input::InputFault;
use crate::packets::{MOST_PACKETS, has_next};
use crate::unread::Unread;
use carousel_profile::PACKET_LENGTH;
use oc_bytes::{NoMemory, Source};
use std::alloc::Global;

/// Who is handed the packets of an input, one after another.
pub trait PacketListener {
    ghost use Rattle.std.specs.Prelude.{List};
    ghost use Rattle.shell_streams.specs.Cuts.{Bytes};

    /// From the first value on to the second these packets were heard, in order, and no other.
    ghost heard: { Self → Self → List Bytes → Type 0 };

    /// Hears the next one.
    fn hear(&mut self, packet: &[u8; PACKET_LENGTH]) -> Result<(), NoMemory>
        ensures { OnOk result ((start : Self) (packets : List Bytes)
            → heard start self.old packets
            → heard start self.new (packets ++ packet.now ∷ [])) };
}

/// Lets a listener that heard nothing hear all packets of the source, whatever their PIDs. A last
/// piece of fewer than 188 bytes is passed over.
///
/// `TooLong` comes exactly where [`MOST_PACKETS`](crate::MOST_PACKETS) packets were taken and at
/// least a byte more is read, `Failed` where the source fails, and `NoMemory` where there is no
/// memory.
pub fn hear_all_packets<S: Source, L: PacketListener>(
    alloc: Global,
    source: &mut S,
    listener: &mut L,
) -> Result<(), InputFault>
    requires { L.heard listener.old listener.old [] }
    ensures { Hears all_packets (λ _. L.heard listener.old listener.new) result (S.left source.old)
        (S.left source.new) (S.faults source.old) (S.faults source.new) }
{
    match hear_packets_and_rest(alloc, source, listener) {
        Ok(_) => Ok(()),
        Err(fault) => Err(fault),
    }
}

/// The same, and says how many bytes the last piece has, 0 to 187.
pub fn hear_packets_and_rest<S: Source, L: PacketListener>(
    alloc: Global,
    source: &mut S,
    listener: &mut L,
) -> Result<usize, InputFault>
    requires { L.heard listener.old listener.old [] }
    ensures hears { Hears all_packets (λ _. L.heard listener.old listener.new) result
        (S.left source.old) (S.left source.new) (S.faults source.old) (S.faults source.new) }
    ensures rest { IfOk result (λ n.
        Known (S.left source.old) (S.left source.new) (λ input _. n ≡ length (rest_of input))) }
{
    let mut unread = Unread::new(alloc)?;
    let mut most = MOST_PACKETS;
    while has_next(&mut unread, most, source)? {
        let Some(packet) = unread.held().first_chunk::<PACKET_LENGTH>() else {
            unreachable!();
        };
        listener.hear(packet)?;
        unread.pass(PACKET_LENGTH);
        most -= 1;
    }
    Ok(unread.held().len())
}
