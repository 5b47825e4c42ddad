ghost use Rattle.std.specs.Prelude.{◌≡◌, false, [], map, OnOk};
ghost use Rattle.section_stream.specs.Kept.{view_bytes};
ghost use Rattle.shell_streams.specs.Packets.{is_ready};
ghost use Rattle.shell_streams.specs.Sending.{Puts, IsInTime, IsFlushed};
ghost use Rattle.receiver_commands.specs.Over.{over, out_over};
ghost use Rattle.receiver_commands.specs.Accepted as sections;
ghost use Rattle.receiver_commands.specs.Inner.Accepted as inner;
ghost use Rattle.receiver_commands.specs.Record.{Records};
ghost use Rattle.receiver_commands.specs.Inner.Statuses.{end_status};

use crate::status::Status;
use dsmcc_section::payload_of;
use oc_bytes::Source;
use section_stream::candidates_grow;
use shell_streams::{Output, OutputFault, PacketReader};
use std::alloc::Global;

/// Writes the sections of DSM-CC (ISO/IEC 13818-6) with a good CRC on the PID `pid`, 0 to 8,191,
/// unchanged and in the order in which they end. A packet has 188 bytes (ISO/IEC 13818-1, 2.4.3.2).
///
/// What is due is written before more is read, so a sender sees each section as soon as it has
/// come.
pub fn record<S: Source, O: Output>(alloc: Global, pid: u16, source: &mut S, out: &mut O) -> Status
    requires { IsFlushed (O.state out.old) }
    ensures records { Records pid result (over S.left S.faults source.old source.new)
        (out_over O.state out.old out.new) }
    ensures same { (O.state out.new).name ≡ (O.state out.old).name }
    ensures in_time { IsInTime (O.state out.old) (O.state out.new) }
{
    match record_all(alloc, pid, source, out) {
        Ok(()) => Status::Done,
        Err(status) => status,
    }
}

fn record_all<S: Source, O: Output>(
    alloc: Global,
    pid: u16,
    source: &mut S,
    out: &mut O,
) -> Result<(), Status>
    requires { IsFlushed (O.state out.old) }
    ensures records { Records pid (end_status result) (over S.left S.faults source.old source.new)
        (out_over O.state out.old out.new) }
    ensures same { (O.state out.new).name ≡ (O.state out.old).name }
    ensures in_time { IsInTime (O.state out.old) (O.state out.new) }
{
    candidates_grow();
    let mut reader = PacketReader::new(alloc, pid)?;
    while let Some(candidates) = reader.next(source)? {
        put_accepted(&candidates, out)?;
        write_before_reading(&reader, out)?;
    }
    out.flush()?;
    Ok(())
}

/// Nothing is written while the next packet is held already.
fn write_before_reading<O: Output>(reader: &PacketReader, out: &mut O) -> Result<(), OutputFault>
    ensures puts { Puts result (O.state out.old) (O.state out.new) [] }
    ensures due { OnOk result (is_ready reader.now ≡ false → IsFlushed (O.state out.new)) }
{
    if reader.is_ready() {
        Ok(())
    } else {
        out.flush()
    }
}

fn put_accepted<O: Output>(candidates: &[Vec<u8>], out: &mut O) -> Result<(), OutputFault>
    ensures { Puts result (O.state out.old) (O.state out.new)
        (sections.accepted_bytes (map view_bytes candidates.now)) }
{
    for candidate in candidates {
        put_one(candidate, out)?;
    }
    Ok(())
}

fn put_one<O: Output>(candidate: &[u8], out: &mut O) -> Result<(), OutputFault>
    ensures { Puts result (O.state out.old) (O.state out.new)
        (inner.accepted_one candidate.now) }
{
    if is_accepted(candidate) {
        out.put(candidate)
    } else {
        Ok(())
    }
}

fn is_accepted(candidate: &[u8]) -> bool
    ensures { result ≡ sections.is_accepted candidate.now }
{
    payload_of(candidate).is_ok()
}
