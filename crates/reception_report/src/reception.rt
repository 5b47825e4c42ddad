//! The reception of an input's packets.

ghost use Rattle.std.specs.Prelude.{◌≡◌, Some, None, IfOk, if◌then◌else◌};
ghost use Rattle.oc_bytes.specs.Outcome.{Known};
ghost use Rattle.shell_streams.specs.Carriers.{Hears, all_packets};
ghost use Rattle.reception_report.specs.Hearing.{IsReception};
ghost use Rattle.reception_report.specs.Report.{lacks_sync, tail_count, tail_of};
ghost use Rattle.reception_report.specs.Sync as sync;

use crate::following::Follower;
use crate::hearing::Ear;
use crate::sync::{SyncPlace, sync_of};
use oc_bytes::Source;
use section_stream::{Counts, counts_are_numbers};
use shell_streams::{InputFault, hear_packets_and_rest};
use std::alloc::Global;

/// What a receiver of one PID holds and passed over of an input.
#[derive(Drop)]
pub struct Reception {
    /// What was counted of the packets, and of a last piece that is none.
    pub counts: Counts,
    /// Where the sync byte stands, where more than half of the packets lack it, or less than one
    /// packet came.
    pub sync: Option<SyncPlace>,
    pub(crate) follower: Follower,
}

/// Hears all packets of the source, whatever their PIDs, and the sections of the PID `pid`, 0 to
/// 8,191, in them.
///
/// `TooLong` comes exactly where [`MOST_PACKETS`](shell_streams::MOST_PACKETS) packets were taken
/// and at least a byte more is read, `Failed` where the source fails, and `NoMemory` where there
/// is no memory.
pub fn receive_packets<S: Source>(
    alloc: Global,
    pid: u16,
    source: &mut S,
) -> Result<Reception, InputFault>
    ensures hears { Hears all_packets (λ r packets. IsReception pid r packets) result
        (S.left source.old) (S.left source.new) (S.faults source.old) (S.faults source.new) }
    ensures tail { IfOk result (λ r.
        Known (S.left source.old) (S.left source.new) (λ input _.
        r.counts.short_tail ≡ tail_count input)) }
{
    counts_are_numbers();
    let mut ear = Ear::new(alloc, pid)?;
    let rest = hear_packets_and_rest(alloc, source, &mut ear)?;
    let counts = with_tail(ear.demux.counts(), rest);
    let sync = sync_without_packets(&counts, &ear.front.bytes);
    Ok(Reception {
        counts,
        sync,
        follower: ear.follower,
    })
}

/// The counts with that of a last piece of so many bytes.
fn with_tail(counts: Counts, rest: usize) -> Counts
    ensures { result ≡ record counts { short_tail = tail_of rest } }
{
    let short_tail = if rest == 0 { 0 } else { 1 };
    Counts {
        short_tail,
        ..counts
    }
}

/// Where the sync byte stands, where more than half of the packets lack it, or less than one came.
fn sync_without_packets(counts: &Counts, front: &[u8]) -> Option<SyncPlace>
    ensures { result ≡ (if lacks_sync counts.now then Some (sync.sync_of front.now) else None) }
{
    let lacks = counts.no_sync > counts.packets / 2;
    let none = counts.packets == 0 && counts.short_tail > 0;
    if lacks || none {
        Some(sync_of(front))
    } else {
        None
    }
}
