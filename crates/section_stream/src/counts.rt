ghost use Rattle.std.specs.Prelude.{◌≡◌, false};
ghost use Rattle.section_stream.specs.Rules as rules;
ghost use Rattle.section_stream.specs.Inner.Steps as steps;

use ts_packet::PacketFault;

/// How often each of the receiver's rules applied so far. A count stops at the greatest `u64`.
#[derive(Clone, Copy, Debug, PartialEq, Eq)]
pub struct Counts {
    /// All packets.
    pub packets: u64,
    /// Packets whose first byte isn't the sync byte.
    pub no_sync: u64,
    /// Packets with the transport error indicator.
    pub errored: u64,
    /// Scrambled packets.
    pub scrambled: u64,
    /// Packets whose adaptation field control is 00.
    pub reserved: u64,
    /// Packets whose adaptation field leaves no room for a payload.
    pub bad_field: u64,
    /// Packets of another PID.
    pub other_pid: u64,
    /// Packets without a payload.
    pub no_payload: u64,
    /// Packets with the counter and the payload of the last one.
    pub duplicates: u64,
    /// Packets whose counter isn't one above the last one's.
    pub jumps: u64,
    /// Packets that begin no section while none is open.
    pub orphans: u64,
    /// Packets whose pointer field points past their payload.
    pub bad_pointer: u64,
    /// Sections that were incomplete where the next one began.
    pub cut: u64,
    /// Sections whose length field is above 4,093.
    pub oversize: u64,
    /// Inputs that ended with fewer than 188 bytes.
    pub short_tail: u64,
}

/// Why a packet changes nothing but counts.
#[derive(Clone, Copy, Debug, PartialEq, Eq)]
pub enum Aside {
    Fault(PacketFault),
    OtherPid,
    NoPayload,
    Duplicate,
}

pub fn nothing_counted() -> Counts
    ensures { result ≡ rules.nothing_counted }
{
    Counts {
        packets: 0,
        no_sync: 0,
        errored: 0,
        scrambled: 0,
        reserved: 0,
        bad_field: 0,
        other_pid: 0,
        no_payload: 0,
        duplicates: 0,
        jumps: 0,
        orphans: 0,
        bad_pointer: 0,
        cut: 0,
        oversize: 0,
        short_tail: 0,
    }
}

#[inline]
pub fn up(count: u64) -> u64
    ensures { result ≡ rules.up count }
{
    count.saturating_add(1)
}

/// Counts a packet that is taken. `jumped`: packets before it are missing.
#[inline]
pub fn count_packet(counts: &mut Counts, jumped: bool)
    ensures { counts.new ≡ steps.with_packet jumped counts.old }
{
    counts.packets = up(counts.packets);
    if jumped {
        counts.jumps = up(counts.jumps);
    }
}

#[inline]
pub fn count_aside(counts: &mut Counts, aside: Aside)
    ensures { counts.new ≡ steps.count_aside aside (steps.with_packet false counts.old) }
{
    counts.packets = up(counts.packets);
    match aside {
        Aside::Fault(PacketFault::NoSync) => counts.no_sync = up(counts.no_sync),
        Aside::Fault(PacketFault::Errored) => counts.errored = up(counts.errored),
        Aside::Fault(PacketFault::Scrambled) => counts.scrambled = up(counts.scrambled),
        Aside::Fault(PacketFault::Reserved) => counts.reserved = up(counts.reserved),
        Aside::Fault(PacketFault::BadField) => counts.bad_field = up(counts.bad_field),
        Aside::OtherPid => counts.other_pid = up(counts.other_pid),
        Aside::NoPayload => counts.no_payload = up(counts.no_payload),
        Aside::Duplicate => counts.duplicates = up(counts.duplicates),
    }
}
