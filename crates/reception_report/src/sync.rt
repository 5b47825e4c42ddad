//! Where the sync byte stands in an input that isn't one of packets.

ghost use Rattle.std.specs.Prelude.{◌≡◌, ◌<◌};
ghost use Rattle.oc_bytes.specs.Outcome.{Spells};
ghost use Rattle.reception_report.specs.Sync as sync;

use carousel_profile::PACKET_LENGTH;
use oc_bytes::NoMemory;
use std::alloc::Global;

/// The sync byte of a packet (ISO/IEC 13818-1, 2.4.3.2).
const SYNC: u8 = 0x47;

/// Where the sync byte stands.
#[derive(Clone, Copy, Debug, PartialEq, Eq)]
pub enum SyncPlace {
    /// At this byte, from 0, of each stretch of so many bytes, which are 188, 192 or 204.
    At(usize, usize),
    /// At no byte of each stretch of one of these lengths.
    Nowhere,
}

/// Where the sync byte stands in the front of an input: at the least place of each stretch of 188
/// bytes, or else of 192, or else of 204. There have to be two whole stretches at least.
pub fn sync_of(front: &[u8]) -> SyncPlace
    ensures { result ≡ sync.sync_of front.now }
{
    if let Some(place) = place_at(PACKET_LENGTH, front) {
        return SyncPlace::At(place, PACKET_LENGTH);
    }
    if let Some(place) = place_at(192, front) {
        return SyncPlace::At(place, 192);
    }
    match place_at(204, front) {
        Some(place) => SyncPlace::At(place, 204),
        None => SyncPlace::Nowhere,
    }
}

/// The least place at which the sync byte stands in each stretch of so many bytes.
fn place_at(distance: usize, front: &[u8]) -> Option<usize>
    requires { 0 < distance }
    ensures { result ≡ sync.place_at distance front.now }
{
    for place in 0..distance {
        if stands_at(distance, front, place) {
            return Some(place);
        }
    }
    None
}

/// Whether it stands at this place of each stretch, of which there are two at least.
fn stands_at(distance: usize, front: &[u8], place: usize) -> bool
    requires some { 0 < distance }
    requires within { place < distance }
    ensures { result ≡ sync.stands_at distance front.now place }
{
    let stretches = front.len() / distance;
    if stretches < 2 {
        return false;
    }
    for i in 0..stretches {
        if front[i * distance + place] != SYNC {
            return false;
        }
    }
    true
}

/// What is said of an input that isn't one of packets, without a line feed. This project's own
/// text; out of memory is the only refusal.
pub fn sync_text(alloc: Global, place: SyncPlace) -> Result<String, NoMemory>
    ensures { Spells result (sync.sync_line place) }
{
    match place {
        SyncPlace::At(place, distance) => format!(in alloc;
            "not packets: at the front 0x47 stands at byte {place} of each {distance}"
        ),
        SyncPlace::Nowhere => String::from_str(
            alloc,
            "not packets: at the front 0x47 stands at no byte of each 188, 192 or 204",
        ),
    }
}
