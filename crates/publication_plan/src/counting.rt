//! How long a cycle is.

ghost use Rattle.std.specs.Prelude.{◌≡◌, ◌≤◌, ◌*◌, length, IfOk, OnOk};
ghost use Rattle.std.specs.List.{All, Contains};
ghost use Rattle.generation.specs.Layouts.{items_of, section_of, cycle_items};
ghost use Rattle.section_stream.specs.Packing.{IsSectionLike, idle, last_of, packets_of, past};
ghost use Rattle.publication_plan.specs.Telling.{cycle_packets, cycle_sections, milliseconds};

use carousel_profile::{CAROUSEL_PID, PACKET_LENGTH};
use cycle_planner::{Item, Walk, Weigh, cycle_len};
use generation::Generation;
use oc_bytes::NoMemory;
use section_stream::Mux;
use std::alloc::Global;

/// The PID of the packets that are counted. Their number is the same on each.
const PID: u16 = CAROUSEL_PID;

/// The most packets that a cycle takes, and more.
const MOST_PACKETS: u64 = 1_099_511_627_776;

/// The sections of one cycle, and the packets that they take where it is sent alone.
#[derive(Clone, Copy)]
pub(crate) struct Cycle {
    pub(crate) sections: u64,
    pub(crate) packets: u64,
}

/// Counts the sections and the packets of a generation's cycle under these weights.
pub(crate) fn count_cycle(
    alloc: Global,
    generation: &Generation,
    weigh: &Weigh,
) -> Result<Cycle, NoMemory>
    requires { All IsSectionLike (cycle_sections weigh.now.weights generation.now) }
    ensures sections { IfOk result (λ c.
        c.sections ≡ length (cycle_items weigh.now.weights generation.now)) }
    ensures packets { IfOk result (λ c.
        c.packets ≡ length (cycle_packets weigh.now.weights generation.now)) }
    ensures few { IfOk result (λ c. c.packets ≤ MOST_PACKETS) }
{
    let lines = generation.lines();
    let sections = cycle_len(lines, weigh);
    let mut counter = Counter::new(alloc);
    let mut walk = Walk::new(lines, weigh);
    let mut packets = 0;
    while let Some(item) = walk.next(lines, weigh) {
        packets += counter.count(generation, item)?;
    }
    packets += counter.finish()?;
    Ok(Cycle { sections, packets })
}

/// Sections on their way into packets, which are counted.
#[derive(Drop)]
struct Counter {
    mux: Mux,
    /// Room for the packets of one section.
    packets: Vec<[u8; PACKET_LENGTH]>,
}

impl Counter {
    fn new(alloc: Global) -> Counter
        ensures { result.mux ≡ idle PID 0 }
    {
        Counter {
            mux: Mux::new(alloc, PID),
            packets: Vec::new(alloc),
        }
    }

    /// How many packets the section of an item gives.
    fn count(&mut self, generation: &Generation, item: Item) -> Result<u64, NoMemory>
        requires item { Contains (items_of generation.now) item }
        requires like { IsSectionLike (section_of generation.now item) }
        ensures count { IfOk result (λ n.
            n ≡ length (packets_of self.old.mux (section_of generation.now item))) }
        ensures mux { OnOk result
            (self.new.mux ≡ past self.old.mux (section_of generation.now item)) }
    {
        let section = generation.section(item)?;
        self.packets.clear();
        self.mux.packets(&section, &mut self.packets)?;
        Ok(self.packets.len() as u64)
    }

    /// How many packets the end of the sections gives.
    fn finish(&mut self) -> Result<u64, NoMemory>
        ensures { IfOk result (λ n. n ≡ length (last_of self.old.mux)) }
    {
        self.packets.clear();
        self.mux.finish(&mut self.packets)?;
        Ok(self.packets.len() as u64)
    }
}

/// How long so many bytes take at a rate of bits a second, in milliseconds, rounded up.
pub(crate) fn time_of(bytes: u64, bitrate: u32) -> u64
    requires some { 1 ≤ bitrate }
    requires few { bytes ≤ PACKET_LENGTH * MOST_PACKETS }
    ensures { result ≡ milliseconds bytes bitrate }
{
    let bitrate = u64::from(bitrate);
    (8_000 * bytes + bitrate - 1) / bitrate
}
