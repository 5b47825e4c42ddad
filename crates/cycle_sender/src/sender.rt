ghost use Rattle.std.specs.Prelude.{◌≡◌, ◌++◌, ◌<◌, OnErr, OnOk};
ghost use Rattle.std.specs.List.{All, Contains, concat, fold};
ghost use Rattle.generation.specs.Layouts.{items_of, section_of, cycle_sections};
ghost use Rattle.section_stream.specs.Groups.{IsBetween, packets_of_group, past_group};
ghost use Rattle.section_stream.specs.Packing.{IsSectionLike, after_finish, idle, last_of, packets_of, packets_of_all, past};
ghost use Rattle.shell_streams.specs.Sending.{HasPut, Puts};
ghost use Rattle.shell_streams.specs.Cuts.{Bytes};

use carousel_profile::PACKET_LENGTH;
use cycle_planner::{Item, Walk, Weigh};
use generation::Generation;
use oc_bytes::NoMemory;
use section_stream::Mux;
use shell_streams::{MOST_PENDING, Output, OutputFault};
use std::alloc::Global;

/// So many packets are more than wait in an output.
const MANY: usize = MOST_PENDING / PACKET_LENGTH + 1;

/// Sections on their way to the output.
#[derive(Drop)]
pub struct Sender {
    pub mux: Mux,
    /// Room for packets.
    pub packets: Vec<[u8; PACKET_LENGTH]>,
}

impl Sender {
    /// Sends on a PID, 0 to 8,191.
    pub fn new(alloc: Global, pid: u16) -> Sender
        requires { pid < 8192 }
        ensures { result.mux ≡ idle pid 0 }
    {
        Sender {
            mux: Mux::new(alloc, pid),
            packets: Vec::new(alloc),
        }
    }

    /// Sends a cycle as a group of its own.
    pub fn send_group<O: Output>(
        &mut self,
        generation: &Generation,
        weigh: &Weigh,
        out: &mut O,
    ) -> Result<(), OutputFault>
        requires between { IsBetween self.old.mux }
        requires like { All IsSectionLike (cycle_sections weigh.now.weights generation.now) }
        ensures puts { Puts result (O.state out.old) (O.state out.new)
            (concat
            (packets_of_group self.old.mux (cycle_sections weigh.now.weights generation.now))) }
        ensures mux { OnOk result
            (self.new.mux
            ≡ past_group self.old.mux (cycle_sections weigh.now.weights generation.now)) }
    {
        self.send_cycle(generation, weigh, out)?;
        self.finish(out)
    }

    /// Sends a cycle within a group.
    pub fn send_cycle<O: Output>(
        &mut self,
        generation: &Generation,
        weigh: &Weigh,
        out: &mut O,
    ) -> Result<(), OutputFault>
        ensures puts { Puts result (O.state out.old) (O.state out.new)
            (concat
            (packets_of_all self.old.mux (cycle_sections weigh.now.weights generation.now))) }
        ensures mux { OnOk result
            (self.new.mux
            ≡ fold past self.old.mux (cycle_sections weigh.now.weights generation.now)) }
    {
        let lines = generation.lines();
        let mut walk = Walk::new(lines, weigh);
        self.packets.clear();
        while let Some(item) = walk.next(lines, weigh) {
            self.pack(generation, item)?;
            self.put_many(out)?;
        }
        put_packets(&self.packets, out)
    }

    /// Adds the packets of an item. A block is copied from its module.
    fn pack(&mut self, generation: &Generation, item: Item) -> Result<(), NoMemory>
        requires { Contains (items_of generation.now) item }
        ensures packets { OnOk result (self.new.packets.items
            ≡ self.old.packets.items
            ++ packets_of self.old.mux (section_of generation.now item)) }
        ensures mux { OnOk result
            (self.new.mux ≡ past self.old.mux (section_of generation.now item)) }
    {
        let section = generation.section(item)?;
        self.mux.packets(&section, &mut self.packets)
    }

    /// Puts the packets if they fill a write, which copies them to no buffer then.
    fn put_many<O: Output>(&mut self, out: &mut O) -> Result<(), OutputFault>
        ensures put { OnOk result ((put : Bytes)
            × HasPut (O.state out.old) (O.state out.new) put
            × (put ++ concat self.new.packets.items ≡ concat self.old.packets.items)) }
        ensures stopped { OnErr result (Puts result (O.state out.old) (O.state out.new)
            (concat self.old.packets.items)) }
        ensures mux { self.new.mux ≡ self.old.mux }
    {
        if self.packets.len() < MANY {
            return Ok(());
        }
        put_packets(&self.packets, out)?;
        self.packets.clear();
        Ok(())
    }

    /// Ends the group, and sends what is held back of it.
    pub fn finish<O: Output>(&mut self, out: &mut O) -> Result<(), OutputFault>
        ensures puts { Puts result (O.state out.old) (O.state out.new)
            (concat (last_of self.old.mux)) }
        ensures mux { OnOk result (self.new.mux ≡ after_finish self.old.mux) }
    {
        self.packets.clear();
        self.mux.finish(&mut self.packets)?;
        put_packets(&self.packets, out)
    }
}

pub fn put_packets<O: Output>(
    packets: &[[u8; PACKET_LENGTH]],
    out: &mut O,
) -> Result<(), OutputFault>
    ensures { Puts result (O.state out.old) (O.state out.new) (concat packets.now) }
{
    out.put(packets.as_flattened())
}
