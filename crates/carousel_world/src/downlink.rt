ghost use Rattle.std.specs.Prelude.{◌≡◌, ◌<◌, ◌≤◌, ◌^◌, ◌+◌, ◌++◌, ◌∷◌, [], List, ℕ, false, true, map, length, IfOk, IsErr, IsTrue, OnOk, OnErr};
ghost use Rattle.std.specs.Arc.{arc_value};
ghost use Rattle.std.specs.List.{All};
ghost use Rattle.path_tree.specs.Paths.{Bytes};
ghost use Rattle.path_resolver.specs.Resolving.{is_shared};
ghost use Rattle.path_resolver.specs.Shots as shots;
ghost use Rattle.section_stream.specs.Kept.{view_bytes};
ghost use Rattle.section_stream.specs.Packing.{IsSectionLike, after_finish, last_of};
ghost use Rattle.section_stream.specs.Cuts.{candidates};
ghost use Rattle.tuner_core.specs.Stands as tuning;
ghost use Rattle.tuner_core.specs.LookBack.{answer_after, snapshot_after};
ghost use Rattle.carousel_world.specs.Fates.{fate_of, received_under};
ghost use Rattle.carousel_world.specs.DownView.{DownlinkStands, begun_with, ended_with, packets_given, past_given};
ghost use Rattle.carousel_world.specs.Inner.DownView.{Hears};
ghost use Rattle.carousel_world.specs.Receptions.{label_after};
ghost use Rattle.cycle_planner.specs.declared.TheConstants.{MOST_DRAWN};

use carousel_profile::PACKET_LENGTH;
use oc_bytes::NoMemory;
use path_resolver::{Answer, Holding, Shot};
use path_tree::Path;
use section_stream::{Mux, PacketDemux};
use std::alloc::{AllocError, Global};
use std::marker::Model;
use std::sync::Arc;
use ts_packet::Fate;
use tuner_core::Tuner;

/// The way from a broadcaster to a receiver, and that receiver. Sections are packed, each packet
/// meets its fate, and what arrives is cut into candidates and held.
///
/// `DownlinkStands` says which groups of sections and received packets its parts stand for.
#[derive(Drop)]
pub struct Downlink {
    alloc: Global,
    mux: Mux,
    demux: PacketDemux,
    tuner: Tuner,
    spent: bool,
}

impl Model for Downlink {
    ghost use Rattle.carousel_world.specs.DownView.{DownlinkState};

    ghost Value = { DownlinkState };

    ghost view = { λ d. record { mux = d.mux; demux = d.demux; tuner = d.tuner; spent = d.spent } };
}

/// The list goes round, and an empty one keeps all.
fn fate_at(fates: &[Fate], number: u64) -> Fate
    ensures { result ≡ fate_of fates.now number }
{
    if fates.is_empty() {
        return Fate::Keep;
    }
    fates[(number % fates.len() as u64) as usize]
}

impl Downlink {
    /// A downlink on a PID, 0 to 8,191.
    pub fn new(alloc: Global, pid: u16) -> Result<Downlink, NoMemory>
        requires { pid < 8192 }
        ensures { IfOk result (λ d. DownlinkStands d pid [] [] []) }
    {
        Ok(Downlink {
            alloc,
            mux: Mux::new(alloc, pid),
            demux: PacketDemux::new(alloc, pid)?,
            tuner: Tuner::new(alloc),
            spent: false,
        })
    }

    /// Answers out of memory from now on.
    pub(crate) fn spend(&mut self)
        ensures { self.new ≡ record self.old { spent = true } }
    {
        self.spent = true;
    }

    pub(crate) fn is_spent(&self) -> bool
        ensures { result ≡ self.now.spent }
    {
        self.spent
    }

    /// Sends sections of a draw, and answers the number of the next packet; the first is number
    /// `from`, at most 2^40. Packet i has the fate at place i modulo their number, or is kept if
    /// there are none.
    ///
    /// A draw is a group. `last` ends it: what is held back is sent too. Out of memory spends the
    /// downlink.
    pub fn carry(
        &mut self,
        sections: &[Vec<u8>],
        fates: &[Fate],
        from: u64,
        last: bool,
    ) -> Result<u64, NoMemory>
        // What is sent can be numbered and packed.
        requires few { length sections.now ≤ MOST_DRAWN }
        requires sections { All (λ s. IsSectionLike s.items) sections.now }
        requires from { from ≤ 2 ^ 40 }

        // The next number, and the downlink after it.
        ensures number { IfOk result (λ n.
            n ≡ from + length (packets_given self.old.mux (map view_bytes sections.now) last)) }
        ensures stands { OnOk result ((pid : ℕ) (groups : List (List Bytes))
            (begun packets : List Bytes)
            → DownlinkStands self.old pid groups begun packets
            → (let more = begun
            ++ map view_bytes sections.now in DownlinkStands self.new pid
            (ended_with groups more last) (begun_with more last)
            (packets
            ++ received_under fates.now from
            (packets_given self.old.mux (map view_bytes sections.now) last)))) }
        ensures mux { OnOk result
            (self.new.mux ≡ past_given self.old.mux (map view_bytes sections.now) last) }

        // Out of memory, now and from then on.
        ensures spent { OnErr result (self.new.spent ≡ true) }
        ensures stays { self.old.spent ≡ true → IsErr result }
    {
        if self.spent {
            return Err(AllocError);
        }
        let carried = self.send(sections, fates, from, last);
        if carried.is_err() {
            self.spent = true;
        }
        carried
    }

    fn send(
        &mut self,
        sections: &[Vec<u8>],
        fates: &[Fate],
        from: u64,
        last: bool,
    ) -> Result<u64, NoMemory>
        // What is sent can be numbered and packed.
        requires few { length sections.now ≤ MOST_DRAWN }
        requires sections { All (λ s. IsSectionLike s.items) sections.now }
        requires from { from ≤ 2 ^ 40 }

        // The next number, and the downlink after it.
        ensures number { IfOk result (λ n.
            n ≡ from + length (packets_given self.old.mux (map view_bytes sections.now) last)) }
        ensures mux { OnOk result
            (self.new.mux ≡ past_given self.old.mux (map view_bytes sections.now) last) }
        ensures hears { OnOk result
            (Hears self.old self.new
            (received_under fates.now from
            (packets_given self.old.mux (map view_bytes sections.now) last))) }
    {
        let mut packets = Vec::new(self.alloc);
        let mut number = from;
        for section in sections {
            packets.clear();
            self.mux.packets(section, &mut packets)?;
            number = self.receive(&packets, fates, number)?;
        }
        if last {
            return self.send_rest(&mut packets, fates, number);
        }
        Ok(number)
    }

    /// Ends the group: sends what was held back of it. `packets` is room.
    fn send_rest(
        &mut self,
        packets: &mut Vec<[u8; PACKET_LENGTH]>,
        fates: &[Fate],
        from: u64,
    ) -> Result<u64, NoMemory>
        requires { from < 2 ^ 63 }
        ensures number { IfOk result (λ n. n ≡ from + length (last_of self.old.mux)) }
        ensures mux { OnOk result (self.new.mux ≡ after_finish self.old.mux) }
        ensures hears { OnOk result
            (Hears self.old self.new (received_under fates.now from (last_of self.old.mux))) }
    {
        packets.clear();
        self.mux.finish(packets)?;
        self.receive(packets, fates, from)
    }

    /// The first packet has the number `from`. Answers the next number.
    fn receive(
        &mut self,
        packets: &[[u8; PACKET_LENGTH]],
        fates: &[Fate],
        from: u64,
    ) -> Result<u64, NoMemory>
        requires { from + length packets.now < 2 ^ 64 }
        ensures number { IfOk result (λ n. n ≡ from + length packets.now) }
        ensures mux { OnOk result (self.new.mux ≡ self.old.mux) }
        ensures hears { OnOk result
            (Hears self.old self.new (received_under fates.now from packets.now)) }
    {
        let mut number = from;
        for packet in packets {
            if let Some(arrived) = fate_at(fates, number).arrived(packet) {
                self.hear(&arrived)?;
            }
            number += 1;
        }
        Ok(number)
    }

    fn hear(&mut self, packet: &[u8; PACKET_LENGTH]) -> Result<(), NoMemory>
        ensures mux { OnOk result (self.new.mux ≡ self.old.mux) }
        ensures hears { OnOk result (Hears self.old self.new (packet.now ∷ [])) }
    {
        let candidates = self.demux.feed(packet)?;
        listen(&mut self.tuner, &candidates)
    }

    /// A shot of what is held, with the caller's counts. Modules are shared, not copied.
    pub fn shot(&self, number: u64, draws: u64) -> Result<Arc<Shot>, NoMemory>
        ensures numbers { IfOk result (λ s.
            ((arc_value s).number ≡ number) × ((arc_value s).draws ≡ draws)) }
        ensures held { IfOk result (λ s.
            (pid : ℕ) (groups : List (List Bytes)) (begun packets : List Bytes)
            → DownlinkStands self.now pid groups begun packets
            → shots.view (arc_value s) ≡ snapshot_after number draws (candidates pid packets)) }
    {
        self.tuner.shot(number, draws)
    }

    /// The label of what is held, and the answer to the path on it, by the rules of
    /// [`path_resolver::resolve`]. Nothing is promised of a spent downlink.
    pub fn open(&self, path: &Path) -> Result<(Option<u64>, Answer), NoMemory>
        ensures label { IfOk result (λ opened.
            (pid : ℕ) (groups : List (List Bytes)) (begun packets : List Bytes)
            → DownlinkStands self.now pid groups begun packets
            → opened.0 ≡ label_after (candidates pid packets)) }
        ensures answer { IfOk result (λ opened.
            (pid : ℕ) (groups : List (List Bytes)) (begun packets : List Bytes)
            → DownlinkStands self.now pid groups begun packets
            → opened.1 ≡ answer_after (candidates pid packets) path.now) }
        ensures memory { OnErr result (
            (pid : ℕ) (groups : List (List Bytes)) (begun packets : List Bytes)
            → DownlinkStands self.now pid groups begun packets
            → IsTrue (is_shared (answer_after (candidates pid packets) path.now))) }
    {
        let answer = self.tuner.resolve(path)?;
        Ok((self.tuner.label(), answer))
    }
}

fn listen(tuner: &mut Tuner, candidates: &[Vec<u8>]) -> Result<(), NoMemory>
    ensures { OnOk result ((before : List Bytes)
        → tuning.StandsFor tuner.old before
        → tuning.StandsFor tuner.new (before ++ map view_bytes candidates.now)) }
{
    for candidate in candidates {
        tuner.feed(candidate)?;
    }
    Ok(())
}
