ghost use Rattle.std.specs.Prelude.{◌≡◌, ◌<◌, ◌≤◌, ◌*◌, ◌++◌, ◌∷◌, [], List, ℕ, map, length, true, IfOk, IsErr, OnOk, OnErr};
ghost use Rattle.std.specs.List.{All};
ghost use Rattle.path_tree.specs.Paths.{Bytes};
ghost use Rattle.cycle_planner.specs.Weights.{AreWeights};
ghost use Rattle.generation.specs.Layouts.{section_of, AreItemsOf};
ghost use Rattle.section_stream.specs.Kept.{view_bytes};
ghost use Rattle.section_stream.specs.Packing.{IsSectionLike};
ghost use Rattle.section_stream.specs.Groups.{packets_of_group};
ghost use Rattle.carousel_world.specs.DownView.{DownlinkStands};
ghost use Rattle.carousel_world.specs.Events.{view, Step, Commit, Draw, Open};
ghost use Rattle.carousel_world.specs.Promises.{MeetsHeadline, world_after};
ghost use Rattle.carousel_world.specs.Fates.{received_under};
ghost use Rattle.carousel_world.specs.World.{WorldState, InRange, AsksForMemory, initial_world, reply_to};
ghost use Rattle.cycle_planner.specs.declared.TheConstants.{MOST_DRAWN};

use crate::downlink::Downlink;
use crate::event::{Event, Reply};
use crate::laws::every_run_meets_the_headline;
use carousel_profile::CAROUSEL_PID;
use cycle_planner::{Item, Weigh};
use generation::Generation;
use generation_catalogue::{Batch, CommitFault, DrawFault, Journal};
use oc_bytes::NoMemory;
use path_tree::{Edits, Path};
use std::alloc::{AllocError, Global};
use ts_packet::Fate;

/// The PID on which a world sends.
const PID: u16 = CAROUSEL_PID;

/// The most items of a draw whose sections are in memory at once.
const PIECE: usize = 1024;

/// A broadcaster of one carousel and a receiver, one event after another.
#[derive(Drop)]
pub struct World {
    alloc: Global,
    journal: Journal,
    weigh: Weigh,
    downlink: Downlink,
    pub ghost same: { weigh.weights ≡ journal.weights },
}

impl World {
    ghost use Rattle.carousel_world.specs.View.{kept_in, StandsFor, IsLeft, Follows, FollowsAll, IsReply, AreReplies, WantsMemory};

    /// The world of a carousel, any 32-bit id, in which nothing has happened: generation 0 is
    /// empty, and the receiver has heard nothing. Modules are sent as often as they weigh, 1 to 8.
    pub fn new(alloc: Global, carousel: u32, weigh: Weigh) -> Result<World, NoMemory>
        requires { AreWeights weigh.weights }
        ensures { IfOk result (λ w. StandsFor (kept_in w) (initial_world carousel weigh.weights)) }
    {
        Ok(World {
            alloc,
            journal: Journal::new(alloc, carousel, weigh.kept())?,
            weigh,
            downlink: Downlink::new(alloc, PID)?,
        })
    }

    /// Makes one event happen, and gives its reply. Editors and readers are numbered 1 to 64. A
    /// draw asks for 1 to [`cycle_planner::MOST_DRAWN`] items.
    ///
    /// A draw that runs out of memory spends the world: each later call answers out of memory.
    pub fn step(&mut self, event: Event) -> Result<Reply, NoMemory>
        requires { InRange (view event) }

        // The reply, and the world after it.
        ensures reply { IfOk result (IsReply (kept_in self.old) (view event)) }
        ensures stands { OnOk result (Follows (kept_in self.old) (kept_in self.new) (view event)) }

        // Out of memory: what it leaves, and when it comes.
        ensures left { OnErr result (IsLeft (view event) (kept_in self.old) (kept_in self.new)) }
        ensures memory { OnErr result (WantsMemory (kept_in self.old) (view event)) }
        ensures stays { (kept_in self.old).down.spent ≡ true
            → IsErr result × ((kept_in self.new).down.spent ≡ true) }
    {
        if self.downlink.is_spent() {
            return Err(AllocError);
        }
        match event {
            Event::Commit { editor, edits } => self.commit(editor, edits),
            Event::Draw { asked, fates } => self.draw(asked, &fates),
            Event::Open { reader: _, path } => self.open(&path),
        }
    }

    fn commit(&mut self, editor: u32, edits: Edits) -> Result<Reply, NoMemory>
        ensures reply { IfOk result (IsReply (kept_in self.old) (Commit editor edits)) }
        ensures stands { OnOk result
            (Follows (kept_in self.old) (kept_in self.new) (Commit editor edits)) }
        ensures left { OnErr result (kept_in self.new ≡ kept_in self.old) }
        ensures memory { OnErr result (WantsMemory (kept_in self.old) (Commit editor edits)) }
    {
        match self.journal.commit_edits(editor, edits) {
            Ok(number) => Ok(Reply::Committed(number)),
            Err(CommitFault::Refused(refusal)) => Ok(Reply::Refused(refusal)),
            Err(CommitFault::NoMemory) => Err(AllocError),
        }
    }

    /// Out of memory spends the world.
    fn draw(&mut self, asked: u32, fates: &[Fate]) -> Result<Reply, NoMemory>
        requires { (1 ≤ asked) × (asked ≤ MOST_DRAWN) }
        ensures reply { IfOk result (IsReply (kept_in self.old) (Draw asked fates.now)) }
        ensures stands { OnOk result
            (Follows (kept_in self.old) (kept_in self.new) (Draw asked fates.now)) }
        ensures left { OnErr result ((kept_in self.new).down.spent ≡ true) }
        ensures memory { OnErr result (WantsMemory (kept_in self.old) (Draw asked fates.now)) }
    {
        let drawn = self.draw_and_send(asked, fates);
        if drawn.is_err() {
            self.downlink.spend();
        }
        drawn
    }

    fn draw_and_send(&mut self, asked: u32, fates: &[Fate]) -> Result<Reply, NoMemory>
        requires { (1 ≤ asked) × (asked ≤ MOST_DRAWN) }
        ensures reply { IfOk result (IsReply (kept_in self.old) (Draw asked fates.now)) }
        ensures stands { OnOk result
            (Follows (kept_in self.old) (kept_in self.new) (Draw asked fates.now)) }
        ensures memory { OnErr result (WantsMemory (kept_in self.old) (Draw asked fates.now)) }
    {
        let batch = match self.journal.draw(&self.weigh, asked) {
            Ok(batch) => batch,
            Err(DrawFault::DrawsFull(draws)) => return Ok(Reply::DrawsFull(draws)),
            Err(DrawFault::NoMemory) => return Err(AllocError),
        };
        send(
            self.alloc,
            &mut self.downlink,
            &batch.generation,
            &batch.items,
            fates,
        )?;
        Ok(Reply::Drawn {
            generation: batch.generation.number(),
            first: batch.first,
            count: batch.items.len() as u64,
        })
    }

    fn open(&self, path: &Path) -> Result<Reply, NoMemory>
        ensures reply { IfOk result (λ r.
            (w : WorldState) (reader : ℕ)
            → StandsFor (kept_in self.now) w
            → r ≡ reply_to w (Open reader path.now)) }
        ensures memory { OnErr result ((w : WorldState) (reader : ℕ)
            → StandsFor (kept_in self.now) w
            → AsksForMemory w (Open reader path.now)) }
    {
        let (label, answer) = self.downlink.open(path)?;
        Ok(Reply::Opened { label, answer })
    }

    /// Stops at the first event that finds no memory.
    fn run_all(&mut self, events: Vec<Event>) -> Result<Vec<Reply>, NoMemory>
        requires { All InRange (map view events.items) }
        ensures replies { IfOk result (λ rs.
            AreReplies (kept_in self.old) (map view events.items) rs.items) }
        ensures stands { OnOk result
            (FollowsAll (kept_in self.old) (kept_in self.new) (map view events.items)) }
        ensures memory { OnErr result (0 < length events.items) }
    {
        let mut replies = Vec::with_capacity(self.alloc, events.len())?;
        for event in events {
            replies.push(self.step(event)?)?;
        }
        Ok(replies)
    }

    /// Makes events happen in turn, each as `step` does, and gives their replies. Out of memory
    /// spends the world.
    pub fn run(&mut self, events: Vec<Event>) -> Result<Vec<Reply>, NoMemory>
        requires { All InRange (map view events.items) }

        // The replies, the world after them, and the promises for all that happened in it.
        ensures replies { IfOk result (λ rs.
            AreReplies (kept_in self.old) (map view events.items) rs.items) }
        ensures stands { OnOk result
            (FollowsAll (kept_in self.old) (kept_in self.new) (map view events.items)) }
        ensures headline { IfOk result (λ _.
            (carousel : ℕ) (weights : List ℕ) (before : List Step)
            → StandsFor (kept_in self.old) (world_after carousel weights before)
            → MeetsHeadline carousel weights (before ++ map view events.items)) }

        // Out of memory: what it leaves, and when it comes.
        ensures spent { OnErr result ((kept_in self.new).down.spent ≡ true) }
        ensures memory { OnErr result ((w : WorldState)
            → StandsFor (kept_in self.old) w
            → 0 < length events.items) }
        ensures stays { (kept_in self.old).down.spent ≡ true → IsErr result }
    {
        if self.downlink.is_spent() {
            return Err(AllocError);
        }
        match self.run_all(events) {
            Ok(replies) => {
                self.keeps_the_headline();
                Ok(replies)
            }
            Err(fault) => {
                self.downlink.spend();
                Err(fault)
            }
        }
    }

    /// What is promised of every list of events holds of all that happened in this world, so of
    /// each list of events after which the world stands as it does. Nothing is done.
    pub fn keeps_the_headline(&self)
        ensures { (carousel : ℕ) (weights : List ℕ) (events : List Step)
            → StandsFor (kept_in self.now) (world_after carousel weights events)
            → MeetsHeadline carousel weights events }
    {
        every_run_meets_the_headline();
        self.journal.entries();
    }
}

fn encode(alloc: Global, generation: &Generation, items: &[Item]) -> Result<Vec<Vec<u8>>, NoMemory>
    requires { AreItemsOf generation.now items.now }
    ensures sections { IfOk result (λ ss.
        map view_bytes ss.items ≡ map (section_of generation.now) items.now) }
    ensures like { IfOk result (λ ss. All (λ s. IsSectionLike s.items) ss.items) }
{
    let mut sections = Vec::with_capacity(alloc, items.len())?;
    for item in items {
        sections.push(generation.section(*item)?)?;
    }
    Ok(sections)
}

/// Sends a draw. At most [`PIECE`] sections are in memory at once.
fn send(
    alloc: Global,
    downlink: &mut Downlink,
    generation: &Generation,
    items: &[Item],
    fates: &[Fate],
) -> Result<(), NoMemory>
    requires items { AreItemsOf generation.now items.now }
    requires few { length items.now ≤ MOST_DRAWN }
    ensures { OnOk result ((pid : ℕ) (groups : List (List Bytes)) (packets : List Bytes)
        → DownlinkStands downlink.old pid groups [] packets
        → (let sections = map (section_of generation.now) items.now in DownlinkStands downlink.new
        pid (groups ++ sections ∷ []) []
        (packets
        ++ received_under fates.now 0 (packets_of_group downlink.old.mux sections)))) }
{
    let mut number = 0;
    let mut sent = 0;
    loop {
        let end = items.len().min(sent + PIECE);
        let last = end == items.len();
        let sections = encode(alloc, generation, &items[sent..end])?;
        number = downlink.carry(&sections, fates, number, last)?;
        if last {
            return Ok(());
        }
        sent = end;
    }
}
