ghost use Rattle.std.specs.Prelude.{◌≡◌, ℕ, ◌≤◌, ◌+◌, length, true, false, IfOk};
ghost use Rattle.std.specs.Arc.{arc_value};
ghost use Rattle.generation.specs.Layouts.{AreItemsOf};
ghost use Rattle.generation_catalogue.specs.Calls.{IsCommitted, IsDrawn};
ghost use Rattle.generation_catalogue.specs.History.{outcome_of, is_entered, draws_of};
ghost use Rattle.generation_catalogue.specs.declared.entry.Entry.TheVariants as entries;
ghost use Rattle.history_lock.specs.History.{Begins, Each, once_within};
ghost use Rattle.history_lock.specs.Passes.{number_of, opening_of};
ghost use Rattle.station.specs.Inner.Items.{is_opening, weights_in};
ghost use Rattle.station.specs.Kept.{list_of};
ghost use Rattle.cycle_planner.specs.declared.TheConstants.{MOST_DRAWN};
ghost use Rattle.generation_catalogue.specs.declared.journal.TheConstants.{MOST_DRAWS};

use crate::kept::Kept;
use cycle_planner::Weigh;
use generation_catalogue::{Batch, Catalogue, CommitFault, DrawFault, Journal};
use history_lock::HistoryLock;
use oc_bytes::NoMemory;
use path_tree::Edit;
use std::alloc::Global;
use std::sync::Wait;

/// The right to call a station. It knows the entries that it has seen, and the places of its own
/// among them, from 0.
pub type Pass = history_lock::Pass<Kept>;

/// A catalogue under a lock, and what answers its weights.
#[derive(Drop)]
pub struct Station {
    lock: HistoryLock<Kept>,
    weigh: Weigh,
    ghost opened: { is_opening (opening_of list_of lock) ≡ true },
    ghost weighed: { weights_in (opening_of list_of lock) ≡ weigh.weights },
}

impl Station {
    ghost use Rattle.generation_catalogue.specs.View.{state};
    ghost use Rattle.station.specs.Passes.{IsStationPass, AreNewPasses, AreAllPasses, carousel_of, weights_of, pass_count, entries_seen, seen_by, owners_of};
    ghost use Rattle.station.specs.Calls.{InOneHold, IfAnswered, IfFull, EndsWith};

    /// A station of a carousel, any 32-bit id. The passes, numbered from 0, are the editors', at
    /// most 64, and last the feeder's.
    pub fn new(
        alloc: Global,
        editors: u32,
        carousel: u32,
        weigh: Weigh,
    ) -> Result<(Station, Vec<Pass>), NoMemory>
        requires { editors ≤ 64 }
        // The station:
        ensures carousel { IfOk result (λ made. carousel_of made.0 ≡ carousel) }
        ensures weights { IfOk result (λ made. weights_of made.0 ≡ weigh.weights) }
        // The passes:
        ensures count { IfOk result (λ made. pass_count made.0 ≡ editors + 1) }
        ensures all { IfOk result (λ made. length made.1.items ≡ editors + 1) }
        ensures passes { IfOk result (λ made. AreNewPasses made.0 0 made.1.items) }
    {
        let journal = Journal::new(alloc, carousel, weigh.kept())?;
        let kept = Kept { journal };
        match HistoryLock::new(alloc, kept, editors + 1) {
            Ok((lock, passes)) => Ok((Station { lock, weigh }, passes)),
            Err((refused, _)) => Err(refused),
        }
    }

    /// `Catalogue::commit` in one hold, with the pass's number as the editor. What the pass has
    /// seen then ends with the entry. If season or journal is full, there is none.
    pub fn commit<R: Wait>(
        &self,
        rt: &R,
        pass: &mut Pass,
        edits: Vec<Edit>,
    ) -> Result<u64, CommitFault>
        // Whose call it is:
        requires { IsStationPass self.now pass.old }
        ensures pass { IsStationPass self.now pass.new }
        ensures number { number_of pass.new ≡ number_of pass.old }
        // What is answered, and then seen:
        ensures call { InOneHold (carousel_of self.now) (weights_of self.now) pass.old pass.new
            (λ c d. IsCommitted c (number_of pass.old) edits.items result d) }
        ensures entered { IfAnswered result (λ outcome.
            is_entered outcome ≡ true
            → EndsWith (entries_seen pass.new)
            (entries.Commit (number_of pass.old) edits.items outcome)) }
        ensures full { IfAnswered result (λ outcome.
            is_entered outcome ≡ false
            → outcome_of (seen_by self.now pass.new) edits.items ≡ outcome) }
    {
        let editor = pass.number();
        let mut hold = self.lock.hold(rt, pass);
        let answer = hold.value().commit(editor, edits);
        hold.put_back();
        answer
    }

    /// `Catalogue::draw` in one hold; `n` is 1 to [`cycle_planner::MOST_DRAWN`]. What the pass has
    /// seen then ends with the draw, unless the draws are full.
    pub fn draw<R: Wait>(&self, rt: &R, pass: &mut Pass, n: u32) -> Result<Batch, DrawFault>
        // Whose call it is:
        requires pass { IsStationPass self.now pass.old }
        requires count { (1 ≤ n) × (n ≤ MOST_DRAWN) }
        ensures pass { IsStationPass self.now pass.new }
        ensures number { number_of pass.new ≡ number_of pass.old }
        // What is answered, and then seen:
        ensures call { InOneHold (carousel_of self.now) (weights_of self.now) pass.old pass.new
            (λ c d. IsDrawn c n result d) }
        ensures entered { IfOk result (λ b.
            EndsWith (entries_seen pass.new)
            (entries.Draw n (arc_value b.generation).number b.first (length b.items.items))) }
        ensures full { IfFull result (λ draws.
            (draws ≡ MOST_DRAWS) × (MOST_DRAWS ≤ draws_of (seen_by self.now pass.new))) }
        // What is drawn:
        ensures some { IfOk result (λ b. (1 ≤ length b.items.items) × (length b.items.items ≤ n)) }
        ensures items { IfOk result (λ b. AreItemsOf (arc_value b.generation) b.items.items) }
    {
        let mut hold = self.lock.hold(rt, pass);
        let answer = hold.value().draw(&self.weigh, n);
        hold.put_back();
        answer
    }

    /// Takes the catalogue out, against all passes of this station. Takes no memory.
    pub fn close(self, passes: Vec<Pass>) -> Catalogue
        requires { AreAllPasses self passes.items }
        ensures carousel { (state result).carousel ≡ carousel_of self }
        ensures weights { (state result).weights ≡ weights_of self }
        ensures seen { Each (λ pass. Begins (entries_seen pass) (state result).entries)
            passes.items }
        ensures owned { (place : ℕ)
            → owners_of place passes.items ≡ once_within 0 (length (state result).entries) place }
    {
        let Station { lock, weigh } = self;
        let Kept { journal } = lock.close(passes);
        Catalogue::of(journal, weigh)
    }
}
