// The history as the lock keeps it, and the list that it stands for.
ghost use Rattle.std.specs.Prelude.{◌≡◌, IfOk, length, ◌≤◌};
ghost use Rattle.std.specs.Arc.{arc_value};
ghost use Rattle.generation.specs.Layouts.{AreItemsOf};
ghost use Rattle.generation_catalogue.specs.History.{IsHistory};
ghost use Rattle.generation_catalogue.specs.Calls.{IsCommitted, IsDrawn};
ghost use Rattle.cycle_planner.specs.declared.TheConstants.{MOST_DRAWN};

use cycle_planner::{GREATEST_ID, Weigh};
use generation_catalogue::{Batch, CommitFault, DrawFault, Entry, Journal};
use history_lock::Chronicled;
use path_tree::{Edit, Edits};

/// An element of the list that a kept catalogue stands for, the setting first. It exists in proofs
/// alone.
#[derive(Drop)]
pub enum KeptItem {
    /// What the catalogue was made with, which all passes have seen.
    Setting {
        /// Any 32-bit id.
        carousel: u32,
        /// From module 1 on.
        weights: [u8; GREATEST_ID],
    },
    /// One entry of the catalogue.
    Entry(Entry),
}

/// A station's catalogue without the closure of its weights, as a lock keeps it.
#[derive(Drop)]
pub struct Kept {
    pub(crate) journal: Journal,
}

impl Chronicled for Kept {
    type Entry = KeptItem;

    ghost use Rattle.station.specs.Items.{items_of};

    ghost list = { λ kept. items_of kept.journal };
}

impl Kept {
    pub fn commit(&mut self, editor: u32, edits: Vec<Edit>) -> Result<u64, CommitFault>
        ensures history { IsHistory self.old.journal }
        ensures call { IsCommitted self.old.journal editor edits.items result self.new.journal }
    {
        self.journal.entries();
        self.journal.commit_edits(editor, Edits::new(edits))
    }

    /// The weights have to be the catalogue's.
    pub fn draw(&mut self, weigh: &Weigh, n: u32) -> Result<Batch, DrawFault>
        // What is known of the weights and the count:
        requires count { (1 ≤ n) × (n ≤ MOST_DRAWN) }
        requires weights { weigh.now.weights ≡ self.old.journal.weights }
        // What is drawn:
        ensures history { IsHistory self.old.journal }
        ensures call { IsDrawn self.old.journal n result self.new.journal }
        ensures some { IfOk result (λ b. (1 ≤ length b.items.items) × (length b.items.items ≤ n)) }
        ensures items { IfOk result (λ b. AreItemsOf (arc_value b.generation) b.items.items) }
    {
        self.journal.entries();
        self.journal.draw(weigh, n)
    }
}
