ghost use Rattle.std.specs.Prelude.{◌≡◌, ◌≤◌, ◌∷◌, [], length, IfOk};
ghost use Rattle.std.specs.Arc.{arc_value};
ghost use Rattle.generation.specs.Kept.{layouts_of};
ghost use Rattle.generation.specs.Lawful.{Lawful};
ghost use Rattle.generation.specs.Layouts.{AreItemsOf};
ghost use Rattle.generation_catalogue.specs.History.{IsHistory, current_of, trees_of};
ghost use Rattle.generation_catalogue.specs.Calls.{IsCommitted, IsDrawn};
ghost use Rattle.cycle_planner.specs.declared.TheConstants.{MOST_DRAWN};

use crate::entry::{Batch, CommitFault, DrawFault, Entry};
use crate::journal::Journal;
use cycle_planner::Weigh;
use generation::{Generation, layouts_are_lawful};
use oc_bytes::NoMemory;
use path_tree::{Edit, Edits};
use std::alloc::Global;
use std::sync::Arc;

/// The history of one carousel, with its current generation and its modules' weights.
#[derive(Drop)]
pub struct Catalogue {
    journal: Journal,
    weigh: Weigh,
    pub ghost same: { weigh.weights ≡ journal.weights },
}

impl Catalogue {
    ghost use Rattle.generation_catalogue.specs.View.{state};

    /// A catalogue at generation 0, whose tree is empty, without an entry. `carousel` is any 32-bit
    /// id.
    pub fn new(alloc: Global, carousel: u32, weigh: Weigh) -> Result<Catalogue, NoMemory>
        ensures { IfOk result (λ c.
            state c ≡ record { carousel = carousel; weights = weigh.weights; entries = [] }) }
    {
        let journal = Journal::new(alloc, carousel, weigh.kept())?;
        Ok(Catalogue { journal, weigh })
    }

    /// Takes no memory.
    pub fn of(journal: Journal, weigh: Weigh) -> Catalogue
        requires { weigh.weights ≡ journal.weights }
        ensures { state result ≡ journal }
    {
        Catalogue { journal, weigh }
    }

    /// The history, and what answers its weights. Takes no memory.
    pub fn into_parts(self) -> (Journal, Weigh)
        ensures journal { result.0 ≡ state self }
        ensures weigh { result.1.weights ≡ (state self).weights }
    {
        let Catalogue { journal, weigh } = self;
        (journal, weigh)
    }

    /// Makes the next generation by these edits of the current tree, and answers its number, 1 to
    /// [`dsi_dii::LAST_GENERATION`]. No edits give the same tree again. `editor` is only entered.
    ///
    /// A full season or journal makes no entry; any other refusal makes one. `Refusal` has the
    /// order. Out of memory changes nothing, and comes only if neither is full.
    pub fn commit(&mut self, editor: u32, edits: Vec<Edit>) -> Result<u64, CommitFault>
        ensures { IsCommitted (state self.old) editor edits.items result (state self.new) }
    {
        self.commit_edits(editor, Edits::new(edits))
    }

    /// `commit`, of edits that are a list already.
    pub fn commit_edits(&mut self, editor: u32, edits: Edits) -> Result<u64, CommitFault>
        ensures { IsCommitted (state self.old) editor edits result (state self.new) }
    {
        self.journal.commit_edits(editor, edits)
    }

    /// Draws the next `n` items of the cycle, 1 to [`cycle_planner::MOST_DRAWN`], or as many as are
    /// left. A new generation or an ended cycle begins at the first item. `DrawsFull` comes if
    /// [`MOST_DRAWS`](crate::MOST_DRAWS) draws are entered; out of memory changes nothing.
    pub fn draw(&mut self, n: u32) -> Result<Batch, DrawFault>
        requires { (1 ≤ n) × (n ≤ MOST_DRAWN) }
        ensures drawn { IsDrawn (state self.old) n result (state self.new) }
        ensures some { IfOk result (λ b. (1 ≤ length b.items.items) × (length b.items.items ≤ n)) }
        ensures items { IfOk result (λ b. AreItemsOf (arc_value b.generation) b.items.items) }
    {
        self.journal.draw(&self.weigh, n)
    }

    /// The entries, the oldest first. The trees of accepted commits can be published.
    pub fn entries(&self) -> &[Entry]
        ensures entries { result.now ≡ (state self.now).entries }
        ensures history { IsHistory (state self.now) }
        ensures lawful { Lawful (state self.now).carousel
            (layouts_of (state self.now).carousel (trees_of (state self.now)))
            ([] ∷ trees_of (state self.now)) }
    {
        layouts_are_lawful();
        self.journal.entries()
    }

    /// The current generation: that of the last accepted commit. Its number counts these.
    pub fn current(&self) -> &Arc<Generation>
        ensures { arc_value result.now ≡ current_of (state self.now) }
    {
        self.journal.current()
    }
}
