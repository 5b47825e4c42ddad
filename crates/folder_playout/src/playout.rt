ghost use Rattle.std.specs.Prelude.{◌≡◌, ◌<◌, ◌≤◌, ℕ, true, false, IfOk, OnOk};
ghost use Rattle.std.specs.List.{All};
ghost use Rattle.generation.specs.Layouts.{first_of, next_of};
ghost use Rattle.section_stream.specs.Packing.{IsSectionLike};
ghost use Rattle.shell_streams.specs.Sending.{OutputState, HasPut, Puts, IsFlushed};
ghost use Rattle.dsi_dii.specs.declared.TheConstants.{LAST_GENERATION};
ghost use Rattle.folder_playout.specs.OnAir.{OnAir, begun, groups_of, air_bytes, same_tree, with_cycle, with_tree};
ghost use Rattle.folder_playout.specs.Notices.{difference_of};
ghost use Rattle.folder_playout.specs.Inner.Standing.{StandsFor, given_bytes};

use crate::notices::{Difference, compared};
use crate::same::is_same_tree;
use cycle_planner::Weigh;
use cycle_sender::Sender;
use dsi_dii::LAST_GENERATION;
use generation::{Generation, Publishable};
use oc_bytes::NoMemory;
use shell_streams::{Output, OutputFault};
use std::alloc::Global;

/// The generation on the air, and its sections on their way to the output.
#[derive(Drop)]
pub(crate) struct Playout {
    pub(crate) sender: Sender,
    pub(crate) generation: Generation,
}

impl Playout {
    /// Generation 1, with its difference from an empty one.
    pub(crate) fn new(
        alloc: Global,
        pid: u16,
        carousel: u32,
        tree: Publishable,
    ) -> Result<(Playout, Difference), NoMemory>
        requires in_range { pid < 8192 }
        ensures stands { IfOk result (λ p. StandsFor p.0 pid (begun carousel tree)) }
        ensures differs { IfOk result (λ p.
            p.1 ≡ difference_of (first_of carousel) (next_of (first_of carousel) tree)) }
    {
        let sender = Sender::new(alloc, pid);
        let none = Generation::first(alloc, carousel)?;
        let generation = none.next_checked(tree)?;
        let difference = compared(&none, &generation);
        let playout = Playout { sender, generation };
        Ok((playout, difference))
    }

    pub(crate) fn is_new(&self, tree: &Publishable) -> bool
        ensures same { result ≡ false → same_tree tree.now self.now.generation.tree ≡ true }
        ensures other { result ≡ true → same_tree tree.now self.now.generation.tree ≡ false }
    {
        !is_same_tree(tree.tree(), self.generation.tree())
    }

    pub(crate) fn number(&self) -> u64
        ensures { result ≡ self.now.generation.number }
    {
        self.generation.number()
    }

    /// Whether a carousel can have no generation after it.
    pub(crate) fn is_last(&self) -> bool
        ensures last { result ≡ true → LAST_GENERATION ≤ self.now.generation.number }
        ensures earlier { result ≡ false → self.now.generation.number < LAST_GENERATION }
    {
        self.generation.number() >= LAST_GENERATION
    }

    /// The sections of the old generation end as a group.
    pub(crate) fn renew<O: Output>(
        &mut self,
        tree: Publishable,
        out: &mut O,
    ) -> Result<Difference, OutputFault>
        requires number { self.old.generation.number < LAST_GENERATION }
        ensures puts { (start : OutputState) (pid : ℕ) (s : OnAir)
            → StandsFor self.old pid s
            → All (All IsSectionLike) (groups_of s)
            → HasPut start (O.state out.old) (given_bytes pid s)
            → Puts result start (O.state out.new) (given_bytes pid (with_tree tree s)) }
        ensures stands { OnOk result ((pid : ℕ) (s : OnAir)
            → StandsFor self.old pid s
            → All (All IsSectionLike) (groups_of s)
            → StandsFor self.new pid (with_tree tree s)) }
        ensures differs { IfOk result (λ d.
            d ≡ difference_of self.old.generation (next_of self.old.generation tree)) }
    {
        self.sender.finish(out)?;
        let next = self.generation.next_checked(tree)?;
        let difference = compared(&self.generation, &next);
        self.generation = next;
        Ok(difference)
    }

    /// All that can't change any more is written.
    pub(crate) fn send_cycle<O: Output>(
        &mut self,
        weigh: &Weigh,
        out: &mut O,
    ) -> Result<(), OutputFault>
        ensures puts { (start : OutputState) (pid : ℕ) (s : OnAir)
            → StandsFor self.old pid s
            → HasPut start (O.state out.old) (given_bytes pid s)
            → Puts result start (O.state out.new)
            (given_bytes pid (with_cycle weigh.now.weights s)) }
        ensures stands { OnOk result ((pid : ℕ) (s : OnAir)
            → StandsFor self.old pid s
            → StandsFor self.new pid (with_cycle weigh.now.weights s)) }
        ensures empty { OnOk result (IsFlushed (O.state out.new)) }
    {
        self.sender.send_cycle(&self.generation, weigh, out)?;
        out.flush()
    }

    /// Ends the last group.
    pub(crate) fn end<O: Output>(&mut self, out: &mut O) -> Result<(), OutputFault>
        ensures puts { (start : OutputState) (pid : ℕ) (s : OnAir)
            → StandsFor self.old pid s
            → All (All IsSectionLike) (groups_of s)
            → HasPut start (O.state out.old) (given_bytes pid s)
            → Puts result start (O.state out.new) (air_bytes pid s) }
        ensures empty { OnOk result (IsFlushed (O.state out.new)) }
    {
        self.sender.finish(out)?;
        out.flush()
    }
}
