//! How many candidates are of each kind.

ghost use Rattle.std.specs.Prelude.{◌≡◌, ◌+◌, ◌++◌, ◌∷◌, [], List, slice_index, IfOk};
ghost use Rattle.oc_bytes.specs.Outcome.{cap_at_u64};
ghost use Rattle.path_tree.specs.Paths.{Bytes};
ghost use Rattle.tuner_core.specs.Answers.{fed_after};
ghost use Rattle.reception_report.specs.Outcomes.{CountsAre, place_of};

use crate::outcome::{OUTCOMES, Outcome};
use oc_bytes::NoMemory;
use std::alloc::Global;
use std::marker::Model;
use tuner_core::Fed;

/// How many candidates are of each kind; each number stays at the greatest `u64`.
#[derive(Drop)]
pub(crate) struct Tally {
    numbers: Vec<u64>,
}

impl Model for Tally {
    ghost use Rattle.std.specs.Prelude.{◌≡◌, List, ℕ, length};

    ghost Value = { List ℕ };

    ghost view = { λ t. t.numbers.items };

    ghost invariant = { λ t. length t.numbers.items ≡ 22 };
}

impl Tally {
    /// There was no candidate yet.
    pub(crate) fn new(alloc: Global) -> Result<Tally, NoMemory>
        ensures { IfOk result (λ t. CountsAre t []) }
    {
        Ok(Tally {
            numbers: vec![in alloc; 0; OUTCOMES]?,
        })
    }

    /// Counts a candidate that did this.
    pub(crate) fn count(&mut self, fed: Fed)
        ensures { (before : List Bytes) (candidate : Bytes)
            → CountsAre self.old before
            → fed ≡ fed_after before candidate
            → CountsAre self.new (before ++ candidate ∷ []) }
    {
        let place = Outcome::of(fed).place();
        self.numbers[place] = raised(self.numbers[place]);
    }

    /// How many candidates are of this kind.
    pub(crate) fn number(&self, outcome: Outcome) -> u64
        ensures { result ≡ slice_index self.now (place_of outcome) }
    {
        self.numbers[outcome.place()]
    }
}

/// One more, or the greatest `u64`.
fn raised(number: u64) -> u64
    ensures { result ≡ cap_at_u64 (number + 1) }
{
    number.saturating_add(1)
}
