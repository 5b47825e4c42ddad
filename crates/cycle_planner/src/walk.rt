ghost use Rattle.std.specs.Prelude.{◌≡◌, ◌∷◌, [], drop, MatchOption};
ghost use Rattle.cycle_planner.specs.Cycle.{AreLines, cycle_of, greatest_weight};

use crate::place::{Place, place_at, step};
use crate::{Item, Weigh};

/// A walk over a cycle's items. The lines and weights are lent to each call, and have to stay the
/// same. A weight is asked once at the start and once a round.
#[derive(Clone, Copy, Debug)]
pub struct Walk {
    rounds: u8,
    place: Place,
}

impl Walk {
    ghost use Rattle.cycle_planner.specs.Walks.{IsWalk, left_of};

    /// Before the cycle's first item. Takes no memory.
    pub fn new(lines: &[(u16, u32)], weigh: &Weigh) -> Walk
        requires { AreLines lines.now }
        ensures walk { IsWalk weigh.now.weights lines.now result }
        ensures items { left_of weigh.now.weights lines.now result
            ≡ cycle_of weigh.now.weights lines.now }
    {
        Walk {
            rounds: rounds_of(lines, weigh),
            place: Place::Start,
        }
    }

    /// Before the item at a place, from 0, or at the end. Takes no memory; earlier rounds and
    /// modules are passed over whole.
    pub fn at(lines: &[(u16, u32)], weigh: &Weigh, at: u64) -> Walk
        requires { AreLines lines.now }
        ensures walk { IsWalk weigh.now.weights lines.now result }
        ensures items { left_of weigh.now.weights lines.now result
            ≡ drop at (cycle_of weigh.now.weights lines.now) }
    {
        let rounds = rounds_of(lines, weigh);
        Walk {
            rounds,
            place: place_at(lines, weigh, rounds, at),
        }
    }

    /// The next item, or `None` at the end. Takes no memory.
    pub fn next(&mut self, lines: &[(u16, u32)], weigh: &Weigh) -> Option<Item>
        requires { IsWalk weigh.now.weights lines.now self.old }
        ensures walk { IsWalk weigh.now.weights lines.now self.new }
        ensures items { MatchOption result
            ((left_of weigh.now.weights lines.now self.old ≡ [])
            × (left_of weigh.now.weights lines.now self.new ≡ []))
            (λ item.
            left_of weigh.now.weights lines.now self.old
            ≡ item ∷ left_of weigh.now.weights lines.now self.new) }
    {
        let (item, place) = step(lines, weigh, self.rounds, self.place)?;
        self.place = place;
        Some(item)
    }
}

fn rounds_of(lines: &[(u16, u32)], weigh: &Weigh) -> u8
    requires { AreLines lines.now }
    ensures { result ≡ greatest_weight weigh.now.weights lines.now }
{
    let mut rounds: u8 = 0;
    for line in lines {
        rounds = rounds.max(weigh.of(line.0));
    }
    rounds
}
