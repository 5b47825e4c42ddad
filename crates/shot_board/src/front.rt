ghost use Rattle.std.specs.Prelude.{◌≡◌, ◌+◌, ◌<◌, length, true, false};
ghost use mathlib.Core.List.{IsPrefix};

use crate::book::Law;
use crate::numbered::Numbered;
use logbook::Seen;

/// A beginning of the list of what a board has shown. It has no bytes but a number.
#[derive(Drop)]
pub struct Front<S: Numbered> {
    pub(crate) number: u64,
    pub(crate) seen: Seen<S, u64, Law>,
    ghost counted: { length seen.log ≡ number + 1 },
}

impl<S: Numbered> Front<S> {
    ghost use Rattle.shot_board.specs.Shots.{AreNumbered};
    ghost use Rattle.shot_board.specs.Fronts.{shots_in};

    /// The number of the last value of the list.
    pub fn number(&self) -> u64
        ensures last { length (shots_in self.now) ≡ result + 1 }
        ensures numbers { AreNumbered S.number (shots_in self.now) }
    {
        let mut seen = self.seen.again();
        seen.learn(&self.seen);
        self.number
    }

    /// A copy.
    pub(crate) fn again(&self) -> Front<S>
        ensures { (result.number ≡ self.now.number) × (result.seen ≡ self.now.seen) }
    {
        Front {
            number: self.number,
            seen: self.seen.again(),
        }
    }

    /// True where this list goes on with what the other has. The two are beginnings of one list.
    pub(crate) fn goes_on(&self, other: &Front<S>) -> bool
        requires { self.now.seen.book ≡ other.now.seen.book }
        ensures yes { result ≡ true → IsPrefix other.now.seen.log self.now.seen.log }
        ensures no { result ≡ false → IsPrefix self.now.seen.log other.now.seen.log }
        ensures shorter { result ≡ false → length self.now.seen.log < length other.now.seen.log }
        ensures numbers { AreNumbered S.number self.now.seen.log }
    {
        let mut both = self.seen.again();
        both.learn(&other.seen);
        other.number <= self.number
    }
}
