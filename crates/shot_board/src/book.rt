// The list of what was shown, as a log that only grows. One word beside it is the list's length.

use crate::numbered::Numbered;
use logbook::{Gain, Plain, Play, Rule};

/// The rule of the book.
pub struct Law;

impl<S: Numbered> Rule<S, u64> for Law {
    ghost use Rattle.std.specs.Prelude.{[]};
    ghost use base.Fml.{ftrue};
    ghost use Rattle.shot_board.specs.Inner.Shots.{IsKept};

    ghost holds = { IsKept S.number };

    ghost first = { [] };

    ghost hinted = { λ value log. Unit {0} };

    ghost shows = { λ log. [] };

    ghost keeps = { λ names log. ftrue };

    ghost moves = { λ ask before after answer. Unit {0} };
}

/// Whoever adds to the book trades nothing.
pub struct Nothing;

impl<S: Numbered> Gain<S, u64> for Nothing {
    ghost use base.Fml.{ftrue};

    ghost after = { λ names about answer. ftrue };
}

/// The step that adds a value.
pub struct Add;

impl<S: Numbered> Play<S, u64> for Add {
    ghost use Rattle.shot_board.specs.Inner.Shots.{Adds};

    ghost then = { Adds };
}

impl<S: Numbered> Plain<S, S, u64> for Add {
    ghost use Rattle.std.specs.Prelude.{None};

    ghost ask = { λ value. value };

    ghost state = { λ value. None };
}
