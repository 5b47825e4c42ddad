// What each seat at the board knows, and the rule over it.

use crate::book::Law;
use crate::numbered::Numbered;
use crate::shown::Shown;
use atomic_table::{Join, Split};
use crossbeam_utils::rule::{Outcome, Protocol};
use logbook::Seen;

/// Which board it is. A seat that has no name knows nothing. It exists in proofs alone; no value of
/// it is made.
pub struct Name<S: Numbered> {
    pub named: bool,
    /// The book of the board's list.
    pub book: Seen<S, u64, Law>,
    /// The greatest number that the board may show.
    pub most: u64,
}

// The rule: each seat that has a name has the board's.
pub struct OneBook;

impl<S: Numbered> Protocol<Shown<S>, Name<S>> for OneBook {
    ghost use Rattle.shot_board.specs.Inner.Names.{AllNamed, nobody};

    ghost holds = { AllNamed };

    ghost first = { nobody };
}

// A reader finds the board's name.
pub struct Reads;

impl<S: Numbered> Outcome<Shown<S>, Name<S>> for Reads {
    ghost use Rattle.shot_board.specs.Inner.Names.{HasRead};

    ghost then = { HasRead };
}

// The writer takes the name of what it publishes.
pub struct TakesName;

impl<S: Numbered> Outcome<Shown<S>, Name<S>> for TakesName {
    ghost use Rattle.shot_board.specs.Inner.Names.{HasNamed};

    ghost then = { HasNamed };
}

// The name goes from the writer to a reader.
pub struct SameName;

impl<S: Numbered> Split<Name<S>> for SameName {
    ghost left = { λ name. name };

    ghost right = { λ name. name };
}

impl<S: Numbered> Join<Name<S>> for SameName {
    ghost use Rattle.shot_board.specs.Inner.Names.{nobody};

    ghost both = { λ name other. other };

    ghost spent = { nobody };
}
