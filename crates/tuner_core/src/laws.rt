//! The laws, as functions that do nothing.
ghost use Rattle.tuner_core.specs.Answers.{LooksBack};
ghost use Rattle.tuner_core.specs.Turns.{HeldIsBounded, SpansAreOfTheList};

/// The spans that a receiver looks back on are what was heard from the first sound DII on, cut
/// before each DII that turns. A sound DII turns if its version differs from that of the last that
/// turned. A turn keeps what was there exactly where its DII is fewer than 256 versions after the
/// last.
pub fn spans_are_of_the_list()
    ensures { SpansAreOfTheList }
{}

/// The rules for one more candidate agree with looking back over all candidates, for the state, the
/// answer and a shot.
pub fn held_looks_back()
    ensures { LooksBack }
{}

/// Whatever was heard, at most 16 DIIs are held, their modules have at most 268,435,456 bytes in
/// all, and no module is listed twice.
pub fn held_is_bounded()
    ensures { HeldIsBounded }
{}
