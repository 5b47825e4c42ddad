//! The laws, as functions that do nothing.
ghost use Rattle.watch_desk.specs.Laws.{LimitsAreThese, PremisesMet};
ghost use Rattle.watch_desk.specs.Notices.{EachChangeIsTold};
ghost use Rattle.watch_desk.specs.Telling.{EachChangeIsToldAfter, ShotsTellIt, ShotsAreNeededAtChanges};

/// At most 1,024 paths are watched, by at most 64 watchers.
pub fn limits_are_numbers()
    ensures { LimitsAreThese }
{}

/// The notices from one shot to the next are those of the paths that are wanted and whose answers
/// aren't the same, each once, by watcher and then by path, and no others.
pub fn each_change_is_told()
    ensures { EachChangeIsTold }
{}

/// Over a list of candidates each candidate's notices are told once, and nothing else. They go from
/// the answers before it to those after it, by candidate, then by watcher and then by path.
pub fn each_change_is_told_after_its_candidate()
    ensures { EachChangeIsToldAfter }
{}

/// Showing a shot after each candidate tells just what is told over the candidates.
pub fn shots_tell_it()
    ensures { ShotsTellIt }
{}

/// A shot is needed only after a candidate to which the receiver answers that something changed,
/// and after a section of blocks only where one module more is whole. Any other tells nothing.
pub fn shots_are_needed_at_changes()
    ensures { ShotsAreNeededAtChanges }
{
    tuner_core::held_looks_back();
}

/// The premises of the laws can be met, and what is told differs.
pub fn premises_can_be_met()
    ensures { PremisesMet }
{}
