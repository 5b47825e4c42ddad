//! The laws, as functions that do nothing.
ghost use Rattle.history_merge.specs.Merged.{AMergeIsReady, EveryMergeIsMerged, MergesGrow, OpensHavePlaces};

/// The merge of a session is a run of the world, so what is promised of every run holds of it. Each
/// actor's part is in it once and in order, and each open comes after the draws that its shot had
/// heard. Premised is that the parts are one session's.
pub fn merges_are_runs()
    ensures { EveryMergeIsMerged }
{
    carousel_world::every_run_meets_the_headline();
}

/// If entries are added to a history, the merge goes on with them and the opens after each draw.
pub fn merges_grow()
    ensures { MergesGrow }
{}

/// Each open has its place: after its draws and its reader's earlier opens. After one that has
/// heard all draws comes no draw.
pub fn opens_have_places()
    ensures { OpensHavePlaces }
{}

/// The premises can be met, with two editors, lost and damaged packets, and two readers.
pub fn premises_can_be_met()
    ensures { AMergeIsReady }
{
    carousel_world::premises_can_be_met();
}
