//! The laws, as functions that do nothing.
ghost use Rattle.session.specs.Gathering.{ActorsGather, GatherGrows};
ghost use Rattle.session.specs.Played.{PlayedIsASession};

/// What a station's actors did is the whole history of its catalogue, each actor's part in that
/// actor's order. This is premised: each call goes on with what its pass had seen, and each place
/// in the history belongs to one pass.
pub fn actors_gather()
    ensures { ActorsGather }
{
    generation_catalogue::histories_grow();
}

/// A draw after all actors are done goes on with what was gathered.
pub fn gathers_grow()
    ensures { GatherGrows }
{
    generation_catalogue::histories_grow();
}

/// The history merged of what was played is a session of the script: a run of one world with each
/// actor's lines in written order. After a settle the last generation was heard whole. The script's
/// numbers are within their ranges, and each reader knows all shots at the end.
pub fn played_is_a_session()
    ensures { PlayedIsASession }
{
    history_merge::merges_are_runs();
    carousel_world::settling_is_whole();
    generation_catalogue::histories_grow();
}
