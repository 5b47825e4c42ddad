//! What holds of every history, as functions that do nothing.
ghost use Rattle.generation_catalogue.specs.Laws.{HistoriesGrow};

/// What was published stays published: a commit adds one tree or none, and a draw none. The current
/// generation's number counts the trees, and items drawn are of that generation.
pub fn histories_grow()
    ensures { HistoriesGrow }
{}
