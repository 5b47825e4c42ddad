ghost use Rattle.std.specs.Prelude.{◌≡◌};

use path_resolver::{Answer, Shot};
use path_tree::Path;

/// One open: of which shot, of which path, and its answer.
#[derive(Drop)]
pub struct OpenEntry {
    /// The number of the shot, from 0.
    pub shot: u64,
    /// How many draws were carried before that shot.
    pub draws: u64,
    /// The generation as the receiver counted it in that shot, where a DII was held.
    pub label: Option<u64>,
    /// The path that was opened.
    pub path: Path,
    /// The answer to the whole path on that shot.
    pub answer: Answer,
}

impl OpenEntry {
    /// The open of a path that has this answer on this shot.
    pub(crate) fn on(shot: &Shot, path: Path, answer: Answer) -> OpenEntry
        ensures shot { (result.shot ≡ shot.now.number)
            × (result.draws ≡ shot.now.draws)
            × (result.label ≡ shot.now.label) }
        ensures answer { (result.path ≡ path) × (result.answer ≡ answer) }
    {
        OpenEntry {
            shot: shot.number,
            draws: shot.draws,
            label: shot.label,
            path,
            answer,
        }
    }
}
