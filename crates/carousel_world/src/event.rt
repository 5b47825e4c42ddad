use generation_catalogue::Refusal;
use path_resolver::Answer;
use path_tree::{Edits, Path};
use ts_packet::Fate;

/// One step of a world.
#[derive(Drop)]
pub enum Event {
    /// An editor, numbered 1 to 64, commits edits of the current tree.
    Commit { editor: u32, edits: Edits },
    /// The next `asked` items of the cycle, 1 to [`cycle_planner::MOST_DRAWN`], or all that are
    /// left in it, are drawn and sent. Packet i of the draw, from 0, meets fate i modulo their
    /// number; without fates all arrive.
    Draw { asked: u32, fates: Vec<Fate> },
    /// A reader, numbered 1 to 64, opens a path.
    Open { reader: u32, path: Path },
}

/// What a step gives.
#[derive(Drop)]
pub enum Reply {
    /// The number of the generation that the commit made.
    Committed(u64),
    /// Why the commit made none.
    Refused(Refusal),
    /// The generation's number, the first item's place in its cycle, and how many items were drawn.
    Drawn {
        generation: u64,
        first: u64,
        count: u64,
    },
    /// This draw wasn't made, because [`generation_catalogue::MOST_DRAWS`] draws, the number given,
    /// were.
    DrawsFull(u64),
    /// The label, if any generation is held, and the answer to the path.
    Opened {
        label: Option<u64>,
        answer: Answer,
    },
}
