//! What holds end to end between a broadcaster and a receiver of an object carousel (ISO/IEC
//! 13818-6): a world of both, and laws over lists of events and of sections.
//! ```
//! ghost use Rattle.std.specs.Prelude.{◌≡◌};
//!
//! use carousel_world::{Event, Reply, World};
//! use cycle_planner::{GREATEST_ID, Weigh};
//! use path_resolver::Answer;
//! use path_tree::{Edits, Path};
//!
//! let weigh = Weigh::new([1; GREATEST_ID], Box::new(alloc, |_: u16| -> u8 ensures { result ≡ 1 } { 1 })?);
//! let mut world = World::new(alloc, 7, weigh)?;
//! let commit = world.step(Event::Commit { editor: 1, edits: Edits::new(Vec::new(alloc)) })?;
//! let draw = world.step(Event::Draw { asked: 3, fates: Vec::new(alloc) })?;
//! let open = world.step(Event::Open { reader: 1, path: Path::parse(alloc, b"/a")? })?;
//! assert!(rt; matches!(commit, Reply::Committed(1)));
//! assert!(rt; matches!(draw, Reply::Drawn { generation: 1, first: 0, count: 3 }));
//! assert!(rt; matches!(open, Reply::Opened { label: Some(1), answer: Answer::NoSuch }));
//! ```
#![tactic(auto)]

mod downlink;
mod event;
mod laws;
mod world;

pub use downlink::Downlink;
pub use event::{Event, Reply};
pub use laws::{
    each_cycle_opens, every_publication_meets, every_reception_meets, every_run_meets_the_headline,
    generations_never_go_back, labels_never_fall, premises_can_be_met, publications_can_be_packed,
    settling_is_whole,
};
pub use ts_packet::Fate;
pub use world::World;
