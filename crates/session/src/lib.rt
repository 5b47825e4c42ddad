//! Sessions: the lines of a script, each on its actor's thread, merged into one history.
//!
//! Editors commit, a feeder draws and sends, and readers open paths. They wait for each other only
//! while one holds the station. A seat has an actor's state and is lent to its thread; it is whole
//! unless memory ran out. Nothing is said of the order between two actors. The rules are this
//! project's own.
//!
//! ```
//! ghost use Rattle.std.specs.Prelude.{◌≡◌};
//!
//! use carousel_world::{Event, Reply};
//! use cycle_planner::{GREATEST_ID, Weigh};
//! use path_resolver::Answer;
//! use section_workers::NoGate;
//! use session::play;
//! use session_script::read_parts;
//!
//! let weigh = Weigh::new([1; GREATEST_ID], Box::new(alloc, |_: u16| -> u8 ensures { result ≡ 1 } { 1 })?);
//! let script = read_parts(alloc, b"put 1 /a 6869\ncommit 1\nsettle\nfinale 2 /a\n")?;
//! let told = play(&rt, alloc, script, &NoGate, weigh)?;
//! assert_eq!(rt; told.len(), 4);
//! assert!(rt; matches!(told[0], (Event::Commit { editor: 1, .. }, Reply::Committed(1))));
//! assert!(rt; matches!(told[2], (Event::Draw { .. }, Reply::Drawn { generation: 1, first: 0, count: 3 })));
//! assert!(rt; matches!(told[3], (Event::Open { reader: 2, .. }, Reply::Opened { answer: Answer::File(_), .. })));
//! ```
//!
//! A feeder makes one draw, without editors and readers, and shows one more shot:
//!
//! ```
//! ghost use Rattle.std.specs.Prelude.{◌≡◌};
//!
//! use carousel_world::Downlink;
//! use cycle_planner::{GREATEST_ID, Weigh};
//! use section_workers::NoGate;
//! use session::{DrawLine, FeederSeat, run_actors};
//! use shot_board::board;
//! use station::Station;
//!
//! let weigh = Weigh::new([1; GREATEST_ID], Box::new(alloc, |_: u16| -> u8 ensures { result ≡ 1 } { 1 })?);
//! let (station, mut passes) = Station::new(alloc, 0, 7, weigh)?;
//! let Some(pass) = passes.pop() else { panic!("no pass") };
//! let downlink = Downlink::new(alloc, 256)?;
//! let draws = vec![in alloc; DrawLine { asked: 5, fates: Vec::new(alloc) }]?;
//! let (mut shower, _viewers) = board(&rt, alloc, downlink.shot(0, 0)?, 0, 1)?;
//! let mut feeder = FeederSeat { pass, downlink, draws, fates: Vec::new(alloc), whole: false };
//! run_actors(&rt, alloc, &station, &NoGate, &mut [], &mut shower, &mut feeder, &mut []);
//! let shown = shower.front().number();
//! shower.close(&rt);
//! assert_eq!(rt; (feeder.whole, shown), (true, 1));
//! ```
#![tactic(auto)]

mod actors;
mod cast;
mod editor;
mod ending;
mod feeder;
mod laws;
mod plan;
mod reader;
mod whole;

pub use actors::run_actors;
pub use editor::{CommitLine, EditorSeat};
pub use feeder::{DrawLine, FeederSeat};
pub use laws::{actors_gather, gathers_grow, played_is_a_session};
pub use reader::ReaderSeat;
pub use whole::play;
