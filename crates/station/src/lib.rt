//! One catalogue of a carousel, shared by editors who commit and a feeder who draws, on their own
//! threads.
//!
//! Each call takes the catalogue in one hold, so all calls are in one history. Afterwards its pass
//! has seen all entries up to its own. Nothing is promised about when a call gets its hold.
//!
//! An editor commits no edits, and the feeder draws three items:
//!
//! ```
//! ghost use Rattle.std.specs.Prelude.{◌≡◌};
//!
//! use cycle_planner::{GREATEST_ID, Weigh};
//! use station::Station;
//!
//! let weigh = Weigh::new([1; GREATEST_ID], Box::new(alloc, |_: u16| -> u8 ensures { result ≡ 1 } { 1 })?);
//! let (station, mut passes) = Station::new(alloc, 1, 7, weigh)?;
//! let number = station.commit(&rt, &mut passes[0], Vec::new(alloc))?;
//! let batch = station.draw(&rt, &mut passes[1], 3)?;
//! assert_eq!(rt; (number, batch.generation.number(), batch.items.len()), (1, 1, 3));
//! let catalogue = station.close(passes);
//! assert_eq!(rt; catalogue.entries().len(), 2);
//! ```
#![tactic(auto)]

mod kept;
mod station;
mod threads;

pub use kept::{Kept, KeptItem};
pub use station::{Pass, Station};
pub use threads::cross_threads;
