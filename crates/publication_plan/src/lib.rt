//! What publishing a folder would send: each file and folder with its module, each module with its
//! blocks, the cycle, and what is passed over; or why the folder can't be published.
#![tactic(auto)]

mod counting;
mod judging;
mod lines;
mod planning;
mod refusing;

pub use planning::{PlanEnd, plan};
pub use refusing::{MOST_NAME, MOST_SIZED};
