//! A folder that stays on the air: whole cycles of a carousel, with the tree read again before
//! each.
//!
//! A changed tree becomes the next generation. Objects keep their keys and modules as far as there
//! is room, so that a receiver fetches only changed modules again. Texts and traits are this
//! project's own.
#![tactic(auto)]

mod folder;
mod laws;
mod lines;
mod notices;
mod playing;
mod playout;
mod reading;
mod same;

pub use folder::FolderTrees;
pub use laws::{
    judged_as_first, playouts_are_broadcasts, playouts_can_be_packed, playouts_meet, trees_change,
    unchanged_is_published,
};
pub use lines::{began_text, kept_text};
pub use notices::{Difference, NoNotices, Notices, compared};
pub use playing::{AirFault, keep_on_air};
pub use reading::{Trees, Unread};
