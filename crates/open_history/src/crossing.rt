//! What threads share is proved here to be Send and Sync.

use crate::{OpenEntry, ReaderPass};
use path_resolver::Shot;
use shot_board::{Front, Shower, Viewer};

/// Values of this type may be moved to another thread.
fn moves<T: Send>() {}

/// Values of this type may be moved to another thread, and lent to several at once.
fn crosses<T: Send + Sync>() {}

/// Passes, opens, fronts and those who show cross threads.
pub fn cross_threads() {
    crosses::<OpenEntry>();
    crosses::<Front<Shot>>();
    moves::<ReaderPass>();
    moves::<Viewer<Shot>>();
    moves::<Shower<Shot>>();
}
