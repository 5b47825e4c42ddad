//! What threads share is proved here to be Send and Sync.

use crate::{Front, Numbered, Shower, Viewer};

/// Values of this type may be moved to another thread.
fn moves<T: Send>() {}

/// Values of this type may be moved to another thread, and lent to several at once.
fn crosses<T: Send + Sync>() {}

/// Where values cross threads, so do those who show them and those who look.
pub fn cross_threads<S: Numbered + Send + Sync>() {
    moves::<Shower<S>>();
    moves::<Viewer<S>>();
    crosses::<Front<S>>();
}
