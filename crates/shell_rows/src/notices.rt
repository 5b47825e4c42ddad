//! The notices that a command gives.

use folder_playout::{Difference, Notices, Unread, began_text, kept_text};
use std::alloc::Global;

/// A line of each notice that was given. One for which there is no memory is left out.
#[derive(Drop)]
pub(crate) struct Lines {
    alloc: Global,
    text: String,
}

impl Lines {
    pub(crate) fn new(alloc: Global) -> Lines {
        Lines {
            alloc,
            text: String::new(alloc),
        }
    }

    pub(crate) fn into_text(self) -> String {
        self.text
    }
}

impl Notices for Lines {
    ghost told = { λ _ _ _. Unit {0} };

    fn began(&mut self, number: u64, cycle: u32, difference: Difference) {
        if let Ok(line) = began_text(self.alloc, number, cycle, difference) {
            let _ = self.text.push_str(line.as_str());
        }
    }

    fn kept(&mut self, number: u64, cycle: u32, cause: &Unread) {
        if let Ok(Some(line)) = kept_text(self.alloc, number, cycle, cause) {
            let _ = self.text.push_str(line.as_str());
        }
    }
}
