//! A gate that counts the steps of actors.

use section_workers::{Actor, Gate};
use std::sync::atomic::{AtomicU64, Ordering};

/// How many steps each of five actors made, and how many steps had another number than those before
/// it.
#[derive(Drop)]
pub(crate) struct Steps {
    first_editor: AtomicU64,
    second_editor: AtomicU64,
    feeder: AtomicU64,
    first_reader: AtomicU64,
    second_reader: AtomicU64,
    wrong: AtomicU64,
}

impl Steps {
    pub(crate) fn new() -> Steps {
        Steps {
            first_editor: AtomicU64::new(0),
            second_editor: AtomicU64::new(0),
            feeder: AtomicU64::new(0),
            first_reader: AtomicU64::new(0),
            second_reader: AtomicU64::new(0),
            wrong: AtomicU64::new(0),
        }
    }

    /// Counts a step of one actor, whose number should be that of those before it.
    fn count(&self, own: &AtomicU64, step: u32) {
        if own.fetch_add(1, Ordering::SeqCst) != u64::from(step) {
            self.wrong.fetch_add(1, Ordering::SeqCst);
        }
    }

    /// The steps of the two editors, of the feeder, of the two readers, and those that were wrong.
    pub(crate) fn all(&self) -> [u64; 6] {
        [
            self.first_editor.load(Ordering::SeqCst),
            self.second_editor.load(Ordering::SeqCst),
            self.feeder.load(Ordering::SeqCst),
            self.first_reader.load(Ordering::SeqCst),
            self.second_reader.load(Ordering::SeqCst),
            self.wrong.load(Ordering::SeqCst),
        ]
    }
}

impl Gate for Steps {
    fn pass(&self, actor: Actor, step: u32) {
        match actor {
            Actor::Editor(1) => self.count(&self.first_editor, step),
            Actor::Editor(2) => self.count(&self.second_editor, step),
            Actor::Feeder => self.count(&self.feeder, step),
            Actor::Reader(1) => self.count(&self.first_reader, step),
            Actor::Reader(2) => self.count(&self.second_reader, step),
            Actor::Worker(_) => {}
            _ => {
                self.wrong.fetch_add(1, Ordering::SeqCst);
            }
        }
    }
}
