//! A gate at which actors wait for one another, so that they pass it only if all of them are at
//! work at once.

use section_workers::{Actor, Gate};
use std::sync::atomic::{AtomicU64, Ordering};
use std::thread;

/// How often an actor looks for the others.
const TURNS: u64 = 10_000_000;

/// Each of five actors waits at its first step for the others, and each of two workers for the
/// other one.
#[derive(Drop)]
pub(crate) struct Meeting {
    actors: AtomicU64,
    first_worker: AtomicU64,
    second_worker: AtomicU64,
    late: AtomicU64,
}

impl Meeting {
    pub(crate) fn new() -> Meeting {
        Meeting {
            actors: AtomicU64::new(0),
            first_worker: AtomicU64::new(0),
            second_worker: AtomicU64::new(0),
            late: AtomicU64::new(0),
        }
    }

    /// Comes to a place, and waits until so many came to another one or the same.
    fn meet(&self, own: &AtomicU64, other: &AtomicU64, all: u64) {
        own.fetch_add(1, Ordering::SeqCst);
        for _ in 0..TURNS {
            if other.load(Ordering::SeqCst) >= all {
                return;
            }
            thread::yield_now();
        }
        self.late.fetch_add(1, Ordering::SeqCst);
    }

    /// How many actors came to their first step.
    pub(crate) fn actors(&self) -> u64 {
        self.actors.load(Ordering::SeqCst)
    }

    /// How often the first worker came, and how often the second.
    pub(crate) fn workers(&self) -> (u64, u64) {
        (
            self.first_worker.load(Ordering::SeqCst),
            self.second_worker.load(Ordering::SeqCst),
        )
    }

    /// How many had to leave before they met the others.
    pub(crate) fn late(&self) -> u64 {
        self.late.load(Ordering::SeqCst)
    }
}

impl Gate for Meeting {
    fn pass(&self, actor: Actor, step: u32) {
        match (actor, step) {
            (Actor::Worker(0), _) => self.meet(&self.first_worker, &self.second_worker, 1),
            (Actor::Worker(_), _) => self.meet(&self.second_worker, &self.first_worker, 1),
            (_, 0) => self.meet(&self.actors, &self.actors, 5),
            _ => {}
        }
    }
}
