//! A receiver, and what becomes of its candidates.

ghost use Rattle.std.specs.Prelude.{[], IfOk};
ghost use Rattle.reception_report.specs.Hearing.{Follows};

use crate::tally::Tally;
use oc_bytes::NoMemory;
use shell_streams::Listener;
use std::alloc::Global;
use tuner_core::Tuner;

/// A receiver, and how many of its candidates did what.
#[derive(Drop)]
pub(crate) struct Follower {
    pub(crate) tuner: Tuner,
    pub(crate) tally: Tally,
}

impl Follower {
    /// One that heard nothing.
    pub(crate) fn new(alloc: Global) -> Result<Follower, NoMemory>
        ensures { IfOk result (λ f. Follows f []) }
    {
        Ok(Follower {
            tuner: Tuner::new(alloc),
            tally: Tally::new(alloc)?,
        })
    }
}

impl Listener for Follower {
    ghost use Rattle.reception_report.specs.Hearing.{Follows};

    ghost heard = { λ start now sections. Follows now sections };

    fn hear(&mut self, section: &[u8]) -> Result<(), NoMemory> {
        let fed = self.tuner.feed(section)?;
        self.tally.count(fed);
        Ok(())
    }
}
