ghost use Rattle.std.specs.Prelude.{◌≡◌};

use crate::chronicled::Chronicled;
use crate::rule::View;
use atomic_table::Seat;

/// The right to hold a lock. It knows the list that it has seen, and its own places: those of the
/// entries that were added while it held, counted from 0.
#[derive(Drop)]
pub struct Pass<V: Chronicled> {
    pub(crate) seat: Seat<Option<V>, View<V::Entry>>,
    pub(crate) number: u32,
}

impl<V: Chronicled> Pass<V> {
    ghost use Rattle.history_lock.specs.Passes.{number_of};

    /// The number of the pass, from 0 to one less than the passes that its lock was made with. It
    /// never changes.
    pub fn number(&self) -> u32
        ensures { result ≡ number_of self.now }
    {
        self.number
    }
}
