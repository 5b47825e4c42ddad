ghost use Rattle.std.specs.Prelude.{◌≡◌, ◌++◌};
ghost use Rattle.history_lock.specs.History.{Begins, new_places};

use crate::chronicled::Chronicled;
use crate::lock::HistoryLock;
use crate::pass::Pass;
use crate::rule::Free;

/// The value of a lock, lent to one pass. It can't be let go: it must be put back.
pub struct Hold<'a, V: Chronicled> {
    pub(crate) pass: &'a mut Pass<V>,
    pub(crate) lock: &'a HistoryLock<V>,
    pub(crate) value: V,
}

impl<'a, V: Chronicled> Hold<'a, V> {
    ghost use Rattle.history_lock.specs.Passes.{IsPassOf, number_of, seen_of, own_of};
    ghost use Rattle.history_lock.specs.Holds.{IsHoldOf, lock_of, holder_of, value_of, taken_of};
    ghost use Rattle.std.specs.Borrow.{sem};
    ghost use Rattle.history_lock.specs.Lending.{LendsValue};

    /// The value. It may be changed in any way, so long as its list begins with the one that it had
    /// at the hold when it is put back.
    pub fn value(&mut self) -> &mut V
        ensures* writes_back { sem 𝓛 (LendsValue V.row V.Entry.row V.Chronicled self.entry result) }
        ensures value { result.now ≡ value_of self.old }
    {
        &mut self.value
    }

    /// Gives the value back to the lock. The pass has then seen the value's whole list, and its own
    /// places have grown by just those from the list's length at the hold on. It takes no memory.
    pub fn put_back(self)
        requires own { IsHoldOf (lock_of self) self }
        requires grows { Begins (taken_of self) (V.list (value_of self)) }
        ensures pass { IsPassOf (lock_of self.entry) self.exit.0.now }
        ensures number { number_of self.exit.0.now ≡ number_of (holder_of self.entry) }
        ensures seen { seen_of self.exit.0.now ≡ V.list (value_of self.entry) }
        ensures places { own_of self.exit.0.now
            ≡ own_of (holder_of self.entry)
            ++ new_places (taken_of self.entry) (V.list (value_of self.entry)) }
    {
        let Hold { pass, lock, value } = self;
        let shared = &lock.table.shared;
        let old = shared.exchange(&mut pass.seat, 0, Some(value));
        let None = old else { unreachable!() };
        shared.store::<Free<V>>(&mut pass.seat, 0, 0);
    }
}
