// What seats know, the rule of the lock's table, and what each step on its word tells.

use crate::chronicled::Chronicled;
use atomic_table::{Join, Play, Split, TableRule};
use std::collections::LinkedList;
use std::marker::PhantomData;
use std::snapshot::Snapshot;

/// What a pass knows. It exists in proofs alone; no value of it is made.
pub struct View<E> {
    /// Its parts of the right to close the lock: 1 of a pass, and 0 of one that was joined to
    /// another.
    pub parts: u64,
    /// It has the value.
    pub holds: bool,
    /// The list that it has seen. While it holds, the list of the value that it got.
    pub seen: LinkedList<E>,
    /// The lists that the passes joined to it had seen.
    pub heard: LinkedList<LinkedList<E>>,
    /// The places of its own entries in the list, counted from 0.
    pub own: LinkedList<u64>,
}

/// What a lock is made with. It exists in proofs alone.
#[derive(Drop)]
pub struct Opened<V> {
    /// The number of passes.
    pub seats: u64,
    /// The value.
    pub first: Snapshot<V>,
}

// The rule: one list, which all that was seen begins.
pub struct OneHistory<V> {
    of: PhantomData<V>,
}

impl<V: Chronicled> TableRule<Option<V>, View<V::Entry>, Opened<V>> for OneHistory<V> {
    ghost use Rattle.history_lock.specs.Inner.History.{Chronicle, newcomer};

    ghost holds = { λ k. Chronicle V.list k.seats (V.list k.first.value) };

    ghost first = { λ k. newcomer k.seats (V.list k.first.value) };
}

// The word is taken, and the value with it.
pub struct Take<V> {
    of: PhantomData<V>,
}

impl<V: Chronicled> Play<Option<V>, View<V::Entry>> for Take<V> {
    ghost use Rattle.history_lock.specs.Inner.History.{HasTaken};

    ghost then = { HasTaken V.list };
}

// The word is released, and the value is at home again.
pub struct Free<V> {
    of: PhantomData<V>,
}

impl<V: Chronicled> Play<Option<V>, View<V::Entry>> for Free<V> {
    ghost use Rattle.history_lock.specs.Inner.History.{HasFreed};

    ghost then = { HasFreed V.list };
}

// A pass gets one part of the right to close, and a join puts parts together.
pub struct Parts;

impl<E> Split<View<E>> for Parts {
    ghost use Rattle.history_lock.specs.Inner.History.{kept_part, given_part};

    ghost left = { kept_part };

    ghost right = { given_part };
}

impl<E> Join<View<E>> for Parts {
    ghost use Rattle.history_lock.specs.Inner.History.{join_views, spent_view};

    ghost both = { join_views };

    ghost spent = { spent_view };
}
