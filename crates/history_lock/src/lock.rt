ghost use Rattle.std.specs.Prelude.{◌≡◌, ℕ, ◌≤◌, ◌<◌, length, false, [], ◌∷◌, Some, IfOk, IfErr};
ghost use Rattle.history_lock.specs.History.{Begins};

use crate::chronicled::Chronicled;
use crate::hold::Hold;
use crate::pass::Pass;
use crate::rule::{OneHistory, Opened, Parts, Take, View};
use atomic_table::{Refused, Seat, Table};
use std::alloc::{AllocError, Global};
use std::snapshot::Snapshot;
use std::sync::Wait;
use std::thread;

/// A lock over a value that stands for a list of entries.
#[derive(Drop)]
pub struct HistoryLock<V: Chronicled> {
    pub(crate) table: Table<Option<V>, View<V::Entry>, Opened<V>, OneHistory<V>, Global>,
    ghost sized: { (table.shared.table_id.words ≡ 1)
        × (table.shared.table_id.slots ≡ 1)
        × (0 < table.shared.key.seats) },
}

impl<V: Chronicled> HistoryLock<V> {
    ghost use Rattle.std.specs.Vec.{vec_capacity};
    ghost use Rattle.history_lock.specs.History.{once_within, Each};
    ghost use Rattle.history_lock.specs.Inner.History.{while_held, newcomer};
    ghost use Rattle.history_lock.specs.Holds.{IsHoldOf, LendsPass, holder_of, value_of, taken_of};
    ghost use Rattle.history_lock.specs.Passes.{IsPassOf, AreAllPassesOf, AreFresh, seats_of, opening_of, seen_of, own_of, number_of, owners};
    ghost use Rattle.history_lock.specs.Inner.Passes.{HasAll};

    /// A lock over `value`, with as many passes as `seats`, which is 1 or more. They are numbered
    /// from 0 on, in order; each has seen the value's list and has no own places. Out of memory is
    /// the only refusal, and gives the value back.
    pub fn new(
        alloc: Global,
        value: V,
        seats: u32,
    ) -> Result<(HistoryLock<V>, Vec<Pass<V>>), (AllocError, V)>
        requires { 0 < seats }
        ensures seats { IfOk result (λ made. seats_of made.0 ≡ seats) }
        ensures opening { IfOk result (λ made. opening_of V.list made.0 ≡ V.list value) }
        ensures count { IfOk result (λ made. length made.1.items ≡ seats) }
        ensures passes { IfOk result (λ made. AreFresh made.0 (V.list value) 0 made.1.items) }
        ensures value { IfErr result (λ refused. refused.1 ≡ value) }
    {
        let Ok(passes) = Vec::with_capacity(alloc, seats as usize) else {
            return Err((AllocError, value));
        };
        let Ok(mut slots) = Vec::with_capacity(alloc, 1) else {
            return Err((AllocError, value));
        };
        let about = Opened {
            seats: u64::from(seats),
            first: Snapshot::of(&value),
        };
        slots.push_reserved(Some(value));
        match Table::new(alloc, &[0], slots, &about) {
            Ok((table, seat)) => {
                let lock = HistoryLock { table };
                let passes = lock.deal(seat, seats, passes);
                Ok((lock, passes))
            }
            Err(Refused { slots }) => Err((AllocError, only(slots))),
        }
    }

    /// Waits until the lock is free, and takes the value for a pass of this lock. The value's list
    /// begins with all that the pass had seen. It takes no memory.
    pub fn hold<'a, R: Wait>(&'a self, rt: &R, pass: &'a mut Pass<V>) -> Hold<'a, V>
        requires { IsPassOf self.now pass.old }
        ensures pass { LendsPass pass.entry result }
        ensures own { IsHoldOf self.now result }
        ensures number { number_of (holder_of result) ≡ number_of pass.old }
        ensures places { own_of (holder_of result) ≡ own_of pass.old }
        ensures taken { taken_of result ≡ V.list (value_of result) }
        ensures seen { Begins (seen_of pass.old) (V.list (value_of result)) }
    {
        self.take(rt, &mut pass.seat);
        let found = self.table.shared.exchange(&mut pass.seat, 0, None);
        let Some(value) = found else { unreachable!() };
        Hold {
            pass,
            lock: self,
            value,
        }
    }

    /// Takes the value out, against all passes of this lock. Its list begins with the one that the
    /// lock was made with, and with what each pass has seen; each later place is one pass's own,
    /// and no other place is anyone's. It takes no memory.
    pub fn close(self, passes: Vec<Pass<V>>) -> V
        requires { AreAllPassesOf self passes.items }
        ensures opening { Begins (opening_of V.list self) (V.list result) }
        ensures seen { Each (λ pass. Begins (seen_of pass) (V.list result)) passes.items }
        ensures owned { (place : ℕ)
            → owners place passes.items
            ≡ once_within (length (opening_of V.list self)) (length (V.list result)) place }
    {
        let seat = self.gather(passes);
        let HistoryLock { table } = self;
        let mut closed = table.close_with(seat);
        let found = closed.take(0);
        closed.free();
        let Some(value) = found else { unreachable!() };
        value
    }

    /// Waits for the word, and takes it and the value's slot.
    fn take<R: Wait>(&self, rt: &R, seat: &mut Seat<Option<V>, View<V::Entry>>)
        requires { (seat.old.table_id ≡ self.now.table.shared.table_id)
            × (seat.old.me.1 ≡ [])
            × (seat.old.me.0.parts ≡ 1)
            × (seat.old.me.0.holds ≡ false) }
        ensures same { (seat.new.table_id ≡ seat.old.table_id) × (seat.new.id ≡ seat.old.id) }
        ensures taken { (v : V)
            × (seat.new.me.1 ≡ (0, Some v) ∷ [])
            × (seat.new.me.0 ≡ while_held seat.old.me.0 (V.list v))
            × Begins seat.old.me.0.seen (V.list v) }
    {
        for _ in rt.forever() {
            if self.table.shared.compare_exchange::<Take<V>>(seat, 0, 0, 1) == 0 {
                return;
            }
            thread::yield_now();
        }
        unreachable!()
    }

    /// The passes of a new lock: each has one part of the first seat, and the last is that seat
    /// itself.
    fn deal(
        &self,
        seat: Seat<Option<V>, View<V::Entry>>,
        seats: u32,
        mut passes: Vec<Pass<V>>,
    ) -> Vec<Pass<V>>
        requires seat { (seat.table_id ≡ self.now.table.shared.table_id)
            × (seat.me ≡ (newcomer seats (opening_of V.list self.now), [])) }
        requires some { 0 < seats }
        requires room { (length passes.items ≡ 0) × (seats ≤ vec_capacity passes) }
        ensures count { length result.items ≡ seats }
        ensures fresh { AreFresh self.now (opening_of V.list self.now) 0 result.items }
    {
        let mut seat = seat;
        for number in 0..seats - 1 {
            let other = self.table.shared.split_seat::<Parts>(&mut seat);
            passes.push_reserved(Pass {
                seat: other,
                number,
            });
        }
        passes.push_reserved(Pass {
            seat,
            number: seats - 1,
        });
        passes
    }

    /// One seat that knows all that the passes knew, joined to it one after another.
    fn gather(&self, mut passes: Vec<Pass<V>>) -> Seat<Option<V>, View<V::Entry>>
        requires { AreAllPassesOf self.now passes.items }
        ensures { HasAll self.now passes.items result }
    {
        let Some(
            Pass {
                mut seat,
                number: _,
            },
        ) = passes.pop()
        else {
            unreachable!()
        };
        while let Some(
            Pass {
                seat: other,
                number: _,
            },
        ) = passes.pop()
        {
            self.table.shared.join_seat::<Parts>(&mut seat, other);
        }
        seat
    }
}

/// The value in the one slot of a table that was not made.
fn only<V>(mut slots: Vec<Option<V>>) -> V
    requires { (v : V) × (slots.items ≡ Some v ∷ []) }
    ensures { slots.items ≡ Some result ∷ [] }
{
    let Some(Some(value)) = slots.pop() else {
        unreachable!()
    };
    slots.destroy_empty();
    value
}
