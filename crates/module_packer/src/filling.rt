//! What lies in each module while objects are placed.

ghost use Rattle.std.specs.Prelude.{◌≡◌, ◌≤◌, ◌<◌, ◌+◌, ◌-◌, ◌^◌, ℕ, [], Some, None, Option, MatchOption, IfSome, OnSome, length, nat_le, slice_index_or, slice_set};
ghost use Rattle.std.specs.List.{position};
ghost use Rattle.std.specs.Option.{unwrap_or, is_none};
ghost use Rattle.module_packer.specs.Kept.{Filled, if_stays, filled_with, settled_in, filled_after};
ghost use Rattle.module_packer.specs.Inner.Sums.{Tells, takes_more as takes, stays_by, sum_at, number_at, shared_of, moved_by};

use crate::packing::ROOM;
use module_groups::GREATEST_ID;

/// The modules that are in use, with the bytes of the objects in each.
#[derive(Drop)]
pub struct Filling {
    /// From module 1 on.
    sums: [Option<u32>; GREATEST_ID],
}

impl Filling {
    /// No object is placed yet.
    pub fn new() -> Filling
        ensures { Tells GREATEST_ID result.sums [] }
    {
        Filling {
            sums: [None; GREATEST_ID],
        }
    }

    /// Places an object in its old module, if it stays there, and answers that module.
    pub fn keep(&mut self, size: u32, old: Option<u16>) -> Option<u16>
        requires { (m : ℕ) → old ≡ Some m → (1 ≤ m) × (m ≤ GREATEST_ID) }
        ensures answer { (f : Filled)
            → Tells GREATEST_ID self.old.sums f
            → result ≡ if_stays f size old }
        ensures after { (f : Filled)
            → Tells GREATEST_ID self.old.sums f
            → Tells GREATEST_ID self.new.sums (filled_with f (if_stays f size old) size) }
    {
        match old {
            Some(number) if self.stays(size, number) => {
                self.put(size, number);
                Some(number)
            }
            _ => None,
        }
    }

    /// The module of an object that may stay in one. If it doesn't stay, it is placed; nothing
    /// comes where it would need a module above the limit.
    pub fn settle(&mut self, size: u32, stays: Option<u16>) -> Option<u16>
        requires { (m : ℕ) → stays ≡ Some m → (1 ≤ m) × (m ≤ GREATEST_ID) }
        ensures number { (f : Filled)
            → Tells GREATEST_ID self.old.sums f
            → MatchOption result (GREATEST_ID < settled_in GREATEST_ID f size stays) (λ m.
            (m ≡ settled_in GREATEST_ID f size stays) × (m ≤ GREATEST_ID)) }
        ensures after { (f : Filled)
            → Tells GREATEST_ID self.old.sums f
            → OnSome result
            (Tells GREATEST_ID self.new.sums (filled_after GREATEST_ID f size stays)) }
    {
        match stays {
            Some(number) => Some(number),
            None => self.move_in(size),
        }
    }

    /// Places an object that doesn't stay, and answers its module, if there is one for it.
    fn move_in(&mut self, size: u32) -> Option<u16>
        ensures answer { result ≡ moved_by size self.old.sums }
        ensures after { (f : Filled)
            → Tells GREATEST_ID self.old.sums f
            → OnSome result
            (Tells GREATEST_ID self.new.sums (filled_after GREATEST_ID f size None)) }
    {
        match self.room_for(size) {
            Some(number) => {
                self.put(size, number);
                Some(number)
            }
            None => None,
        }
    }

    /// Places an object in a module, from 1 to the limit.
    pub fn put(&mut self, size: u32, number: u16)
        requires number { (1 ≤ number) × (number ≤ GREATEST_ID) }
        requires fits { sum_at self.old.sums (number - 1) + size < 2 ^ 32 }
        ensures { self.new.sums
            ≡ slice_set self.old.sums (number - 1)
            (Some (sum_at self.old.sums (number - 1) + size)) }
    {
        let sum = self.sum(number);
        self.sums[usize::from(number - 1)] = Some(sum + size);
    }

    /// The bytes in a module.
    fn sum(&self, number: u16) -> u32
        requires { (1 ≤ number) × (number ≤ GREATEST_ID) }
        ensures { result ≡ sum_at self.now.sums (number - 1) }
    {
        self.sums[usize::from(number - 1)].unwrap_or(0)
    }

    /// Whether an object stays in a module: a small one where there is room for it, a large one
    /// where nothing is.
    fn stays(&self, size: u32, number: u16) -> bool
        requires { (1 ≤ number) × (number ≤ GREATEST_ID) }
        ensures { result ≡ stays_by size (slice_index_or self.now.sums (number - 1) None) }
    {
        if size <= ROOM {
            fits(self.sum(number), size)
        } else {
            self.sums[usize::from(number - 1)].is_none()
        }
    }

    /// The module for an object that doesn't stay: the least one in use that has room for it, or
    /// the least one that isn't in use.
    fn room_for(&self, size: u32) -> Option<u16>
        ensures { result ≡ moved_by size self.now.sums }
    {
        match self.shared(size) {
            Some(number) => Some(number),
            None => self.unused(),
        }
    }

    /// The least module in use that has room for a small object.
    fn shared(&self, size: u32) -> Option<u16>
        ensures { result ≡ shared_of size self.now.sums }
    {
        if size > ROOM {
            return None;
        }
        number_of(first_with_room(&self.sums, size))
    }

    /// The least module that isn't in use.
    fn unused(&self) -> Option<u16>
        ensures { result ≡ number_at (position is_none self.now.sums) }
    {
        number_of(first_unused(&self.sums))
    }
}

/// The place of the first module that is in use and takes so many bytes more.
fn first_with_room(sums: &[Option<u32>], size: u32) -> Option<usize>
    ensures place { result ≡ position (takes size) sums.now }
    ensures bound { IfSome result (λ k. k < length sums.now) }
{
    sums.iter().position(|sum| takes_more(size, *sum))
}

/// The place of the first module that isn't in use.
fn first_unused(sums: &[Option<u32>]) -> Option<usize>
    ensures place { result ≡ position is_none sums.now }
    ensures bound { IfSome result (λ k. k < length sums.now) }
{
    sums.iter().position(|sum| sum.is_none())
}

/// The number of the module at a place.
fn number_of(place: Option<usize>) -> Option<u16>
    requires { IfSome place (λ k. k < GREATEST_ID) }
    ensures { result ≡ number_at place }
{
    match place {
        Some(place) => Some(place as u16 + 1),
        None => None,
    }
}

/// Whether so many bytes more lie within what a shared module has room for.
fn fits(sum: u32, size: u32) -> bool
    ensures { result ≡ nat_le (sum + size) ROOM }
{
    u64::from(sum) + u64::from(size) <= u64::from(ROOM)
}

/// Whether a module that has this in it is in use and takes so many bytes more.
fn takes_more(size: u32, sum: Option<u32>) -> bool
    ensures { result ≡ takes size sum }
{
    match sum {
        Some(sum) => fits(sum, size),
        None => false,
    }
}
