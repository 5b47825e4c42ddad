//! Which key each object has: its own key of the generation before, or the least number that is free.

ghost use Rattle.std.specs.Prelude.{◌≡◌, ◌==◌, ◌≤◌, ◌<◌, ◌+◌, ℕ, Option, true, false, length, slice_set, get_or, not, IfOk};
ghost use Rattle.std.specs.List.{filter, list_any, range_with_len};
ghost use Rattle.oc_bytes.specs.Outcome.{MakesList};
ghost use Rattle.generation.specs.Layouts.{taken_in, free_keys, fill_keys};
ghost use Rattle.generation.specs.declared.limit.TheConstants.{MOST_OBJECTS};

use crate::made::is_on;
use oc_bytes::NoMemory;
use std::alloc::Global;

/// The key of each object: its own where it had one, and else the least that is free.
pub(crate) fn keys(alloc: Global, former: &[Option<u32>]) -> Result<Vec<u32>, NoMemory>
    requires { length former.now ≤ MOST_OBJECTS }
    ensures { MakesList result
        (fill_keys former.now (free_keys (taken_in former.now) (length former.now))) }
{
    let taken = taken(alloc, former)?;
    let free = free(alloc, &taken, former.len() as u32)?;
    fill(alloc, former, &free)
}

/// The keys among these that are there.
fn taken(alloc: Global, kept: &[Option<u32>]) -> Result<Vec<u32>, NoMemory>
    ensures { MakesList result (taken_in kept.now) }
{
    kept.iter().filter_map(|key| *key).collect(alloc)
}

/// The numbers from 2 on that aren't taken, among so many.
fn free(alloc: Global, taken: &[u32], count: u32) -> Result<Vec<u32>, NoMemory>
    requires { count ≤ MOST_OBJECTS }
    ensures { MakesList result (free_keys taken.now count) }
{
    let is_taken = marks(alloc, taken, count + 2)?;
    unmarked(alloc, &is_taken, count)
}

/// The numbers from 2 on whose mark is off, among so many.
fn unmarked(alloc: Global, marks: &[bool], count: u32) -> Result<Vec<u32>, NoMemory>
    requires { count ≤ MOST_OBJECTS }
    ensures { MakesList result
        (filter (λ k. not (get_or marks.now k false)) (range_with_len 2 count)) }
{
    (2..count + 2)
        .filter(|key| !is_on(marks, *key as usize))
        .collect(alloc)
}

/// Of each number below an end, whether it is among these.
fn marks(alloc: Global, numbers: &[u32], end: u32) -> Result<Vec<bool>, NoMemory>
    ensures end { IfOk result (λ v. length v.items ≡ end) }
    ensures marks { IfOk result (λ v.
        (k : ℕ) → k < end → get_or v.items k false ≡ list_any (λ j. j == k) numbers.now) }
{
    let mut marks = vec![in alloc; false; end as usize]?;
    for number in numbers {
        mark(&mut marks, *number as usize);
    }
    Ok(marks)
}

/// Marks a number, if it has a place.
fn mark(marks: &mut [bool], number: usize)
    ensures { marks.new ≡ slice_set marks.old number true }
{
    if number < marks.len() {
        marks[number] = true;
    }
}

/// Each key, with the free ones in order where there is none.
fn fill(alloc: Global, kept: &[Option<u32>], free: &[u32]) -> Result<Vec<u32>, NoMemory>
    ensures { MakesList result (fill_keys kept.now free.now) }
{
    let mut keys = Vec::new(alloc);
    let mut used = 0;
    for key in kept {
        match *key {
            Some(key) => keys.push(key)?,
            None if used < free.len() => {
                keys.push(free[used])?;
                used += 1;
            }
            None => break,
        }
    }
    Ok(keys)
}
