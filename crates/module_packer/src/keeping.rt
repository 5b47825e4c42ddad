//! A placement that leaves objects where they were.

ghost use Rattle.std.specs.Prelude.{◌≡◌, ◌∷◌, Some, Option, MatchOption, IfOk, OnOk, false, true};
ghost use Rattle.oc_bytes.specs.Outcome.{MakesList};
ghost use Rattle.module_packer.specs.Placement.{IsPlacement, fresh};
ghost use Rattle.module_packer.specs.Kept.{Filled, AreObjects, kept_modules, sizes_in, first_pass, first_filled, second_pass, within, WereWithin};
ghost use Rattle.module_packer.specs.Inner.Sums.{Tells};

use crate::filling::Filling;
use crate::place_fresh;
use module_groups::GREATEST_ID;
use oc_bytes::NoMemory;
use std::alloc::Global;

/// The module of each object, a number from 1 to [`GREATEST_ID`], where an object keeps the module
/// that it had as long as that one doesn't grow too large.
///
/// `objects` has each object's size in bytes, in object order, and the module that it had, if any.
/// - Module 1 always has the first object.
/// - Those that had a module come next, in object order. An object of up to [`ROOM`](crate::ROOM)
///   bytes keeps its module if that one has at most `ROOM` bytes with it, and a larger object if
///   nothing lies there yet.
/// - What is left is placed last, in object order: up to `ROOM` bytes in the lowest numbered module
///   that isn't empty and has at most `ROOM` bytes with it. Where there is none, and for any larger
///   object, it is the lowest numbered empty one.
/// - If a number above [`GREATEST_ID`] came out, no module is kept, and the answer is that of
///   `place_fresh`.
///
/// `objects` isn't empty, and `need` of the sizes is at most [`GREATEST_ID`]. The first object had
/// module 1 or none, and each other one a module from 1 to [`GREATEST_ID`] or none. Out of memory
/// is the only refusal. The rule is this project's own.
pub fn place(alloc: Global, objects: &[(u32, Option<u16>)]) -> Result<Vec<u16>, NoMemory>
    requires { AreObjects GREATEST_ID objects.now }
    ensures kept { MakesList result (kept_modules GREATEST_ID objects.now) }
    ensures fits { IfOk result (λ ms. IsPlacement GREATEST_ID (sizes_in objects.now) ms.items) }
{
    let mut filling = Filling::new();
    filling.put(objects[0].0, 1);
    let others = stay(alloc, &mut filling, &objects[1..])?;
    match numbers(alloc, &mut filling, &others)? {
        Some(modules) => Ok(modules),
        None => afresh(alloc, objects),
    }
}

/// Each object with its old module, if it stays there.
fn stay(
    alloc: Global,
    filling: &mut Filling,
    objects: &[(u32, Option<u16>)],
) -> Result<Vec<(u32, Option<u16>)>, NoMemory>
    requires { WereWithin GREATEST_ID objects.now }
    ensures passed { (f : Filled)
        → Tells GREATEST_ID filling.old.sums f
        → MakesList result (first_pass f objects.now) }
    ensures filled { (f : Filled)
        → Tells GREATEST_ID filling.old.sums f
        → OnOk result (Tells GREATEST_ID filling.new.sums (first_filled f objects.now)) }
{
    let mut stayed = Vec::with_capacity(alloc, objects.len())?;
    for (size, old) in objects {
        let module = filling.keep(*size, *old);
        stayed.push((*size, module))?;
    }
    Ok(stayed)
}

/// The modules of the first object and of the others, where these stay or go: nothing where a
/// module would be above the limit.
fn numbers(
    alloc: Global,
    filling: &mut Filling,
    others: &[(u32, Option<u16>)],
) -> Result<Option<Vec<u16>>, NoMemory>
    requires { WereWithin GREATEST_ID others.now }
    ensures { (f : Filled)
        → Tells GREATEST_ID filling.old.sums f
        → IfOk result (λ r.
        MatchOption r (within GREATEST_ID (1 ∷ second_pass GREATEST_ID f others.now) ≡ false)
        (λ ms.
        (ms.items ≡ 1 ∷ second_pass GREATEST_ID f others.now)
        × (within GREATEST_ID ms.items ≡ true))) }
{
    let mut modules = vec![in alloc; 1]?;
    for (size, stays) in others {
        let Some(module) = filling.settle(*size, *stays) else {
            return Ok(None);
        };
        modules.push(module)?;
    }
    Ok(Some(modules))
}

/// The fresh placement of objects.
fn afresh(alloc: Global, objects: &[(u32, Option<u16>)]) -> Result<Vec<u16>, NoMemory>
    requires { AreObjects GREATEST_ID objects.now }
    ensures { MakesList result (fresh (sizes_in objects.now)) }
{
    let sizes: Vec<u32> = objects.iter().map(|object| object.0).collect(alloc)?;
    place_fresh(alloc, &sizes)
}
