//! Which module each object of a generation goes to.
//!
//! A module that carries more than one object has at most [`ROOM`] bytes; only an object that is
//! larger by itself has a larger module, of its own. Which objects share a module is left to the
//! broadcaster by ETSI TR 101 202; the rule here is this project's own.
//!
//! ```
//! use module_packer::{need, place_fresh};
//!
//! let sizes = [117, 65_000, 65_537, 400];
//! assert_eq!(rt; need(&sizes), 2);
//! assert_eq!(rt; place_fresh(alloc, &sizes)?.as_slice(), [1, 1, 2, 1].as_slice());
//! ```
#![tactic(auto)]

ghost use Rattle.std.specs.Prelude.{◌≡◌, ◌≤◌, ◌<◌, length, IfOk};
ghost use Rattle.oc_bytes.specs.Outcome.{MakesList};
ghost use Rattle.module_packer.specs.Placement.{fresh, modules_needed, IsPlacement, FreshIsAPlacement};
ghost use Rattle.module_packer.specs.Kept.{KeptIsAPlacement, ObjectsStay};

mod filling;
mod keeping;
mod limits;
mod packing;

pub use keeping::place;
pub use limits::limits_are_numbers;
use module_groups::GREATEST_ID;
use oc_bytes::NoMemory;
use packing::Packing;
pub use packing::ROOM;
use std::alloc::Global;

/// How many modules a fresh placement of objects of these sizes opens. `sizes` has the objects'
/// sizes in bytes, in object order, and isn't empty. Takes no memory.
pub fn need(sizes: &[u32]) -> usize
    requires { 0 < length sizes.now }
    ensures { result ≡ modules_needed sizes.now }
{
    let mut packing = Packing::new();
    for size in sizes {
        let _module = packing.place(*size);
    }
    packing.modules()
}

/// The module of each object, a number from 1 to [`GREATEST_ID`], of a fresh placement.
///
/// The objects are taken in order. One of more than [`ROOM`] bytes gets a module of its own. Any
/// other goes into the module that was opened last for such objects while the sum of sizes stays at
/// most [`ROOM`] there, and else opens a new one. Modules are numbered from 1 in order of opening,
/// so the first object is in module 1.
///
/// `sizes` isn't empty, and `need` of it is at most [`GREATEST_ID`]. Out of memory is the only
/// refusal.
pub fn place_fresh(alloc: Global, sizes: &[u32]) -> Result<Vec<u16>, NoMemory>
    requires some { 0 < length sizes.now }
    requires few { modules_needed sizes.now ≤ GREATEST_ID }
    ensures fresh { MakesList result (fresh sizes.now) }
    ensures fits { IfOk result (λ ms. IsPlacement GREATEST_ID sizes.now ms.items) }
{
    let mut packing = Packing::new();
    let mut modules = Vec::with_capacity(alloc, sizes.len())?;
    for size in sizes {
        let module = packing.place(*size);
        modules.push(module as u16)?;
    }
    Ok(modules)
}

/// The law of `place`, for every limit.
pub fn kept_is_a_placement()
    ensures { KeptIsAPlacement }
{}

/// Of `place`, for every limit: unless the whole placement is the fresh one, an object stays in its
/// old module where the objects before it that were there leave room for it. So what changes after
/// an object in object order never moves it, and neither does what changes in another module.
pub fn objects_stay_where_there_is_room()
    ensures { ObjectsStay }
{}

/// The law of `place_fresh`, for every limit: each object has a module from 1 to the limit, the
/// first object is in module 1, and no module of more than one object has more than [`ROOM`] bytes.
pub fn fresh_is_a_placement()
    ensures { FreshIsAPlacement }
{}
