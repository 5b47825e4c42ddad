ghost use Rattle.std.specs.Prelude.{◌≡◌, ◌≤◌, ◌++◌, length, IfOk, OnOk, OnErr};
ghost use Rattle.ior_tap.specs.Iors.{view, Reads, IsWritten, IsLocation, delivery_of_module, spelling};
ghost use Rattle.ior_tap.specs.declared.Location.{Location};
ghost use Rattle.module_groups.specs.declared.TheConstants.{GREATEST_ID};

use crate::{BINDER_TAG, BIOP_TAG, Ior, LOCATION_TAG, Location, biop_of};
use carousel_profile::{ASSOCIATION_TAG, DELIVERY_USE, DSI_TRANSACTION, NO_TIME_OUT};
use module_groups::group_of;
use oc_bytes::{NoMemory, Writer};
use std::alloc::Global;

/// The one spelling of an IOR (ISO/IEC 13818-6, clause 11.3; ETSI TR 101 202, clauses 4.7.3 and
/// 4.7.5).
///
/// The IOR has one BIOP profile: first a location with a key of 4 bytes and a module from 1 to
/// [`module_groups::GREATEST_ID`], then one tap as [`delivery_of_module`] says. `Err` is out of
/// memory.
pub fn encode(alloc: Global, ior: &Ior) -> Result<Vec<u8>, NoMemory>
    requires { (l : Location) × IsWritten (view ior.now) l }
    ensures spells { IfOk result (λ bytes.
        (l : Location)
        → IsWritten (view ior.now) l
        → bytes.items ≡ spelling (view ior.now).kind l) }
    ensures reads { IfOk result (λ bytes. Reads bytes.items (view ior.now)) }
    ensures size { IfOk result (λ bytes. length bytes.items ≡ 63) }
{
    let (location, _) = biop_of(ior).unwrap();
    let mut out = Writer::new(alloc);
    put_reference(&mut out, &ior.kind, location)?;
    Ok(out.done())
}

/// The second byte of the tap's use.
const USE: u8 = DELIVERY_USE as u8;

/// The second byte of its association tag.
const TAG: u8 = ASSOCIATION_TAG as u8;

/// The ConnBinder up to its transactionId: one tap, selector type 0x0001.
const BINDER_FRONT: [u8; 10] = [1, 0, 0, 0, USE, 0, TAG, 10, 0, 1];

/// The transactionId that delivers a module, 1 to [`module_groups::GREATEST_ID`]: that of its DII
/// with version and flag 0, so that it stays from generation to generation.
pub fn delivery_of_module(id: u16) -> u32
    ensures { result ≡ delivery_of_module id }
{
    DSI_TRANSACTION + 2 * u32::from(group_of(id))
}

/// Puts what `encode` gives for an IOR of this kind, 4 bytes, and this location. `Err` is out of
/// memory.
pub fn put_reference(out: &mut Writer, kind: &[u8], location: &Location) -> Result<(), NoMemory>
    requires key { length location.now.key ≡ 4 }
    requires listed { (1 ≤ location.now.module) × (location.now.module ≤ GREATEST_ID) }
    ensures put { OnOk result (out.new ≡ out.old ++ spelling kind.now location.now) }
    ensures room { OnOk result (IsLocation location.now) }
    ensures err { OnErr result (out.new ≡ out.old) }
{
    let Location {
        carousel,
        module,
        key,
    } = location;
    out.put_each(&[
        &4u32.to_be_bytes(),
        kind,
        &1u32.to_be_bytes(),
        &BIOP_TAG.to_be_bytes(),
        &43u32.to_be_bytes(),
        &[0, 2],
        &LOCATION_TAG.to_be_bytes(),
        &[13],
        &carousel.to_be_bytes(),
        &module.to_be_bytes(),
        &[1, 0, 4],
        key.bytes(),
        &BINDER_TAG.to_be_bytes(),
        &[18],
        &BINDER_FRONT,
        &delivery_of_module(*module).to_be_bytes(),
        &NO_TIME_OUT.to_be_bytes(),
    ])
}
