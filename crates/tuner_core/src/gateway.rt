//! The gateway that a DSI names.

ghost use Rattle.std.specs.Prelude.{◌≡◌, ◌≢◌, IfOk, OnErr};
ghost use Rattle.dsi_dii.specs.Controls.{view_dsi};
ghost use Rattle.ior_tap.specs.Iors.{biop_of_profiles};
ghost use Rattle.path_tree.specs.Paths.{same_name};
ghost use Rattle.tuner_core.specs.Stands.{after_dsi, is_held, same_location};

use crate::told::{Cause, Fed};
use dsi_dii::Dsi;
use ior_tap::{Key, Location, biop_of, delivery_of};
use oc_bytes::NoMemory;
use path_resolver::Gateway;
use std::alloc::Global;

/// The same location.
fn is_same_location(a: &Location, b: &Location) -> bool
    ensures { result ≡ same_location a.now b.now }
{
    a.carousel == b.carousel && a.module == b.module && is_same_name(a.key.bytes(), b.key.bytes())
}

/// The same bytes.
fn is_same_name(a: &[u8], b: &[u8]) -> bool
    ensures { result ≡ same_name a.now b.now }
{
    a == b
}

/// The gateway that is held is this one.
fn is_gateway(held: &Option<Gateway>, location: &Location, delivery: Option<u32>) -> bool
    ensures { result ≡ is_held held.now location.now delivery }
{
    match held {
        Some(gateway) => {
            is_same_location(&gateway.location, location) && gateway.delivery == delivery
        }
        None => false,
    }
}

/// The same location with a key of its own.
fn copy_of(alloc: Global, location: &Location) -> Result<Location, NoMemory>
    ensures { IfOk result (λ l. l ≡ location.now) }
{
    let key = Key::new(location.key.bytes().to_vec(alloc)?);
    Ok(Location {
        carousel: location.carousel,
        module: location.module,
        key,
    })
}

/// The held gateway with a key of its own.
pub fn copy_of_held(alloc: Global, held: &Option<Gateway>) -> Result<Option<Gateway>, NoMemory>
    ensures { IfOk result (λ g. g ≡ held.now) }
{
    match held {
        Some(gateway) => Ok(Some(Gateway {
            location: copy_of(alloc, &gateway.location)?,
            delivery: gateway.delivery,
        })),
        None => Ok(None),
    }
}

/// Takes the gateway of a DSI. Where it is the held one, or there is none, nothing changes.
#[tactic(auto, using(crate::proofs::Gateways::other_gateway))]
pub fn take_dsi(alloc: Global, held: &mut Option<Gateway>, dsi: &Dsi) -> Result<Fed, NoMemory>
    ensures ok { IfOk result (λ fed.
        (held.new, fed)
        ≡ after_dsi held.old (biop_of_profiles (view_dsi dsi.now).gateway.profiles)) }
    ensures changed { IfOk result (λ fed. fed ≡ Fed.Changed → held.new ≢ held.old) }
    ensures err { OnErr result (held.new ≡ held.old) }
{
    let Some((location, binder)) = biop_of(&dsi.gateway) else {
        return Ok(Fed::Nothing(Cause::NoGateway));
    };
    let delivery = delivery_of(binder);
    if is_gateway(held, location, delivery) {
        return Ok(Fed::Nothing(Cause::SameDsi));
    }
    let location = copy_of(alloc, location)?;
    *held = Some(Gateway { location, delivery });
    Ok(Fed::Changed)
}
