ghost use Rattle.std.specs.Prelude.{◌≡◌, ◌∷◌, [], map};
ghost use Rattle.std.specs.Option.{option_map};
ghost use Rattle.ior_tap.specs.Iors.{view, biop_of_profiles, delivery_of_taps, view_tap};

use crate::{Binder, Ior, Location, Profile, Tap};
use carousel_profile::DELIVERY_USE;

/// Location and taps of the first BIOP profile, without memory.
pub fn biop_of(ior: &Ior) -> Option<(&Location, &Binder)>
    ensures { option_map (λ x. (x.0.now, map view_tap x.1.now.taps.items)) result
        ≡ biop_of_profiles (view ior.now).profiles }
{
    for profile in &ior.profiles {
        if let Profile::Biop(location, binder) = profile {
            return Some((location, binder));
        }
    }
    None
}

/// The transactionId of the first tap that delivers control messages: of use 0x0016, with a
/// selector of type 0x0001 and at least 10 bytes (ETSI TR 101 202, clause 4.7.5). It takes no
/// memory.
pub fn delivery_of(binder: &Binder) -> Option<u32>
    ensures { result ≡ delivery_of_taps (map view_tap binder.now.taps.items) }
{
    for tap in &binder.taps {
        if let Some(transaction) = delivery(tap) {
            return Some(transaction);
        }
    }
    None
}

fn delivery(tap: &Tap) -> Option<u32>
    ensures { result ≡ delivery_of_taps ((view_tap tap.now) ∷ []) }
{
    if tap.use_code != DELIVERY_USE || tap.selector.len() < 10 {
        return None;
    }
    let selector = tap.selector.as_slice();
    if u16::from_be_bytes([selector[0], selector[1]]) != 1 {
        return None;
    }
    Some(u32::from_be_bytes([selector[2], selector[3], selector[4], selector[5]]))
}
