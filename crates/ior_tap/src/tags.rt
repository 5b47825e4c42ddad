//! Tags in a reference (ISO/IEC 13818-6, clause 11.3; ETSI TR 101 202, clause 4.7.3).
ghost use Rattle.std.specs.Prelude.{◌≡◌};

/// The tag of a BIOP profile.
pub const BIOP_TAG: u32 = 0x49534F06;

/// The tag of an ObjectLocation.
pub const LOCATION_TAG: u32 = 0x49534F50;

/// The tag of a ConnBinder.
pub const BINDER_TAG: u32 = 0x49534F40;

/// The tags as numbers.
pub fn tags_are_numbers()
    ensures profile { BIOP_TAG ≡ 0x49534F06 }
    ensures location { LOCATION_TAG ≡ 0x49534F50 }
    ensures binder { BINDER_TAG ≡ 0x49534F40 }
{}
