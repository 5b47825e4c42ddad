//! References to objects: IORs.
//!
//! - `ior-encode KIND CAROUSEL MODULE KEY`: the reference of this kind to the object with this key,
//!   each of four bytes, in a module from 1 to 2,224.
//! - `ior-decode BYTES`: how many bytes the reference at the front has, its kind, and its profiles.
//! - `ior-location BYTES`: the location that a reference has, and the transactionId of the control
//!   messages by which it is reached.

ghost use Rattle.std.specs.Prelude.{◌≤◌, IfOk};
ghost use Rattle.oc_bytes.specs.Outcome.{MakesList};
ghost use Rattle.ior_tap.specs.Iors.{view, IsWritten, written_tap};
ghost use Rattle.ior_tap.specs.declared.Location.{Location};
ghost use Rattle.module_groups.specs.declared.TheConstants.{GREATEST_ID};

use crate::told::{Told, each, read};
use crate::words::array;
use ior_tap::{
    Binder, Ior, Key, Location, Profile, Tap, biop_of, decode, delivery_of, delivery_of_module,
    encode,
};
use module_groups::GREATEST_ID;
use oc_bytes::Writer;
use std::alloc::{AllocError, Global};
use test_rows::{Line, Row, RowFault};

pub(crate) fn call(alloc: Global, row: &Row<'_>) -> Option<Line> {
    match row.name() {
        "ior-encode" => Some(encoded(alloc, row)),
        "ior-decode" => Some(decoded(alloc, row)),
        "ior-location" => Some(located(alloc, row)),
        _ => None,
    }
}

/// The id of a module at a place: one that a location may have which is written.
pub(crate) fn module_id(row: &Row<'_>, place: usize) -> u16
    ensures { (1 ≤ result) × (result ≤ GREATEST_ID) }
{
    let number = row.short(place);
    if number >= 1 && usize::from(number) <= GREATEST_ID {
        return number;
    }
    row.fail(RowFault::BadRow);
    1
}

/// The selector of the tap by which a module is reached: its type, the transactionId, and no
/// time-out.
fn selector(alloc: Global, module_id: u16) -> Result<Vec<u8>, AllocError>
    ensures { MakesList result (written_tap module_id).selector }
{
    let mut out = Writer::new(alloc);
    out.put_u16(1)?;
    out.put_u32(delivery_of_module(module_id))?;
    out.put_u32(0xFFFF_FFFF)?;
    Ok(out.done())
}

/// The reference of this kind to the object with this key, in the form that is written.
pub(crate) fn reference(
    alloc: Global,
    kind: [u8; 4],
    carousel: u32,
    module_id: u16,
    key: [u8; 4],
) -> Result<Ior, AllocError>
    requires { (1 ≤ module_id) × (module_id ≤ GREATEST_ID) }
    ensures { IfOk result (λ ior. (l : Location) × IsWritten (view ior) l) }
{
    let tap = Tap {
        id: 0,
        use_code: 0x0016,
        assoc: 0x0001,
        selector: selector(alloc, module_id)?,
    };
    let binder = Binder {
        taps: vec![in alloc; tap]?,
    };
    let [first, second, third, fourth] = key;
    let key = Key::new(Vec::from_slice(alloc, &[first, second, third, fourth])?);
    let location = Location {
        carousel,
        module: module_id,
        key,
    };
    let [a, b, c, d] = kind;
    Ok(Ior {
        kind: [a, b, c, d],
        profiles: vec![in alloc; Profile::Biop(location, binder)]?,
    })
}

fn encoded(alloc: Global, row: &Row<'_>) -> Line {
    let (kind, key) = (array(row, 0), array(row, 3));
    match reference(alloc, kind, row.long(1), module_id(row, 2), key) {
        Ok(ior) => row.line().outcome(encode(alloc, &ior)),
        Err(_) => row.failed(RowFault::NoMemory),
    }
}

fn decoded(alloc: Global, row: &Row<'_>) -> Line {
    read(row.line(), decode(alloc, &row.octets(0)))
}

/// A reference, and how many bytes it has.
impl Told for (Ior, usize) {
    fn told(&self, line: Line) -> Line {
        let line = line.value("", &self.1).bytes(" bytes, kind ", &self.0.kind);
        each(line, "; ", &self.0.profiles)
    }
}

impl Told for Profile {
    fn told(&self, line: Line) -> Line {
        match self {
            Profile::Biop(location, binder) => location_text(line, location, binder),
            Profile::Other(tag, content) => line
                .bytes("tag ", &tag.to_be_bytes())
                .bytes(", bytes ", content),
        }
    }
}

/// Puts a location, and how it is delivered, behind what stands.
fn location_text(line: Line, location: &Location, binder: &Binder) -> Line {
    let line = line
        .value("carousel ", &location.carousel)
        .value(", module ", &location.module)
        .bytes(", key ", location.key.bytes());
    match delivery_of(binder) {
        Some(transaction) => line.bytes(", delivery ", &transaction.to_be_bytes()),
        None => line.text(", no delivery"),
    }
}

fn located(alloc: Global, row: &Row<'_>) -> Line {
    match decode(alloc, &row.octets(0)) {
        Ok((ior, _)) => place_text(row.line(), &ior),
        Err(fault) => row.line().value("", &fault),
    }
}

/// Puts the first location of a reference, if it has one, behind what stands.
pub(crate) fn place_text(line: Line, ior: &Ior) -> Line {
    match biop_of(ior) {
        Some((location, binder)) => location_text(line, location, binder),
        None => line.text("no location"),
    }
}
