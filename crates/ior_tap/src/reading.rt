ghost use Rattle.std.specs.Prelude.{◌≡◌, ◌≤◌, ◌<◌, ◌+◌, ◌++◌, ◌==◌, List, ℕ, Ok, Some, None, length, take, map, IfOk, IfErr, IfSome, IsErrOf, IsOkAnd, if◌then◌else◌};
ghost use Rattle.std.specs.Option.{option_map, option_copied, option_or, option_and_then};
ghost use Rattle.oc_bytes.specs.Outcome.{Gives};
ghost use Rattle.oc_bytes.specs.Grammar.{front_of};
ghost use Rattle.oc_bytes.specs.Cause.{place_of};
ghost use Rattle.oc_bytes.specs.Cursor.{from_start, bytes_at, read_from_start, each_at};
ghost use Rattle.ior_tap.specs.Iors.{Fields as IorFields, view, view_tap, view_profile, Reads, IsWritten, IsLocation, written_form, spelling, biop_in, profile_of, cause};
ghost use Rattle.ior_tap.specs.Iors as iors;
ghost use Rattle.ior_tap.specs.IorReading.{ior_at, profile_count_at, tap_at};
ghost use Rattle.ior_tap.specs.Inner.IorReading.{taps_at, location_at, component_at, chosen_at, parts_at, profile_at};
ghost use Rattle.oc_bytes.specs.Agreement.{Agrees, InBytes, at};
ghost use Rattle.ior_tap.specs.declared.Location.{Location};

use crate::{
    BINDER_TAG, BIOP_TAG, Binder, Ior, IorFault, Key, LOCATION_TAG, Location, Profile, Tap,
};
use oc_bytes::{Cut, Fields, NoMemory};
use std::alloc::{AllocError, Global};

#[tactic(auto, unfolding(oc_bytes::specs::Grammar::read))]
fn tap_of(alloc: Global, fields: &mut Fields<'_>) -> Result<Tap, IorFault>
    ensures { Gives (λ t. (view_tap t, fields.new)) cause result (tap_at fields.old) }
{
    let id = fields.u16()?;
    let use_code = fields.u16()?;
    let assoc = fields.u16()?;
    let selector = Vec::from_slice(alloc, fields.sized8()?)?;
    Ok(Tap {
        id,
        use_code,
        assoc,
        selector,
    })
}

fn taps_of(alloc: Global, fields: &mut Fields<'_>, count: u8) -> Result<Vec<Tap>, IorFault>
    ensures { Gives (λ v. (map view_tap v.items, fields.new)) cause result
        (each_at tap_at count fields.old) }
{
    let mut taps = Vec::new(alloc);
    for _ in 0..count {
        let tap = tap_of(alloc, fields)?;
        taps.push(tap)?;
    }
    Ok(taps)
}

#[tactic(auto, unfolding(oc_bytes::specs::Grammar::read))]
fn binder_of(alloc: Global, fields: &mut Fields<'_>) -> Result<Binder, IorFault>
    ensures { Gives (λ b. (map view_tap b.taps.items, fields.new)) cause result
        (taps_at fields.old) }
{
    let count = fields.u8()?;
    let taps = taps_of(alloc, fields, count)?;
    Ok(Binder { taps })
}

#[tactic(auto, unfolding(oc_bytes::specs::Grammar::read))]
fn location_of(alloc: Global, fields: &mut Fields<'_>) -> Result<Location, IorFault>
    ensures { Gives (λ l. (l, fields.new)) cause result (location_at fields.old) }
{
    let carousel = fields.u32()?;
    let module = fields.u16()?;
    fields.this_u16(0x0100)?;
    let key = Key::new(Vec::from_slice(alloc, fields.sized8()?)?);
    Ok(Location {
        carousel,
        module,
        key,
    })
}

fn location_in(alloc: Global, content: &[u8]) -> Result<Option<Location>, NoMemory>
    ensures { IfOk result (λ l. l ≡ front_of iors.location content.now) }
{
    let mut fields = Fields::new(content);
    match location_of(alloc, &mut fields) {
        Ok(location) => Ok(Some(location)),
        Err(IorFault::BadIor(_)) => Ok(None),
        Err(IorFault::NoMemory) => Err(AllocError),
    }
}

fn binder_in(alloc: Global, content: &[u8]) -> Result<Option<Binder>, NoMemory>
    ensures { IfOk result (λ b.
        option_map (λ x. map view_tap x.taps.items) b
        ≡ front_of iors.taps content.now) }
{
    let mut fields = Fields::new(content);
    match binder_of(alloc, &mut fields) {
        Ok(binder) => Ok(Some(binder)),
        Err(IorFault::BadIor(_)) => Ok(None),
        Err(IorFault::NoMemory) => Err(AllocError),
    }
}

#[derive(Clone, Copy)]
struct Component<'a> {
    tag: u32,
    content: &'a [u8],
}

#[tactic(auto, unfolding(oc_bytes::specs::Grammar::read))]
fn component_of<'a>(fields: &mut Fields<'a>) -> Result<Component<'a>, Cut>
    ensures { Gives (λ c. ((c.tag, c.content.now), fields.new)) place_of result
        (component_at fields.old) }
{
    let tag = fields.u32()?;
    let content = fields.sized8()?;
    Ok(Component { tag, content })
}

/// The first ObjectLocation and the first ConnBinder of a profile.
#[derive(Clone, Copy)]
struct Parts<'a> {
    location: Option<&'a [u8]>,
    binder: Option<&'a [u8]>,
}

impl<'a> Parts<'a> {
    fn with(self, component: Component<'a>) -> Parts<'a>
        ensures location { option_copied result.location
            ≡ option_or (option_copied self.entry.location)
            (if component.entry.tag == LOCATION_TAG then Some component.entry.content.now else
            None) }
        ensures binder { option_copied result.binder
            ≡ option_or (option_copied self.entry.binder)
            (if component.entry.tag == BINDER_TAG then Some component.entry.content.now else
            None) }
    {
        let content = Some(component.content);
        if component.tag == LOCATION_TAG && self.location.is_none() {
            return Parts {
                location: content,
                binder: self.binder,
            };
        }
        if component.tag == BINDER_TAG && self.binder.is_none() {
            return Parts {
                location: self.location,
                binder: content,
            };
        }
        self
    }
}

fn parts_of<'a>(fields: &mut Fields<'a>, count: u8) -> Result<Parts<'a>, Cut>
    ensures { Gives (λ p. ((option_copied p.location, option_copied p.binder), fields.new)) place_of
        result (parts_at count fields.old) }
{
    let mut parts = Parts {
        location: None,
        binder: None,
    };
    for _ in 0..count {
        let component = component_of(fields)?;
        parts = parts.with(component);
    }
    Ok(parts)
}

#[tactic(auto, unfolding(oc_bytes::specs::Grammar::read))]
fn parts_in<'a>(fields: &mut Fields<'a>) -> Result<Parts<'a>, Cut>
    ensures { Gives (λ p. ((option_copied p.location, option_copied p.binder), fields.new)) place_of
        result (chosen_at fields.old) }
{
    fields.this_u8(0)?;
    let count = fields.u8()?;
    parts_of(fields, count)
}

/// None unless both components are there in the right form.
fn biop_in(alloc: Global, content: &[u8]) -> Result<Option<Profile>, NoMemory>
    ensures { IfOk result (λ p.
        option_map view_profile p
        ≡ option_and_then biop_in (front_of iors.components content.now)) }
{
    let mut fields = Fields::new(content);
    let Ok(parts) = parts_in(&mut fields) else {
        return Ok(None);
    };
    let (Some(location), Some(binder)) = (parts.location, parts.binder) else {
        return Ok(None);
    };
    let Some(location) = location_in(alloc, location)? else {
        return Ok(None);
    };
    let Some(binder) = binder_in(alloc, binder)? else {
        return Ok(None);
    };
    Ok(Some(Profile::Biop(location, binder)))
}

fn profile_in(alloc: Global, tag: u32, content: &[u8]) -> Result<Profile, NoMemory>
    ensures { IfOk result (λ p. view_profile p ≡ profile_of tag content.now) }
{
    if tag == BIOP_TAG
        && let Some(profile) = biop_in(alloc, content)?
    {
        return Ok(profile);
    }
    let bytes = Vec::from_slice(alloc, content)?;
    Ok(Profile::Other(tag, bytes))
}

#[tactic(auto, unfolding(oc_bytes::specs::Grammar::read, oc_bytes::specs::Cursor::sized_at))]
fn profile_of(alloc: Global, fields: &mut Fields<'_>) -> Result<Profile, IorFault>
    ensures { Gives (λ p. (view_profile p, fields.new)) cause result (profile_at fields.old) }
{
    let tag = fields.u32()?;
    let size = fields.u32()?;
    let content = fields.take(size as usize)?;
    let profile = profile_in(alloc, tag, content)?;
    Ok(profile)
}

fn profiles_of(alloc: Global, fields: &mut Fields<'_>, count: u32) -> Result<Vec<Profile>, IorFault>
    ensures exact { Gives (λ v. (map view_profile v.items, fields.new)) cause result
        (each_at profile_at count fields.old) }
    ensures memory { IsErrOf result IorFault.NoMemory → 0 < count }
{
    let mut profiles = Vec::new(alloc);
    for _ in 0..count {
        let profile = profile_of(alloc, fields)?;
        profiles.push(profile)?;
    }
    Ok(profiles)
}

fn kind_of(fields: &mut Fields<'_>) -> Result<[u8; 4], Cut>
    ensures { Gives (λ k. (k, fields.new)) place_of result (bytes_at 4 fields.old) }
{
    let kind = fields.take(4)?;
    Ok([kind[0], kind[1], kind[2], kind[3]])
}

#[tactic(auto, unfolding(oc_bytes::specs::Grammar::read, crate::specs::IorReading::profile_count_at))]
fn ior_of(alloc: Global, fields: &mut Fields<'_>) -> Result<Ior, IorFault>
    ensures exact { Gives (λ i. (view i, fields.new)) cause result (ior_at fields.old) }
    ensures memory { IsErrOf result IorFault.NoMemory
        → IsOkAnd (profile_count_at fields.old) (λ x. 0 < x.0) }
{
    fields.this_u32(4)?;
    let kind = kind_of(fields)?;
    let count = fields.u32()?;
    let profiles = profiles_of(alloc, fields, count)?;
    Ok(Ior { kind, profiles })
}

fn read(alloc: Global, bytes: &[u8]) -> Result<(Ior, usize), IorFault>
    ensures exact { Gives (λ x. (view x.0, x.1)) cause result
        (read_from_start (ior_at (from_start bytes.now))) }
    ensures memory { IsErrOf result IorFault.NoMemory
        → IsOkAnd (profile_count_at (from_start bytes.now)) (λ x. 0 < x.0) }
{
    let mut fields = Fields::new(bytes);
    let ior = ior_of(alloc, &mut fields)?;
    Ok((ior, fields.place()))
}

/// Reads an IOR at the front of these bytes, and gives how many it has (ISO/IEC 13818-6, clause
/// 11.3; ETSI TR 101 202, clause 4.7.3).
///
/// The first component of each tag counts. It ignores bytes after the IOR, a profile's last
/// component, a location's key, and a binder's taps.
pub fn decode(alloc: Global, bytes: &[u8]) -> Result<(Ior, usize), IorFault>
    // What is read:
    ensures found { IfOk result (λ x.
        (x.1 ≤ length bytes.now) × Reads (take x.1 bytes.now) (view x.0)) }
    ensures only { (ior : IorFields) (n : ℕ)
        → n ≤ length bytes.now
        → Reads (take n bytes.now) ior
        → Gives {Y = IorFields × ℕ} (λ x. (view x.0, x.1)) cause result (Ok (ior, n)) }
    // A spelling, whatever follows it:
    ensures again { (kind rest : List ℕ) (l : Location)
        → IsWritten (written_form kind l) l
        → IsLocation l
        → bytes.now ≡ spelling kind l ++ rest
        → Gives {Y = IorFields × ℕ} (λ x. (view x.0, x.1)) cause result
        (Ok (written_form kind l, length (spelling kind l))) }
    // The answer in full, and when each error comes:
    ensures exact { Gives (λ x. (view x.0, x.1)) cause result
        (read_from_start (ior_at (from_start bytes.now))) }
    ensures inside { IfErr result (λ e. IfSome (cause e) (λ place. place ≤ length bytes.now)) }
    ensures memory { IsErrOf result IorFault.NoMemory
        → IsOkAnd (profile_count_at (from_start bytes.now)) (λ x. 0 < x.0) }
{
    read(alloc, bytes)
}

/// Reading from left to right agrees with the grammar, from any place; what is written is in the
/// grammar and is read back.
pub fn one_reading()
    ensures agree { Agrees ior_at (InBytes Reads) }
    ensures written { (kind : List ℕ) (l : Location)
        → IsWritten (written_form kind l) l
        → IsLocation l
        → Reads (spelling kind l) (written_form kind l) }
    ensures again { (kind : List ℕ) (l : Location)
        → IsWritten (written_form kind l) l
        → IsLocation l
        → (place : ℕ) (rest : List ℕ)
        → ior_at (at place (spelling kind l ++ rest))
        ≡ Ok (written_form kind l, at (place + 63) rest) }
{}
