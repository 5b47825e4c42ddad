//! What a packet's payload does to the open section.

ghost use Rattle.std.specs.Prelude.{◌≡◌, ◌<◌, ◌≤◌, ◌++◌, [], ◌∷◌, None, length, map, take, slice_index, IfOk, OnOk, OnErr, nat_le};
ghost use Rattle.std.specs.Option.{option_copied, ForSome};
ghost use Rattle.section_stream.specs.Kept.{view_bytes};
ghost use Rattle.section_stream.specs.Rules as rules;
ghost use Rattle.section_stream.specs.Steps.{kept_unless, no_section_in};
ghost use Rattle.section_stream.specs.Inner.Steps.{begun_by, bytes_of, done_by, growth_of, open_all, section_of, HasDone, HasOut, IsWhole};
ghost use Rattle.oc_bytes.specs.declared.lengths.TheConstants.{MOST_SECTION};

use crate::counts::{Counts, up};
use crate::open_section::OpenSection;
use carousel_profile::PACKET_LENGTH;
use oc_bytes::{MOST_LENGTH, NoMemory, length_field};
use std::alloc::Global;

/// Fills the rest of a packet, in place of a table id.
const STUFFING: u8 = 0xFF;

/// How far the first bytes of a section have come.
#[derive(Clone, Copy, Debug, PartialEq, Eq)]
pub enum Growth {
    Growing,
    /// The length field is above 4,093.
    Oversize,
    /// The section is complete, with this many bytes.
    Whole(usize),
}

#[inline]
fn have(front: &[u8], back: &[u8], n: usize) -> bool
    ensures { result ≡ nat_le n (length (front.now ++ back.now)) }
{
    n.saturating_sub(front.len()) <= back.len()
}

#[inline]
fn byte_at(front: &[u8], back: &[u8], at: usize) -> u8
    requires { at < length (front.now ++ back.now) }
    ensures { result ≡ slice_index (front.now ++ back.now) at }
{
    if at < front.len() {
        front[at]
    } else {
        back[at - front.len()]
    }
}

#[inline]
fn growth_with(front: &[u8], back: &[u8]) -> Growth
    ensures { growth_of result ≡ rules.as_grown (front.now ++ back.now) }
{
    if !have(front, back, 3) {
        return Growth::Growing;
    }
    let length = length_field(byte_at(front, back, 1), byte_at(front, back, 2));
    if length > MOST_LENGTH {
        return Growth::Oversize;
    }
    if have(front, back, 3 + length) {
        Growth::Whole(3 + length)
    } else {
        Growth::Growing
    }
}

fn complete(alloc: Global, here: &[u8], n: usize, out: &mut Vec<Vec<u8>>) -> Result<(), NoMemory>
    requires { n ≤ length here.now }
    ensures { OnOk result
        (map view_bytes out.new.items ≡ map view_bytes out.old.items ++ take n here.now ∷ []) }
{
    let mut section = Vec::with_capacity(alloc, n)?;
    section.extend_from_slice(&here[..n])?;
    out.push(section)?;
    Ok(())
}

/// The payload of a packet that begins no section.
#[inline]
fn goes_on(
    alloc: Global,
    jumped: bool,
    opened: &mut OpenSection,
    payload: &[u8],
    out: &mut Vec<Vec<u8>>,
    counts: &mut Counts,
) -> Result<(), NoMemory>
    ensures done { OnOk result
        (HasDone (rules.goes_on (kept_unless jumped opened.old) payload.now counts.old) opened.new
        (map view_bytes out.old.items) (map view_bytes out.new.items) counts.new) }
    ensures memory { OnErr result
        (HasOut (rules.goes_on (kept_unless jumped opened.old) payload.now counts.old)) }
    ensures err { OnErr result ((opened.new ≡ opened.old) × (counts.new ≡ counts.old)) }
{
    let Some(bytes) = opened.bytes_unless(jumped) else {
        counts.orphans = up(counts.orphans);
        opened.close();
        return Ok(());
    };
    match growth_with(bytes, payload) {
        Growth::Growing => {
            opened.grow(payload);
            Ok(())
        }
        Growth::Oversize => {
            counts.oversize = up(counts.oversize);
            opened.close();
            Ok(())
        }
        Growth::Whole(n) => {
            let index = out.len();
            opened.hand_over(alloc, payload, n, index, out)?;
            Ok(())
        }
    }
}

/// Ends the open section with the bytes before a packet's first section. The answer is its length
/// if it is complete; else it is counted.
fn closes(opened: Option<&[u8]>, part: &[u8], counts: &mut Counts) -> Option<usize>
    ensures closed { rules.closes (option_copied opened.entry) part.now counts.old
        ≡ record {
          opened = None;
          out = section_of (bytes_of (option_copied opened.entry) ++ part.now)
              result;
          counts = counts.new;
        } }
    ensures whole { ForSome result (λ n. IsWhole (option_copied opened.entry) part.now n) }
{
    let Some(opened) = opened else {
        return None;
    };
    match growth_with(opened, part) {
        Growth::Growing => {
            counts.cut = up(counts.cut);
            None
        }
        Growth::Oversize => {
            counts.oversize = up(counts.oversize);
            None
        }
        Growth::Whole(n) => Some(n),
    }
}

fn has_no_section(here: &[u8]) -> bool
    ensures { result ≡ no_section_in here.now }
{
    here.is_empty() || here[0] == STUFFING
}

/// The sections that begin in a packet. Complete ones become candidates; the answer is the bytes of
/// the one that stays open.
fn open_sections<'a>(
    alloc: Global,
    mut here: &'a [u8],
    out: &mut Vec<Vec<u8>>,
    counts: &mut Counts,
) -> Result<Option<&'a [u8]>, NoMemory>
    requires { length here.now ≤ PACKET_LENGTH }
    ensures done { IfOk result (λ opened.
        HasDone (open_all here.now counts.old) (option_copied opened) (map view_bytes out.old.items)
        (map view_bytes out.new.items) counts.new) }
    ensures room { IfOk result (λ opened.
        ForSome opened (λ bytes. length bytes.now ≤ MOST_SECTION)) }
    ensures memory { OnErr result (0 < length (open_all here.now counts.old).out) }
    ensures err { OnErr result (counts.new ≡ counts.old) }
{
    while !has_no_section(here) {
        match growth_with(&[], here) {
            Growth::Growing => return Ok(Some(here)),
            Growth::Oversize => {
                counts.oversize = up(counts.oversize);
                return Ok(None);
            }
            Growth::Whole(n) => {
                complete(alloc, here, n, out)?;
                here = &here[n..];
            }
        }
    }
    Ok(None)
}

/// The open section with `part`, if `whole` says that it is complete, and the sections after it.
#[inline]
fn begins(
    alloc: Global,
    opened: &mut OpenSection,
    part: &[u8],
    whole: Option<usize>,
    here: &[u8],
    out: &mut Vec<Vec<u8>>,
    counts: &mut Counts,
) -> Result<(), NoMemory>
    requires few { length here.now ≤ PACKET_LENGTH }
    requires whole { ForSome whole (λ n. IsWhole opened.old part.now n) }
    ensures done { OnOk result
        (HasDone (begun_by opened.old part.now whole here.now counts.old) opened.new
        (map view_bytes out.old.items) (map view_bytes out.new.items) counts.new) }
    ensures memory { OnErr result
        (HasOut (begun_by opened.old part.now whole here.now counts.old)) }
    ensures err { OnErr result (opened.new ≡ opened.old) }
{
    let index = out.len();
    let left = open_sections(alloc, here, out, counts)?;
    match whole {
        None => {
            opened.begin(left);
            Ok(())
        }
        Some(n) => {
            opened.hand_over(alloc, part, n, index, out)?;
            opened.begin(left);
            Ok(())
        }
    }
}

/// The payload of a packet that begins a section, after a pointer field.
#[inline]
fn starts(
    alloc: Global,
    jumped: bool,
    opened: &mut OpenSection,
    payload: &[u8],
    out: &mut Vec<Vec<u8>>,
    counts: &mut Counts,
) -> Result<(), NoMemory>
    requires { (0 < length payload.now) × (length payload.now ≤ 184) }
    ensures done { OnOk result
        (HasDone (rules.starts (kept_unless jumped opened.old) payload.now counts.old) opened.new
        (map view_bytes out.old.items) (map view_bytes out.new.items) counts.new) }
    ensures memory { OnErr result
        (HasOut (rules.starts (kept_unless jumped opened.old) payload.now counts.old)) }
    ensures err { OnErr result ((opened.new ≡ opened.old) × (counts.new ≡ counts.old)) }
{
    let pointer = usize::from(payload[0]);
    if pointer >= payload.len() {
        counts.bad_pointer = up(counts.bad_pointer);
        opened.close();
        return Ok(());
    }
    let part = &payload[1..1 + pointer];
    let here = &payload[1 + pointer..];
    let before = *counts;
    let whole = closes(opened.bytes_unless(jumped), part, counts);
    match begins(alloc, opened, part, whole, here, out, counts) {
        Ok(()) => Ok(()),
        Err(fault) => {
            *counts = before;
            Err(fault)
        }
    }
}

#[inline]
pub fn payload_done(
    alloc: Global,
    start: bool,
    jumped: bool,
    opened: &mut OpenSection,
    payload: &[u8],
    out: &mut Vec<Vec<u8>>,
    counts: &mut Counts,
) -> Result<(), NoMemory>
    requires { (0 < length payload.now) × (length payload.now ≤ 184) }
    ensures done { OnOk result
        (HasDone (done_by start (kept_unless jumped opened.old) payload.now counts.old) opened.new
        (map view_bytes out.old.items) (map view_bytes out.new.items) counts.new) }
    ensures memory { OnErr result
        (HasOut (done_by start (kept_unless jumped opened.old) payload.now counts.old)) }
    ensures err { OnErr result ((opened.new ≡ opened.old) × (counts.new ≡ counts.old)) }
{
    if start {
        starts(alloc, jumped, opened, payload, out, counts)
    } else {
        goes_on(alloc, jumped, opened, payload, out, counts)
    }
}
