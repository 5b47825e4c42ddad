ghost use Rattle.std.specs.Prelude.{◌≡◌, ◌<◌, ◌≤◌, ◌+◌, ◌++◌, [], Some, None, true, false, IsSome, IfOk, OnOk, OnErr, length, map, take, vec_len, vec_capacity};
ghost use Rattle.std.specs.List.{insert};
ghost use Rattle.std.specs.Option.{option_copied, ForSome};
ghost use Rattle.oc_bytes.specs.Outcome.{MakesList};
ghost use Rattle.section_stream.specs.Kept.{view_bytes};
ghost use Rattle.section_stream.specs.Steps.{kept_unless};
ghost use Rattle.section_stream.specs.Inner.Steps.{bytes_of, IsWhole, Lacks, LacksMore};
ghost use Rattle.section_stream.specs.declared.open_section.TheConstants.{LONG};
ghost use Rattle.oc_bytes.specs.declared.lengths.TheConstants.{MOST_SECTION};

use oc_bytes::{MOST_LENGTH, MOST_SECTION, NoMemory, length_field};
use std::alloc::Global;
use std::marker::Model;
use std::mem::replace;

/// From this length on a section leaves in its own buffer. A shorter one is copied, because no
/// candidate shall keep room for more than twice its bytes.
const LONG: usize = 2_048;

/// The section that is open, if one is. Its buffer holds the longest section, so only `new` and
/// `hand_over` take memory.
#[derive(Drop)]
pub struct OpenSection {
    is_open: bool,
    /// How many bytes are still to come, if the length field has come; else 0.
    missing: usize,
    bytes: Vec<u8>,
}

impl Model for OpenSection {
    ghost use Rattle.std.specs.Prelude.{◌≡◌, ◌≤◌, ◌<◌, ℕ, true, List, Option, Some, None, vec_capacity, vec_len, if◌then◌else◌};
    ghost use Rattle.oc_bytes.specs.declared.lengths.TheConstants.{MOST_SECTION};

    ghost Value = { Option (List ℕ) };

    ghost view = { λ s. if s.is_open then Some s.bytes.items else None };

    ghost use Rattle.section_stream.specs.Inner.Steps.{Lacks};

    ghost invariant = { λ s.
        (vec_len s.bytes ≤ MOST_SECTION) × (MOST_SECTION ≤ vec_capacity s.bytes)
        × (0 < s.missing → (s.is_open ≡ true) × Lacks s.bytes.items s.missing) };
}

impl OpenSection {
    pub fn new(alloc: Global) -> Result<OpenSection, NoMemory>
        ensures { IfOk result (λ s. s ≡ None) }
    {
        Ok(OpenSection {
            is_open: false,
            missing: 0,
            bytes: Vec::with_capacity(alloc, MOST_SECTION)?,
        })
    }

    pub fn copy(&mut self, from: &OpenSection)
        ensures { self.new ≡ from.now }
    {
        self.is_open = from.is_open;
        self.missing = from.missing;
        self.bytes.clear();
        append(&mut self.bytes, &from.bytes);
    }

    /// The bytes so far, unless packets of the section are missing.
    #[inline]
    pub fn bytes_unless(&self, jumped: bool) -> Option<&[u8]>
        ensures { option_copied result ≡ kept_unless jumped self.now }
    {
        if self.is_open && !jumped {
            Some(&self.bytes)
        } else {
            None
        }
    }

    #[inline]
    pub fn close(&mut self)
        ensures { self.new ≡ None }
    {
        self.is_open = false;
        self.missing = 0;
    }

    #[inline]
    pub fn grow(&mut self, more: &[u8])
        requires open { IsSome self.old }
        requires room { length (bytes_of self.old ++ more.now) ≤ MOST_SECTION }
        ensures { self.new ≡ Some (bytes_of self.old ++ more.now) }
    {
        append(&mut self.bytes, more);
        self.missing = missing_of(&self.bytes);
    }

    /// Appends these bytes if the section is known to need more than them.
    #[inline]
    pub fn grow_within(&mut self, more: &[u8]) -> bool
        ensures grown { result ≡ true
            → LacksMore self.old (length more.now)
            × (self.new ≡ Some (bytes_of self.old ++ more.now)) }
        ensures left { result ≡ false → self.new ≡ self.old }
    {
        if self.missing <= more.len() {
            return false;
        }
        append(&mut self.bytes, more);
        self.missing -= more.len();
        true
    }

    /// Opens another section with these bytes, or none.
    #[inline]
    pub fn begin(&mut self, here: Option<&[u8]>)
        requires { ForSome here (λ bytes. length bytes.now ≤ MOST_SECTION) }
        ensures { self.new ≡ option_copied here.entry }
    {
        match here {
            Some(here) => {
                self.is_open = true;
                self.bytes.clear();
                append(&mut self.bytes, here);
                self.missing = missing_of(&self.bytes);
            }
            None => self.close(),
        }
    }

    /// Puts the section of `n` bytes that ends in `more` among the candidates, at `index`.
    pub fn hand_over(
        &mut self,
        alloc: Global,
        more: &[u8],
        n: usize,
        index: usize,
        out: &mut Vec<Vec<u8>>,
    ) -> Result<(), NoMemory>
        requires whole { IsWhole self.old more.now n }
        requires index { index ≤ length out.old.items }
        ensures closed { OnOk result (self.new ≡ None) }
        ensures out { OnOk result
            (map view_bytes out.new.items
            ≡ insert (map view_bytes out.old.items) index
            (take n (bytes_of self.old ++ more.now))) }
        ensures err { OnErr result (self.new ≡ self.old) }
    {
        let spare = spare_for(alloc, n)?;
        out.reserve(1)?;
        let had = self.bytes.len();
        let missing = n.saturating_sub(had);
        let last = &more[..missing];
        append(&mut self.bytes, last);
        self.bytes.truncate(n);
        self.is_open = false;
        self.missing = 0;
        let section = exchange(&mut self.bytes, spare, n);
        // There is room for it, and so it isn't refused.
        let _ = out.insert(index, section);
        Ok(())
    }
}

/// How many bytes these lack to be a section, if they have its length field; else 0.
fn missing_of(bytes: &[u8]) -> usize
    ensures { 0 < result → Lacks bytes.now result }
{
    if bytes.len() < 3 {
        return 0;
    }
    let length = length_field(bytes[1], bytes[2]);
    if length > MOST_LENGTH {
        return 0;
    }
    (3 + length).saturating_sub(bytes.len())
}

/// Room for the copy of a section of `n` bytes, or for the next open one.
fn spare_for(alloc: Global, n: usize) -> Result<Vec<u8>, NoMemory>
    requires { n ≤ MOST_SECTION }
    ensures empty { MakesList result [] }
    ensures room { IfOk result (λ spare. n ≤ vec_capacity spare) }
    ensures longest { IfOk result (λ spare. LONG ≤ n → MOST_SECTION ≤ vec_capacity spare) }
{
    if n < LONG {
        Vec::with_capacity(alloc, n)
    } else {
        Vec::with_capacity(alloc, MOST_SECTION)
    }
}

/// Takes the section out of `bytes`: a short one as a copy in `spare`, a long one by exchange.
fn exchange(bytes: &mut Vec<u8>, spare: Vec<u8>, n: usize) -> Vec<u8>
    // The section and its buffer:
    requires len { vec_len bytes.old ≤ n }
    requires full { MOST_SECTION ≤ vec_capacity bytes.old }
    // The spare buffer:
    requires empty { spare.items ≡ [] }
    requires room { n ≤ vec_capacity spare }
    requires longest { LONG ≤ n → MOST_SECTION ≤ vec_capacity spare }
    // What leaves, and what is left:
    ensures section { result.items ≡ bytes.old.items }
    ensures len { vec_len bytes.new ≤ n }
    ensures full { MOST_SECTION ≤ vec_capacity bytes.new }
{
    if n < LONG {
        let mut copy = spare;
        append(&mut copy, bytes);
        copy
    } else {
        replace(bytes, spare)
    }
}

/// Appends bytes for which there is room.
fn append(bytes: &mut Vec<u8>, more: &[u8])
    requires { vec_len bytes.old + length more.now ≤ vec_capacity bytes.old }
    ensures items { bytes.new.items ≡ bytes.old.items ++ more.now }
    ensures capacity { vec_capacity bytes.old ≤ vec_capacity bytes.new }
{
    // It takes no memory, and so isn't refused.
    let _ = bytes.extend_from_slice(more);
}
