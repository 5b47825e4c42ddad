ghost use Rattle.std.specs.Prelude.{◌≡◌, ◌≤◌, ◌<◌, ◌+◌, ℕ, List, Ok, Err, length, take, drop, map, IfOk, IfErr, IfSome, IsOk, IsErr, IsErrOf, true, false};
ghost use Rattle.oc_bytes.specs.Numbers.{IsBytes};
ghost use Rattle.oc_bytes.specs.Outcome.{Gives};
ghost use Rattle.oc_bytes.specs.Cause.{place_of};
ghost use Rattle.oc_bytes.specs.Cursor.{past, from_start, each_at, skip_reading};
ghost use Rattle.oc_bytes.specs.Grammar.{read, enclosed, four};
ghost use Rattle.ior_tap.specs.Iors as iors;
ghost use Rattle.ior_tap.specs.IorReading.{ior_at};
ghost use Rattle.biop_object.specs.Objects.{drop_zero, IsFile, view_binding, context, binding, shape, heading, message, shape_by};
ghost use Rattle.biop_object.specs.Inner.Objects.{cut_off, framed};
ghost use Rattle.biop_object.specs.Inner.Index.{view_kind, view_heading, view_indexed, view_index, cause};
ghost use Rattle.biop_object.specs.ObjectReading.{object_at, index_of};
ghost use Rattle.biop_object.specs.declared.reading.ReadFault.TheVariants.{Bad, NoMemory as OutOfMemory};

use crate::labelled::Labelled;
use crate::module::{Binding, Indexed, Kind, Span};
use ior_tap::{Ior, IorFault, decode};
use oc_bytes::{Cut, Fields, NoMemory};
use path_tree::Name;
use std::alloc::{AllocError, AllocFailed, Global};

#[derive(Clone, Copy, Debug, PartialEq, Eq)]
pub(crate) enum ReadFault {
    /// The place of the first field that is cut or breaks a rule.
    Bad(usize),
    NoMemory,
}

impl From<Cut> for ReadFault {
    ghost from_gives = { λ cut e. e ≡ Bad cut.0 };

    fn from(Cut(place): Cut) -> ReadFault {
        ReadFault::Bad(place)
    }
}

impl From<AllocError> for ReadFault {
    ghost from_gives = { λ _ e. e ≡ OutOfMemory };

    fn from(_e: AllocError) -> ReadFault {
        ReadFault::NoMemory
    }
}

impl<T: Drop> From<AllocFailed<T>> for ReadFault {
    ghost from_gives = { λ _ e. e ≡ OutOfMemory };

    fn from(_e: AllocFailed<T>) -> ReadFault {
        ReadFault::NoMemory
    }
}

fn ior_of(alloc: Global, fields: &mut Fields<'_>) -> Result<Ior, ReadFault>
    ensures { Gives (λ i. (iors.view i, fields.new)) cause result (ior_at fields.old) }
{
    match decode(alloc, fields.rest()) {
        Ok((ior, count)) => {
            fields.take(count)?;
            Ok(ior)
        }
        Err(IorFault::BadIor(place)) => {
            fields.take(place)?;
            Err(ReadFault::Bad(fields.place()))
        }
        Err(IorFault::NoMemory) => Err(ReadFault::NoMemory),
    }
}

fn without_zero(id: &[u8]) -> &[u8]
    ensures name { result.now ≡ drop_zero id.now }
    ensures short { length result.now ≤ length id.now }
{
    id.strip_suffix(&[0]).unwrap_or(id)
}

#[tactic(auto, unfolding(oc_bytes::specs::Grammar::read))]
fn binding_of(alloc: Global, fields: &mut Fields<'_>) -> Result<Binding, ReadFault>
    ensures { Gives (λ b. (view_binding b, fields.new)) cause result (read binding fields.old) }
{
    fields.this_u8(1)?;
    let id = fields.sized8()?;
    let kind = fields.sized8()?;
    let _binding_type = fields.u8()?;
    let target = ior_of(alloc, fields)?;
    fields.sized16()?;
    let name = Name::new(Vec::from_slice(alloc, without_zero(id))?);
    let kind = Vec::from_slice(alloc, kind)?;
    Ok(Binding { name, kind, target })
}

fn bindings_of(
    alloc: Global,
    fields: &mut Fields<'_>,
    count: u16,
) -> Result<Labelled<Binding>, ReadFault>
    ensures { Gives (λ bindings. (map view_binding bindings, fields.new)) cause result
        (each_at (read binding) count fields.old) }
{
    let mut bindings = Labelled::new(alloc);
    for _ in 0..count {
        let binding = binding_of(alloc, fields)?;
        bindings = bindings.with(alloc, binding)?;
    }
    Ok(bindings)
}

#[tactic(auto, unfolding(oc_bytes::specs::Grammar::read))]
fn folder_of(alloc: Global, fields: &mut Fields<'_>) -> Result<Kind, ReadFault>
    ensures { Gives (λ k. (view_kind k, fields.new)) cause result
        (read (shape_by false true fields.old.place) fields.old) }
{
    let count = fields.u16()?;
    let bindings = bindings_of(alloc, fields, count)?;
    Ok(Kind::Folder(bindings))
}

#[tactic(auto, unfolding(oc_bytes::specs::Grammar::read, oc_bytes::specs::Cursor::sized_at))]
fn file_of(fields: &mut Fields<'_>) -> Result<Span, Cut>
    ensures { Gives (λ span. (IsFile span.first span.length, fields.new)) place_of result
        (read (shape_by true false fields.old.place) fields.old) }
{
    let length = fields.u32()? as usize;
    let first = fields.place();
    fields.take(length)?;
    Ok(Span { first, length })
}

#[tactic(auto, unfolding(oc_bytes::specs::Grammar::read))]
fn pass_context(fields: &mut Fields<'_>) -> Result<(), Cut>
    ensures { Gives (λ _. (tt, fields.new)) place_of result
        (skip_reading (read context fields.old)) }
{
    fields.u32()?;
    fields.sized16()?;
    Ok(())
}

fn pass_contexts(fields: &mut Fields<'_>, count: u8) -> Result<(), Cut>
    ensures { Gives (λ _. (tt, fields.new)) place_of result
        (skip_reading (each_at (read context) count fields.old)) }
{
    for _ in 0..count {
        pass_context(fields)?;
    }
    Ok(())
}

/// The kind of a file.
pub const FILE: [u8; 4] = *b"fil\0";

/// The kind of a folder below the root.
pub const DIRECTORY: [u8; 4] = *b"dir\0";

/// The kind of the root, the gateway.
pub const GATEWAY: [u8; 4] = *b"srg\0";

#[tactic(auto, unfolding(oc_bytes::specs::Grammar::read))]
fn kind_of(alloc: Global, kind: &[u8], fields: &mut Fields<'_>) -> Result<Kind, ReadFault>
    ensures { Gives (λ k. (view_kind k, fields.new)) cause result
        (read (shape kind.now fields.old.place) fields.old) }
{
    if kind == FILE.as_slice() {
        return Ok(Kind::File(file_of(fields)?));
    }
    if kind == DIRECTORY.as_slice() || kind == GATEWAY.as_slice() {
        return folder_of(alloc, fields);
    }
    Ok(Kind::Other)
}

/// A body after its length; all of the length is taken.
#[tactic(auto, using(crate::proofs::Places::body_is))]
fn body_of(alloc: Global, kind: &[u8], fields: &mut Fields<'_>) -> Result<Kind, ReadFault>
    ensures { Gives (λ k. (view_kind k, fields.new)) cause result
        (read (enclosed four (shape kind.now (fields.old.place + 4))) fields.old) }
{
    let length = fields.u32()?;
    let mut body = fields.part(length as usize)?;
    kind_of(alloc, kind, &mut body)
}

#[derive(Drop)]
struct Heading<'a> {
    key: &'a [u8],
    kind: &'a [u8],
}

#[tactic(auto, unfolding(oc_bytes::specs::Grammar::read))]
fn heading_of<'a>(fields: &mut Fields<'a>) -> Result<Heading<'a>, Cut>
    ensures { Gives (λ h. (view_heading h, fields.new)) place_of result (read heading fields.old) }
{
    let key = fields.sized8()?;
    let kind = fields.sized32()?;
    fields.sized16()?;
    let contexts_count = fields.u8()?;
    pass_contexts(fields, contexts_count)?;
    Ok(Heading { key, kind })
}

#[tactic(auto, using(crate::proofs::Places::message_is))]
fn message_of(alloc: Global, fields: &mut Fields<'_>) -> Result<Indexed, ReadFault>
    ensures { Gives (λ i. (view_indexed i, fields.new)) cause result
        (read (message fields.old.place) fields.old) }
{
    let heading = heading_of(fields)?;
    let kind = body_of(alloc, heading.kind, fields)?;
    let key = Vec::from_slice(alloc, heading.key)?;
    Ok(Indexed { key, kind })
}

/// A message after its size; all of the size is taken.
#[tactic(auto, using(crate::proofs::Places::sized_is), unfolding(oc_bytes::specs::Grammar::read))]
fn sized_message_of(alloc: Global, fields: &mut Fields<'_>) -> Result<Indexed, ReadFault>
    ensures reads { Gives (λ i. (view_indexed i, fields.new)) cause result
        (read (enclosed four (message (fields.old.place + 4))) fields.old) }
    ensures memory { IsErrOf result ReadFault.NoMemory → IsOk (read cut_off fields.old) }
    ensures framed { IsOk result → IsOk (read cut_off fields.old) }
{
    let size = fields.u32()?;
    let mut message = fields.part(size as usize)?;
    message_of(alloc, &mut message)
}

/// `BIOP`, version 1.0, byte order 0, message type 0.
pub(crate) const HEAD: u64 = 0x42494F5001000000;

#[tactic(auto, using(crate::proofs::Places::object_is), unfolding(oc_bytes::specs::Grammar::read))]
fn object_of(alloc: Global, fields: &mut Fields<'_>) -> Result<Indexed, ReadFault>
    ensures reads { Gives (λ i. (view_indexed i, fields.new)) cause result (object_at fields.old) }
    ensures memory { IsErrOf result ReadFault.NoMemory → IsOk (read framed fields.old) }
    ensures framed { IsOk result → IsOk (read framed fields.old) }
{
    fields.this_u64(HEAD)?;
    sized_message_of(alloc, fields)
}

/// The objects in order, and the place of the first message that doesn't read.
#[derive(Drop)]
pub(crate) struct Index {
    pub(crate) objects: Labelled<Indexed>,
    pub(crate) stop: Option<usize>,
}

#[tactic(auto, using(oc_bytes::proofs::CallerLemmas::bytes_fit, crate::proofs::Indexing::has_begun))]
pub(crate) fn read_index(alloc: Global, bytes: &[u8]) -> Result<Index, NoMemory>
    ensures index { IfOk result (λ i. (view_index i.objects, i.stop) ≡ index_of bytes.now) }
    ensures fit { IsBytes bytes.now }
    ensures memory { IsErr result → IsOk (read framed (from_start bytes.now)) }
{
    let mut objects = Labelled::new(alloc);
    let mut fields = Fields::new(bytes);
    while !fields.rest().is_empty() {
        let at = fields.place();
        match object_of(alloc, &mut fields) {
            Ok(object) => objects = objects.with(alloc, object)?,
            Err(ReadFault::Bad(_)) => {
                return Ok(Index {
                    objects,
                    stop: Some(at),
                });
            }
            Err(ReadFault::NoMemory) => return Err(AllocError),
        }
    }
    Ok(Index {
        objects,
        stop: None,
    })
}
