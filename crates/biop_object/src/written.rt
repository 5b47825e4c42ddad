ghost use Rattle.std.specs.Prelude.{◌≡◌, ◌≤◌, ◌<◌, ◌+◌, ◌∷◌, [], ◌++◌, ℕ, length, map, take, IfOk, OnOk, MatchOption, IsErrOf};
ghost use Rattle.std.specs.List.{All, flat_map};
ghost use Rattle.oc_bytes.specs.Outcome.{MakesList};
ghost use Rattle.ior_tap.specs.Iors.{IsLocation, spelling};
ghost use Rattle.module_groups.specs.declared.TheConstants.{GREATEST_ID};
ghost use Rattle.biop_object.specs.Objects.{ReadsObject, IsFile, IsFolder, IsEntry, binding_of, file_spelling, folder_spelling, kind_of, binding_spelling, binding_size, folder_size};
ghost use Rattle.biop_object.specs.Inner.Objects.{biop_prefix};
ghost use Rattle.biop_object.specs.declared.written.ObjectFault.TheVariants.{NoMemory as OutOfMemory};
ghost use Rattle.path_tree.specs.declared.tree.TheConstants.{MOST_CONTENT};

use crate::reading::{DIRECTORY, FILE, GATEWAY, HEAD};
use ior_tap::{Key, Location, put_reference};
use oc_bytes::{NoMemory, Writer};
use path_tree::Name;
use std::alloc::{AllocError, Global};
use thiserror::Error;

/// The most bytes of a folder's message.
pub const MOST_FOLDER_SIZE: u32 = 1_048_576;

/// The bytes of a message's head, up to its size field, which counts those after it.
pub const MESSAGE_HEAD: u32 = 12;

/// The bytes of a file's message before its content.
pub const FILE_FRONT: u32 = 44;

/// The bytes of a folder's message before its bindings.
pub const FOLDER_FRONT: u32 = 34;

/// The bytes of a file's binding besides the name.
pub const FILE_BINDING: u32 = 82;

/// The bytes of a folder's binding besides the name.
pub const FOLDER_BINDING: u32 = 74;

/// A directory below the root, or the root's service gateway.
#[derive(Clone, Copy, Debug, PartialEq, Eq)]
pub enum FolderKind {
    Directory,
    Gateway,
}

impl FolderKind {
    fn name(self) -> &'static [u8]
        ensures { result.now ≡ kind_of self }
    {
        match self {
            FolderKind::Directory => &DIRECTORY,
            FolderKind::Gateway => &GATEWAY,
        }
    }
}

/// What a written binding leads to.
#[derive(Clone, Copy, Debug, PartialEq, Eq)]
pub enum Bound {
    /// A file, with its content's size in bytes.
    File(u64),
    /// A directory.
    Folder,
}

/// A binding to be written.
#[derive(Drop)]
pub struct Written {
    /// The name, 1 to 254 bytes; a zero byte is written after it.
    pub name: Name,
    /// What it leads to.
    pub bound: Bound,
    /// Where that object is: a key of 4 bytes, a module 1 to [`module_groups::GREATEST_ID`].
    pub location: Location,
}

/// Why a folder wasn't written.
#[derive(Clone, Copy, Debug, PartialEq, Eq, Error)]
pub enum ObjectFault {
    /// The message would have more than [`MOST_FOLDER_SIZE`] bytes.
    #[error("the message has more than 1,048,576 bytes")]
    TooLarge,
    /// There is no memory.
    #[error("out of memory")]
    NoMemory,
}

impl From<AllocError> for ObjectFault {
    ghost from_gives = { λ _ e. e ≡ OutOfMemory };

    fn from(_e: AllocError) -> ObjectFault {
        ObjectFault::NoMemory
    }
}

/// The one spelling of a file (ISO/IEC 13818-6, clause 11.3.2.2; ETSI TR 101 202, clause 4.7.4.2).
///
/// The key has 4 bytes, the content at most [`path_tree::MOST_CONTENT`]. The objectInfo is the
/// content's size in 8 bytes; there is no service context. `Err` is out of memory.
#[tactic(auto, using(crate::proofs::Spellings::file_reads))]
pub fn encode_file(alloc: Global, key: &Key, content: &[u8]) -> Result<Vec<u8>, NoMemory>
    requires key { length key.now ≡ 4 }
    requires size { length content.now ≤ MOST_CONTENT }
    ensures spells { MakesList result (file_spelling key.now content.now) }
    ensures size { IfOk result (λ bytes. length bytes.items ≡ FILE_FRONT + length content.now) }
    ensures reads { IfOk result (λ bytes. (at : ℕ) → ReadsObject at bytes.items
        (record { key = key.now; shape = IsFile (at + FILE_FRONT) (length content.now) })) }
{
    let bytes = file_bytes(alloc, key, content)?;
    Ok(bytes)
}

fn file_bytes(alloc: Global, key: &Key, content: &[u8]) -> Result<Vec<u8>, NoMemory>
    requires key { length key.now ≡ 4 }
    requires size { length content.now ≤ MOST_CONTENT }
    ensures { MakesList result (file_spelling key.now content.now) }
{
    let length = content.len() as u32;
    let info = u64::from(length).to_be_bytes();
    let mut out = Writer::new(alloc);
    put_front(&mut out, key.bytes(), &FILE, &info, 4 + length)?;
    out.put_u32(length)?;
    out.put_bytes(content)?;
    Ok(out.done())
}

/// The one spelling of a folder (ISO/IEC 13818-6, clause 11.3.2.2; ETSI TR 101 202, clauses 4.7.4.1
/// and 4.7.4.3).
///
/// The key has 4 bytes. The bindings keep the order of the entries, each with the tap of its
/// module. The objectInfo is empty; there is no service context.
#[tactic(auto, using(crate::proofs::Spellings::folder_length, crate::proofs::Spellings::folder_reads))]
pub fn encode_folder(
    alloc: Global,
    kind: FolderKind,
    key: &Key,
    entries: &[Written],
) -> Result<Vec<u8>, ObjectFault>
    // What callers give:
    requires key { length key.now ≡ 4 }
    requires entries { All IsEntry entries.now }
    // What is written:
    ensures spells { IfOk result (λ bytes.
        (bytes.items ≡ folder_spelling kind key.now entries.now)
        × (length bytes.items ≤ MOST_FOLDER_SIZE)) }
    ensures size { IfOk result (λ bytes. length bytes.items ≡ folder_size entries.now) }
    ensures reads { IfOk result (λ bytes. (at : ℕ) → ReadsObject at bytes.items
        (record { key = key.now; shape = IsFolder (map binding_of entries.now) })) }
    // When each error comes:
    ensures too_large { IsErrOf result ObjectFault.TooLarge
        → MOST_FOLDER_SIZE < length (folder_spelling kind key.now entries.now) }
    ensures large { MOST_FOLDER_SIZE < length (folder_spelling kind key.now entries.now)
        → IsErrOf result ObjectFault.TooLarge }
    ensures no_memory { IsErrOf result ObjectFault.NoMemory
        → length (folder_spelling kind key.now entries.now) ≤ MOST_FOLDER_SIZE }
{
    let Some(size) = size_of(entries) else {
        return Err(ObjectFault::TooLarge);
    };
    let bytes = folder_bytes(alloc, kind, key, entries, size)?;
    Ok(bytes)
}

#[tactic(auto, using(crate::proofs::Spellings::few_entries, crate::proofs::Spellings::folder_is))]
fn folder_bytes(
    alloc: Global,
    kind: FolderKind,
    key: &Key,
    entries: &[Written],
    size: u32,
) -> Result<Vec<u8>, NoMemory>
    // What callers give:
    requires key { length key.now ≡ 4 }
    requires entries { All IsEntry entries.now }
    requires size { size ≡ folder_size entries.now }
    requires small { size ≤ MOST_FOLDER_SIZE }
    // What is written:
    ensures spells { MakesList result (folder_spelling kind key.now entries.now) }
    ensures room { OnOk result (All (λ w. IsLocation w.location) entries.now) }
{
    let mut out = Writer::new(alloc);
    put_front(
        &mut out,
        key.bytes(),
        kind.name(),
        &[],
        size - MESSAGE_HEAD - 20,
    )?;
    out.put_u16(entries.len() as u16)?;
    put_bindings(&mut out, entries)?;
    Ok(out.done())
}

/// The size in bytes, if it is within the limit.
fn size_of(entries: &[Written]) -> Option<u32>
    requires { All IsEntry entries.now }
    ensures { MatchOption result (MOST_FOLDER_SIZE < folder_size entries.now) (λ size.
        (size ≡ folder_size entries.now) × (size ≤ MOST_FOLDER_SIZE)) }
{
    let mut size = FOLDER_FRONT;
    for entry in entries {
        size += size_of_binding(entry);
        if size > MOST_FOLDER_SIZE {
            return None;
        }
    }
    Some(size)
}

fn size_of_binding(entry: &Written) -> u32
    requires { IsEntry entry.now }
    ensures size { result ≡ binding_size entry.now }
    ensures small { result ≤ 336 }
{
    let name = entry.name.bytes().len() as u32;
    match entry.bound {
        Bound::File(_) => name + FILE_BINDING,
        Bound::Folder => name + FOLDER_BINDING,
    }
}

/// What comes before the body of a message.
fn put_front(
    out: &mut Writer,
    key: &[u8],
    kind: &[u8],
    info: &[u8],
    body_length: u32,
) -> Result<(), NoMemory>
    requires key { length key.now ≡ 4 }
    requires kind { length kind.now ≡ 4 }
    requires info { length info.now ≤ 8 }
    requires body { body_length ≤ 4 + MOST_CONTENT }
    ensures { OnOk result (out.new ≡ out.old ++ biop_prefix key.now kind.now info.now body_length) }
{
    out.put_u64(HEAD)?;
    out.put_u32(20 + info.len() as u32 + body_length)?;
    out.put_u8(4)?;
    out.put_bytes(key)?;
    out.put_u32(4)?;
    out.put_bytes(kind)?;
    out.put_u16(info.len() as u16)?;
    out.put_bytes(info)?;
    out.put_u8(0)?;
    out.put_u32(body_length)?;
    Ok(())
}

fn put_bindings(out: &mut Writer, entries: &[Written]) -> Result<(), NoMemory>
    requires { All IsEntry entries.now }
    ensures put { OnOk result (out.new ≡ out.old ++ flat_map binding_spelling entries.now) }
    ensures room { OnOk result (All (λ w. IsLocation w.location) entries.now) }
{
    for entry in entries {
        put_binding(out, entry)?;
    }
    Ok(())
}

#[tactic(auto, using(crate::proofs::Spellings::file_parts, crate::proofs::Spellings::folder_parts))]
fn put_binding(out: &mut Writer, entry: &Written) -> Result<(), NoMemory>
    requires { IsEntry entry.now }
    ensures put { OnOk result (out.new ≡ out.old ++ binding_spelling entry.now) }
    ensures room { OnOk result (IsLocation entry.now.location) }
{
    put_id(out, entry.name.bytes())?;
    match entry.bound {
        Bound::File(size) => {
            put_target(out, 1, &FILE, &entry.location)?;
            out.put_u16(8)?;
            out.put_u64(size)?;
        }
        Bound::Folder => {
            put_target(out, 2, &DIRECTORY, &entry.location)?;
            out.put_u16(0)?;
        }
    }
    Ok(())
}

/// The one name component: the name and a zero byte, then the kind's length.
fn put_id(out: &mut Writer, name: &[u8]) -> Result<(), NoMemory>
    requires { length name.now ≤ 254 }
    ensures { OnOk result
        (out.new ≡ out.old ++ 1 ∷ (length name.now + 1) ∷ name.now ++ 0 ∷ 4 ∷ []) }
{
    out.put_u8(1)?;
    out.put_u8(name.len() as u8 + 1)?;
    out.put_bytes(name)?;
    out.put_u8(0)?;
    out.put_u8(4)?;
    Ok(())
}

/// The kind, the binding's type, and the reference.
fn put_target(
    out: &mut Writer,
    binding_type: u8,
    kind: &[u8],
    location: &Location,
) -> Result<(), NoMemory>
    requires kind { length kind.now ≡ 4 }
    requires key { length location.now.key ≡ 4 }
    requires listed { (1 ≤ location.now.module) × (location.now.module ≤ GREATEST_ID) }
    ensures put { OnOk result
        (out.new ≡ out.old ++ kind.now ++ binding_type ∷ spelling kind.now location.now) }
    ensures room { OnOk result (IsLocation location.now) }
{
    out.put_bytes(kind)?;
    out.put_u8(binding_type)?;
    put_reference(out, kind, location)?;
    Ok(())
}
