ghost use Rattle.std.specs.Prelude.{◌≡◌, ◌<◌, ◌≤◌, ◌+◌, List, ℕ, Option, length, map, Some, IfOk, IfErr, IsErr, IsSome, option_and_then, slice_get};
ghost use Rattle.std.specs.List.{find};
ghost use Rattle.std.specs.Option.{option_map};
ghost use Rattle.path_tree.specs.Paths.{same_name};
ghost use Rattle.biop_object.specs.Objects.{view_binding, Object};
ghost use Rattle.biop_object.specs.Inner.Index.{view_kind, view_index};
ghost use Rattle.biop_object.specs.Labels.{is_first_in};
ghost use Rattle.biop_object.specs.ObjectReading.{found_shape, found_from, names_of, binding_in, shape_bindings};

use crate::labelled::{HasLabel, Labelled};
use crate::reading::read_index;
use ior_tap::Ior;
use oc_bytes::NoMemory;
use path_tree::Name;
use std::alloc::Global;
use std::marker::Model;

/// Where a file's content is in its module.
#[derive(Clone, Copy, Debug, PartialEq, Eq)]
pub struct Span {
    /// The offset of its first byte.
    pub first: usize,
    /// The number of bytes.
    pub length: usize,
}

/// One binding of a folder.
#[derive(Drop)]
pub struct Binding {
    /// The name component's id without one zero at its end, 0 to 255 bytes.
    pub name: Name,
    /// The name component's kind as it is read, 0 to 255 bytes.
    pub kind: Vec<u8>,
    /// The reference to the object.
    pub target: Ior,
}

impl HasLabel for Binding {
    ghost label = { λ b. b.name };

    fn label(&self) -> &[u8] {
        self.name.bytes()
    }
}

/// What a module has under a key.
#[derive(Clone, Copy, Debug, PartialEq, Eq)]
pub enum Found {
    /// A file, with the place of its content.
    File(Span),
    /// A directory or gateway, by its number among the objects, from 0; see [`Module::bindings`].
    Folder(usize),
    /// An object of another kind.
    Other,
    /// No object before this offset has this key; the message there doesn't read.
    Bad(usize),
    /// The module reads to its end, and no object has this key.
    Missing,
}

#[derive(Drop)]
pub(crate) enum Kind {
    File(Span),
    Folder(Labelled<Binding>),
    Other,
}

impl Kind {
    fn found(&self, number: usize) -> Found
        ensures { result ≡ found_shape number (view_kind self.now) }
    {
        match self {
            Kind::File(span) => Found::File(*span),
            Kind::Folder(_) => Found::Folder(number),
            Kind::Other => Found::Other,
        }
    }
}

/// An object: its key, 0 to 255 bytes, and what it is.
#[derive(Drop)]
pub(crate) struct Indexed {
    pub(crate) key: Vec<u8>,
    pub(crate) kind: Kind,
}

impl HasLabel for Indexed {
    ghost label = { λ object. object.key.items };

    fn label(&self) -> &[u8] {
        &self.key
    }
}

/// The bytes of a module, with the index of its objects: BIOP messages back to back, up to the end
/// or to the first that doesn't read (ISO/IEC 13818-6, clause 11.3.2; ETSI TR 101 202, clause
/// 4.7.4).
#[derive(Drop)]
pub struct Module {
    bytes: Vec<u8>,
    index: Labelled<Indexed>,
    stop: Option<usize>,
}

impl Model for Module {
    ghost use Rattle.std.specs.Prelude.{List, ℕ};

    ghost Value = { List ℕ };

    ghost use Rattle.biop_object.specs.Inner.Index.{view_index};
    ghost use Rattle.biop_object.specs.Inner.ModuleFacts.{IsIndexed};

    ghost view = { λ m. m.bytes.items };

    // The index is the reading of the bytes.
    ghost invariant = { λ m. IsIndexed m.bytes.items (view_index m.index) m.stop };
}

fn find_in(index: &Labelled<Indexed>, stop: Option<usize>, key: &[u8]) -> Found
    ensures found { result ≡ found_from 0 key.now (view_index index.now) stop }
    ensures folder { (k : ℕ)
        → result ≡ Found.Folder k
        → IsSome (option_and_then (λ (o : Object). shape_bindings o.shape)
        (slice_get (view_index index.now) k)) }
{
    match (index.first(key), stop) {
        (Some(number), _) => index.items()[number].kind.found(number),
        (None, Some(place)) => Found::Bad(place),
        (None, None) => Found::Missing,
    }
}

fn bindings_at(index: &[Indexed], folder: usize) -> &Labelled<Binding>
    requires below { folder < length index.now }
    requires folder { IsSome (option_and_then (λ (o : Object). shape_bindings o.shape)
        (slice_get (view_index index.now) folder)) }
    ensures { option_and_then (λ (o : Object). shape_bindings o.shape)
        (slice_get (view_index index.now) folder) ≡ Some (map view_binding result.now) }
{
    match &index[folder].kind {
        Kind::Folder(bindings) => bindings,
        _ => unreachable!(),
    }
}

fn first_named<'a>(bindings: &'a Labelled<Binding>, name: &[u8]) -> Option<&'a Binding>
    ensures { option_map (λ b. view_binding b.now) result
        ≡ find (λ b. same_name name.now b.name) (map view_binding bindings.now) }
{
    let place = bindings.first(name)?;
    Some(&bindings.items()[place])
}

fn stands_first(bindings: &Labelled<Binding>, i: usize) -> bool
    requires { i < length bindings.now }
    ensures { result ≡ is_first_in (names_of (Some (map view_binding bindings.now))) i }
{
    bindings.first(bindings.items()[i].label()) == Some(i)
}

impl Module {
    ghost use Rattle.biop_object.specs.Objects.{ReadsModule, BeginsFramed};
    ghost use Rattle.biop_object.specs.ObjectReading.{index_of, found_of, bindings_of};
    ghost use Rattle.biop_object.specs.declared.module.Span.{Span};

    /// Reads the index of a module, in time and memory in proportion to its size.
    ///
    /// `Err` is out of memory, with the bytes. A message that breaks a rule only ends the index, as
    /// [`Module::find`] tells.
    pub fn read(alloc: Global, bytes: Vec<u8>) -> Result<Module, (NoMemory, Vec<u8>)>
        ensures ok { IfOk result (λ m. m ≡ bytes.items) }
        ensures err { IfErr result (λ e. e.1 ≡ bytes) }
        ensures memory { IsErr result → BeginsFramed bytes.items }
        // The one reading of the bytes:
        ensures reads { IfOk result (λ m. ReadsModule 0 m (index_of m).0 (index_of m).1) }
        ensures only { (objects : List Object) (stop : Option ℕ)
            → ReadsModule 0 bytes.items objects stop
            → IfOk result (λ m. (objects, stop) ≡ index_of m) }
    {
        match read_index(alloc, &bytes) {
            Ok(index) => Ok(Module {
                bytes,
                index: index.objects,
                stop: index.stop,
            }),
            Err(fault) => Err((fault, bytes)),
        }
    }

    /// The module's bytes.
    pub fn bytes(&self) -> &[u8]
        ensures { result.now ≡ self.now }
    {
        &self.bytes
    }

    /// The module's bytes, given away without a copy.
    pub fn into_bytes(self) -> Vec<u8>
        ensures { result.items ≡ self }
    {
        self.bytes
    }

    /// What the first object of this key is. It takes no memory, and reads no message again.
    pub fn find(&self, key: &[u8]) -> Found
        ensures found { result ≡ found_of self.now key.now }
        // What `bindings` asks of its caller:
        ensures folder { (k : ℕ) → result ≡ Found.Folder k → IsSome (bindings_of self.now k) }
        ensures inside { (span : Span)
            → result ≡ Found.File span
            → span.first + span.length ≤ length self.now }
    {
        find_in(&self.index, self.stop, key)
    }

    /// A folder's bindings in the message's order; `folder` is a number that [`Module::find`] gave.
    pub fn bindings(&self, folder: usize) -> &[Binding]
        requires { IsSome (bindings_of self.now folder) }
        ensures { bindings_of self.now folder ≡ Some (map view_binding result.now) }
    {
        self.folder(folder).items()
    }

    /// The first binding of this name, found by halves; `folder` is as for [`Module::bindings`].
    pub fn binding(&self, folder: usize, name: &[u8]) -> Option<&Binding>
        requires { IsSome (bindings_of self.now folder) }
        ensures { option_map (λ b. view_binding b.now) result
            ≡ binding_in name.now (bindings_of self.now folder) }
    {
        first_named(self.folder(folder), name)
    }

    /// Whether binding `i`, from 0, is the first of its name, found by halves; `folder` is as for
    /// [`Module::bindings`].
    pub fn is_first(&self, folder: usize, i: usize) -> bool
        requires folder { IsSome (bindings_of self.now folder) }
        requires below { i < length (names_of (bindings_of self.now folder)) }
        ensures { result ≡ is_first_in (names_of (bindings_of self.now folder)) i }
    {
        stands_first(self.folder(folder), i)
    }

    fn folder(&self, folder: usize) -> &Labelled<Binding>
        requires { IsSome (bindings_of self.now folder) }
        ensures { bindings_of self.now folder ≡ Some (map view_binding result.now) }
    {
        bindings_at(self.index.items(), folder)
    }
}
