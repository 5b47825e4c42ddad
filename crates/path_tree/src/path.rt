ghost use Rattle.path_tree.specs.Paths.{path_cmp, same_name};
ghost use Rattle.std.specs.Prelude.{◌≡◌, ◌≤◌, ◌<◌, length, take, slice_get, option_map, Some, Ok, IfOk, OnErr, IsSome, IsOk, IsErrOf};
ghost use Rattle.std.specs.Slice.Iter.{iter_rest};

use crate::text::{MOST_NAMES, is_path_name, push_name, read_names, write_name};
use oc_bytes::NoMemory;
use std::alloc::{AllocError, AllocFailed, Global};
use std::cmp::Ordering;
use std::marker::Model;
use std::sync::Arc;
use std::{fmt, slice};
use thiserror::Error;

/// A name in a folder's listing: 0 to 255 bytes of any value. Those of a `Path` are narrower.
#[derive(Debug, Drop)]
pub struct Name {
    bytes: Vec<u8>,
}

impl Model for Name {
    ghost use Rattle.std.specs.Prelude.{List, ℕ, length, ◌≤◌};

    ghost Value = { List ℕ };

    ghost view = { λ n. n.bytes.items };

    ghost invariant = { λ n. length n.bytes.items ≤ 255 };
}

impl Name {
    /// The name of these bytes, at most 255.
    pub fn new(bytes: Vec<u8>) -> Name
        requires { length bytes.items ≤ 255 }
        ensures { result ≡ bytes.items }
    {
        Name { bytes }
    }

    /// The name's bytes, 0 to 255.
    pub fn bytes(&self) -> &[u8]
        ensures { result.now ≡ self.now }
    {
        &self.bytes
    }

    /// A name of the same bytes. `Err` is out of memory.
    pub fn copy(&self) -> Result<Name, NoMemory>
        ensures { IfOk result (λ name. name ≡ self.now) }
    {
        Ok(Name {
            bytes: Vec::from_slice(*self.bytes.allocator(), &self.bytes)?,
        })
    }
}

fn compare_names(own: &[Name], others: &[Name]) -> Ordering
    ensures { result ≡ path_cmp own.now others.now }
{
    for i in 0..own.len().min(others.len()) {
        match own[i].bytes().cmp(&others[i].bytes()) {
            Ordering::Equal => {}
            decided => return decided,
        }
    }
    own.len().cmp(&others.len())
}

pub(crate) fn same_bytes(name: &[u8], other: &[u8]) -> bool
    ensures { result ≡ same_name name.now other.now }
{
    name == other
}

/// Why a text is no path.
#[derive(Debug, Drop, Error)]
pub enum PathFault {
    /// The text doesn't begin with `/` (the number is 0), or one of its first 16 names isn't
    /// allowed: it is empty, has more than 254 bytes, has a `%` without two hexadecimal digits, or
    /// holds a byte zero or `/` once unescaped. The number is the place of the name's first byte.
    #[error("no path: the name at byte {0} is not allowed")]
    BadName(usize),
    /// The text has a seventeenth name.
    #[error("the path has more than 16 names")]
    TooDeep,
    /// There is no memory.
    #[error("out of memory")]
    NoMemory,
}

impl From<AllocError> for PathFault {
    ghost use Rattle.std.specs.Prelude.{◌≡◌};
    ghost use Rattle.path_tree.specs.declared.path.PathFault.TheVariants.{NoMemory};

    ghost from_gives = { λ _ e. e ≡ NoMemory };

    fn from(_error: AllocError) -> PathFault {
        PathFault::NoMemory
    }
}

impl<T: Drop> From<AllocFailed<T>> for PathFault {
    ghost use Rattle.std.specs.Prelude.{◌≡◌};
    ghost use Rattle.path_tree.specs.declared.path.PathFault.TheVariants.{NoMemory};

    ghost from_gives = { λ _ e. e ≡ NoMemory };

    fn from(_error: AllocFailed<T>) -> PathFault {
        PathFault::NoMemory
    }
}

/// A path below the root: 0 to [`MOST_NAMES`] names, each of 1 to 254 bytes without zero and `/`.
/// The root has no names. Shared paths hold their names in memory once.
#[derive(Debug, Drop)]
pub struct Path {
    names: Arc<Vec<Name>>,
}

impl Model for Path {
    ghost use Rattle.std.specs.Arc.{arc_value};
    ghost use Rattle.path_tree.specs.Paths.{PathNames, IsPath};

    ghost Value = { PathNames };

    ghost view = { λ p. (arc_value p.names).items };

    ghost invariant = { λ p. IsPath (arc_value p.names).items };
}

impl Path {
    ghost use Rattle.oc_bytes.specs.Outcome.{Gives, Spells};
    ghost use Rattle.path_tree.specs.Paths.{IsPath, path_cmp, is_below, same_path, next_name, shared};
    ghost use Rattle.path_tree.specs.Texts.{path_of, text_of, text_cause, with_below};
    ghost use Rattle.std.specs.String.{string_bytes};

    /// Reads a path's text: `/` is the root, else `/` comes before each name.
    ///
    /// In a name `%` and two hexadecimal digits of either case are a byte, and any other byte is
    /// itself. The first fault from the left counts, before memory.
    pub fn parse(alloc: Global, text: &[u8]) -> Result<Path, PathFault>
        ensures reads { Gives (λ p. p) text_cause result (path_of text.now) }
        ensures no_memory { IsErrOf result PathFault.NoMemory → IsOk (path_of text.now) }
    {
        let names = match text {
            b"/" => Vec::new(alloc),
            [b'/', ..] => read_names(alloc, text)?,
            _ => return Err(PathFault::BadName(0)),
        };
        Ok(Path {
            names: Arc::new(alloc, names)?,
        })
    }

    /// The number of names, 0 to [`MOST_NAMES`].
    pub fn len(&self) -> usize
        ensures names { result ≡ length self.now }
        ensures path { IsPath self.now }
    {
        self.names.len()
    }

    /// Name number `i`, counted from 0 at the root's side.
    pub fn name(&self, i: usize) -> &[u8]
        requires { i < length self.now }
        ensures { slice_get self.now i ≡ Some result.now }
    {
        self.names[i].bytes()
    }

    /// The names, from the root's side.
    pub fn iter(&self) -> slice::Iter<'_, Name>
        ensures { iter_rest result ≡ self.now }
    {
        self.names.iter()
    }

    /// The same path; no name is copied. `Err` is out of memory.
    pub fn share(&self) -> Result<Path, NoMemory>
        ensures { IfOk result (λ p. p ≡ self.now) }
    {
        Ok(Path {
            names: Arc::try_clone(&self.names)?,
        })
    }

    /// The path of the first `names` names. `Err` is out of memory.
    pub fn above(&self, names: usize) -> Result<Path, NoMemory>
        requires { names ≤ length self.now }
        ensures { IfOk result (λ p. p ≡ take names self.now) }
    {
        let alloc = *self.names.allocator();
        let mut front = Vec::with_capacity(alloc, names)?;
        for name in &self.names[..names] {
            front.push(name.copy()?)?;
        }
        Ok(Path {
            names: Arc::new(alloc, front)?,
        })
    }

    /// The path of one name more. `None` if a path can't have the name (empty, over 254 bytes, with
    /// a byte zero or `/`) or has sixteen already. `Err` is out of memory.
    pub fn below(&self, name: &[u8]) -> Result<Option<Path>, NoMemory>
        ensures below { IfOk result (λ below. below ≡ with_below self.now name.now) }
        ensures no_memory { OnErr result (IsSome (with_below self.now name.now)) }
    {
        if !is_path_name(name) || self.names.len() >= MOST_NAMES {
            return Ok(None);
        }
        let alloc = *self.names.allocator();
        let mut names = Vec::with_capacity(alloc, self.names.len() + 1)?;
        for own in self.names.iter() {
            names.push(own.copy()?)?;
        }
        names.push(Name::new(Vec::from_slice(alloc, name)?))?;
        Ok(Some(Path {
            names: Arc::new(alloc, names)?,
        }))
    }

    /// Compares in the order of paths: the first names that differ decide, by bytes, else the fewer
    /// names come first.
    pub fn compare(&self, other: &Path) -> Ordering
        ensures { result ≡ path_cmp self.now other.now }
    {
        compare_names(&self.names, &other.names)
    }

    /// `compare`, for the first `own` names of this path and the first `others` of the other.
    pub fn compare_first(&self, own: usize, other: &Path, others: usize) -> Ordering
        requires own { own ≤ length self.now }
        requires others { others ≤ length other.now }
        ensures { result ≡ path_cmp (take own self.now) (take others other.now) }
    {
        compare_names(&self.names[..own], &other.names[..others])
    }

    /// How many first names both paths share.
    pub fn shared_names(&self, other: &Path) -> usize
        ensures shared { result ≡ shared self.now other.now }
        ensures within { result ≤ length self.now }
        ensures within_other { result ≤ length other.now }
    {
        let (own, others) = (self.names.as_slice(), other.names.as_slice());
        let least = own.len().min(others.len());
        for i in 0..least {
            if !same_bytes(own[i].bytes(), others[i].bytes()) {
                return i;
            }
        }
        least
    }

    /// Whether another path has the same names.
    pub fn is_same(&self, other: &Path) -> bool
        ensures { result ≡ same_path self.now other.now }
    {
        self.compare(other).is_eq()
    }

    /// Whether another path is below this one.
    pub fn is_above(&self, other: &Path) -> bool
        ensures { result ≡ is_below self.now other.now }
    {
        let (own, others) = (self.names.as_slice(), other.names.as_slice());
        if others.len() <= own.len() {
            return false;
        }
        for i in 0..own.len() {
            if !same_bytes(own[i].bytes(), others[i].bytes()) {
                return false;
            }
        }
        true
    }

    /// The name that leads from this path to another below it.
    pub fn next_below<'a>(&self, other: &'a Path) -> Option<&'a Name>
        ensures { option_map (λ name. name.now) result ≡ next_name self.now other.now }
    {
        if self.is_above(other) {
            Some(&other.names[self.names.len()])
        } else {
            None
        }
    }

    /// The path's text, which `parse` reads back. Bytes 0x21 to 0x7E except `%` and `/` are
    /// themselves, others `%` and two upper case hexadecimal digits. `Err` is out of memory.
    pub fn print(&self) -> Result<String, NoMemory>
        ensures text { Spells result (text_of self.now) }
        ensures parses { IfOk result (λ text. path_of (string_bytes text) ≡ Ok self.now) }
    {
        let alloc = *self.names.allocator();
        if self.names.is_empty() {
            return String::from_str(alloc, "/");
        }
        let mut text = String::new(alloc);
        for name in self.names.iter() {
            push_name(&mut text, name.bytes())?;
        }
        Ok(text)
    }
}

impl fmt::Display for Path {
    ghost use Rattle.std.specs.Prelude.{Some};
    ghost use Rattle.path_tree.specs.Texts.{text_of};

    ghost output = { λ p. Some (text_of p) };

    /// The text that `print` gives.
    fn fmt<W: fmt::Write>(&self, f: &mut fmt::Formatter<W>) -> fmt::Result {
        if self.names.is_empty() {
            return f.write_char('/');
        }
        for name in self.names.iter() {
            write_name(f, name.bytes())?;
        }
        Ok(())
    }
}
