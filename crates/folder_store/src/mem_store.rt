ghost use Rattle.std.specs.Prelude.{◌≡◌, ◌≤◌, ◌+◌, ◌++◌, ◌==◌, ◌∷◌, ◌↔◌, ◌⊎◌, [], Some, true, false, length, option_map, Contains, IfSome, IfErr, OnOk, OnErr, IsErrOf};
ghost use Rattle.std.specs.List.{list_any};
ghost use Rattle.std.specs.Option.{option_copied};
ghost use Rattle.oc_bytes.specs.Outcome.{cap_at_u64, Faulted};
ghost use Rattle.folder_store.specs.Folders.{AFile, AFolder, MayFail, content_of, entry_at, is_folder_at, is_name_text};
ghost use Rattle.folder_store.specs.Stores.{can_add, has_parent, tree_stored, view_stood, with_entries};
ghost use Rattle.folder_store.specs.Stores as stores;

use crate::memory::below;
use crate::store::{Store, StoreFault};
use oc_bytes::{Blob, NoMemory};
use std::alloc::Global;

#[derive(Drop)]
pub(crate) enum Stood {
    File(Blob),
    Folder,
}

/// The calls, some of which fail as planned.
#[derive(Drop)]
struct Calls {
    fail_at: Vec<u64>,
    made: u64,
    failed: u64,
}

/// A store in memory as [`Store`], some calls of which fail as planned.
///
/// The calls numbered in `fail_at`, from 0 over both kinds, fail; only they count as faults. A call
/// also fails if its path is taken or lacks the folder above; a single name always has one. Paths
/// compare byte for byte.
#[derive(Drop)]
pub struct MemStore {
    entries: Vec<(String, Stood)>,
    calls: Calls,
}

impl Calls {
    fn begin(&mut self) -> Result<(), StoreFault>
        ensures plan { self.new.fail_at ≡ self.old.fail_at }
        ensures made { self.new.made ≡ cap_at_u64 (self.old.made + 1) }
        ensures later { self.old.failed ≤ self.new.failed }
        ensures err { IfErr result (λ e.
            (e ≡ StoreFault.Failed)
            × Contains self.old.fail_at.items self.old.made
            × (self.new.failed ≡ cap_at_u64 (self.old.failed + 1))) }
        ensures ok { OnOk result ((Contains self.old.fail_at.items self.old.made → ⊥)
            × (self.new.failed ≡ self.old.failed)) }
    {
        let call = self.made;
        self.made = self.made.saturating_add(1);
        if self.fail_at.contains(&call) {
            self.failed = self.failed.saturating_add(1);
            return Err(StoreFault::Failed);
        }
        Ok(())
    }
}

impl MemStore {
    ghost use Rattle.folder_store.specs.Stocks.{stored_in, store_plan, store_calls, store_faults};

    /// An empty store before its first call.
    pub fn new(alloc: Global, fail_at: Vec<u64>) -> MemStore
        ensures empty { stored_in result ≡ [] }
        ensures fresh { (store_calls result ≡ 0) × (store_faults result ≡ 0) }
        ensures plan { store_plan result ≡ fail_at.items }
    {
        MemStore {
            entries: Vec::new(alloc),
            calls: Calls {
                fail_at,
                made: 0,
                failed: 0,
            },
        }
    }

    /// How many files and folders were written.
    pub fn count(&self) -> usize
        ensures { result ≡ length (stored_in self.now) }
    {
        self.entries.len()
    }

    /// The bytes of a file that was written.
    pub fn content(&self, path: &str) -> Option<&[u8]>
        ensures { option_copied result ≡ content_of (entry_at (stored_in self.now) path.now) }
    {
        match stood_at(&self.entries, path) {
            Some(Stood::File(content)) => Some(content.bytes()),
            Some(Stood::Folder) => None,
            None => None,
        }
    }

    /// Whether a folder was made.
    pub fn is_folder(&self, path: &str) -> bool
        ensures { result ≡ is_folder_at (stored_in self.now) path.now }
    {
        match stood_at(&self.entries, path) {
            Some(Stood::Folder) => true,
            Some(Stood::File(_)) => false,
            None => false,
        }
    }
}

impl Store for MemStore {
    ghost use Rattle.folder_store.specs.Stocks.{stored_in, store_plan, store_calls, store_faults, NextStoreFails};

    ghost tree = { λ s. Some (stored_in s) };

    ghost faults = { λ s. store_faults s };

    fn make_folder(&mut self, alloc: Global, path: &str) -> Result<(), StoreFault>
        // What `Store` promises:
        ensures made { OnOk result
            (Some (stored_in self.new)
            ≡ with_entries (Some (stored_in self.old)) ((path.now, AFolder) ∷ [])) }
        ensures free { OnOk result
            (IfSome (Some (stored_in self.old)) (λ t. can_add t path.now ≡ true)) }
        ensures err { OnErr result (Some (stored_in self.new) ≡ Some (stored_in self.old)) }
        ensures later { store_faults self.old ≤ store_faults self.new }
        ensures cause { IsErrOf result StoreFault.Failed
            → MayFail (Faulted store_faults self.old self.new) (Some (stored_in self.old)) (λ t.
            can_add t path.now ≡ false) }
        // The plan of failures:
        ensures planned { IsErrOf result StoreFault.Failed
            ↔ (NextStoreFails self.old ⊎ (can_add (stored_in self.old) path.now ≡ false)) }
        ensures counted { NextStoreFails self.old
            → store_faults self.new ≡ cap_at_u64 (store_faults self.old + 1) }
        ensures alone { (NextStoreFails self.old → ⊥)
            → store_faults self.new ≡ store_faults self.old }
        ensures numbered { store_calls self.new ≡ cap_at_u64 (store_calls self.old + 1) }
        ensures plan { store_plan self.new ≡ store_plan self.old }
    {
        self.calls.begin()?;
        if !can_stand(&self.entries, path) {
            return Err(StoreFault::Failed);
        }
        Ok(push(alloc, &mut self.entries, path, Stood::Folder)?)
    }

    fn write_new(&mut self, alloc: Global, path: &str, bytes: &[u8]) -> Result<(), StoreFault>
        // What `Store` promises:
        ensures written { OnOk result
            (Some (stored_in self.new)
            ≡ with_entries (Some (stored_in self.old)) ((path.now, AFile bytes.now) ∷ [])) }
        ensures free { OnOk result
            (IfSome (Some (stored_in self.old)) (λ t. can_add t path.now ≡ true)) }
        ensures err { OnErr result (Some (stored_in self.new) ≡ Some (stored_in self.old)) }
        ensures later { store_faults self.old ≤ store_faults self.new }
        ensures cause { IsErrOf result StoreFault.Failed
            → MayFail (Faulted store_faults self.old self.new) (Some (stored_in self.old)) (λ t.
            can_add t path.now ≡ false) }
        // The plan of failures:
        ensures planned { IsErrOf result StoreFault.Failed
            ↔ (NextStoreFails self.old ⊎ (can_add (stored_in self.old) path.now ≡ false)) }
        ensures counted { NextStoreFails self.old
            → store_faults self.new ≡ cap_at_u64 (store_faults self.old + 1) }
        ensures alone { (NextStoreFails self.old → ⊥)
            → store_faults self.new ≡ store_faults self.old }
        ensures numbered { store_calls self.new ≡ cap_at_u64 (store_calls self.old + 1) }
        ensures plan { store_plan self.new ≡ store_plan self.old }
    {
        self.calls.begin()?;
        if !can_stand(&self.entries, path) {
            return Err(StoreFault::Failed);
        }
        let content = Blob::new(alloc, Vec::from_slice(alloc, bytes)?)?;
        Ok(push(alloc, &mut self.entries, path, Stood::File(content))?)
    }

    fn faults(&self) -> u64 {
        self.calls.failed
    }
}

fn push(
    alloc: Global,
    entries: &mut Vec<(String, Stood)>,
    path: &str,
    stood: Stood,
) -> Result<(), NoMemory>
    ensures ok { OnOk result
        (tree_stored entries.new.items
        ≡ tree_stored entries.old.items ++ (path.now, view_stood stood) ∷ []) }
    ensures err { OnErr result (tree_stored entries.new.items ≡ tree_stored entries.old.items) }
{
    let text = String::from_str(alloc, path)?;
    entries.push((text, stood))?;
    Ok(())
}

fn stood_at<'a>(entries: &'a [(String, Stood)], path: &str) -> Option<&'a Stood>
    ensures { option_map (λ s. view_stood s.now) result
        ≡ entry_at (tree_stored entries.now) path.now }
{
    for (text, stood) in entries {
        if text.as_str() == path {
            return Some(stood);
        }
    }
    None
}

fn can_stand(entries: &[(String, Stood)], path: &str) -> bool
    ensures { result ≡ can_add (tree_stored entries.now) path.now }
{
    stood_at(entries, path).is_none() && has_parent_in(entries, path)
}

/// Whether the folder above a path is there; a single name always has one.
fn has_parent_in(entries: &[(String, Stood)], path: &str) -> bool
    ensures { result ≡ has_parent (tree_stored entries.now) path.now }
{
    is_one_name(path) || has_folder_above(entries, path)
}

fn has_folder_above(entries: &[(String, Stood)], path: &str) -> bool
    ensures { result ≡ list_any (stores.is_parent path.now) (tree_stored entries.now) }
{
    entries
        .iter()
        .any(|(text, stood)| is_parent(text.as_str(), stood, path))
}

fn is_parent(text: &str, stood: &Stood, path: &str) -> bool
    ensures { result ≡ stores.is_parent path.now (text.now, view_stood stood.now) }
{
    match stood {
        Stood::File(_) => false,
        Stood::Folder => match below(text, path) {
            Some(name) => is_one_name(name),
            None => false,
        },
    }
}

fn is_one_name(text: &str) -> bool
    ensures { result ≡ is_name_text text.now }
{
    !holds_slash(text.as_bytes())
}

fn holds_slash(bytes: &[u8]) -> bool
    ensures { result ≡ list_any (λ b. b == 47) bytes.now }
{
    bytes.iter().any(|byte| *byte == b'/')
}
