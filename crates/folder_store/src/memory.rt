ghost use Rattle.std.specs.Prelude.{◌≡◌, ◌<◌, ◌≤◌, ◌+◌, ◌↔◌, ◌⊎◌, ◌++◌, ◌∷◌, [], ◌==◌, Some, None, true, false, map, is_some, Contains, IfOk, IfErr, OnErr, OnOk, IsErrOf, if◌then◌else◌};
ghost use Rattle.std.specs.Option.{option_copied, option_map};
ghost use Rattle.std.specs.String.{string_bytes};
ghost use Rattle.oc_bytes.specs.Outcome.{cap_at_u64, Faulted};
ghost use Rattle.folder_store.specs.Folders.{after_prefix, content_of, entry_at, is_folder_at, view_entry, IsFolderTree, IsListed, IsRead, IsRefused, MayFail, IsNoFolder, WhereTold};
ghost use Rattle.folder_store.specs.Memory.{AreEntries, entries_in, tree_of, ends_in_slash};
ghost use Rattle.folder_store.specs.Inner.Memory.{file_name, folder_name, files_below, folders_below, with_folder};

use crate::folders::{EntryKind, FolderEntry, FolderFault, Folders, kept_text};
use oc_bytes::{Blob, NoMemory};
use std::alloc::Global;

/// Files and folders in memory as [`Folders`], some calls of which fail as planned.
///
/// The calls numbered in `fail_at`, from 0 over `list` and `read`, fail; only they count as faults.
/// A path that is no folder, or no file, also fails.
#[derive(Drop)]
pub struct MemFolders {
    entries: Vec<(String, Blob)>,
    fail_at: Vec<u64>,
    calls: u64,
    failures: u64,
    strayed: bool,
    refused: Option<String>,
    ghost form: { AreEntries (entries_in entries.items) },
}

impl MemFolders {
    ghost use Rattle.folder_store.specs.Kept.{tree_in, failing_calls, calls_made, calls_failed};

    /// Folders of these entries, before the first call.
    ///
    /// An entry's text is a file's whole path text, its bytes the content. If it ends in `/` it is
    /// a folder, and its bytes are ignored. Each text before a `/` is a folder too, so `a//b` is
    /// the file `b` in a folder without a name. No two files share a text, and no file has a
    /// folder's.
    pub fn new(entries: Vec<(String, Blob)>, fail_at: Vec<u64>) -> MemFolders
        requires { AreEntries (entries_in entries.items) }
        ensures tree { tree_in result ≡ tree_of (entries_in entries.items) }
        ensures lawful { IsFolderTree (tree_in result) }
        ensures fresh { (calls_made result ≡ 0) × (calls_failed result ≡ 0) }
        ensures plan { failing_calls result ≡ fail_at.items }
    {
        MemFolders {
            entries,
            fail_at,
            calls: 0,
            failures: 0,
            strayed: false,
            refused: None,
        }
    }

    /// Counts a call, and fails if that is planned.
    fn begin(&mut self, alloc: Global, path: &str) -> Result<(), FolderFault>
        // What stays:
        ensures entries { self.new.entries ≡ self.old.entries }
        ensures plan { self.new.fail_at ≡ self.old.fail_at }
        ensures strayed { self.new.strayed ≡ self.old.strayed }
        // What is kept of a refusal:
        ensures failed { OnErr result
            (IsRefused (option_map string_bytes self.new.refused) path.now) }
        ensures kept { OnOk result (self.new.refused ≡ self.old.refused) }
        // How calls and failures count:
        ensures made { self.new.calls ≡ cap_at_u64 (self.old.calls + 1) }
        ensures later { self.old.failures ≤ self.new.failures }
        ensures err { IfErr result (λ e.
            (e ≡ FolderFault.Failed)
            × Contains self.old.fail_at.items self.old.calls
            × (self.new.failures ≡ cap_at_u64 (self.old.failures + 1))) }
        ensures ok { OnOk result ((Contains self.old.fail_at.items self.old.calls → ⊥)
            × (self.new.failures ≡ self.old.failures)) }
    {
        let call = self.calls;
        self.calls = self.calls.saturating_add(1);
        if self.fail_at.contains(&call) {
            self.failures = self.failures.saturating_add(1);
            self.refused = kept_text(alloc, path);
            return Err(FolderFault::Failed);
        }
        Ok(())
    }
}

impl Folders for MemFolders {
    ghost use Rattle.folder_store.specs.Kept.{tree_in, failing_calls, calls_made, calls_failed, last_refused, NextCallFails};

    ghost tree = { λ f. Some (tree_in f) };

    ghost faults = { λ f. f.failures };

    ghost strayed = { λ f. f.strayed };

    ghost refused = { last_refused };

    fn list(&mut self, alloc: Global, path: &str) -> Result<Vec<FolderEntry>, FolderFault>
        // What `Folders` promises:
        ensures same { Some (tree_in self.new) ≡ Some (tree_in self.old) }
        ensures entries { IfOk result (λ es.
            WhereTold (Some (tree_in self.old)) (λ t.
            IsListed t path.now (map view_entry es.items))) }
        ensures later { calls_failed self.old ≤ calls_failed self.new }
        ensures cause { IsErrOf result FolderFault.Failed
            → MayFail (Faulted calls_failed self.old self.new) (Some (tree_in self.old))
            (IsNoFolder path.now) }
        ensures owed { WhereTold (Some (tree_in self.old)) (λ t.
            is_folder_at t path.now ≡ true → self.new.strayed ≡ self.old.strayed) }
        ensures strays { WhereTold (Some (tree_in self.old)) (λ t.
            is_folder_at t path.now ≡ false → self.new.strayed ≡ true) }
        ensures failed { IsErrOf result FolderFault.Failed
            → IsRefused (last_refused self.new) path.now }
        ensures kept { (IsErrOf result FolderFault.Failed → ⊥)
            → last_refused self.new ≡ last_refused self.old }
        // The plan of failures:
        ensures planned { IsErrOf result FolderFault.Failed
            ↔ (NextCallFails self.old ⊎ (is_folder_at (tree_in self.old) path.now ≡ false)) }
        ensures counted { NextCallFails self.old
            → calls_failed self.new ≡ cap_at_u64 (calls_failed self.old + 1) }
        ensures alone { (NextCallFails self.old → ⊥)
            → calls_failed self.new ≡ calls_failed self.old }
        ensures made { calls_made self.new ≡ cap_at_u64 (calls_made self.old + 1) }
        ensures plan { failing_calls self.new ≡ failing_calls self.old }
    {
        let is_there = is_folder(&self.entries, path);
        self.strayed = self.strayed || !is_there;
        self.begin(alloc, path)?;
        if !is_there {
            self.refused = kept_text(alloc, path);
            return Err(FolderFault::Failed);
        }
        Ok(listing(alloc, &self.entries, path)?)
    }

    fn read(&mut self, alloc: Global, path: &str, most: usize) -> Result<Vec<u8>, FolderFault>
        // What `Folders` promises:
        ensures same { Some (tree_in self.new) ≡ Some (tree_in self.old) }
        ensures bytes { IfOk result (λ bs.
            WhereTold (Some (tree_in self.old)) (λ t. IsRead t path.now most bs.items)) }
        ensures later { calls_failed self.old ≤ calls_failed self.new }
        ensures cause { IsErrOf result FolderFault.Failed
            → MayFail (Faulted calls_failed self.old self.new) (Some (tree_in self.old)) (λ t.
            content_of (entry_at t path.now) ≡ None) }
        ensures owed { WhereTold (Some (tree_in self.old)) (λ t.
            is_some (content_of (entry_at t path.now)) ≡ true
            → self.new.strayed ≡ self.old.strayed) }
        ensures strays { WhereTold (Some (tree_in self.old)) (λ t.
            content_of (entry_at t path.now) ≡ None → self.new.strayed ≡ true) }
        ensures failed { IsErrOf result FolderFault.Failed
            → IsRefused (last_refused self.new) path.now }
        ensures kept { (IsErrOf result FolderFault.Failed → ⊥)
            → last_refused self.new ≡ last_refused self.old }
        // The plan of failures:
        ensures planned { IsErrOf result FolderFault.Failed
            ↔ (NextCallFails self.old
            ⊎ (content_of (entry_at (tree_in self.old) path.now) ≡ None)) }
        ensures counted { NextCallFails self.old
            → calls_failed self.new ≡ cap_at_u64 (calls_failed self.old + 1) }
        ensures alone { (NextCallFails self.old → ⊥)
            → calls_failed self.new ≡ calls_failed self.old }
        ensures made { calls_made self.new ≡ cap_at_u64 (calls_made self.old + 1) }
        ensures plan { failing_calls self.new ≡ failing_calls self.old }
    {
        let is_there = content_at(&self.entries, path).is_some();
        self.strayed = self.strayed || !is_there;
        self.begin(alloc, path)?;
        let Some(content) = content_at(&self.entries, path) else {
            self.refused = kept_text(alloc, path);
            return Err(FolderFault::Failed);
        };
        Ok(Vec::from_slice(alloc, &content[..most.min(content.len())])?)
    }

    fn faults(&self) -> u64 {
        self.failures
    }
}

/// What follows a folder's text and a slash.
pub(crate) fn below<'a>(path: &str, text: &'a str) -> Option<&'a str>
    ensures { option_copied result ≡ after_prefix (path.now ++ 47 ∷ []) text.now }
{
    text.strip_prefix(path)?.strip_prefix('/')
}

/// The name of the entry `text`, if it is a file directly below the folder.
fn file_below<'a>(path: &str, text: &'a str) -> Option<&'a str>
    ensures { option_copied result
        ≡ (if ends_in_slash text.now then None else file_name
        (after_prefix (path.now ++ 47 ∷ []) text.now)) }
{
    if text.ends_with('/') {
        return None;
    }
    let rest = below(path, text)?;
    match rest.split_once('/') {
        Some(_) => None,
        None => Some(rest),
    }
}

/// The name of the folder directly below that the entry `text` is or is in.
fn folder_below<'a>(path: &str, text: &'a str) -> Option<&'a str>
    ensures { option_copied result ≡ folder_name (after_prefix (path.now ++ 47 ∷ []) text.now) }
{
    let (name, _) = below(path, text)?.split_once('/')?;
    Some(name)
}

/// Whether an entry is the folder or is in it.
fn is_folder(entries: &[(String, Blob)], path: &str) -> bool
    requires { AreEntries (entries_in entries.now) }
    ensures { result ≡ is_folder_at (tree_of (entries_in entries.now)) path.now }
{
    entries
        .iter()
        .any(|(text, _)| below(path, text.as_str()).is_some())
}

fn listing(
    alloc: Global,
    entries: &[(String, Blob)],
    path: &str,
) -> Result<Vec<FolderEntry>, NoMemory>
    requires form { AreEntries (entries_in entries.now) }
    requires folder { is_folder_at (tree_of (entries_in entries.now)) path.now ≡ true }
    ensures { IfOk result (λ es.
        IsListed (tree_of (entries_in entries.now)) path.now (map view_entry es.items)) }
{
    let mut found = list_files(alloc, entries, path)?;
    let mut folders = list_folders(alloc, entries, path)?;
    found.append(&mut folders)?;
    Ok(found)
}

fn list_files(
    alloc: Global,
    entries: &[(String, Blob)],
    path: &str,
) -> Result<Vec<FolderEntry>, NoMemory>
    ensures { IfOk result (λ found.
        map view_entry found.items ≡ files_below path.now (entries_in entries.now)) }
{
    let mut found = Vec::new(alloc);
    for (text, _) in entries {
        if let Some(name) = file_below(path, text.as_str()) {
            found.push(FolderEntry {
                name: String::from_str(alloc, name)?,
                kind: EntryKind::File,
            })?;
        }
    }
    Ok(found)
}

fn list_folders(
    alloc: Global,
    entries: &[(String, Blob)],
    path: &str,
) -> Result<Vec<FolderEntry>, NoMemory>
    ensures { IfOk result (λ found.
        map view_entry found.items ≡ folders_below path.now (entries_in entries.now)) }
{
    let mut found = Vec::new(alloc);
    for (text, _) in entries {
        if let Some(name) = folder_below(path, text.as_str()) {
            add_folder(alloc, &mut found, name)?;
        }
    }
    Ok(found)
}

fn add_folder(alloc: Global, found: &mut Vec<FolderEntry>, name: &str) -> Result<(), NoMemory>
    ensures { OnOk result
        (map view_entry found.new.items ≡ with_folder (map view_entry found.old.items) name.now) }
{
    if !found.iter().any(|entry| entry.name.as_str() == name) {
        found.push(FolderEntry {
            name: String::from_str(alloc, name)?,
            kind: EntryKind::Folder,
        })?;
    }
    Ok(())
}

fn content_at<'a>(entries: &'a [(String, Blob)], path: &str) -> Option<&'a [u8]>
    ensures { option_copied result
        ≡ content_of (entry_at (tree_of (entries_in entries.now)) path.now) }
{
    if path.ends_with('/') {
        return None;
    }
    for (text, content) in entries {
        if text.as_str() == path {
            return Some(content.bytes());
        }
    }
    None
}
