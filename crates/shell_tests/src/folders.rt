//! Folders that aren't in memory.

use crate::failing::{run_once, words};
use carousel_shell::Status;
use folder_store::{EntryKind, FolderEntry, FolderFault, Folders, MemStore, TreeFault};
use generation_catalogue::Refusal;
use oc_bytes::{MemSink, MemSource, NoMemory};
use std::alloc::Global;
use std::test::Fail;

/// A folder with 2,224 files of 65,493 bytes. With the 44 bytes before them each is an object of
/// 65,537 bytes, which has a module of its own. What stands in the folder isn't known.
#[derive(Drop)]
struct ManyFiles;

impl ManyFiles {
    fn entries(alloc: Global) -> Result<Vec<FolderEntry>, NoMemory> {
        let mut entries = Vec::new(alloc);
        for number in 0..2_224u32 {
            entries.push(FolderEntry {
                name: format!(in alloc; "{number}")?,
                kind: EntryKind::File,
            })?;
        }
        Ok(entries)
    }
}

impl Folders for ManyFiles {
    ghost use Rattle.std.specs.Prelude.{None, false};

    ghost tree = { λ f. None };

    ghost faults = { λ f. 0 };

    ghost strayed = { λ f. false };

    ghost refused = { λ f. None };

    fn list(&mut self, alloc: Global, _path: &str) -> Result<Vec<FolderEntry>, FolderFault> {
        match ManyFiles::entries(alloc) {
            Ok(entries) => Ok(entries),
            Err(_) => Err(FolderFault::NoMemory),
        }
    }

    fn read(&mut self, alloc: Global, _path: &str, _most: usize) -> Result<Vec<u8>, FolderFault> {
        let mut bytes = Vec::new(alloc);
        match bytes.resize(65_493, 0) {
            Ok(()) => Ok(bytes),
            Err(_) => Err(FolderFault::NoMemory),
        }
    }

    fn faults(&self) -> u64 {
        0
    }
}

#[test]
fn trees_that_are_too_large_are_refused(rt: HostRuntime) -> Result<(), Fail> {
    let alloc = rt.alloc();
    let words = words(alloc, "publish F 1 1")?;
    let mut source = MemSource::new(Vec::new(alloc), Vec::new(alloc), 1);
    let mut sink = MemSink::new(alloc, Vec::new(alloc), 100);
    let mut store = MemStore::new(alloc, Vec::new(alloc));
    let status = run_once(
        alloc,
        &words,
        &mut source,
        &mut sink,
        &mut ManyFiles,
        &mut store,
    )?;
    assert_eq!(rt; sink.written(), b"".as_slice());
    let line = status.line(alloc)?.ok_or("no line")?;
    assert_eq!(rt;
        line.as_str(),
        "carousel: tree refused: too-many-modules 2225"
    );
    assert!(rt;
        matches!(
            status,
            Status::TreeRefused(TreeFault::Commit(Refusal::TooManyModules(2225)))
        )
    );
    Ok(())
}
