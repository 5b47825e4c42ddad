// A commit that puts many files, and later ones that change a small one among them.

use cycle_planner::GREATEST_ID;
use generation_catalogue::Journal;
use oc_bytes::{Blob, NoMemory};
use path_tree::{Edit, Edits, Path};
use std::alloc::Global;

/// How many files there are, how many bytes each has, and how many commits are made.
#[derive(Clone, Copy)]
pub struct Request {
    pub files: u32,
    pub bytes: usize,
    pub commits: u32,
}

/// Puts bytes at a path, if the text is that of a path.
fn put(alloc: Global, edits: &mut Vec<Edit>, text: &[u8], bytes: Vec<u8>) -> Result<(), NoMemory> {
    if let Ok(path) = Path::parse(alloc, text) {
        edits.push(Edit::Put(path, Blob::new(alloc, bytes)?))?;
    }
    Ok(())
}

/// The edit that puts the small file for the time of this number.
fn change(alloc: Global, edits: &mut Vec<Edit>, number: u32) -> Result<(), NoMemory> {
    let bytes = number.to_be_bytes().to_vec(alloc)?;
    put(alloc, edits, b"/small", bytes)
}

/// The edits that put all the files.
fn puts(alloc: Global, request: Request) -> Result<Vec<Edit>, NoMemory> {
    let mut edits = Vec::new(alloc);
    for file in 0..request.files {
        let text = format!(in alloc; "/file{file:05}")?;
        let bytes = vec![in alloc; (file % 256) as u8; request.bytes]?;
        put(alloc, &mut edits, text.as_bytes(), bytes)?;
    }
    change(alloc, &mut edits, 0)?;
    Ok(edits)
}

/// How many commits are accepted.
pub fn accepted(alloc: Global, request: Request) -> Result<u64, NoMemory> {
    let mut journal = Journal::new(alloc, 1, [1; GREATEST_ID])?;
    let mut edits = puts(alloc, request)?;
    for number in 1..request.commits.saturating_add(1) {
        let _answer = journal.commit_edits(0, Edits::new(edits));
        edits = Vec::new(alloc);
        change(alloc, &mut edits, number)?;
    }
    Ok(journal.current().number())
}
