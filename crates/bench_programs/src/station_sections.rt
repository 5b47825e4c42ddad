// The sections of one batch, by two workers at once and by one.
ghost use Rattle.std.specs.Prelude.{◌≡◌, ◌≤◌, length, IfOk};
ghost use Rattle.std.specs.Arc.{arc_value};
ghost use Rattle.generation.specs.Layouts.{AreItemsOf};

use cycle_planner::{GREATEST_ID, Item, Weigh};
use generation::Generation;
use generation_catalogue::{Batch, Catalogue};
use oc_bytes::{Blob, NoMemory};
use path_tree::{Edit, Path};
use section_workers::{NoGate, encode_batch};
use std::alloc::{AllocError, Global};
use std::thread::Threads;

/// How many files there are to be sent.
const FILES: u32 = 64;
/// How many bytes each file has.
const FILE: usize = 64_000;
/// How many items the batch has: the DSI, the DII, and blocks of 4,066 bytes.
const ITEMS: u32 = 1024;

/// The edits that put all the files.
fn puts(alloc: Global) -> Result<Vec<Edit>, NoMemory> {
    let content = Blob::new(alloc, vec![in alloc; 7; FILE]?)?;
    let mut edits = Vec::new(alloc);
    for file in 0..FILES {
        let text = format!(in alloc; "/{file}")?;
        if let Ok(path) = Path::parse(alloc, text.as_bytes()) {
            edits.push(Edit::Put(path, content.share()?))?;
        }
    }
    Ok(edits)
}

/// The first items of a carousel that has the files.
fn first_batch(alloc: Global) -> Result<Batch, NoMemory>
    ensures count { IfOk result (λ b. length b.items.items ≤ 1024) }
    ensures items { IfOk result (λ b. AreItemsOf (arc_value b.generation) b.items.items) }
{
    let call = Box::new(
        alloc,
        |_id: u16| -> u8
            ensures { result ≡ 1 }
        { 1 },
    )?;
    let weigh = Weigh::new([1; GREATEST_ID], call);
    let mut catalogue = Catalogue::new(alloc, 1, weigh)?;
    let _answer = catalogue.commit(0, puts(alloc)?);
    match catalogue.draw(ITEMS) {
        Ok(batch) => Ok(batch),
        Err(_) => Err(AllocError),
    }
}

/// How many bytes these sections have.
fn bytes_of(sections: &[Vec<u8>]) -> u64 {
    let mut bytes = 0u64;
    for section in sections {
        bytes = bytes.wrapping_add(section.len() as u64);
    }
    bytes
}

/// The section of each item, in order, one after another.
fn encode_alone(
    alloc: Global,
    generation: &Generation,
    items: &[Item],
) -> Result<Vec<Vec<u8>>, NoMemory>
    requires { AreItemsOf generation.now items.now }
{
    let mut sections = Vec::with_capacity(alloc, items.len())?;
    for item in items {
        sections.push(generation.section(*item)?)?;
    }
    Ok(sections)
}

/// How many bytes the sections of the items have, which two workers make so many times over.
fn bytes_by_two<R: Threads + Sync>(
    rt: &R,
    alloc: Global,
    generation: &Generation,
    items: &[Item],
    rounds: u32,
) -> Result<u64, NoMemory>
    requires count { length items.now ≤ 1024 }
    requires items { AreItemsOf generation.now items.now }
{
    let mut bytes = 0u64;
    for _ in 0..rounds {
        let sections = encode_batch(rt, alloc, generation, items, &NoGate)?;
        bytes = bytes.wrapping_add(bytes_of(&sections));
    }
    Ok(bytes)
}

/// How many bytes the sections of the items have, which one worker makes so many times over.
fn bytes_alone(
    alloc: Global,
    generation: &Generation,
    items: &[Item],
    rounds: u32,
) -> Result<u64, NoMemory>
    requires { AreItemsOf generation.now items.now }
{
    let mut bytes = 0u64;
    for _ in 0..rounds {
        let sections = encode_alone(alloc, generation, items)?;
        bytes = bytes.wrapping_add(bytes_of(&sections));
    }
    Ok(bytes)
}

/// How many bytes the sections of the batch have, which two workers at once make so many times
/// over.
pub fn made_by_two<R: Threads + Sync>(rt: &R, alloc: Global, rounds: u32) -> Result<u64, NoMemory> {
    let batch = first_batch(alloc)?;
    bytes_by_two(rt, alloc, &batch.generation, &batch.items, rounds)
}

/// How many bytes the sections of the batch have, which one worker makes so many times over.
pub fn made_alone(alloc: Global, rounds: u32) -> Result<u64, NoMemory> {
    let batch = first_batch(alloc)?;
    bytes_alone(alloc, &batch.generation, &batch.items, rounds)
}
