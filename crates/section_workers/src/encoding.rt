ghost use Rattle.std.specs.Prelude.{◌≡◌, ◌≤◌, map, length, IfOk};
ghost use Rattle.std.specs.List.{All};
ghost use Rattle.dsmcc_section.specs.Sections.{IsFramed};
ghost use Rattle.generation.specs.Layouts.{section_of, AreItemsOf};

use crate::gate::{Actor, Gate};
use cycle_planner::Item;
use generation::Generation;
use oc_bytes::NoMemory;
use std::alloc::Global;
use std::thread::{Threads, join};

/// The sections of at most 1,024 items of a generation, in order, for streams that are cut by
/// section. Worker 0 makes the lower half, rounded down, and worker 1 the rest. Each passes the
/// gate at step 0, even if its half is empty.
pub fn encode_batch<R: Threads + Sync, G: Gate>(
    rt: &R,
    alloc: Global,
    generation: &Generation,
    items: &[Item],
    gate: &G,
) -> Result<Vec<Vec<u8>>, NoMemory>
    requires count { length items.now ≤ 1024 }
    requires items { AreItemsOf generation.now items.now }
    ensures exact { IfOk result (λ sections.
        map (λ s. s.items) sections.items ≡ map (section_of generation.now) items.now) }
    ensures framed { IfOk result (λ sections. All (λ s. IsFramed s.items) sections.items) }
{
    let (low, high) = items.split_at(items.len() / 2);
    let (first, second) = join(
        rt,
        || -> Result<Vec<Vec<u8>>, NoMemory>
            requires { AreItemsOf generation.now low.now }
            ensures exact { IfOk result (λ sections.
                map (λ s. s.items) sections.items
                ≡ map (section_of generation.entry.now) low.entry.now) }
            ensures framed { IfOk result (λ sections. All (λ s. IsFramed s.items) sections.items) }
        {
            gate.pass(Actor::Worker(0), 0);
            encode(alloc, generation, low, items.len())
        },
        || -> Result<Vec<Vec<u8>>, NoMemory>
            requires { AreItemsOf generation.now high.now }
            ensures exact { IfOk result (λ sections.
                map (λ s. s.items) sections.items
                ≡ map (section_of generation.entry.now) high.entry.now) }
            ensures framed { IfOk result (λ sections. All (λ s. IsFramed s.items) sections.items) }
        {
            gate.pass(Actor::Worker(1), 0);
            encode(alloc, generation, high, high.len())
        },
    );
    let mut sections = first?;
    sections.append(&mut second?)?;
    Ok(sections)
}

fn encode(
    alloc: Global,
    generation: &Generation,
    items: &[Item],
    room: usize,
) -> Result<Vec<Vec<u8>>, NoMemory>
    requires { AreItemsOf generation.now items.now }
    ensures exact { IfOk result (λ sections.
        map (λ s. s.items) sections.items ≡ map (section_of generation.now) items.now) }
    ensures framed { IfOk result (λ sections. All (λ s. IsFramed s.items) sections.items) }
{
    let mut sections = Vec::with_capacity(alloc, room)?;
    for item in items {
        sections.push(generation.section(*item)?)?;
    }
    Ok(sections)
}
