ghost use Rattle.std.specs.Prelude.{◌≡◌, ◌∷◌, ◌++◌, ◌+◌, ◌<◌, ◌≤◌, [], length, drop, MatchOption};
ghost use Rattle.std.specs.List.{flat_map};
ghost use Rattle.module_groups.specs.declared.TheConstants.{MOST_GROUPS};
ghost use Rattle.cycle_planner.specs.Cycle.{AreLines, cycle_of, diis_from, greatest_weight, round as round_of};
ghost use Rattle.cycle_planner.specs.Places.{IsListed, IsPlace, items_from, lines_from, rounds_from};
ghost use Rattle.cycle_planner.specs.Rounds.{blocks_in_round};

use crate::diis::{dii_count, group_after, group_at};
use crate::{Item, Weigh, blocks_in, round_len};

/// Where a walk is in a cycle. Rounds, lines and blocks count from 0, groups from 1.
#[derive(Clone, Copy, Debug)]
pub enum Place {
    /// Before the DSI.
    Start,
    /// Before the DII of a group.
    Dii { round: u8, group: u16 },
    /// Before a block.
    Block { round: u8, line: usize, block: u16 },
    /// After the last round.
    End,
}

/// The item at a place, and the place after it.
#[tactic(auto, using(crate::proofs::Stepping::begins, crate::proofs::Stepping::dii_first, crate::proofs::Stepping::block_first, crate::proofs::Stepping::first_listed, crate::proofs::Order::some_round))]
pub fn step(lines: &[(u16, u32)], weigh: &Weigh, rounds: u8, place: Place) -> Option<(Item, Place)>
    requires lines { AreLines lines.now }
    requires rounds { rounds ≡ greatest_weight weigh.now.weights lines.now }
    requires place { IsPlace weigh.now.weights lines.now place }
    ensures { MatchOption result (items_from weigh.now.weights lines.now place ≡ []) (λ p.
        (items_from weigh.now.weights lines.now place
        ≡ p.0 ∷ items_from weigh.now.weights lines.now p.1)
        × IsPlace weigh.now.weights lines.now p.1) }
{
    match place {
        Place::Start => Some((Item::Dsi, Place::Dii { round: 0, group: 1 })),
        Place::Dii { round, group } => Some((
            Item::Dii(group),
            after_dii(lines, weigh, rounds, round, group),
        )),
        Place::Block { round, line, block } => {
            let (id, blocks) = lines[line];
            let next = if u32::from(block) + 1 < blocks {
                Place::Block {
                    round,
                    line,
                    block: block + 1,
                }
            } else {
                place_from(lines, weigh, rounds, round, line + 1)
            };
            Some((Item::Block(id, block), next))
        }
        Place::End => None,
    }
}

// What is known of the round:
fn after_dii(lines: &[(u16, u32)], weigh: &Weigh, rounds: u8, round: u8, group: u16) -> Place
    requires lines { AreLines lines.now }
    requires rounds { rounds ≡ greatest_weight weigh.now.weights lines.now }
    requires round { round < rounds }
    requires group { group ≤ MOST_GROUPS }
    // Where the walk goes on:
    ensures place { IsPlace weigh.now.weights lines.now result }
    ensures items { items_from weigh.now.weights lines.now result
        ≡ diis_from lines.now (group + 1) ++ lines_from weigh.now.weights lines.now round 0 }
{
    match group_after(lines, group) {
        Some(group) => Place::Dii { round, group },
        None => place_from(lines, weigh, rounds, round, 0),
    }
}

/// The next item's place, from line `from` of a round on.
#[tactic(auto, using(crate::proofs::Stepping::round_begins, crate::proofs::Stepping::first_listed))]
fn place_from(lines: &[(u16, u32)], weigh: &Weigh, rounds: u8, round: u8, from: usize) -> Place
    // What is known of the round:
    requires lines { AreLines lines.now }
    requires rounds { rounds ≡ greatest_weight weigh.now.weights lines.now }
    requires round { round < rounds }
    requires from { from ≤ length lines.now }
    // Where the walk goes on:
    ensures place { IsPlace weigh.now.weights lines.now result }
    ensures items { items_from weigh.now.weights lines.now result
        ≡ lines_from weigh.now.weights lines.now round from }
{
    for line in from..lines.len() {
        if blocks_in(&lines[line], weigh, round) > 0 {
            return Place::Block {
                round,
                line,
                block: 0,
            };
        }
    }
    if round + 1 < rounds {
        Place::Dii {
            round: round + 1,
            group: 1,
        }
    } else {
        Place::End
    }
}

/// The place after `at` items, or the end. What is before it is passed over whole.
pub fn place_at(lines: &[(u16, u32)], weigh: &Weigh, rounds: u8, at: u64) -> Place
    requires lines { AreLines lines.now }
    requires rounds { rounds ≡ greatest_weight weigh.now.weights lines.now }
    ensures place { IsPlace weigh.now.weights lines.now result }
    ensures items { items_from weigh.now.weights lines.now result
        ≡ drop at (cycle_of weigh.now.weights lines.now) }
{
    if at == 0 {
        return Place::Start;
    }
    let mut left = at - 1;
    for round in 0..rounds {
        let items = round_len(lines, weigh, round);
        if left < items {
            return place_in_round(lines, weigh, round, left);
        }
        left -= items;
    }
    Place::End
}

/// `at` counts items of the round.
fn place_in_round(lines: &[(u16, u32)], weigh: &Weigh, round: u8, at: u64) -> Place
    requires lines { AreLines lines.now }
    requires round { round < greatest_weight weigh.now.weights lines.now }
    requires below { at < length (round_of weigh.now.weights lines.now round) }
    ensures place { IsPlace weigh.now.weights lines.now result }
    ensures items { items_from weigh.now.weights lines.now result
        ≡ drop at (rounds_from weigh.now.weights lines.now round) }
{
    let diis = dii_count(lines);
    if at < diis {
        Place::Dii {
            round,
            group: group_at(lines, at),
        }
    } else {
        place_in_lines(lines, weigh, round, at - diis)
    }
}

/// `at` counts blocks of the round.
fn place_in_lines(lines: &[(u16, u32)], weigh: &Weigh, round: u8, at: u64) -> Place
    requires lines { AreLines lines.now }
    requires round { round < greatest_weight weigh.now.weights lines.now }
    requires below { at < length (flat_map (blocks_in_round weigh.now.weights round) lines.now) }
    ensures place { IsPlace weigh.now.weights lines.now result }
    ensures items { items_from weigh.now.weights lines.now result
        ≡ drop at (lines_from weigh.now.weights lines.now round 0) }
{
    let mut left = at;
    for line in 0..lines.len() {
        let blocks = blocks_in(&lines[line], weigh, round);
        if left < blocks {
            return Place::Block {
                round,
                line,
                block: left as u16,
            };
        }
        left -= blocks;
    }
    unreachable!()
}
