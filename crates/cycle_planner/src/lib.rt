//! The order of a cycle's items: what a broadcaster sends before it begins again.
//!
//! Each module has a weight, 1 to [`GREATEST_WEIGHT`]. A cycle is the DSI and then rounds, as many
//! as the greatest weight among its modules. A round is the DIIs, by rising group, and then the
//! blocks of each module whose weight is above the number of earlier rounds, by rising id and
//! block. Group 1 and each group of a module has a DII. ISO/IEC 13818-6 leaves order and repetition
//! to the broadcaster; both are this project's own here.
//!
//! A line is a module's id, 1 to [`GREATEST_ID`], and its number of blocks, at most
//! [`ddb_block::MOST_BLOCKS`].
//!
//! ```
//! use cycle_planner::{GREATEST_ID, Item, Walk, Weigh, cycle_len, item_at};
//!
//! let call = Box::new(alloc, |_id: u16| -> u8 ensures { result ≡ 1 } { 1u8 })?;
//! let weigh = Weigh::new([1; GREATEST_ID], call);
//! let lines = [(1, 1), (2, 2)];
//! assert_eq!(rt; cycle_len(&lines, &weigh), 5);
//! assert_eq!(rt; item_at(&lines, &weigh, 3), Item::Block(2, 0));
//! let mut walk = Walk::new(&lines, &weigh);
//! assert_eq!(rt; walk.next(&lines, &weigh), Some(Item::Dsi));
//! ```
#![tactic(auto)]

ghost use Rattle.std.specs.Prelude.{◌≡◌, ◌≤◌, ◌<◌, max, Some, length, slice_get};
ghost use Rattle.cycle_planner.specs.Cycle.{cycle_of, round, AreLines, SendsEach};
ghost use Rattle.cycle_planner.specs.Rounds.{blocks_in_round};
ghost use Rattle.module_groups.specs.declared.TheConstants.{GREATEST_ID};

mod diis;
mod limits;
mod place;
mod walk;
mod weigh;

use diis::dii_count;
pub use limits::limits_are_numbers;
pub use module_groups::GREATEST_ID;
pub use walk::Walk;
pub use weigh::{Call, GREATEST_WEIGHT, Weigh};

/// What one section of a cycle carries.
#[derive(Clone, Copy, Debug, PartialEq, Eq)]
pub enum Item {
    /// The DownloadServerInitiate, which names the service gateway.
    Dsi,
    /// A DownloadInfoIndication, by its group ([`module_groups::group_of`]), 1 to 16.
    Dii(u16),
    /// A module's id and a block's number, from 0.
    Block(u16, u16),
}

/// The most items that one draw takes.
pub const MOST_DRAWN: u32 = 1_048_576;

/// How many items a cycle has. There is a line, and ids rise. Takes no memory.
pub fn cycle_len(lines: &[(u16, u32)], weigh: &Weigh) -> u64
    requires { AreLines lines.now }
    ensures len { result ≡ length (cycle_of weigh.now.weights lines.now) }
    ensures each { SendsEach weigh.now.weights lines.now }
{
    let mut rounds = 0;
    let mut items = 1;
    for line in lines {
        let weight = u64::from(weigh.of(line.0));
        rounds = greater(rounds, weight);
        items += weight * u64::from(line.1);
    }
    items + rounds * dii_count(lines)
}

/// The item at a place, from 0 and below `cycle_len`. Takes no memory; earlier rounds and modules
/// are passed over whole.
pub fn item_at(lines: &[(u16, u32)], weigh: &Weigh, at: u64) -> Item
    requires lines { AreLines lines.now }
    requires below { at < length (cycle_of weigh.now.weights lines.now) }
    ensures { slice_get (cycle_of weigh.now.weights lines.now) at ≡ Some result }
{
    let mut walk = Walk::at(lines, weigh, at);
    walk.next(lines, weigh).unwrap()
}

fn greater(first: u64, second: u64) -> u64
    ensures { result ≡ max first second }
{
    if first < second { second } else { first }
}

/// All, or none.
fn blocks_in(line: &(u16, u32), weigh: &Weigh, number: u8) -> u64
    requires { (1 ≤ line.now.0) × (line.now.0 ≤ GREATEST_ID) }
    ensures { result ≡ length (blocks_in_round weigh.now.weights number line.now) }
{
    if number < weigh.of(line.0) {
        u64::from(line.1)
    } else {
        0
    }
}

/// How many items a round has.
fn round_len(lines: &[(u16, u32)], weigh: &Weigh, number: u8) -> u64
    requires { AreLines lines.now }
    ensures { result ≡ length (round weigh.now.weights lines.now number) }
{
    let mut items = dii_count(lines);
    for line in lines {
        items += blocks_in(line, weigh, number);
    }
    items
}
