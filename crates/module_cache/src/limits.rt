//! The limits of a receiver.

ghost use Rattle.std.specs.Prelude.{◌≡◌, ◌==◌, ◌≤◌, nat_le};
ghost use Rattle.dsi_dii.specs.Controls.{view_dii};
ghost use Rattle.std.specs.List.{list_all, list_any, sum_by};
ghost use Rattle.module_cache.specs.Joining as limits;

use block_assembler::MOST_MODULE_SIZE;
use ddb_block::{MOST_BLOCK_SIZE, MOST_BLOCKS, block_count};
use dsi_dii::{Dii, MOST_TOTAL_SIZE, ModuleLine};

/// A module of at most [`MOST_MODULE_SIZE`] bytes and [`MOST_BLOCKS`] blocks.
fn is_small(block_size: u16, line: &ModuleLine) -> bool
    requires { 1 ≤ block_size }
    ensures { result ≡ limits.is_small block_size line.now }
{
    line.size <= MOST_MODULE_SIZE && block_count(line.size, block_size) <= MOST_BLOCKS
}

/// Each module is small.
fn are_small(block_size: u16, lines: &[ModuleLine]) -> bool
    requires { 1 ≤ block_size }
    ensures { result ≡ list_all (limits.is_small block_size) lines.now }
{
    lines.iter().all(|line| is_small(block_size, line))
}

/// A line of this module is among these.
fn has_id(lines: &[ModuleLine], id: u16) -> bool
    ensures { result ≡ list_any (λ k. k.id == id) lines.now }
{
    lines.iter().any(|line| line.id == id)
}

/// No module stands twice in the lines.
fn each_once(lines: &[ModuleLine]) -> bool
    ensures { result ≡ limits.no_id_twice lines.now }
{
    for (i, line) in lines.iter().enumerate() {
        if has_id(&lines[i + 1..], line.id) {
            return false;
        }
    }
    true
}

/// The modules have at most so many bytes together.
pub(crate) fn fit_into(most: u32, lines: &[ModuleLine]) -> bool
    ensures { result ≡ nat_le (sum_by (λ l. l.size) lines.now) most }
{
    let mut left = most;
    for line in lines {
        if line.size > left {
            return false;
        }
        left -= line.size;
    }
    true
}

/// The modules of a DII can be received. Blocks have 1 to [`MOST_BLOCK_SIZE`] bytes. Each module
/// has at most [`MOST_MODULE_SIZE`] bytes and [`MOST_BLOCKS`] blocks, and all of them have at most
/// [`MOST_TOTAL_SIZE`] bytes. No module is listed twice.
pub fn is_within(dii: &Dii) -> bool
    ensures { result ≡ limits.is_within (view_dii dii.now) }
{
    dii.block_size >= 1
        && dii.block_size <= MOST_BLOCK_SIZE
        && are_small(dii.block_size, &dii.modules)
        && fit_into(MOST_TOTAL_SIZE, &dii.modules)
        && each_once(&dii.modules)
}
