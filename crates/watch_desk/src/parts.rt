ghost use Rattle.std.specs.Prelude.{◌≡◌, length, is_some};
ghost use Rattle.std.specs.List.{filter};
ghost use Rattle.path_resolver.specs.Shots.{held_of};
ghost use Rattle.watch_desk.specs.Parts as parts;

use dsmcc_section::Table;
use path_resolver::{Held, Shot};

/// How many modules are whole on a shot.
pub fn whole_modules(shot: &Shot) -> usize
    ensures { result ≡ parts.whole_modules (held_of shot.now) }
{
    whole_among(&shot.table)
}

/// How many of these are whole.
fn whole_among(table: &[Held]) -> usize
    ensures { result ≡ length (filter (λ h. is_some h.«module») table.now) }
{
    let mut whole = 0;
    for held in table {
        if is_whole(held) {
            whole += 1;
        }
    }
    whole
}

/// Whether all blocks of a module are there.
fn is_whole(held: &Held) -> bool
    ensures { result ≡ is_some held.now.«module» }
{
    held.module.is_some()
}

/// Whether a candidate's table_id is that of block messages (ISO/IEC 13818-6, the DSM-CC section).
/// Whether it is a section isn't asked.
pub fn is_of_blocks(candidate: &[u8]) -> bool
    ensures { result ≡ parts.is_of_blocks candidate.now }
{
    match candidate.first() {
        Some(id) => matches!(Table::try_from(*id), Ok(Table::Blocks)),
        None => false,
    }
}
