//! The modules of the held DIIs, lent.

ghost use Rattle.std.specs.Prelude.{◌≡◌, ◌==◌, ◌&&◌};
ghost use Rattle.std.specs.List.{find, flat_map, list_any};
ghost use Rattle.std.specs.Option.{option_map};
ghost use Rattle.module_cache.specs.Contents.{bytes_of};
ghost use Rattle.path_resolver.specs.Shots.{view_listed};
ghost use Rattle.tuner_core.specs.Stands.{modules_of};

use module_cache::{Line, Slot, Tuned};
use path_resolver::Listed;

/// One of the DIIs has this identification.
pub fn is_held_in(held: &[Tuned], identification: u16) -> bool
    ensures { result ≡ list_any (λ t. t.identification == identification) held.now }
{
    held.iter().any(|t| t.identification() == identification)
}

/// The module of a line of the DII of this identification.
pub fn lent(identification: u16, line: &Line) -> Listed<'_>
    ensures { view_listed result ≡ record {
      identification = identification;
      line = line.now.line;
      bytes = bytes_of line.now.stored.content;
    } }
{
    let module = match line.stored.slot() {
        Slot::Whole(module) => Some(module),
        _ => None,
    };
    Listed {
        identification,
        line: line.line,
        module,
    }
}

/// The module of this id by one DII.
fn listed_by(tuned: &Tuned, id: u16) -> Option<Listed<'_>>
    ensures { option_map view_listed result ≡ find (λ h. h.line.id == id) (modules_of tuned.now) }
{
    let identification = tuned.identification();
    for line in tuned.lines() {
        if line.line.id == id {
            return Some(lent(identification, line));
        }
    }
    None
}

/// The module of this id by the first of the DIIs that lists it.
pub fn listed_in(held: &[Tuned], id: u16) -> Option<Listed<'_>>
    ensures { option_map view_listed result
        ≡ find (λ h. h.line.id == id) (flat_map modules_of held.now) }
{
    for tuned in held {
        if let Some(listed) = listed_by(tuned, id) {
            return Some(listed);
        }
    }
    None
}

/// The module of this id by the DII of this identification. The lines of other DIIs aren't
/// searched.
pub fn delivered_in(held: &[Tuned], identification: u16, id: u16) -> Option<Listed<'_>>
    ensures { option_map view_listed result
        ≡ find (λ h. (h.identification == identification) && (h.line.id == id))
        (flat_map modules_of held.now) }
{
    for tuned in held {
        if tuned.identification() == identification {
            if let Some(listed) = listed_by(tuned, id) {
                return Some(listed);
            }
        }
    }
    None
}
