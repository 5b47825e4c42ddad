//! Whether a DII may be held beside others.

ghost use Rattle.std.specs.Prelude.{◌≡◌, ◌==◌, map};
ghost use Rattle.std.specs.List.{list_any, sum_by};
ghost use Rattle.dsi_dii.specs.Controls.{view_dii};
ghost use Rattle.module_cache.specs.Joining as joining;
ghost use Rattle.module_cache.specs.Joining.{outline_held, is_there};
ghost use Rattle.module_cache.specs.Inner.Joining.{left_of};
ghost use Rattle.dsi_dii.specs.declared.TheConstants.{MOST_TOTAL_SIZE};

use crate::limits::fit_into;
use crate::stored::Line;
use crate::tuned::Tuned;
use dsi_dii::{Dii, MOST_TOTAL_SIZE, ModuleLine};

/// A DII of this identification is held.
fn has_identification(held: &[Tuned], identification: u16) -> bool
    ensures { result ≡ list_any (λ t. t.identification == identification) held.now }
{
    held.iter().any(|t| t.identification() == identification)
}

/// A DII of this one's identification is held, so that this one can't join. Takes no memory.
pub fn is_identification_held(held: &[Tuned], dii: &Dii) -> bool
    ensures { result ≡ is_there (map outline_held held.now) (view_dii dii.now) }
{
    has_identification(held, dii.transaction.identification())
}

/// A held DII lists this module.
fn is_listed(held: &[Tuned], id: u16) -> bool
    ensures { result ≡ list_any (λ t. list_any (λ x. x.line.id == id) t.lines) held.now }
{
    held.iter().any(|t| t.lists(id))
}

/// A held DII lists one of these modules.
fn is_any_listed(held: &[Tuned], modules: &[ModuleLine]) -> bool
    ensures { result ≡ list_any
        (λ l. list_any (λ t. list_any (λ x. x.line.id == l.id) t.lines) held.now) modules.now }
{
    modules.iter().any(|l| is_listed(held, l.id))
}

/// No held DII lists a module of this one, as has to be where it joins them. Takes no memory.
pub fn is_apart(held: &[Tuned], dii: &Dii) -> bool
    ensures { result ≡ joining.is_apart (map outline_held held.now) (view_dii dii.now) }
{
    !is_any_listed(held, &dii.modules)
}

/// What these modules leave of so many bytes, where they fit.
fn left_by(most: u32, lines: &[Line]) -> Option<u32>
    ensures { result ≡ left_of most (sum_by (λ x. x.line.size) lines.now) }
{
    let mut left = most;
    for x in lines {
        if x.line.size > left {
            return None;
        }
        left -= x.line.size;
    }
    Some(left)
}

/// What the modules of the held DIIs leave of [`MOST_TOTAL_SIZE`], where they fit.
fn left_by_held(held: &[Tuned]) -> Option<u32>
    ensures { result ≡ left_of MOST_TOTAL_SIZE
        (sum_by (λ t. sum_by (λ x. x.line.size) t.lines) held.now) }
{
    let mut left = MOST_TOTAL_SIZE;
    for tuned in held {
        match left_by(left, tuned.lines()) {
            None => return None,
            Some(less) => left = less,
        }
    }
    Some(left)
}

/// The modules of the held DIIs and of this one have at most [`MOST_TOTAL_SIZE`] bytes together.
/// Takes no memory.
pub fn fits_beside(held: &[Tuned], dii: &Dii) -> bool
    ensures { result ≡ joining.fits_beside (map outline_held held.now) (view_dii dii.now) }
{
    match left_by_held(held) {
        None => false,
        Some(left) => fit_into(left, &dii.modules),
    }
}
