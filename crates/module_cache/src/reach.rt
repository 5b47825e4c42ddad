//! The range of ids that lines lie in, so that a DII of other modules isn't searched.

ghost use Rattle.std.specs.Prelude.{◌≡◌, ◌&&◌, nat_le, true, IfSome};
ghost use Rattle.std.specs.List.{list_all};
ghost use Rattle.module_cache.specs.Inner.Reaches.{is_within};

use dsi_dii::ModuleLine;

/// Module ids from one to another, both among them.
#[derive(Clone, Copy)]
pub struct Reach {
    pub least: u16,
    pub greatest: u16,
}

impl Reach {
    /// The id is one of these.
    pub fn has(self, id: u16) -> bool
        ensures { result ≡ (nat_le self.least id && nat_le id self.greatest) }
    {
        self.least <= id && id <= self.greatest
    }
}

/// The line's id is one of these.
fn is_in(reach: Reach, line: &ModuleLine) -> bool
    ensures { result ≡ is_within reach line.now }
{
    reach.has(line.id)
}

/// Each line's id is one of these.
fn are_in(reach: Reach, lines: &[ModuleLine]) -> bool
    ensures { result ≡ list_all (is_within reach) lines.now }
{
    lines.iter().all(|line| is_in(reach, line))
}

/// From the id of the first line to that of the last, if all lie in that range, as in a DII whose
/// ids rise. It only saves time: without it all lines are searched.
pub fn reach_of(lines: &[ModuleLine]) -> Option<Reach>
    ensures { IfSome result (λ r. list_all (is_within r) lines.now ≡ true) }
{
    let reach = Reach {
        least: lines.first()?.id,
        greatest: lines.last()?.id,
    };
    if are_in(reach, lines) {
        Some(reach)
    } else {
        None
    }
}
