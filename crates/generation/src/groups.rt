//! The modules of a group among those of a generation.

ghost use Rattle.std.specs.Prelude.{◌≡◌, ◌≤◌, length, map};
ghost use Rattle.std.specs.List.{All};
ghost use Rattle.dsi_dii.specs.declared.TheConstants.{MOST_TOTAL_SIZE};
ghost use Rattle.module_groups.specs.Groups as groups;
ghost use Rattle.generation.specs.Groups.{group_in};
ghost use Rattle.generation.specs.View.{IsRising, view_listed};

use crate::made::Listed;
use crate::ordered::{Keys, of_key};
use module_groups::group_of;

/// Modules by their groups.
struct ByGroup;

impl Keys<Listed> for ByGroup {
    ghost key = { λ _ l. groups.group_of l.id };

    fn key(&self, listed: &Listed) -> u128 {
        u128::from(group_of(listed.id))
    }
}

/// The modules of a group, from 1 on. They stand together, since ids rise.
pub(crate) fn group_modules(modules: &[Listed], group: u16) -> &[Listed]
    requires { IsRising (map view_listed modules.now) }
    ensures group { map view_listed result.now ≡ group_in (map view_listed modules.now) group }
    ensures sizes { All (λ l. length l.bytes ≤ MOST_TOTAL_SIZE) modules.now
        → All (λ l. length l.bytes ≤ MOST_TOTAL_SIZE) result.now }
{
    of_key(&ByGroup, modules, u128::from(group))
}
