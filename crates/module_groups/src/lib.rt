//! Which of a carousel's DIIs lists a module.
//!
//! A DII is one section, so a larger carousel has several (ETSI TR 101 202, clause 4.7 leaves the
//! choice open). Here [`GROUP_SIZE`] ids in a row, from 1 on, form a group. Each group with modules
//! has a DII, the first always. This rule and [`MOST_GROUPS`] are this project's own.
//!
//! ```
//! use module_groups::group_of;
//!
//! assert_eq!(rt; group_of(139), 1);
//! assert_eq!(rt; group_of(140), 2);
//! ```
#![tactic(auto)]

ghost use Rattle.std.specs.Prelude.{◌≡◌};
ghost use Rattle.module_groups.specs.Groups as groups;
ghost use Rattle.module_groups.specs.Groups.{GroupsAreOfTheIds};

mod limits;

pub use limits::limits_are_numbers;

/// The most modules of a group; a DII has no room for more.
pub const GROUP_SIZE: u16 = 139;

/// The most groups of a carousel; a receiver holds as many DIIs.
pub const MOST_GROUPS: u16 = 16;

/// The greatest id of a module: the last of group [`MOST_GROUPS`].
pub const GREATEST_ID: usize = 2_224;

/// The group of a module id: 1 to [`MOST_GROUPS`] for ids up to [`GREATEST_ID`]. No module has the
/// id 0, for which this is 1.
pub fn group_of(id: u16) -> u16
    ensures { result ≡ groups.group_of id }
{
    1 + id.saturating_sub(1) / GROUP_SIZE
}

/// Group j has the ids above `(j - 1) * GROUP_SIZE` up to `j * GROUP_SIZE`.
#[tactic(auto, using(crate::proofs::CallerLemmas::groups_of_ids))]
pub fn groups_are_of_the_ids()
    ensures { GroupsAreOfTheIds }
{}
