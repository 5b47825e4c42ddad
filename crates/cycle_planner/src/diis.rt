ghost use Rattle.std.specs.Prelude.{◌≡◌, ◌≤◌, ◌<◌, ◌+◌, [], length, drop, nat_lt, MatchOption};
ghost use Rattle.module_groups.specs.Groups as groups;
ghost use Rattle.module_groups.specs.declared.TheConstants.{MOST_GROUPS};
ghost use Rattle.cycle_planner.specs.Cycle as cycle;
ghost use Rattle.cycle_planner.specs.Cycle.{AreLines, diis_from, diis_of};
ghost use Rattle.cycle_planner.specs.Places.{IsListed};

use module_groups::{MOST_GROUPS, group_of};

/// Group 1 always has one. A group's lines are in a row because ids rise, so its first is found by
/// halves.
fn has_group(lines: &[(u16, u32)], group: u16) -> bool
    requires { AreLines lines.now }
    ensures { result ≡ cycle.has_group lines.now group }
{
    let first = lines.partition_point(
        |line: &(u16, u32)| -> bool
            ensures { result ≡ nat_lt (groups.group_of line.now.0) group }
        { group_of(line.0) < group },
    );
    group == 1 || first < lines.len() && group_of(lines[first].0) == group
}

/// The least group above `group` that has a DII.
pub fn group_after(lines: &[(u16, u32)], group: u16) -> Option<u16>
    requires lines { AreLines lines.now }
    requires group { group ≤ MOST_GROUPS }
    ensures { MatchOption result (diis_from lines.now (group + 1) ≡ []) (λ g.
        IsListed lines.now g × (diis_from lines.now g ≡ diis_from lines.now (group + 1))) }
{
    for next in group + 1..MOST_GROUPS + 1 {
        if has_group(lines, next) {
            return Some(next);
        }
    }
    None
}

/// The group of a round's DII at a place, from 0.
pub fn group_at(lines: &[(u16, u32)], at: u64) -> u16
    requires lines { AreLines lines.now }
    requires below { at < length (diis_of lines.now) }
    ensures listed { IsListed lines.now result }
    ensures diis { diis_from lines.now result ≡ drop at (diis_of lines.now) }
{
    let mut group = 1;
    for _before in 0..at {
        group = group_after(lines, group).unwrap();
    }
    group
}

/// How many DIIs a round has.
pub fn dii_count(lines: &[(u16, u32)]) -> u64
    requires { AreLines lines.now }
    ensures count { result ≡ length (diis_of lines.now) }
    ensures some { 1 ≤ result }
    ensures few { result ≤ MOST_GROUPS }
{
    let mut count = 0;
    for group in 1..MOST_GROUPS + 1 {
        if has_group(lines, group) {
            count += 1;
        }
    }
    count
}
