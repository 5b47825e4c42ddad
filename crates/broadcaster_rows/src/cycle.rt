//! The cycle of a generation's modules.
ghost use Rattle.cycle_planner.specs.Cycle.{AreLines};

use crate::generations::Generations;
use crate::texts::item_text;
use cycle_planner::{Walk, Weigh, cycle_len, item_at};
use test_rows::{Line, Row, RowFault};

/// How many items the cycle has.
pub(crate) fn length(row: &Row<'_>, generations: &Generations, weigh: &Weigh) -> Line {
    match generations.current() {
        Some(generation) => row.line().value("", &cycle_len(generation.lines(), weigh)),
        None => row.failed(RowFault::BadRow),
    }
}

/// The item at each place.
pub(crate) fn places(row: &Row<'_>, generations: &Generations, weigh: &Weigh) -> Line {
    match generations.current() {
        Some(generation) => places_text(row.line(), generation.lines(), weigh),
        None => row.failed(RowFault::BadRow),
    }
}

fn places_text(mut line: Line, lines: &[(u16, u32)], weigh: &Weigh) -> Line
    requires { AreLines lines.now }
{
    for at in 0..cycle_len(lines, weigh) {
        line = item_text(line.between(" "), item_at(lines, weigh, at));
    }
    line
}

/// The items of a walk, and `end` where it has no next one.
pub(crate) fn walk(row: &Row<'_>, generations: &Generations, weigh: &Weigh) -> Line {
    match generations.current() {
        Some(generation) => walk_text(row.line(), generation.lines(), weigh),
        None => row.failed(RowFault::BadRow),
    }
}

fn walk_text(mut line: Line, lines: &[(u16, u32)], weigh: &Weigh) -> Line
    requires { AreLines lines.now }
{
    let mut walk = Walk::new(lines, weigh);
    for _ in 0..cycle_len(lines, weigh).saturating_add(1) {
        let Some(item) = walk.next(lines, weigh) else {
            return line.between(" ").text("end");
        };
        line = item_text(line.between(" "), item);
    }
    line
}
