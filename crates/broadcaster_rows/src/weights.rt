//! What is asked under weights: one of module 1, and one of every other module.
ghost use Rattle.std.specs.Prelude.{◌≡◌, ◌≤◌, ◌==◌, if◌then◌else◌};

use crate::generations::Generations;
use crate::{cycle, world};
use carousel_world::World;
use cycle_planner::{GREATEST_ID, GREATEST_WEIGHT, Weigh};
use std::alloc::Global;
use test_rows::{Line, Row, RowFault};

/// What a row asks. Its first two words are the weight of module 1 and that of each other module, 1
/// to 8.
#[derive(Clone, Copy, Drop)]
enum Question {
    /// `cycle-length`: how many items the cycle has of the generation that was made last.
    Length,
    /// `cycle-places`: the item at each of its places.
    Places,
    /// `cycle-walk`: the items of a walk through it, and `end` where it has no next one.
    Walk,
    /// `world` and events: what happens in a new world.
    World,
}

/// The answer, where the row is a call on a cycle or a world.
pub(crate) fn call(alloc: Global, row: &Row<'_>, generations: &Generations) -> Option<Line> {
    match row.name() {
        "cycle-length" => Some(weighed(alloc, row, generations, Question::Length)),
        "cycle-places" => Some(weighed(alloc, row, generations, Question::Places)),
        "cycle-walk" => Some(weighed(alloc, row, generations, Question::Walk)),
        "world" => Some(weighed(alloc, row, generations, Question::World)),
        _ => None,
    }
}

/// The weight that the word at a place says, or 1.
fn weight(row: &Row<'_>, place: usize) -> u8
    ensures { (1 ≤ result) × (result ≤ 8) }
{
    let weight = row.byte(place);
    if weight < 1 || weight > GREATEST_WEIGHT {
        row.fail(RowFault::BadRow);
        return 1;
    }
    weight
}

/// The answer under the weights. What holds them doesn't leave this function, since it holds a
/// boxed closure.
fn weighed(alloc: Global, row: &Row<'_>, generations: &Generations, question: Question) -> Line {
    let first = weight(row, 0);
    let others = weight(row, 1);
    let mut weights = [others; GREATEST_ID];
    weights[0] = first;
    let call = Box::new(
        alloc,
        move |id: u16| -> u8
            ensures { result ≡ (if id == 1 then first else others) }
        { if id == 1 { first } else { others } },
    );
    let Ok(call) = call else {
        return row.failed(RowFault::NoMemory);
    };
    let weigh = Weigh::new(weights, call);
    match question {
        Question::Length => cycle::length(row, generations, &weigh),
        Question::Places => cycle::places(row, generations, &weigh),
        Question::Walk => cycle::walk(row, generations, &weigh),
        Question::World => match World::new(alloc, 1, weigh) {
            Ok(mut world) => world::replies(alloc, row, &mut world),
            Err(_) => row.failed(RowFault::NoMemory),
        },
    }
}
