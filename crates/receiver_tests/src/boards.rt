ghost use Rattle.std.specs.Prelude.{◌≡◌, IfOk, IfSome};
ghost use Rattle.std.specs.Arc.{arc_value};
ghost use Rattle.shot_board.specs.Shots.{Each};
ghost use Rattle.shot_board.specs.Viewers.{viewer_board};
ghost use Rattle.shot_board.specs.Showers.{IsNewViewer};

use shot_board::{Numbered, Shower, Viewer, board, cross_threads};
use std::alloc::{AllocError, Global};
use std::sync::Arc;
use std::test::Fail;
use std::thread;

/// A value with a number.
#[derive(Drop)]
struct Slide {
    number: u64,
}

impl Numbered for Slide {
    ghost number = { λ slide. slide.number };
}

fn numbered_slide(alloc: Global, number: u64) -> Result<Arc<Slide>, AllocError>
    ensures { IfOk result (λ slide. (arc_value slide).number ≡ number) }
{
    Ok(Arc::new(alloc, Slide { number })?)
}

/// One of the viewers of a new board.
fn next(shower: &Shower<Slide>, viewers: &mut Vec<Viewer<Slide>>) -> Option<Viewer<Slide>>
    requires { Each (IsNewViewer shower.now) viewers.old.items }
    ensures viewer { IfSome result (IsNewViewer shower.now) }
    ensures rest { Each (IsNewViewer shower.now) viewers.new.items }
{
    viewers.pop()
}

/// The number of the slide that a viewer takes.
fn taken(viewer: &mut Viewer<Slide>) -> Result<u64, AllocError>
    ensures { viewer_board viewer.new ≡ viewer_board viewer.old }
{
    let slide = viewer.take()?;
    Ok(slide.number)
}

#[test]
fn two_viewers_take_what_was_shown(rt: HostRuntime) -> Result<(), Fail> {
    let alloc = rt.alloc();
    cross_threads::<Slide>();
    let first = numbered_slide(alloc, 0)?;
    let second = numbered_slide(alloc, 1)?;
    let (mut shower, mut viewers) = board(&rt, alloc, first, 2, 1)?;
    let Some(mut left) = next(&shower, &mut viewers) else {
        panic!(rt; "no viewer")
    };
    let Some(mut right) = next(&shower, &mut viewers) else {
        panic!(rt; "no second viewer")
    };
    let before = (taken(&mut left), taken(&mut right));
    let shown = shower.show(&rt, second).is_ok();
    let front = shower.front();
    let other = shower.front();
    let last = front.number();
    left.learn(front);
    right.learn(other);
    let after = thread::join(&rt, move || taken(&mut left), move || taken(&mut right));
    shower.close(&rt);
    assert!(rt; shown && last == 1);
    assert_eq!(rt; (before.0?, before.1?), (0, 0));
    assert_eq!(rt; (after.0?, after.1?), (1, 1));
    Ok(())
}

#[test]
fn viewers_move_on_untold_and_stay_where_a_board_is_closed(rt: HostRuntime) -> Result<(), Fail> {
    let alloc = rt.alloc();
    let first = numbered_slide(alloc, 0)?;
    let second = numbered_slide(alloc, 1)?;
    let (mut shower, mut viewers) = board(&rt, alloc, first, 2, 1)?;
    let Some(mut moved) = next(&shower, &mut viewers) else {
        panic!(rt; "no viewer")
    };
    let Some(mut idle) = next(&shower, &mut viewers) else {
        panic!(rt; "no second viewer")
    };
    let before = moved.last().number;
    let shown = shower.show(&rt, second).is_ok();
    let looked = moved.look().is_ok();
    let front = shower.front();
    shower.close(&rt);
    assert_eq!(rt;
        (before, shown, looked, moved.last().number),
        (0, true, true, 1)
    );
    // Neither was told of more than it knows.
    assert!(rt; moved.look().is_ok() && idle.look().is_ok());
    assert_eq!(rt; (taken(&mut moved)?, taken(&mut idle)?), (1, 0));
    idle.learn(front);
    assert!(rt; idle.look().is_err() && taken(&mut idle).is_err());
    assert_eq!(rt; idle.last().number, 0);
    Ok(())
}
