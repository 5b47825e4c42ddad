ghost use Rattle.std.specs.Prelude.{◌≡◌, ◌≤◌, true, [], ◌∷◌, drop, length, IfSome, OnSome, IfOk};
ghost use Rattle.std.specs.Arc.{arc_value};
ghost use Rattle.std.specs.Vec.{vec_capacity};
ghost use Rattle.left_right.specs.Sides.{view};
ghost use Rattle.shot_board.specs.Shots.{Each};
ghost use Rattle.shot_board.specs.Inner.Shots.{head_of};
ghost use Rattle.shot_board.specs.Inner.Names.{name_of};
ghost use Rattle.shot_board.specs.Inner.Seating.{IsSeated};
ghost use Rattle.shot_board.specs.Showers.{shown_by, most_by, IsOnTheBoard, IsNewViewer};

use crate::book::{Add, Law, Nothing};
use crate::front::Front;
use crate::numbered::Numbered;
use crate::seats::{SameName, TakesName};
use crate::shower::{Desk, Shower};
use crate::shown::Shown;
use crate::viewer::Viewer;
use logbook::{Offer, Seen, Start, Word};
use std::alloc::{AllocError, Global};
use std::sync::{Arc, Wait};
use std::thread;

/// A board that shows `first`, whose number is 0, with as many viewers as `readers`, at most 64. No
/// value of it has a number above `most`. Out of memory is the only refusal: a place that is
/// refused to a viewer is asked for again.
pub fn board<S: Numbered, R: Wait>(
    rt: &R,
    alloc: Global,
    first: Arc<S>,
    readers: u32,
    most: u64,
) -> Result<(Shower<S>, Vec<Viewer<S>>), AllocError>
    requires readers { readers ≤ 64 }
    requires first { S.number (arc_value first) ≡ 0 }
    ensures list { IfOk result (λ made. shown_by made.0 ≡ arc_value first ∷ []) }
    ensures published { IfOk result (λ made. IsOnTheBoard made.0) }
    ensures most { IfOk result (λ made. most_by made.0 ≡ most) }
    ensures count { IfOk result (λ made. length made.1.items ≡ readers) }
    ensures viewers { IfOk result (λ made. Each (IsNewViewer made.0) made.1.items) }
{
    let Some((head, front)) = opened::<S>(&first) else {
        return Err(AllocError);
    };
    let shown = Shown {
        shot: first,
        front,
        most,
    };
    let Ok((writer, viewers)) = seated(rt, alloc, &shown, readers) else {
        return Err(AllocError);
    };
    let shower = Shower {
        writer: Some(writer),
        head,
        front: shown.front.again(),
        most,
        spent: false,
    };
    Ok((shower, viewers))
}

/// The writer of a board that shows `shown`, and its viewers.
fn seated<S: Numbered, R: Wait>(
    rt: &R,
    alloc: Global,
    shown: &Shown<S>,
    readers: u32,
) -> Result<(Desk<S>, Vec<Viewer<S>>), AllocError>
    requires { readers ≤ 64 }
    ensures shown { IfOk result (λ made.
        (made.0.desk.shown.value.front.seen ≡ shown.now.front.seen)
        × (made.0.desk.shown.value.most ≡ shown.now.most)) }
    ensures idle { IfOk result (λ made. drop made.0.behind made.0.log.items ≡ []) }
    ensures count { IfOk result (λ made. length made.1.items ≡ readers) }
    ensures viewers { IfOk result (λ made.
        Each (IsSeated shown.now.front shown.now.most) made.1.items) }
{
    let Ok(mut viewers) = Vec::with_capacity(alloc, readers as usize) else {
        return Err(AllocError);
    };
    let writer = desk(rt, alloc, shown, readers)?;
    let Some(writer) = seat_all(rt, writer, shown, readers, &mut viewers) else {
        return Err(AllocError);
    };
    Ok((writer, viewers))
}

/// The writer of a board that shows `shown`, with the board's name.
fn desk<S: Numbered, R: Wait>(
    rt: &R,
    alloc: Global,
    shown: &Shown<S>,
    readers: u32,
) -> Result<Desk<S>, AllocError>
    requires { readers ≤ 64 }
    ensures name { IfOk result (λ w. view w.desk.place ≡ name_of w.desk.shown.value) }
    ensures shown { IfOk result (λ w.
        (w.desk.shown.value.front.seen ≡ shown.now.front.seen)
        × (w.desk.shown.value.most ≡ shown.now.most)) }
    ensures idle { IfOk result (λ w. drop w.behind w.log.items ≡ []) }
{
    let (posted, spare) = (shown.share()?, shown.share()?);
    let writer = Desk::new(alloc, posted, spare, readers.max(1) as usize)?;
    let Some(writer) = named(rt, writer) else {
        return Err(AllocError);
    };
    Ok(writer)
}

/// A new book whose list has the first value.
fn opened<S: Numbered>(shot: &S) -> Option<(Word<S, u64, Law>, Front<S>)>
    requires { S.number shot.now ≡ 0 }
    ensures { IfSome result (λ made.
        (made.0 ≡ head_of made.1.seen.book)
        × (made.1.number ≡ 0)
        × (made.1.seen.log ≡ shot.now ∷ [])) }
{
    let (mut seen, mut first, _second) = Seen::open(Start::alone(), 0, 0);
    let head = Word::tracked(0, &mut first);
    let mut offer: Offer<S, u64, Law, Nothing> = seen.plain::<Nothing, S, Add>(shot);
    let mut pen = seen.no_pen();
    let found = head.compare_exchange::<Add, Nothing>(0, 1, &mut seen, &mut offer, &mut pen);
    if found != 0 {
        return None;
    }
    Some((head, Front { number: 0, seen }))
}

/// The writer takes its board's name.
fn named<S: Numbered, R: Wait>(rt: &R, writer: Desk<S>) -> Option<Desk<S>>
    requires { drop writer.behind writer.log.items ≡ [] }
    ensures { IfSome result (λ w.
        (view w.desk.place ≡ name_of w.desk.shown.value)
        × (w.desk.shown.value.front.seen ≡ writer.desk.shown.value.front.seen)
        × (w.desk.shown.value.most ≡ writer.desk.shown.value.most)
        × (drop w.behind w.log.items ≡ [])) }
{
    let (writer, published) = writer.publish_as::<TakesName, R>(rt);
    if published.is_err() {
        drop(writer.take(rt));
        return None;
    }
    Some(writer)
}

/// A viewer for each reader, which holds a share of `shown`. Where that can't be shared, the writer
/// is gone.
fn seat_all<S: Numbered, R: Wait>(
    rt: &R,
    mut writer: Desk<S>,
    shown: &Shown<S>,
    readers: u32,
    viewers: &mut Vec<Viewer<S>>,
) -> Option<Desk<S>>
    requires name { ((view writer.desk.place).named ≡ true)
        × ((view writer.desk.place).book.book ≡ shown.now.front.seen.book)
        × ((view writer.desk.place).most ≡ shown.now.most) }
    requires room { (viewers.old.items ≡ []) × (readers ≤ vec_capacity viewers.old) }
    ensures viewers { OnSome result ((length viewers.new.items ≡ readers)
        × Each (IsSeated shown.now.front shown.now.most) viewers.new.items) }
    ensures writer { IfSome result (λ w.
        (w.desk.shown.value ≡ writer.desk.shown.value)
        × (drop w.behind w.log.items ≡ drop writer.behind writer.log.items)) }
{
    for _seated in 0..readers {
        let Ok(share) = shown.share() else {
            drop(writer.take(rt));
            return None;
        };
        viewers.push_reserved(seat(rt, &mut writer, share));
    }
    Some(writer)
}

/// A viewer at a place of its own, which holds this share. A place that is refused is asked for
/// again.
fn seat<S: Numbered, R: Wait>(rt: &R, writer: &mut Desk<S>, share: Shown<S>) -> Viewer<S>
    requires name { ((view writer.old.desk.place).named ≡ true)
        × ((view writer.old.desk.place).book.book ≡ share.front.seen.book)
        × ((view writer.old.desk.place).most ≡ share.most) }
    ensures viewer { IsSeated share.front share.most result }
    ensures writer { (writer.new.desk.shown ≡ writer.old.desk.shown)
        × (writer.new.log ≡ writer.old.log)
        × (writer.new.behind ≡ writer.old.behind)
        × (view writer.new.desk.place ≡ view writer.old.desk.place) }
{
    for _ in rt.forever() {
        if let Ok(mut reader) = writer.factory().reader() {
            reader.learn::<SameName>(writer.tell::<SameName>());
            return Viewer::at(reader, share);
        }
        thread::yield_now();
    }
    unreachable!()
}
