ghost use Rattle.std.specs.Prelude.{◌≡◌, ◌+◌, ◌≤◌, true, false, [], ◌∷◌, ◌++◌, drop, length, is_some, IfSome, OnOk, OnErr, IfErr};
ghost use Rattle.std.specs.Option.{ForSome};
ghost use Rattle.std.specs.Arc.{arc_value};
ghost use Rattle.shot_board.specs.Inner.Shots.{head_of};

use crate::book::{Add, Law, Nothing};
use crate::front::Front;
use crate::numbered::Numbered;
use crate::seats::{Name, OneBook, TakesName};
use crate::shown::Shown;
use left_right::Absorb;
use left_right::writer::Writer;
use logbook::{Offer, Word};
use std::alloc::AllocError;
use std::sync::{Arc, Wait};

/// The one that publishes.
pub(crate) type Desk<S> = Writer<Shown<S>, Shown<S>, Name<S>, OneBook>;

/// Shows one value after another on its board, and keeps the list of all that was shown. It can't
/// be let go: end it by `close`.
pub struct Shower<S: Numbered>
where
    Shown<S>: Absorb<Shown<S>>,
{
    // Away only while it shows.
    pub(crate) writer: Option<Desk<S>>,
    // The word of the book that keeps the list.
    pub(crate) head: Word<S, u64, Law>,
    pub(crate) front: Front<S>,
    pub(crate) most: u64,
    // A value stands in the book that could not be published, so it shows no more.
    pub(crate) spent: bool,
    ghost whole: { is_some writer ≡ true },
    ghost head_is: { head ≡ head_of front.seen.book },
    ghost bounded: { front.number ≤ most },
    ghost ready: { spent ≡ false
        → ForSome writer (λ w.
        (w.desk.shown.value.front.seen ≡ front.seen)
        × (w.desk.shown.value.most ≡ most)
        × (drop w.behind w.log.items ≡ [])) },
}

impl<S: Numbered> Shower<S> {
    ghost use Rattle.shot_board.specs.Shots.{AreNumbered};
    ghost use Rattle.shot_board.specs.Fronts.{shots_in, front_board};
    ghost use Rattle.shot_board.specs.Showers.{shown_by, shower_board, most_by, IsOnTheBoard, IsSameBoard};

    /// Shows a value, whose number is one above the last and at most the board's greatest. It waits
    /// for viewers that still read what was shown before the last.
    ///
    /// Out of memory is the only refusal. It gives the value back and leaves the list. Where it
    /// comes after the value went into the book, the shower is spent: each later call is refused,
    /// and viewers go on with what they have.
    pub fn show<R: Wait>(&mut self, rt: &R, shot: Arc<S>) -> Result<(), (AllocError, Arc<S>)>
        requires next { S.number (arc_value shot) ≡ length (shown_by self.old) }
        requires most { S.number (arc_value shot) ≤ most_by self.old }
        ensures shown { OnOk result (shown_by self.new ≡ shown_by self.old ++ arc_value shot ∷ []) }
        ensures published { OnOk result (IsOnTheBoard self.new) }
        ensures refused { OnErr result (shown_by self.new ≡ shown_by self.old) }
        ensures back { IfErr result (λ refused. arc_value refused.1 ≡ arc_value shot) }
        ensures board { IsSameBoard self.old self.new }
    {
        if self.spent {
            return Err((AllocError, shot));
        }
        let Ok(share) = Arc::try_clone(&shot) else {
            return Err((AllocError, shot));
        };
        let Some(front) = added(&self.head, &self.front, &shot) else {
            return Err((AllocError, shot));
        };
        let shown = Shown {
            shot: share,
            front: front.again(),
            most: self.most,
        };
        if self.sent(rt, shown, front) {
            Ok(())
        } else {
            Err((AllocError, shot))
        }
    }

    /// Publishes a value of this board, which ends the list `front`. Where it answers false,
    /// nothing more is shown.
    fn sent<R: Wait>(&mut self, rt: &R, shown: Shown<S>, front: Front<S>) -> bool
        requires fresh { self.old.spent ≡ false }
        requires same { (self.old.front.seen.book ≡ shown.front.seen.book)
            × (self.old.most ≡ shown.most) }
        requires list { (front.seen ≡ shown.front.seen) × (front.number ≤ self.old.most) }
        ensures most { self.new.most ≡ self.old.most }
        ensures yes { result ≡ true → (self.new.front ≡ front) × (self.new.spent ≡ false) }
        ensures no { result ≡ false → self.new.front ≡ self.old.front }
    {
        let Some(writer) = self.writer.take() else {
            unreachable!()
        };
        let (writer, sent) = send(rt, writer, shown);
        let away = self.writer.replace(writer);
        let None = away else { unreachable!() };
        if sent {
            self.front = front;
        } else {
            self.spent = true;
        }
        sent
    }

    /// The list as it is now, for a viewer to learn.
    pub fn front(&mut self) -> Front<S>
        ensures list { shots_in result ≡ shown_by self.old }
        ensures board { front_board result ≡ shower_board self.old }
        ensures same { (self.new.front ≡ self.old.front) × IsSameBoard self.old self.new }
        ensures numbers { AreNumbered S.number (shown_by self.old) }
    {
        self.front.number();
        self.front.again()
    }

    /// Ends the board, once nobody reads. What each viewer knows stays, and it moves on to no other
    /// value.
    pub fn close<R: Wait>(self, rt: &R) {
        let Shower {
            writer,
            head: _head,
            front: _front,
            most: _,
            spent: _,
        } = self;
        let Some(writer) = writer else { unreachable!() };
        drop(writer.take(rt));
    }
}

/// The list with one value more, which is then in the book. There is none where the book has more
/// than the list, as only another shower of it could bring about, or has 2^64 - 1 values.
fn added<S: Numbered>(head: &Word<S, u64, Law>, front: &Front<S>, shot: &S) -> Option<Front<S>>
    requires { (head.now ≡ head_of front.now.seen.book)
        × (S.number shot.now ≡ front.now.number + 1) }
    ensures { IfSome result (λ f.
        (f.seen.book ≡ front.now.seen.book)
        × (f.number ≡ front.now.number + 1)
        × (f.seen.log ≡ front.now.seen.log ++ shot.now ∷ [])) }
{
    let next = front.number.checked_add(2)?;
    let mut seen = front.seen.again();
    let mut offer: Offer<S, u64, Law, Nothing> = seen.plain::<Nothing, S, Add>(shot);
    let mut pen = seen.no_pen();
    let count = next - 1;
    let found = head.compare_exchange::<Add, Nothing>(count, next, &mut seen, &mut offer, &mut pen);
    if found != count {
        return None;
    }
    Some(Front {
        number: count,
        seen,
    })
}

/// Sends a value of the same board. Where it answers false, the writer takes no more.
fn send<S: Numbered, R: Wait>(rt: &R, mut writer: Desk<S>, shown: Shown<S>) -> (Desk<S>, bool)
    requires same { (writer.desk.shown.value.front.seen.book ≡ shown.front.seen.book)
        × (writer.desk.shown.value.most ≡ shown.most) }
    requires idle { drop writer.behind writer.log.items ≡ [] }
    ensures { result.1 ≡ true
        → (result.0.desk.shown.value.front.seen ≡ shown.front.seen)
        × (result.0.desk.shown.value.most ≡ shown.most)
        × (drop result.0.behind result.0.log.items ≡ []) }
{
    let Ok(()) = writer.append(shown) else {
        return (writer, false);
    };
    let (writer, published) = writer.publish_as::<TakesName, R>(rt);
    (writer, published.is_ok())
}
