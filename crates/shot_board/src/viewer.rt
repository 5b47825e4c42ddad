ghost use Rattle.std.specs.Prelude.{◌≡◌, ◌+◌, ◌<◌, ◌≤◌, true, length, is_some, IfSome, IfOk, OnOk, OnErr};
ghost use Rattle.std.specs.Option.{ForSome};
ghost use Rattle.std.specs.Arc.{arc_value};
ghost use mathlib.Core.List.{IsPrefix};
ghost use Rattle.left_right.specs.Sides.{view};

use crate::front::Front;
use crate::numbered::Numbered;
use crate::seats::{Name, OneBook, Reads};
use crate::shown::Shown;
use left_right::reader::Reader;
use std::alloc::AllocError;
use std::sync::Arc;

/// A place at the board from which nobody looks.
pub(crate) type Place<S> = Reader<Shown<S>, Name<S>, OneBook>;

/// Looks at what a board shows, and never waits. It knows a list of what was shown, the value at
/// place k having the number k, and was told of a list; both are beginnings of the board's. Of the
/// list that it knows it holds the last value. It may go to another thread.
#[derive(Drop)]
pub struct Viewer<S: Numbered> {
    // Away only while it reads.
    reader: Option<Place<S>>,
    // The last value that it knows, with the list that the value ends.
    shown: Shown<S>,
    told: Front<S>,
    ghost whole: { is_some reader ≡ true },
    ghost at_board: { ForSome reader (λ r.
        ((view r.place).named ≡ true)
        × ((view r.place).book.book ≡ shown.front.seen.book)
        × ((view r.place).most ≡ shown.most)) },
    ghost same_book: { told.seen.book ≡ shown.front.seen.book },
}

impl<S: Numbered> Viewer<S> {
    ghost use Rattle.shot_board.specs.Shots.{AreNumbered, EndsWith};
    ghost use Rattle.shot_board.specs.Fronts.{front_board, shots_in};
    ghost use Rattle.shot_board.specs.Viewers.{known_of, told_of, viewer_board, most_of};

    pub(crate) fn at(reader: Place<S>, shown: Shown<S>) -> Viewer<S>
        requires { ((view reader.place).named ≡ true)
            × ((view reader.place).book.book ≡ shown.front.seen.book)
            × ((view reader.place).most ≡ shown.most) }
        ensures { (viewer_board result ≡ front_board shown.front)
            × (most_of result ≡ shown.most)
            × (known_of result ≡ shots_in shown.front)
            × (told_of result ≡ shots_in shown.front) }
    {
        let told = shown.front.again();
        Viewer {
            reader: Some(reader),
            shown,
            told,
        }
    }

    /// Tells the viewer of the list of a prefix of its own board. What it knows stays. It takes no
    /// memory.
    pub fn learn(&mut self, front: Front<S>)
        requires { front_board front ≡ viewer_board self.old }
        ensures board { (viewer_board self.new ≡ viewer_board self.old)
            × (most_of self.new ≡ most_of self.old) }
        ensures known { known_of self.new ≡ known_of self.old }
        ensures told { IsPrefix (told_of self.old) (told_of self.new)
            × IsPrefix (shots_in front) (told_of self.new) }
    {
        if front.goes_on(&self.told) {
            self.told = front;
        }
    }

    /// The last value of the list that the viewer knows. It takes no memory.
    pub fn last(&self) -> &S
        ensures last { EndsWith S.number (known_of self.now) result.now }
        ensures numbers { AreNumbered S.number (known_of self.now) }
    {
        self.shown.front.number();
        &self.shown.shot
    }

    /// Moves on to the value that the board shows, which is then the last of the list that the
    /// viewer knows. Where the shower was closed, or the count of the value's owners is full, the
    /// viewer stays with what it knows.
    ///
    /// Out of memory comes only where it then stays behind a list that it was told of, and leaves
    /// what it knows. So a viewer that knows all that it was told of is never refused.
    #[tactic(auto, using(crate::proofs::Prefixes::same_begins))]
    pub fn look(&mut self) -> Result<(), AllocError>
        ensures board { (viewer_board self.new ≡ viewer_board self.old)
            × (most_of self.new ≡ most_of self.old) }
        ensures told { told_of self.new ≡ told_of self.old }
        ensures knew { IsPrefix (known_of self.old) (known_of self.new) }
        ensures heard { OnOk result (IsPrefix (told_of self.old) (known_of self.new)) }
        ensures most { length (known_of self.new) ≤ most_of self.new + 1 }
        ensures refused { OnErr result (known_of self.new ≡ known_of self.old) }
        ensures memory { OnErr result (length (known_of self.new) < length (told_of self.new)) }
    {
        match self.newer() {
            Some(shown) => {
                self.shown = shown;
                Ok(())
            }
            None => self.stay(),
        }
    }

    /// An owner of the value that the board shows, or where the viewer stays, as in `look`, of the
    /// last that it knows. It is the last of the list that the viewer knows from then on. This list
    /// begins with what it knew before and with what it was told of, so a value never has a number
    /// below one that it took or was told of.
    ///
    /// Out of memory is the only refusal, and leaves what the viewer knows: `look` is refused, or
    /// the count of the value's owners is full. No clause of std says when that count is full, so
    /// none says it here: who needs no owner of its own calls `look`.
    #[tactic(auto, using(crate::proofs::Prefixes::same_begins))]
    pub fn take(&mut self) -> Result<Arc<S>, AllocError>
        ensures board { (viewer_board self.new ≡ viewer_board self.old)
            × (most_of self.new ≡ most_of self.old) }
        ensures told { told_of self.new ≡ told_of self.old }
        ensures last { IfOk result (λ shot.
            EndsWith S.number (known_of self.new) (arc_value shot)) }
        ensures knew { IfOk result (λ _. IsPrefix (known_of self.old) (known_of self.new)) }
        ensures heard { IfOk result (λ _. IsPrefix (told_of self.old) (known_of self.new)) }
        ensures numbers { IfOk result (λ _. AreNumbered S.number (known_of self.new)) }
        ensures most { length (known_of self.new) ≤ most_of self.new + 1 }
        ensures refused { OnErr result (known_of self.new ≡ known_of self.old) }
    {
        let Some(shown) = self.newer() else {
            self.stay()?;
            return Arc::try_clone(&self.shown.shot);
        };
        let shot = Arc::try_clone(&shown.shot)?;
        self.shown = shown;
        Ok(shot)
    }

    /// A share of what is published, if it goes on with all that the viewer knows and was told of.
    fn newer(&mut self) -> Option<Shown<S>>
        ensures same { (self.new.shown.front ≡ self.old.shown.front)
            × (self.new.shown.most ≡ self.old.shown.most)
            × (self.new.told ≡ self.old.told) }
        ensures board { IfSome result (λ shown.
            (shown.front.seen.book ≡ self.old.shown.front.seen.book)
            × (shown.most ≡ self.old.shown.most)) }
        ensures newer { IfSome result (λ shown.
            IsPrefix (known_of self.old) (shots_in shown.front)
            × IsPrefix (told_of self.old) (shots_in shown.front)) }
        ensures numbers { IfSome result (λ shown. AreNumbered S.number (shots_in shown.front)) }
    {
        let Some(reader) = self.reader.take() else {
            unreachable!()
        };
        let (shown, reader) = read(reader, &self.shown.front);
        self.reader = Some(reader);
        let shown = shown?;
        // What the viewer was told of is on the board, but the board's rule doesn't say so.
        if shown.front.goes_on(&self.told) {
            Some(shown)
        } else {
            None
        }
    }

    /// The viewer stays with what it knows, which has to be all that it was told of.
    fn stay(&self) -> Result<(), AllocError>
        ensures heard { OnOk result (IsPrefix (told_of self.now) (known_of self.now)) }
        ensures memory { OnErr result (length (known_of self.now) < length (told_of self.now)) }
        ensures numbers { AreNumbered S.number (known_of self.now) }
    {
        if self.shown.front.goes_on(&self.told) {
            Ok(())
        } else {
            Err(AllocError)
        }
    }
}

/// A share of what is published, if the writer is there, the list is longer than `known`, and the
/// value can be shared.
fn read<S: Numbered>(reader: Place<S>, known: &Front<S>) -> (Option<Shown<S>>, Place<S>)
    requires { ((view reader.place).named ≡ true)
        × ((view reader.place).book.book ≡ known.now.seen.book) }
    ensures reader { view result.1.place ≡ view reader.place }
    ensures board { IfSome result.0 (λ shown.
        (shown.front.seen.book ≡ known.now.seen.book) × (shown.most ≡ (view reader.place).most)) }
    ensures newer { IfSome result.0 (λ shown. IsPrefix known.now.seen.log shown.front.seen.log) }
{
    match reader.enter_as::<Reads>() {
        Ok(reading) => {
            let shown = share_of_newer(reading.get(), known);
            (shown, reading.leave())
        }
        Err(reader) => (None, reader),
    }
}

/// A share of what is shown, if its list is longer than `known` and the value can be shared.
fn share_of_newer<S: Numbered>(shown: &Shown<S>, known: &Front<S>) -> Option<Shown<S>>
    requires { shown.now.front.seen.book ≡ known.now.seen.book }
    ensures { IfSome result (λ share.
        (share.front.seen ≡ shown.now.front.seen)
        × (share.most ≡ shown.now.most)
        × IsPrefix known.now.seen.log share.front.seen.log) }
{
    if known.goes_on(&shown.front) {
        return None;
    }
    match shown.share() {
        Ok(share) => Some(share),
        Err(_) => None,
    }
}
