ghost use Rattle.std.specs.Prelude.{◌≡◌, ◌⊎◌, ◌+◌, ◌<◌, ◌≤◌, [], ◌∷◌, ◌++◌, length, IfOk, IfErr, OnOk, OnErr};
ghost use mathlib.Core.List.{IsPrefix};
ghost use Rattle.shot_board.specs.Fronts.{shots_in, front_board};

use crate::answers::Answers;
use crate::entry::OpenEntry;
use oc_bytes::NoMemory;
use path_resolver::Shot;
use path_tree::Path;
use shot_board::{Front, Viewer};
use std::alloc::{AllocError, Global};
use std::marker::Model;

/// What one reader has opened, in order. It knows a list of shots, and each open is answered on one
/// of them.
#[derive(Drop)]
pub struct ReaderPass {
    reader: u32,
    room: usize,
    viewer: Viewer<Shot>,
    opens: Vec<OpenEntry>,
    answers: Answers,
}

impl Model for ReaderPass {
    ghost use Rattle.std.specs.Prelude.{◌≤◌, length};
    ghost use Rattle.std.specs.Vec.{vec_capacity};
    ghost use Rattle.shot_board.specs.Viewers.{known_of};
    ghost use Rattle.open_history.specs.Opens.{ReaderView, AllAnswered, reader_view};
    ghost use Rattle.open_history.specs.Inner.Cached.{AreAnswersIn};

    ghost Value = { ReaderView };

    ghost view = { λ r.
        reader_view r.reader r.room r.viewer r.opens.items (length r.answers.kept.entries) };

    ghost invariant = { λ r.
        AllAnswered (known_of r.viewer) r.opens.items
        × (r.room ≤ vec_capacity r.opens)
        × AreAnswersIn (known_of r.viewer) r.answers.on r.answers.kept.entries };
}

impl ReaderPass {
    ghost use Rattle.open_history.specs.Opens.{AllAnswered, Answered, reader_view, IsSameReader, IsBehind, SharesOnLast};

    /// A pass of the reader with this number that looks at a board as `viewer` does. Memory for
    /// `room` opens, and for the answers that it keeps, is asked for here; without it the viewer
    /// comes back.
    pub fn new(
        alloc: Global,
        reader: u32,
        viewer: Viewer<Shot>,
        room: usize,
    ) -> Result<ReaderPass, (NoMemory, Viewer<Shot>)>
        ensures ok { IfOk result (λ pass. pass ≡ reader_view reader room viewer [] 0) }
        ensures refused { IfErr result (λ refused. refused.1 ≡ viewer) }
    {
        let Ok(opens) = Vec::with_capacity(alloc, room) else {
            return Err((AllocError, viewer));
        };
        let Ok(answers) = Answers::new(alloc) else {
            return Err((AllocError, viewer));
        };
        Ok(ReaderPass {
            reader,
            room,
            viewer,
            opens,
            answers,
        })
    }

    /// The reader's number.
    pub fn reader(&self) -> u32
        ensures { result ≡ self.now.reader }
    {
        self.reader
    }

    /// The opens, in order.
    pub fn opens(&self) -> &[OpenEntry]
        ensures list { result.now ≡ self.now.opens }
        ensures answered { AllAnswered self.now.known self.now.opens }
    {
        self.opens.as_slice()
    }

    /// How many answers are kept of the shot that was taken last, at most 64. It takes no memory.
    pub fn cached(&self) -> usize
        ensures count { result ≡ self.now.cached }
        ensures most { result ≤ 64 }
    {
        self.answers.count()
    }

    /// Tells the pass of the list of a prefix of its own board. What it knows stays. It takes no
    /// memory.
    pub fn learn(&mut self, front: Front<Shot>)
        requires { front_board front ≡ self.old.board }
        ensures same { IsSameReader self.old self.new
            × (self.new.known ≡ self.old.known)
            × (self.new.opens ≡ self.old.opens) }
        ensures told { IsPrefix self.old.told self.new.told
            × IsPrefix (shots_in front) self.new.told }
    {
        self.viewer.learn(front);
    }

    /// Takes a shot, and opens nothing. Out of memory is the only refusal, and leaves what the pass
    /// knows. It comes only where the pass stays behind a list that it was told of, as after the
    /// shower was closed.
    pub fn look(&mut self) -> Result<(), NoMemory>
        ensures same { IsSameReader self.old self.new
            × (self.new.told ≡ self.old.told)
            × (self.new.opens ≡ self.old.opens) }
        ensures known { IsPrefix self.old.known self.new.known
            × (length self.new.known ≤ self.new.most + 1) }
        ensures told { OnOk result (IsPrefix self.old.told self.new.known) }
        ensures refused { OnErr result (self.new.known ≡ self.old.known) }
        ensures memory { OnErr result (IsBehind self.new) }
    {
        self.viewer.look()?;
        self.answers.turn_to(self.viewer.last().number);
        Ok(())
    }

    /// Takes a shot, resolves the whole path on it, and puts the open after the others. There has
    /// to be room for it. The answer is the place of the open in `opens`.
    ///
    /// Out of memory is the only refusal: it gives the path back, and there is no new open. It
    /// comes only where `look` is refused, or of a path whose answer on that shot shares what is
    /// held.
    pub fn open_path(&mut self, path: Path) -> Result<usize, (NoMemory, Path)>
        requires { length self.old.opens < self.old.room }
        ensures same { IsSameReader self.old self.new × (self.new.told ≡ self.old.told) }
        ensures known { IsPrefix self.old.known self.new.known
            × (length self.new.known ≤ self.new.most + 1) }
        ensures told { OnOk result (IsPrefix self.old.told self.new.known) }
        ensures place { IfOk result (λ place. place ≡ length self.old.opens) }
        ensures open { OnOk result ((made : OpenEntry)
            × (self.new.opens ≡ self.old.opens ++ made ∷ [])
            × (made.path ≡ path)
            × (made.shot + 1 ≡ length self.new.known)
            × Answered self.new.known made) }
        ensures refused { OnErr result (self.new.opens ≡ self.old.opens) }
        ensures back { IfErr result (λ refused. refused.1 ≡ path) }
        ensures memory { OnErr result (IsBehind self.new ⊎ SharesOnLast self.new.known path) }
    {
        let Ok(()) = self.viewer.look() else {
            return Err((AllocError, path));
        };
        let shot = self.viewer.last();
        self.answers.turn_to(shot.number);
        let Ok(answer) = self.answers.answer(shot, &path) else {
            return Err((AllocError, path));
        };
        let place = self.opens.len();
        self.opens.push_reserved(OpenEntry::on(shot, path, answer));
        Ok(place)
    }

    /// Learns the front with the board's last shot, and takes a shot: the pass then knows just the
    /// list that was shown. Out of memory is the only refusal, and comes only where the pass stays
    /// behind that list.
    pub fn catch_up(&mut self, front: Front<Shot>) -> Result<(), NoMemory>
        requires board { front_board front ≡ self.old.board }
        requires last { length (shots_in front) ≡ self.old.most + 1 }
        ensures same { IsSameReader self.old self.new × (self.new.opens ≡ self.old.opens) }
        ensures known { OnOk result (self.new.known ≡ shots_in front) }
        ensures memory { OnErr result (IsBehind self.new) }
    {
        self.learn(front);
        self.look()
    }
}
