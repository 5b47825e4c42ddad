ghost use Rattle.std.specs.Prelude.{◌≡◌, ◌≢◌, ◌≤◌, [], length, Ok, IfOk, IfSome, OnErr, IsTrue};
ghost use Rattle.path_tree.specs.Paths.{PathNames};
ghost use Rattle.path_tree.specs.Texts.{path_of};
ghost use Rattle.path_resolver.specs.Shots.{held_of, answers_of};
ghost use Rattle.path_resolver.specs.Resolving.{Held, answer_of, is_shared};
ghost use Rattle.std.specs.String.{string_bytes};
ghost use Rattle.open_history.specs.Inner.Cached.{AreAnswersOn};

use lru::LruCache;
use oc_bytes::NoMemory;
use path_resolver::{Answer, Shot, resolve};
use path_tree::Path;
use std::alloc::{AllocError, Global};
use std::num::NonZeroUsize;

/// How many answers are kept.
const ROOM: usize = 64;

/// The answers on one shot that were used last, by the texts of their paths.
#[derive(Drop)]
pub(crate) struct Answers {
    /// The number of the shot.
    pub(crate) on: u64,
    pub(crate) kept: LruCache<String, Answer>,
    ghost bounded: { kept.cap ≡ 64 },
}

impl Answers {
    /// No answers. Room for all of them is asked for here.
    pub(crate) fn new(alloc: Global) -> Result<Answers, AllocError>
        ensures { IfOk result (λ answers. answers.kept.entries ≡ []) }
    {
        let Some(room) = NonZeroUsize::new(ROOM) else {
            unreachable!()
        };
        let kept = LruCache::new(alloc, room)?;
        Ok(Answers { on: 0, kept })
    }

    /// How many answers are kept.
    pub(crate) fn count(&self) -> usize
        ensures { (result ≡ length self.now.kept.entries) × (result ≤ 64) }
    {
        self.kept.len()
    }

    /// From now on the answers are those on the shot of this number: of another shot none stays.
    pub(crate) fn turn_to(&mut self, number: u64)
        ensures on { self.new.on ≡ number }
        ensures same { number ≡ self.old.on → self.new.kept ≡ self.old.kept }
        ensures other { number ≢ self.old.on → self.new.kept.entries ≡ [] }
    {
        if number != self.on {
            self.kept.clear();
            self.on = number;
        }
    }

    /// The answer to the path on the shot whose answers these are. It is kept, if there is memory
    /// for that.
    pub(crate) fn answer(&mut self, shot: &Shot, path: &Path) -> Result<Answer, NoMemory>
        requires { AreAnswersOn (held_of shot.now) self.old.kept.entries }
        ensures answer { IfOk result (λ answer. answer ≡ answers_of shot.now path.now) }
        ensures memory { OnErr result (IsTrue (is_shared (answers_of shot.now path.now))) }
        ensures kept { AreAnswersOn (held_of shot.now) self.new.kept.entries }
        ensures on { self.new.on ≡ self.old.on }
    {
        let Ok(text) = path.print() else {
            return resolve(shot, path);
        };
        if let Some(answer) = self.find(text.as_str()) {
            return Ok(answer);
        }
        let answer = resolve(shot, path)?;
        self.keep(text, &answer);
        Ok(answer)
    }

    /// The answer that is kept of the path of this text, if there is one and it can be shared.
    fn find(&mut self, text: &str) -> Option<Answer>
        ensures found { (held : Held) (path : PathNames)
            → AreAnswersOn held self.old.kept.entries
            → path_of text.now ≡ Ok path
            → IfSome result (λ answer. answer ≡ answer_of held path) }
        ensures kept { (held : Held)
            → AreAnswersOn held self.old.kept.entries
            → AreAnswersOn held self.new.kept.entries }
        ensures on { self.new.on ≡ self.old.on }
    {
        let answer = self.kept.get(text)?;
        answer.share().ok()
    }

    /// Keeps the answer to the path of this text, if it can be shared and there is memory.
    fn keep(&mut self, text: String, answer: &Answer)
        ensures kept { (held : Held) (path : PathNames)
            → AreAnswersOn held self.old.kept.entries
            → path_of (string_bytes text) ≡ Ok path
            → answer.now ≡ answer_of held path
            → AreAnswersOn held self.new.kept.entries }
        ensures on { self.new.on ≡ self.old.on }
    {
        let Ok(answer) = answer.share() else { return };
        let _ = self.kept.put(text, answer);
    }
}
