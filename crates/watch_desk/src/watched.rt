ghost use Rattle.std.specs.Prelude.{◌≡◌, ◌≤◌, ◌<◌, [], length, map, OnErr};
ghost use Rattle.oc_bytes.specs.Outcome.{MakesList};
ghost use Rattle.path_resolver.specs.Resolving.{answer_of};
ghost use Rattle.watch_desk.specs.Inner.Showing as showing;
ghost use Rattle.watch_desk.specs.Inner.Showing.{differs_at};
ghost use Rattle.watch_desk.specs.declared.TheConstants.{MOST_WATCHED};

use oc_bytes::NoMemory;
use path_resolver::{Answer, Holding, answer_on, same};
use path_tree::Path;
use std::alloc::Global;
use std::marker::Model;

/// The paths that are watched, and the answers to them on the last shot: what a `Desk` keeps beside
/// its filters.
#[derive(Drop)]
pub(crate) struct Watched {
    paths: Vec<Path>,
    // One for each path. None before the first shot, when each path has no carousel.
    last: Vec<Answer>,
}

impl Model for Watched {
    ghost use Rattle.watch_desk.specs.Watching.{WatchedState};

    ghost Value = { WatchedState };

    ghost use Rattle.watch_desk.specs.Kept.{view_watched};
    ghost use Rattle.watch_desk.specs.Inner.Kept.{IsWatched};

    ghost view = { view_watched };

    ghost invariant = { IsWatched };
}

impl Watched {
    /// Paths of which no answer is known. It takes no memory.
    pub(crate) fn new(alloc: Global, paths: Vec<Path>) -> Watched
        requires { length paths.items ≤ MOST_WATCHED }
        ensures { result ≡ record { paths = paths.items; last = [] } }
    {
        Watched {
            paths,
            last: Vec::new(alloc),
        }
    }

    /// The paths.
    pub(crate) fn paths(&self) -> &[Path]
        ensures paths { result.now ≡ self.now.paths }
        ensures few { length self.now.paths ≤ MOST_WATCHED }
    {
        &self.paths
    }

    /// The answers on the last shot.
    pub(crate) fn answers(&self) -> &[Answer]
        ensures { result.now ≡ self.now.last }
    {
        &self.last
    }

    /// The answers to the paths on what is held. Each path is resolved once.
    pub(crate) fn answers_on<H: Holding>(
        &self,
        alloc: Global,
        held: &H,
    ) -> Result<Vec<Answer>, NoMemory>
        ensures answers { MakesList result (map (answer_of (H.state held.now)) self.now.paths) }
        ensures memory { OnErr result (0 < length self.now.paths) }
    {
        answers_to(alloc, &self.paths, held)
    }

    /// Of each of these answers whether it isn't the one on the last shot.
    pub(crate) fn changes_to(&self, alloc: Global, now: &[Answer]) -> Result<Vec<bool>, NoMemory>
        ensures changes { MakesList result (showing.changes self.now.last now.now) }
        ensures memory { OnErr result (0 < length now.now) }
    {
        changes(alloc, &self.last, now)
    }

    /// Keeps the answers on what is the last shot from now on.
    pub(crate) fn keep(&mut self, now: Vec<Answer>)
        ensures { self.new ≡ record self.old { last = now.items } }
    {
        self.last = now;
    }
}

/// The answers to paths on what is held.
fn answers_to<H: Holding>(alloc: Global, paths: &[Path], held: &H) -> Result<Vec<Answer>, NoMemory>
    ensures answers { MakesList result (map (answer_of (H.state held.now)) paths.now) }
    ensures memory { OnErr result (0 < length paths.now) }
{
    let mut answers = Vec::with_capacity(alloc, paths.len())?;
    for path in paths {
        answers.push(answer_on(held, path)?)?;
    }
    Ok(answers)
}

/// Of each of these answers whether it isn't the one that is kept at its place.
fn changes(alloc: Global, last: &[Answer], now: &[Answer]) -> Result<Vec<bool>, NoMemory>
    ensures changes { MakesList result (showing.changes last.now now.now) }
    ensures memory { OnErr result (0 < length now.now) }
{
    let mut changed = Vec::with_capacity(alloc, now.len())?;
    for (i, answer) in now.iter().enumerate() {
        changed.push(differs(last, i, answer))?;
    }
    Ok(changed)
}

/// Whether an answer isn't the one that is kept at a place, where none counts as no carousel.
fn differs(last: &[Answer], i: usize, answer: &Answer) -> bool
    ensures { result ≡ differs_at last.now i answer.now }
{
    if i < last.len() {
        !same(&last[i], answer)
    } else {
        !matches!(answer, Answer::NoCarousel)
    }
}
