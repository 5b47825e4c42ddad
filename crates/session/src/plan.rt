//! What each actor of a script's session has to do, split off before anybody runs.
ghost use Rattle.std.specs.Prelude.{◌≡◌, ◌+◌, ◌++◌, ◌∷◌, [], List, ℕ, map, length, IfOk, OnOk, All, ◌==◌, if◌then◌else◌, OnErr, ◌^◌, ◌≤◌};
ghost use Rattle.session_script.specs.declared.script.TaskLine.{TaskLine as TaskLines};
ghost use Rattle.session_script.specs.Scripts.{act_of, script_of_parts};
ghost use Rattle.session_script.specs.Ranges.{IsInRange, IsInRanges};
ghost use Rattle.carousel_world.specs.Events.{Step};
ghost use Rattle.carousel_world.specs.World.{InRange};
ghost use Rattle.rehearsal.specs.Lines.{Pending, Holds, view_happening};
ghost use Rattle.history_merge.specs.Merged.{is_draw_step};
ghost use Rattle.session.specs.Inner.Plans.{lists_of, AreInRange, HasSplit, IsPlanOf, events_at, finale_step, settling_lines, waiting_below, opens_by};
ghost use Rattle.session.specs.Lines.{draws_in};

use crate::editor::CommitLine;
use crate::feeder::DrawLine;
use oc_bytes::NoMemory;
use path_tree::Path;
use rehearsal::{Happening, Interpreter};
use session_script::{Finale, Parts, TaskLine};
use std::alloc::{AllocError, Global};
use std::collections::BTreeMap;

#[derive(Drop)]
pub(crate) struct ByActor<T: Drop> {
    alloc: Global,
    lists: BTreeMap<u32, Vec<T>>,
}

impl<T: Drop> ByActor<T> {
    /// Takes no memory.
    fn new(alloc: Global) -> ByActor<T>
        ensures { (n : ℕ) → lists_of result n ≡ [] }
    {
        ByActor {
            alloc,
            lists: BTreeMap::new(alloc),
        }
    }

    /// Comes after the actor's others. After out of memory the lists are of no use.
    fn push(&mut self, actor: u32, one: T) -> Result<(), NoMemory>
        ensures { OnOk result ((n : ℕ)
            → lists_of self.new n
            ≡ (if n == actor then lists_of self.old n ++ one ∷ [] else lists_of self.old n)) }
    {
        let list = self
            .lists
            .entry(actor)?
            .or_insert_with(|| Vec::new(self.alloc));
        list.push(one)?;
        Ok(())
    }

    pub(crate) fn take(&mut self, actor: u32) -> Vec<T>
        ensures list { result.items ≡ lists_of self.old actor }
        ensures left { (n : ℕ)
            → lists_of self.new n ≡ (if n == actor then [] else lists_of self.old n) }
    {
        self.lists.remove(&actor).unwrap_or(Vec::new(self.alloc))
    }
}

#[derive(Drop)]
pub(crate) struct Plan {
    /// Each 1 to [`session_script::MOST_ACTORS`], in the order of the first lines that name them.
    pub(crate) editors: Vec<u32>,
    /// As the editors.
    pub(crate) readers: Vec<u32>,
    /// Above `start`, in written order.
    pub(crate) before: Vec<Happening>,
    pub(crate) work: Work,
    pub(crate) settles: bool,
    /// In written order.
    pub(crate) finales: ByActor<Path>,
}

/// Below `start`, in written order.
#[derive(Drop)]
pub(crate) struct Work {
    pub(crate) commits: ByActor<CommitLine>,
    /// Each editor's lines of edits since its last commit, or since `start`.
    pub(crate) edit_lines: BTreeMap<u32, u32>,
    pub(crate) draws: Vec<DrawLine>,
    pub(crate) paths: ByActor<Path>,
}

/// Splits a script by actors. Edits that no commit of their editor follows are left out.
pub(crate) fn plan_of(alloc: Global, parts: Parts) -> Result<Plan, NoMemory>
    requires { IsInRanges (script_of_parts parts) }
    ensures { IfOk result (λ plan. IsPlanOf parts plan) }
{
    let mut interpreter = Interpreter::new(alloc);
    let before = happenings(alloc, &mut interpreter, parts.before)?;
    let work = work_of(alloc, &mut interpreter, parts.during)?;
    let finales = by_reader(alloc, parts.finales)?;
    Ok(Plan {
        editors: parts.editors,
        readers: parts.readers,
        before,
        work,
        settles: parts.settle.is_some(),
        finales,
    })
}

impl Plan {
    /// Out of memory would mean that the sum is no `usize`.
    pub(crate) fn count_draws(&self) -> Result<usize, NoMemory>
        ensures count { IfOk result (λ n.
            n ≡ length (draws_in (map view_happening self.now.before.items))
            + length self.now.work.draws.items
            + length (settling_lines self.now.settles)) }
        ensures memory { OnErr result
            (2 ^ 64 ≤ length (draws_in (map view_happening self.now.before.items))
            + length self.now.work.draws.items
            + length (settling_lines self.now.settles)) }
    {
        let settling = if self.settles { 2 } else { 0 };
        sum_of(count_draws(&self.before), self.work.draws.len(), settling)
    }
}

pub(crate) fn sum_of(first: usize, second: usize, third: usize) -> Result<usize, NoMemory>
    ensures sum { IfOk result (λ n. n ≡ first + second + third) }
    ensures memory { OnErr result (2 ^ 64 ≤ first + second + third) }
{
    let both = first.checked_add(second).ok_or(AllocError)?;
    both.checked_add(third).ok_or(AllocError)
}

fn count_draws(before: &[Happening]) -> usize
    ensures { result ≡ length (draws_in (map view_happening before.now)) }
{
    before.iter().filter(|what| is_draw(what)).count()
}

fn is_draw(what: &Happening) -> bool
    ensures { result ≡ is_draw_step (view_happening what.now) }
{
    matches!(what, Happening::Draw(..))
}

fn happenings(
    alloc: Global,
    interpreter: &mut Interpreter,
    tasks: Vec<TaskLine>,
) -> Result<Vec<Happening>, NoMemory>
    requires { All (λ (line : TaskLines). IsInRange (act_of line.task)) tasks.items }
    ensures happen { IfOk result (λ made.
        (p : Pending)
        → Holds interpreter.old p
        → map view_happening made.items ≡ events_at p tasks.items) }
    ensures range { IfOk result (λ made. AreInRange (map view_happening made.items)) }
    ensures waits { OnOk result ((p : Pending)
        → Holds interpreter.old p
        → Holds interpreter.new (waiting_below p tasks.items)) }
{
    let mut made = Vec::new(alloc);
    for line in tasks {
        match interpreter.read(line.task)? {
            Some(what) => made.push(what)?,
            None => {}
        }
    }
    Ok(made)
}

fn work_of(
    alloc: Global,
    interpreter: &mut Interpreter,
    tasks: Vec<TaskLine>,
) -> Result<Work, NoMemory>
    requires { All (λ (line : TaskLines). IsInRange (act_of line.task)) tasks.items }
    ensures { IfOk result (λ work.
        (p : Pending) → Holds interpreter.old p → HasSplit work (events_at p tasks.items)) }
{
    let mut work = Work {
        commits: ByActor::new(alloc),
        edit_lines: BTreeMap::new(alloc),
        draws: Vec::new(alloc),
        paths: ByActor::new(alloc),
    };
    for line in tasks {
        let editor = line.task.editor();
        match interpreter.read(line.task)? {
            Some(what) => work.give(what)?,
            None => work.count_line(editor)?,
        }
    }
    Ok(work)
}

impl Work {
    fn give(&mut self, what: Happening) -> Result<(), NoMemory>
        requires { InRange (view_happening what) }
        ensures { OnOk result ((done : List Step)
            → HasSplit self.old done
            → HasSplit self.new (done ++ view_happening what ∷ [])) }
    {
        match what {
            Happening::Commit(editor, edits) => {
                let lines = self
                    .edit_lines
                    .remove(&editor)
                    .unwrap_or(0)
                    .saturating_add(1);
                self.commits.push(editor, CommitLine { lines, edits })
            }
            Happening::Draw(asked, fates) => {
                self.draws.push(DrawLine { asked, fates })?;
                Ok(())
            }
            Happening::Open(reader, path) => self.paths.push(reader, path),
        }
    }

    /// At most the greatest `u32`.
    fn count_line(&mut self, editor: Option<u32>) -> Result<(), NoMemory>
        ensures { (done : List Step) → HasSplit self.old done → HasSplit self.new done }
    {
        if let Some(editor) = editor {
            let lines = self.edit_lines.entry(editor)?.or_insert(0);
            *lines = lines.saturating_add(1);
        }
        Ok(())
    }
}

fn by_reader(alloc: Global, finales: Vec<Finale>) -> Result<ByActor<Path>, NoMemory>
    ensures { IfOk result (λ lists.
        (n : ℕ) → lists_of lists n ≡ opens_by n (map finale_step finales.items)) }
{
    let mut lists = ByActor::new(alloc);
    for last in finales {
        lists.push(last.reader, last.path)?;
    }
    Ok(lists)
}
