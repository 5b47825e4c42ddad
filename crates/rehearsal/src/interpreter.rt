//! What happens at a script's lines.
ghost use Rattle.std.specs.Prelude.{◌≡◌, ◌<◌, ◌≤◌, OnOk, IfOk, IfSome};
ghost use Rattle.session_script.specs.Scripts.{act_of};
ghost use Rattle.session_script.specs.Ranges.{IsInRange};
ghost use Rattle.carousel_world.specs.World.{InRange};
ghost use Rattle.rehearsal.specs.Lines as lines;
ghost use Rattle.rehearsal.specs.Lines.{Pending, none_pending, with_edit, without, pending_after, events_of_line, Holds, view_happening, happened};
ghost use Rattle.session_script.specs.declared.words.TheConstants.{MOST_FILLED};

use carousel_world::{Event, Fate};
use oc_bytes::{Blob, NoMemory};
use path_tree::{Edit, Edits, Path};
use session_script::Task;
use std::alloc::Global;
use std::collections::BTreeMap;

/// What happens at a line of a script. Editors and readers are 1 to 64.
#[derive(Drop)]
pub enum Happening {
    /// This editor commits these edits.
    Commit(u32, Vec<Edit>),
    /// So many items are drawn, 1 to [`cycle_planner::MOST_DRAWN`], and their packets meet these
    /// fates.
    Draw(u32, Vec<Fate>),
    /// This reader opens this path.
    Open(u32, Path),
}

impl Happening {
    ghost use Rattle.carousel_world.specs.Events.{view};

    /// The same, as an event of a world.
    pub fn into_event(self) -> Event
        ensures { view result ≡ view_happening self }
    {
        match self {
            Happening::Commit(editor, edits) => {
                let edits = Edits::new(edits);
                Event::Commit { editor, edits }
            }
            Happening::Draw(asked, fates) => Event::Draw { asked, fates },
            Happening::Open(reader, path) => Event::Open { reader, path },
        }
    }
}

/// Reads tasks one after another, and says what happens at each. An edit waits until its editor
/// commits; edits that no commit follows are given up.
#[derive(Drop)]
pub struct Interpreter {
    alloc: Global,
    /// The edits of each editor, 1 to 64, that wait, in written order.
    waiting: BTreeMap<u32, Vec<Edit>>,
}

impl Interpreter {
    /// One in which nothing waits. It takes no memory.
    pub fn new(alloc: Global) -> Interpreter
        ensures { Holds result none_pending }
    {
        Interpreter {
            alloc,
            waiting: BTreeMap::new(alloc),
        }
    }

    /// Reads one task more, and gives what happens at it: nothing at an edit, which waits from
    /// then on. A commit takes all edits of its editor that wait, in written order. The task's
    /// numbers are within their ranges.
    ///
    /// Out of memory is the only refusal; the interpreter is of no use then.
    pub fn read(&mut self, task: Task) -> Result<Option<Happening>, NoMemory>
        requires { IsInRange (act_of task) }
        ensures happens { IfOk result (λ what.
            (p : Pending) → Holds self.old p → happened what ≡ events_of_line p (act_of task)) }
        ensures waits { OnOk result ((p : Pending)
            → Holds self.old p
            → Holds self.new (pending_after p (act_of task))) }
        ensures range { IfOk result (λ what. IfSome what (λ h. InRange (view_happening h))) }
    {
        let (editor, edit) = match task {
            Task::Put(editor, path, content) => (editor, Edit::Put(path, content)),
            Task::Fill(editor, path, size, from) => {
                (editor, Edit::Put(path, filled(self.alloc, size, from)?))
            }
            Task::Remove(editor, path) => (editor, Edit::Remove(path)),
            Task::MakeFolder(editor, path) => (editor, Edit::MakeFolder(path)),
            Task::RemoveFolder(editor, path) => (editor, Edit::RemoveFolder(path)),
            Task::Commit(editor) => {
                return Ok(Some(Happening::Commit(editor, self.take(editor))));
            }
            Task::Draw(asked, fates) => return Ok(Some(Happening::Draw(asked, fates))),
            Task::Open(reader, path) => return Ok(Some(Happening::Open(reader, path))),
        };
        self.add(editor, edit)?;
        Ok(None)
    }

    /// An edit of the editor waits after its others. After out of memory, which is the only
    /// refusal, they are given up.
    fn add(&mut self, editor: u32, edit: Edit) -> Result<(), NoMemory>
        ensures { OnOk result ((p : Pending)
            → Holds self.old p
            → Holds self.new (with_edit p editor edit)) }
    {
        let mut edits = self.take(editor);
        edits.push(edit)?;
        self.waiting.insert(editor, edits)?;
        Ok(())
    }

    /// Takes the editor's edits out, in written order.
    fn take(&mut self, editor: u32) -> Vec<Edit>
        ensures edits { (p : Pending) → Holds self.old p → result.items ≡ p editor }
        ensures left { (p : Pending) → Holds self.old p → Holds self.new (without p editor) }
    {
        self.waiting.remove(&editor).unwrap_or(Vec::new(self.alloc))
    }
}

/// A file of `size` bytes, at most 16,777,217, of which byte i is `from` + 7i + i/256 modulo 256,
/// the quotient rounded down.
///
/// Out of memory is the only refusal.
fn filled(alloc: Global, size: u32, from: u8) -> Result<Blob, NoMemory>
    requires { size ≤ MOST_FILLED }
    ensures { IfOk result (λ content. content ≡ lines.filled_bytes size from) }
{
    let mut bytes = Vec::with_capacity(alloc, size as usize)?;
    for place in 0..size {
        bytes.push(filled_byte(from, place))?;
    }
    Blob::new(alloc, bytes)
}

fn filled_byte(from: u8, place: u32) -> u8
    requires { place < MOST_FILLED }
    ensures { result ≡ lines.filled_byte from place }
{
    ((u32::from(from) + 7 * place + place / 256) % 256) as u8
}
