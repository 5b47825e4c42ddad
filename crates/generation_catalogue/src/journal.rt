ghost use Rattle.std.specs.Prelude.{◌≡◌, ◌+◌, ◌<◌, ◌≤◌, [], ◌⊎◌, length, take, drop, is_some, ◌==◌, if◌then◌else◌, true, Ok, Err, IfOk, OnOk, OnErr, IsErrOf};
ghost use Rattle.std.specs.Arc.{arc_value};
ghost use Rattle.oc_bytes.specs.Outcome.{Gives, cap_at_u64};
ghost use Rattle.cycle_planner.specs.Weights.{AreWeights};
ghost use Rattle.generation.specs.Lawful.{IsPublishable};
ghost use Rattle.generation.specs.Layouts.{AreItemsOf};
ghost use Rattle.generation_catalogue.specs.History.{IsHistory, current_of, journal_of, put_bytes, put_size, outcome_of, is_entered, with_commit, cursor_of, draws_of, items_drawn, count_drawn, with_draw};
ghost use Rattle.generation_catalogue.specs.Requests.{commit_cause};
ghost use Rattle.generation_catalogue.specs.Inner.Requests.{generation_after};
ghost use Rattle.generation_catalogue.specs.Calls.{IsCommitted, IsDrawn};
ghost use Rattle.generation_catalogue.specs.Inner.Kept.{StandsIn, with_next};
ghost use Rattle.cycle_planner.specs.Walks.{IsWalk, left_of};
ghost use Rattle.cycle_planner.specs.declared.TheConstants.{MOST_DRAWN};

use crate::entry::{Batch, CommitFault, DrawFault, Entry, Refusal};
use cycle_planner::{GREATEST_ID, Item, Walk, Weigh, cycle_len};
use dsi_dii::LAST_GENERATION;
use generation::{Generation, checked};
use oc_bytes::NoMemory;
use path_tree::{Edit, Edits, apply};
use std::alloc::Global;
use std::marker::Model;
use std::sync::Arc;

/// The most bytes that a history's entries put.
pub const MOST_PUT_BYTES: u64 = 536_870_912;

/// The most draws that are entered.
pub const MOST_DRAWS: u64 = 16_777_216;

/// A `Catalogue` without the closure of its weights, so that a lock can keep it.
#[derive(Drop)]
pub struct Journal {
    alloc: Global,
    carousel: u32,
    weights: [u8; GREATEST_ID],
    entries: Vec<Entry>,
    current: Arc<Generation>,
    put_bytes: u64,
    draws: u64,
    cursor: u64,
    stand: Option<Stand>,
}

/// Where a draw begins: the cycle's length, a walk before its first item, and one at the cursor. It
/// is kept, because only a generation's first draw goes over all lines.
#[derive(Clone, Copy, Debug)]
pub struct Stand {
    length: u64,
    first: Walk,
    next: Walk,
}

impl Model for Journal {
    ghost use Rattle.generation_catalogue.specs.History.{CatalogueState};

    ghost Value = { CatalogueState };

    ghost use Rattle.generation_catalogue.specs.Kept.{view_journal};
    ghost use Rattle.generation_catalogue.specs.Inner.Kept.{IsJournal};

    ghost view = { view_journal };

    ghost invariant = { IsJournal };
}

impl Journal {
    /// A history at generation 0, whose tree is empty. `carousel` is any 32-bit id, and each
    /// weight, from module 1 on, is 1 to 8.
    pub fn new(
        alloc: Global,
        carousel: u32,
        weights: [u8; GREATEST_ID],
    ) -> Result<Journal, NoMemory>
        requires { AreWeights weights }
        ensures { IfOk result (λ j.
            j ≡ record { carousel = carousel; weights = weights; entries = [] }) }
    {
        let first = Generation::first(alloc, carousel)?;
        let current = Arc::new(alloc, first)?;
        Ok(Journal {
            alloc,
            carousel,
            weights,
            entries: Vec::new(alloc),
            current,
            put_bytes: 0,
            draws: 0,
            cursor: 0,
            stand: None,
        })
    }

    /// The entries, the oldest first.
    pub fn entries(&self) -> &[Entry]
        ensures entries { result.now ≡ self.now.entries }
        ensures history { IsHistory self.now }
    {
        &self.entries
    }

    /// The current generation.
    pub fn current(&self) -> &Arc<Generation>
        ensures { arc_value result.now ≡ current_of self.now }
    {
        &self.current
    }

    /// What `Catalogue::commit` does.
    pub fn commit_edits(&mut self, editor: u32, edits: Edits) -> Result<u64, CommitFault>
        ensures { IsCommitted self.old editor edits result self.new }
    {
        match self.judge(edits.list()) {
            Ok(next) => Ok(self.accept(editor, edits, next)?),
            Err(CommitFault::NoMemory) => Err(CommitFault::NoMemory),
            Err(CommitFault::Refused(refusal)) => Err(self.refused(editor, edits, refusal)),
        }
    }

    /// The generation that the edits make, if nothing refuses them.
    fn judge(&self, edits: &[Edit]) -> Result<Generation, CommitFault>
        ensures answer { Gives (λ g. g.number) commit_cause result (outcome_of self.now edits.now) }
        ensures next { IfOk result (λ g. g ≡ generation_after self.now edits.now) }
        ensures tree { IfOk result (λ g. IsPublishable g.tree) }
        ensures memory { IsErrOf result CommitFault.NoMemory
            → is_entered (outcome_of self.now edits.now) ≡ true }
    {
        if self.current.number() == LAST_GENERATION {
            return Err(CommitFault::Refused(Refusal::SeasonFull(LAST_GENERATION)));
        }
        let total = self.total_with(edits);
        if total > MOST_PUT_BYTES {
            return Err(CommitFault::Refused(Refusal::JournalFull(total)));
        }
        let tree = apply(self.alloc, self.current.tree(), edits)?;
        let publishable = checked(self.alloc, tree)?;
        Ok(self.current.next_after(publishable, edits)?)
    }

    /// At most the greatest `u64`.
    fn total_with(&self, edits: &[Edit]) -> u64
        ensures { result ≡ cap_at_u64 (journal_of self.now + put_bytes edits.now) }
    {
        let mut total = self.put_bytes;
        for edit in edits {
            total = total.saturating_add(size_put(edit));
        }
        total
    }

    fn accept(&mut self, editor: u32, edits: Edits, next: Generation) -> Result<u64, NoMemory>
        requires accepted { outcome_of self.old edits ≡ Ok next.number }
        // The generation that is made:
        requires next { next ≡ generation_after self.old edits }
        requires tree { IsPublishable next.tree }
        // What is answered, and what is left:
        ensures number { IfOk result (λ n. n ≡ next.number) }
        ensures entered { OnOk result (self.new ≡ with_commit self.old editor edits) }
        ensures unchanged { OnErr result (self.new ≡ self.old) }
    {
        let number = next.number();
        let next = Arc::new(self.alloc, next)?;
        let total = self.total_with(edits.list());
        self.entries.push(Entry::Commit {
            editor,
            edits,
            outcome: Ok(number),
        })?;
        self.current = next;
        self.put_bytes = total;
        self.cursor = 0;
        self.stand = None;
        Ok(number)
    }

    /// Enters the refusal, if such a one makes an entry.
    fn refused(&mut self, editor: u32, edits: Edits, refusal: Refusal) -> CommitFault
        requires { outcome_of self.old edits ≡ Err refusal }
        ensures answer { (result ≡ CommitFault.Refused refusal) ⊎ (result ≡ CommitFault.NoMemory) }
        ensures entry { self.new
            ≡ (if is_some (commit_cause result) then with_commit self.old editor edits else
            self.old) }
        ensures memory { result ≡ CommitFault.NoMemory → is_entered (Err refusal) ≡ true }
    {
        if refusal.is_entered() {
            let entered = match refusal.share() {
                Ok(copy) => self.refuse(editor, edits, copy),
                Err(fault) => Err(fault),
            };
            if entered.is_err() {
                return CommitFault::NoMemory;
            }
        }
        CommitFault::Refused(refusal)
    }

    fn refuse(&mut self, editor: u32, edits: Edits, refusal: Refusal) -> Result<(), NoMemory>
        requires refused { outcome_of self.old edits ≡ Err refusal }
        requires entered { is_entered (Err refusal) ≡ true }
        ensures entered { OnOk result (self.new ≡ with_commit self.old editor edits) }
        ensures unchanged { OnErr result (self.new ≡ self.old) }
    {
        let total = self.total_with(edits.list());
        self.entries.push(Entry::Commit {
            editor,
            edits,
            outcome: Err(refusal),
        })?;
        self.put_bytes = total;
        Ok(())
    }

    /// What `Catalogue::draw` does. The weights have to be this history's. After a generation's
    /// first draw each takes one step an item.
    pub fn draw(&mut self, weigh: &Weigh, asked: u32) -> Result<Batch, DrawFault>
        requires asked { (1 ≤ asked) × (asked ≤ MOST_DRAWN) }
        requires weights { weigh.now.weights ≡ self.old.weights }
        ensures drawn { IsDrawn self.old asked result self.new }
        ensures some { IfOk result (λ b.
            (1 ≤ length b.items.items) × (length b.items.items ≤ asked)) }
        ensures items { IfOk result (λ b. AreItemsOf (arc_value b.generation) b.items.items) }
    {
        self.draw_next(weigh, asked)
    }

    fn draw_next(&mut self, weigh: &Weigh, asked: u32) -> Result<Batch, DrawFault>
        requires asked { (1 ≤ asked) × (asked ≤ MOST_DRAWN) }
        requires weights { weigh.now.weights ≡ self.old.weights }
        ensures { IsDrawn self.old asked result self.new }
    {
        if self.draws == MOST_DRAWS {
            return Err(DrawFault::DrawsFull(MOST_DRAWS));
        }
        let (items, stand) = self.next_items(weigh, asked)?;
        let generation = Arc::try_clone(&self.current)?;
        let first = self.cursor;
        self.enter_draw(asked, items.len() as u64, stand)?;
        Ok(Batch {
            generation,
            first,
            items,
        })
    }

    /// Made of all lines for a generation's first draw.
    fn stand_now(&self, weigh: &Weigh) -> Stand
        requires { weigh.now.weights ≡ self.now.weights }
        ensures { StandsIn self.now (cursor_of self.now) result }
    {
        match self.stand {
            Some(stand) => stand,
            None => {
                let lines = self.current.lines();
                let first = Walk::new(lines, weigh);
                Stand {
                    length: cycle_len(lines, weigh),
                    first,
                    next: first,
                }
            }
        }
    }

    /// At most `asked` items, and the walk after them.
    fn next_items(&self, weigh: &Weigh, asked: u32) -> Result<(Vec<Item>, Stand), NoMemory>
        requires { weigh.now.weights ≡ self.now.weights }
        ensures items { IfOk result (λ p. p.0.items ≡ items_drawn self.now asked) }
        ensures count { IfOk result (λ p. length p.0.items ≡ count_drawn self.now asked) }
        ensures stand { IfOk result (λ p.
            StandsIn self.now (cursor_of self.now + count_drawn self.now asked) p.1) }
    {
        let stand = self.stand_now(weigh);
        let lines = self.current.lines();
        let count = u64::from(asked).min(stand.length - self.cursor);
        let (items, next) = taken(self.alloc, lines, weigh, stand.next, count)?;
        Ok((items, moved(stand, next)))
    }

    fn enter_draw(&mut self, asked: u32, count: u64, stand: Stand) -> Result<(), NoMemory>
        requires asked { (1 ≤ asked) × (asked ≤ MOST_DRAWN) }
        requires count { count ≡ count_drawn self.old asked }
        // What is known of the walk and the entries:
        requires stand { StandsIn self.old (cursor_of self.old + count_drawn self.old asked) stand }
        requires room { draws_of self.old < MOST_DRAWS }
        // What is left:
        ensures entered { OnOk result (self.new ≡ with_draw self.old asked) }
        ensures unchanged { OnErr result (self.new ≡ self.old) }
    {
        let generation = self.current.number();
        let first = self.cursor;
        let cursor = place_after(first, count, stand.length);
        self.entries.push(Entry::Draw {
            asked,
            generation,
            first,
            count,
        })?;
        self.draws += 1;
        self.cursor = cursor;
        self.stand = Some(at_place(stand, cursor));
        Ok(())
    }
}

/// The same cycle from `next` on.
fn moved(stand: Stand, next: Walk) -> Stand
    ensures { result ≡ with_next stand next }
{
    Stand {
        length: stand.length,
        first: stand.first,
        next,
    }
}

/// From the first item, if the cursor is 0.
fn at_place(stand: Stand, cursor: u64) -> Stand
    ensures { result ≡ (if cursor == 0 then with_next stand stand.first else stand) }
{
    if cursor == 0 {
        moved(stand, stand.first)
    } else {
        stand
    }
}

fn taken(
    alloc: Global,
    lines: &[(u16, u32)],
    weigh: &Weigh,
    from: Walk,
    count: u64,
) -> Result<(Vec<Item>, Walk), NoMemory>
    requires walk { IsWalk weigh.now.weights lines.now from }
    requires count { count ≤ length (left_of weigh.now.weights lines.now from) }
    ensures items { IfOk result (λ p.
        p.0.items ≡ take count (left_of weigh.now.weights lines.now from)) }
    ensures walk { IfOk result (λ p. IsWalk weigh.now.weights lines.now p.1) }
    ensures left { IfOk result (λ p.
        left_of weigh.now.weights lines.now p.1
        ≡ drop count (left_of weigh.now.weights lines.now from)) }
{
    let mut items = Vec::with_capacity(alloc, count as usize)?;
    let mut walk = from;
    for _at in 0..count {
        let Some(item) = walk.next(lines, weigh) else {
            unreachable!();
        };
        items.push(item)?;
    }
    Ok((items, walk))
}

/// After a cycle's last item comes place 0.
fn place_after(first: u64, count: u64, length: u64) -> u64
    requires { first + count ≤ length }
    ensures { result ≡ (if first + count == length then 0 else first + count) }
{
    let end = first + count;
    if end == length { 0 } else { end }
}

fn size_put(edit: &Edit) -> u64
    ensures { result ≡ put_size edit.now }
{
    match edit {
        Edit::Put(_, blob) => blob.bytes().len() as u64,
        Edit::Remove(_) | Edit::MakeFolder(_) | Edit::RemoveFolder(_) => 0,
    }
}
