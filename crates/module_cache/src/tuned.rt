//! One held DII, and what is there of the modules that it lists.

ghost use Rattle.std.specs.Prelude.{◌≡◌, ◌≢◌, ◌≤◌, ◌<◌, ◌==◌, [], map, true, IsTrue, Some, IfOk, OnOk, OnErr};
ghost use Rattle.std.specs.List.{find, fold, position, list_all, list_any};
ghost use Rattle.module_cache.specs.Joining.{no_id_twice};
ghost use Rattle.std.specs.Option.{option_map};
ghost use Rattle.oc_bytes.specs.Outcome.{MakesList};
ghost use Rattle.block_assembler.specs.Blocks.{IsAssembled};
ghost use Rattle.ddb_block.specs.Blocks.{parts_view};
ghost use Rattle.dsi_dii.specs.Controls.{view_dii};
ghost use Rattle.module_cache.specs.Joining as limits;
ghost use Rattle.module_cache.specs.Inner.Keeping.{line_keeping, lines_keeping, tuned_keeping};
ghost use Rattle.module_cache.specs.Inner.Placing.{line_in};
ghost use Rattle.module_cache.specs.Spans.{same_line};
ghost use Rattle.module_cache.specs.Held.{line_fresh, fresh_tuned, taken_tuned, tuned_after};
ghost use Rattle.ddb_block.specs.declared.TheConstants.{MOST_BLOCK_SIZE};

use crate::reach::{Reach, reach_of};
use crate::stored::{Line, Stored};
use crate::taken::Taken;
use ddb_block::Parts;
use dsi_dii::{Dii, ModuleLine};
use oc_bytes::NoMemory;
use std::alloc::Global;
use std::marker::Model;

/// A DII that is held, and what is there of the modules that it lists.
#[derive(Drop)]
pub struct Tuned {
    download: u32,
    block_size: u16,
    identification: u16,
    version: u16,
    /// The range of the lines' ids, where their order shows it.
    reach: Option<Reach>,
    lines: Vec<Line>,
}

impl Model for Tuned {
    ghost use Rattle.module_cache.specs.Held.{TunedState};

    ghost Value = { TunedState };

    ghost use Rattle.module_cache.specs.TunedView.{view_tuned};
    ghost use Rattle.module_cache.specs.Inner.TunedView.{IsTuned};

    ghost view = { view_tuned };

    ghost invariant = { IsTuned };
}

/// The place of the first line of a module.
fn place_of(lines: &[Line], id: u16) -> Option<usize>
    ensures { result ≡ position (λ x. x.line.id == id) lines.now }
{
    lines.iter().position(|x| x.line.id == id)
}

/// Both lines describe a module in the same way.
fn is_same_line(a: &ModuleLine, b: &ModuleLine) -> bool
    ensures { result ≡ same_line a.now b.now }
{
    a.size == b.size && a.version == b.version && a.compressed == b.compressed
}

/// Puts what is there of an old line into a new one that describes the module in the same way.
fn keep_line(line: &mut Line, old: Line)
    ensures { line.new ≡ line_keeping old line.old }
{
    if is_same_line(&old.line, &line.line) {
        line.stored = old.stored;
    }
}

/// Puts what is there of an old line into the first line of its module.
fn keep_in(lines: &mut [Line], old: Line)
    ensures { lines.new ≡ lines_keeping lines.old old }
{
    match place_of(lines, old.line.id) {
        Some(place) => keep_line(&mut lines[place], old),
        None => {}
    }
}

/// Puts what is there of each old line into the first line of its module.
fn keep_lines(lines: &mut [Line], old: Vec<Line>)
    ensures { lines.new ≡ fold lines_keeping lines.old old.items }
{
    for line in old {
        keep_in(lines, line);
    }
}

/// The line of a module of which nothing has come yet.
fn line_of(alloc: Global, block_size: u16, line: ModuleLine) -> Result<Line, NoMemory>
    requires { IsAssembled line.size block_size }
    ensures { IfOk result (λ x. x ≡ line_fresh block_size line) }
{
    let stored = Stored::new(alloc, line.size, block_size, line.compressed)?;
    Ok(Line { line, stored })
}

/// The lines of modules of which nothing has come yet.
fn lines_of(alloc: Global, block_size: u16, modules: &[ModuleLine]) -> Result<Vec<Line>, NoMemory>
    requires blocks { (1 ≤ block_size) × (block_size ≤ MOST_BLOCK_SIZE) }
    requires small { IsTrue (list_all (limits.is_small block_size) modules.now) }
    ensures ok { MakesList result (map (line_fresh block_size) modules.now) }
    ensures memory { OnErr result (modules.now ≢ []) }
{
    let mut lines = Vec::with_capacity(alloc, modules.len())?;
    for line in modules {
        lines.push(line_of(alloc, block_size, *line)?)?;
    }
    Ok(lines)
}

impl Tuned {
    /// A DII of whose modules nothing has come yet.
    pub(crate) fn new(alloc: Global, dii: &Dii) -> Result<Tuned, NoMemory>
        requires { IsTrue (limits.is_within (view_dii dii.now)) }
        ensures ok { IfOk result (λ t. t ≡ fresh_tuned (view_dii dii.now)) }
        ensures memory { OnErr result ((view_dii dii.now).modules ≢ []) }
    {
        let lines = lines_of(alloc, dii.block_size, &dii.modules)?;
        Ok(Tuned {
            download: dii.download,
            block_size: dii.block_size,
            identification: dii.transaction.identification(),
            version: dii.transaction.version(),
            reach: reach_of(&dii.modules),
            lines,
        })
    }

    /// Takes over the old DII's modules that both describe in the same way. Takes no memory.
    pub(crate) fn keep(&mut self, old: Tuned)
        ensures after { self.new ≡ tuned_keeping self.old old }
        ensures once { no_id_twice (map (λ x. x.line) old.lines) ≡ true }
    {
        if old.download == self.download && old.block_size == self.block_size {
            keep_lines(&mut self.lines, old.lines);
        }
    }

    /// The DII's downloadId.
    pub fn download(&self) -> u32
        ensures { result ≡ self.now.download }
    {
        self.download
    }

    /// The size of the DII's blocks in bytes, 1 to [`ddb_block::MOST_BLOCK_SIZE`].
    pub fn block_size(&self) -> u16
        ensures { result ≡ self.now.block_size }
    {
        self.block_size
    }

    /// The place of a module's line. An id outside the lines' range isn't searched for.
    fn place(&self, id: u16) -> Option<usize>
        ensures { result ≡ position (λ x. x.line.id == id) self.now.lines }
    {
        match self.reach {
            Some(reach) if !reach.has(id) => None,
            _ => place_of(&self.lines, id),
        }
    }

    /// The DII lists this module.
    pub(crate) fn lists(&self, id: u16) -> bool
        ensures { result ≡ list_any (λ x. x.line.id == id) self.now.lines }
    {
        self.place(id).is_some()
    }

    /// The place of the line of a block's module, if the DII has the block's downloadId.
    pub(crate) fn place_for(&self, parts: &Parts<'_>) -> Option<usize>
        ensures { result ≡ line_in (parts_view parts.now) self.now }
    {
        if self.download == parts.download {
            self.place(parts.module)
        } else {
            None
        }
    }

    /// The DII's identification: 0 to 32,767.
    pub fn identification(&self) -> u16
        ensures { result ≡ self.now.identification }
    {
        self.identification
    }

    /// The DII's version: 0 to 16,383.
    pub fn version(&self) -> u16
        ensures version { result ≡ self.now.version }
        ensures range { result < 16384 }
    {
        self.version
    }

    /// The DII's lines, in its order.
    pub fn lines(&self) -> &[Line]
        ensures { result.now ≡ self.now.lines }
    {
        &self.lines
    }

    /// The line of a module, the first of its id.
    pub(crate) fn line(&self, id: u16) -> Option<&Line>
        ensures { option_map (λ x. x.now) result ≡ find (λ x. x.line.id == id) self.now.lines }
    {
        self.lines.iter().find(|x| x.line.id == id)
    }

    /// Offers a block to the line at `place`, the line of its module. Only `New` changes anything.
    pub(crate) fn offer_at(
        &mut self,
        place: usize,
        alloc: Global,
        parts: &Parts<'_>,
    ) -> Result<Taken, NoMemory>
        requires { line_in (parts_view parts.now) self.old ≡ Some place }
        ensures answer { IfOk result (λ t. t ≡ taken_tuned self.old (parts_view parts.now)) }
        ensures ok { OnOk result (self.new ≡ tuned_after self.old (parts_view parts.now)) }
        ensures changed { IfOk result (λ t. t ≡ Taken.New → self.new ≢ self.old) }
        ensures err { OnErr result (self.new ≡ self.old) }
        ensures memory { OnErr result (taken_tuned self.old (parts_view parts.now) ≡ Taken.New) }
    {
        let line = &mut self.lines[place];
        if line.line.version != parts.version {
            return Ok(Taken::OtherVersion);
        }
        line.stored.offer(alloc, parts.block, parts.bytes)
    }
}
