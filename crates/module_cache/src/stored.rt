//! What is there of one module of a held DII.

ghost use Rattle.std.specs.Prelude.{◌≡◌, ◌≢◌, ◌≤◌, ◌<◌, ℕ, IfOk, IfErr, OnOk, OnErr};
ghost use Rattle.std.specs.Arc.{arc_value};
ghost use Rattle.block_assembler.specs.Blocks.{IsAssembled};
ghost use Rattle.module_cache.specs.Contents.{taken_again, taken_at, taken_in, stored_after, content_after, fresh_content, has_block, Blocks};
ghost use Rattle.ddb_block.specs.Blocks.{block_count_of};
ghost use Rattle.ddb_block.specs.declared.TheConstants.{MOST_BLOCKS};
ghost use Rattle.module_cache.specs.StoredView.{view_state};
ghost use Rattle.module_cache.specs.Inner.Fitting.{taken_there};
ghost use Rattle.module_cache.specs.Inner.StoredView.{IsShaped, IsState};
ghost use Rattle.module_cache.specs.Contents as contents;
ghost use Rattle.module_cache.specs.Slots.{view_slot, slot_of};

use crate::taken::{Slot, Taken};
use biop_object::Module;
use block_assembler::{Assembler, NewFault, Offer};
use ddb_block::{block_count, block_span};
use dsi_dii::ModuleLine;
use oc_bytes::NoMemory;
use std::alloc::{AllocError, Global};
use std::marker::Model;
use std::mem;
use std::sync::Arc;

#[derive(Drop)]
enum State {
    /// The module is compressed: nothing of it is taken.
    Packed,
    /// No block has come, and no memory is taken.
    Empty,
    /// Some blocks have come.
    Part(Assembler),
    Whole(Arc<Module>),
}

/// What is there of a module. The memory for its bytes is taken when its first block comes.
#[derive(Drop)]
pub struct Stored {
    size: u32,
    block_size: u16,
    state: State,
}

impl Model for Stored {
    ghost use Rattle.module_cache.specs.Contents.{StoredState};

    ghost Value = { StoredState };

    ghost use Rattle.module_cache.specs.StoredView.{view_stored};
    ghost use Rattle.module_cache.specs.Inner.StoredView.{IsStored};

    ghost view = { view_stored };

    ghost invariant = { IsStored };
}

/// Why a block isn't one of a module's.
enum Misfit {
    WrongPlace,
    WrongLength,
}

impl From<Misfit> for Taken {
    ghost use Rattle.module_cache.specs.Inner.Fitting.{taken_misfit};

    ghost from_gives = { λ misfit t. t ≡ taken_misfit misfit };

    fn from(misfit: Misfit) -> Taken {
        match misfit {
            Misfit::WrongPlace => Taken::WrongPlace,
            Misfit::WrongLength => Taken::WrongLength,
        }
    }
}

/// A line of a held DII, and what is there of its module.
#[derive(Drop)]
pub struct Line {
    pub line: ModuleLine,
    pub stored: Stored,
}

/// The module of these bytes, which are handed back where there is no memory for the index.
fn module_of(alloc: Global, bytes: Vec<u8>) -> Result<Arc<Module>, (NoMemory, Vec<u8>)>
    ensures ok { IfOk result (λ m. arc_value m ≡ bytes.items) }
    ensures err { IfErr result (λ e. e.1.items ≡ bytes.items) }
{
    let module = Module::read(alloc, bytes)?;
    match Arc::new(alloc, module) {
        Ok(module) => Ok(module),
        Err(failed) => Err((AllocError, failed.value.into_bytes())),
    }
}

/// The state after a block came: the whole module if no block is missing. The assembler is handed
/// back if there is no memory for that.
fn settled(alloc: Global, assembler: Assembler) -> Result<State, (NoMemory, Assembler)>
    ensures view { IfOk result (λ s.
        view_state assembler.size assembler.block_size s ≡ contents.content_of assembler.blocks) }
    ensures shape { IfOk result (λ s.
        (size block_size : ℕ) → IsShaped size block_size assembler → IsState size block_size s) }
    ensures err { IfErr result (λ e. e.1 ≡ assembler) }
{
    match assembler.finish() {
        Err(assembler) => Ok(State::Part(assembler)),
        Ok((bytes, left)) => match module_of(alloc, bytes) {
            Ok(module) => Ok(State::Whole(module)),
            Err((error, bytes)) => Err((error, left.refill(bytes))),
        },
    }
}

/// The block has a place in the module, and that place's length.
fn fit_of(size: u32, block_size: u16, block: u16, bytes: &[u8]) -> Result<(), Misfit>
    requires { 1 ≤ block_size }
    ensures { taken_there result ≡ taken_again size block_size block bytes.now }
{
    if u32::from(block) >= block_count(size, block_size) {
        return Err(Misfit::WrongPlace);
    }
    if bytes.len() != usize::from(block_span(size, block_size, block)) {
        return Err(Misfit::WrongLength);
    }
    Ok(())
}

/// What an assembler answers to a block, and the state after it. If there is no memory for the
/// whole module, the block is missing again.
fn offer_to(
    alloc: Global,
    mut assembler: Assembler,
    block: u16,
    bytes: &[u8],
) -> (Result<Taken, NoMemory>, State)
    ensures answer { IfOk result.0 (λ t.
        t ≡ taken_at assembler.size assembler.block_size (Blocks assembler.blocks) block
        bytes.now) }
    ensures after { OnOk result.0
        (view_state assembler.size assembler.block_size result.1
        ≡ content_after assembler.size assembler.block_size (Blocks assembler.blocks) block
        bytes.now) }
    ensures shape { (size block_size : ℕ)
        → IsShaped size block_size assembler
        → IsState size block_size result.1 }
    ensures changed { IfOk result.0 (λ t.
        t ≡ Taken.New
        → (size block_size : ℕ)
        → IsShaped size block_size assembler
        → view_state size block_size result.1 ≢ Blocks assembler.blocks) }
    ensures err { OnErr result.0 (result.1 ≡ State.Part assembler) }
    ensures memory { OnErr result.0
        (taken_at assembler.size assembler.block_size (Blocks assembler.blocks) block bytes.now
        ≡ Taken.New) }
{
    match assembler.offer(block, bytes) {
        Offer::WrongPlace => return (Ok(Taken::WrongPlace), State::Part(assembler)),
        Offer::WrongLength => return (Ok(Taken::WrongLength), State::Part(assembler)),
        Offer::Again => return (Ok(Taken::Again), State::Part(assembler)),
        Offer::New => {}
    }
    match settled(alloc, assembler) {
        Ok(state) => (Ok(Taken::New), state),
        Err((error, mut assembler)) => {
            assembler.forget(block);
            (Err(error), State::Part(assembler))
        }
    }
}

/// What a module's first block answers, and the state after it. One that doesn't fit takes no
/// memory.
fn begun(
    alloc: Global,
    size: u32,
    block_size: u16,
    block: u16,
    bytes: &[u8],
) -> Result<(Taken, State), NoMemory>
    requires { IsAssembled size block_size }
    ensures answer { IfOk result (λ r.
        r.0 ≡ taken_at size block_size (view_state size block_size State.Empty) block bytes.now) }
    ensures after { IfOk result (λ r.
        view_state size block_size r.1
        ≡ content_after size block_size (view_state size block_size State.Empty) block bytes.now) }
    ensures shape { IfOk result (λ r. IsState size block_size r.1) }
    ensures changed { IfOk result (λ r.
        r.0 ≡ Taken.New → view_state size block_size r.1 ≢ view_state size block_size State.Empty) }
    ensures memory { OnErr result
        (taken_at size block_size (view_state size block_size State.Empty) block bytes.now
        ≡ Taken.New) }
{
    if let Err(misfit) = fit_of(size, block_size, block, bytes) {
        return Ok((Taken::from(misfit), State::Empty));
    }
    let assembler = match Assembler::new(alloc, size, block_size) {
        Ok(assembler) => assembler,
        Err(NewFault::NoMemory) => return Err(AllocError),
        Err(NewFault::NoBlockSize) => unreachable!(),
        Err(NewFault::TooLarge) => unreachable!(),
    };
    let (taken, state) = offer_to(alloc, assembler, block, bytes);
    Ok((taken?, state))
}

/// The state of a module of which nothing has come yet.
#[tactic(auto, using(crate::proofs::Offers::fresh_whole, crate::proofs::Offers::fresh_blocks))]
fn fresh_state(
    alloc: Global,
    size: u32,
    block_size: u16,
    compressed: bool,
) -> Result<State, NoMemory>
    requires { 1 ≤ block_size }
    ensures view { IfOk result (λ s.
        view_state size block_size s ≡ fresh_content size block_size compressed) }
    ensures shape { IfOk result (λ s. IsState size block_size s) }
{
    if compressed {
        return Ok(State::Packed);
    }
    if block_count(size, block_size) == 0 {
        return match module_of(alloc, Vec::new(alloc)) {
            Ok(module) => Ok(State::Whole(module)),
            Err((error, _bytes)) => Err(error),
        };
    }
    Ok(State::Empty)
}

impl Stored {
    /// A module of `size` bytes in blocks of `block_size` bytes, of which nothing has come yet. One
    /// without bytes is whole at once.
    pub(crate) fn new(
        alloc: Global,
        size: u32,
        block_size: u16,
        compressed: bool,
    ) -> Result<Stored, NoMemory>
        requires { IsAssembled size block_size }
        ensures { IfOk result (λ s.
            s ≡ record {
              size = size;
              block_size = block_size;
              content = fresh_content size block_size
                  compressed;
            }) }
    {
        let state = fresh_state(alloc, size, block_size, compressed)?;
        Ok(Stored {
            size,
            block_size,
            state,
        })
    }

    /// What is there of the module. Takes no memory.
    pub fn slot(&self) -> Slot<'_>
        ensures { view_slot result ≡ slot_of self.now.content }
    {
        match &self.state {
            State::Packed => Slot::Compressed,
            State::Empty => Slot::Partial,
            State::Part(_) => Slot::Partial,
            State::Whole(module) => Slot::Whole(module),
        }
    }

    /// How many blocks the module has, 0 to 65,536. Takes no memory.
    pub fn block_count(&self) -> u32
        ensures count { result ≡ block_count_of self.now.size self.now.block_size }
        ensures few { result ≤ MOST_BLOCKS }
    {
        block_count(self.size, self.block_size)
    }

    /// Block number `block` is there, for a number below the number of blocks. Takes no memory.
    pub fn is_there(&self, block: u16) -> bool
        ensures { result ≡ has_block self.now.content block }
    {
        match &self.state {
            State::Packed => false,
            State::Empty => false,
            State::Part(assembler) => assembler.is_there(block),
            State::Whole(_) => true,
        }
    }

    /// Offers a block. Only `New` changes anything.
    pub(crate) fn offer(
        &mut self,
        alloc: Global,
        block: u16,
        bytes: &[u8],
    ) -> Result<Taken, NoMemory>
        ensures answer { IfOk result (λ t. t ≡ taken_in self.old block bytes.now) }
        ensures ok { OnOk result (self.new ≡ stored_after self.old block bytes.now) }
        ensures changed { IfOk result (λ t. t ≡ Taken.New → self.new ≢ self.old) }
        ensures err { OnErr result (self.new ≡ self.old) }
        ensures memory { OnErr result (taken_in self.old block bytes.now ≡ Taken.New) }
    {
        let (taken, state) = match mem::replace(&mut self.state, State::Empty) {
            State::Packed => (Ok(Taken::Compressed), State::Packed),
            State::Whole(module) => {
                let taken = match fit_of(self.size, self.block_size, block, bytes) {
                    Ok(()) => Taken::Again,
                    Err(misfit) => Taken::from(misfit),
                };
                (Ok(taken), State::Whole(module))
            }
            State::Empty => {
                let (taken, state) = begun(alloc, self.size, self.block_size, block, bytes)?;
                (Ok(taken), state)
            }
            State::Part(assembler) => offer_to(alloc, assembler, block, bytes),
        };
        self.state = state;
        taken
    }
}
