ghost use Rattle.std.specs.Prelude.{◌≡◌, ◌<◌, ◌≤◌, ◌⊎◌, ◌++◌, ◌∷◌, [], List, ℕ, Some, None, Ok, IfOk, IfErr, MatchResult, IsErrOf, length};
ghost use Rattle.std.specs.Option.{option_map, is_none, is_some};
ghost use Rattle.std.specs.List.{position};
ghost use Rattle.ddb_block.specs.Blocks.{block_count_of};
ghost use Rattle.block_assembler.specs.Blocks.{StandsFor, block_in, Call, Offered, Forgotten, empty_of, offer_of, after_offer, after_forget, join_all, refilled, IsAssembled};
ghost use Rattle.block_assembler.specs.declared.NewFault.TheVariants.{NoMemory as OutOfMemory};

use crate::put::put;
use crate::{MOST_MODULE_SIZE, NewFault, Offer};
use ddb_block::{MOST_BLOCK_SIZE, MOST_BLOCKS, block_count, block_span};
use std::alloc::{AllocError, Global};
use std::marker::Model;

impl From<AllocError> for NewFault {
    ghost from_gives = { λ _ e. e ≡ OutOfMemory };

    fn from(_e: AllocError) -> NewFault {
        NewFault::NoMemory
    }
}

/// A module that comes block by block.
///
/// Contracts see its size, its block size, and for each place the block that is there.
#[derive(Drop)]
pub struct Assembler {
    size: u32,
    block_size: u16,
    // They reach as far as the blocks that came; from the start there is room for the whole module.
    bytes: Vec<u8>,
    there: Vec<bool>,
    missing: u32,
}

impl Model for Assembler {
    ghost use Rattle.block_assembler.specs.Blocks.{AssemblerState};

    ghost Value = { AssemblerState };

    ghost use Rattle.block_assembler.specs.Kept.{view_assembler};
    ghost use Rattle.block_assembler.specs.Inner.Kept.{IsKept};

    ghost view = { view_assembler };

    ghost invariant = { IsKept };
}

/// What is left of an assembler whose bytes [`Assembler::finish`] gave away.
///
/// Contracts see the module's size and block size.
#[derive(Drop)]
pub struct Emptied {
    size: u32,
    block_size: u16,
    there: Vec<bool>,
}

impl Model for Emptied {
    ghost use Rattle.block_assembler.specs.Blocks.{EmptiedState};

    ghost Value = { EmptiedState };

    ghost use Rattle.block_assembler.specs.Kept.{view_emptied};
    ghost use Rattle.block_assembler.specs.Inner.Kept.{IsEmptied};

    ghost view = { view_emptied };

    ghost invariant = { IsEmptied };
}

impl Assembler {
    /// An assembler of a module of `size` bytes, 0 to [`MOST_MODULE_SIZE`], in blocks of `block_size` bytes, 1 to
    /// [`MOST_BLOCK_SIZE`]. Every block is missing; a module of size 0 has no block, and is whole at once.
    ///
    /// `NoBlockSize` comes for any other block size, `TooLarge` for any other size, or where there are more than
    /// [`MOST_BLOCKS`] blocks. Memory is asked for only where neither is the case, and by no later call.
    pub fn new(alloc: Global, size: u32, block_size: u16) -> Result<Assembler, NewFault>
        ensures made { IfOk result (λ a. a ≡ empty_of size block_size) }
        ensures stands { IfOk result (λ a. StandsFor a size block_size []) }
        ensures fits { IfOk result (λ _. IsAssembled size block_size) }
        ensures no_block_size { IsErrOf result NewFault.NoBlockSize
            → (block_size ≡ 0) ⊎ (MOST_BLOCK_SIZE < block_size) }
        ensures too_large { IsErrOf result NewFault.TooLarge
            → (0 < block_size)
            × (block_size ≤ MOST_BLOCK_SIZE)
            × ((MOST_MODULE_SIZE < size) ⊎ (MOST_BLOCKS < block_count_of size block_size)) }
        ensures no_memory { IsErrOf result NewFault.NoMemory → IsAssembled size block_size }
    {
        if block_size == 0 || block_size > MOST_BLOCK_SIZE {
            return Err(NewFault::NoBlockSize);
        }
        let blocks = block_count(size, block_size);
        if size > MOST_MODULE_SIZE || blocks > MOST_BLOCKS {
            return Err(NewFault::TooLarge);
        }
        let bytes = Vec::with_capacity(alloc, size as usize)?;
        let there = vec![in alloc; false; blocks as usize]?;
        Ok(Assembler {
            size,
            block_size,
            bytes,
            there,
            missing: blocks,
        })
    }

    /// Offers the bytes of block number `block`. Only `New` changes anything. Takes no memory: the bytes are copied once,
    /// to their place in the module.
    pub fn offer(&mut self, block: u16, bytes: &[u8]) -> Offer
        ensures answer { result ≡ offer_of self.old block bytes.now }
        ensures after { self.new ≡ after_offer self.old block bytes.now }
        ensures stands { (calls : List Call) (size block_size : ℕ)
            → StandsFor self.old size block_size calls
            → StandsFor self.new size block_size (calls ++ Offered block bytes.now ∷ []) }
    {
        let place = usize::from(block);
        if place >= self.there.len() {
            return Offer::WrongPlace;
        }
        if bytes.len() != usize::from(block_span(self.size, self.block_size, block)) {
            return Offer::WrongLength;
        }
        if self.there[place] {
            return Offer::Again;
        }
        put(&mut self.bytes, place * usize::from(self.block_size), bytes);
        self.there[place] = true;
        self.missing -= 1;
        Offer::New
    }

    /// Makes block number `block` missing again, which has to be below the number of blocks, and changes nothing else.
    pub fn forget(&mut self, block: u16)
        requires { block < block_count_of self.old.size self.old.block_size }
        ensures after { self.new ≡ after_forget self.old block }
        ensures stands { (calls : List Call) (size block_size : ℕ)
            → StandsFor self.old size block_size calls
            → StandsFor self.new size block_size (calls ++ Forgotten block ∷ []) }
    {
        let place = usize::from(block);
        if self.there[place] {
            self.there[place] = false;
            self.missing += 1;
        }
    }

    /// The module's bytes, exactly where no block is missing.
    pub fn whole(&self) -> Option<&[u8]>
        ensures { option_map (λ b. b.now) result ≡ join_all self.now.blocks }
    {
        if self.missing == 0 {
            Some(&self.bytes)
        } else {
            None
        }
    }

    /// The module's bytes, exactly where no block is missing, and else the assembler as it was. With the bytes comes what is left
    /// of the assembler, from which [`Emptied::refill`] makes it again. The bytes aren't copied, and no memory is taken.
    pub fn finish(self) -> Result<(Vec<u8>, Emptied), Assembler>
        ensures bytes { MatchResult result (λ r. join_all self.blocks ≡ Some r.0.items) (λ _.
            join_all self.blocks ≡ None) }
        ensures emptied { IfOk result (λ r. self ≡ refilled r.1 r.0.items) }
        ensures size { IfOk result (λ r. length r.0.items ≡ r.1.size) }
        ensures same { IfErr result (λ a. a ≡ self) }
    {
        if self.missing > 0 {
            return Err(self);
        }
        let left = Emptied {
            size: self.size,
            block_size: self.block_size,
            there: self.there,
        };
        Ok((self.bytes, left))
    }

    /// Whether block number `block` is there. A module has no block above its last one, so that it isn't there.
    pub fn is_there(&self, block: u16) -> bool
        ensures { result ≡ is_some (block_in self.now.blocks block) }
    {
        let place = usize::from(block);
        if place >= self.there.len() {
            return false;
        }
        self.there[place]
    }

    /// The least number of a block that is missing, if any is.
    pub fn first_missing(&self) -> Option<u16>
        ensures { result ≡ position is_none self.now.blocks }
    {
        for (place, there) in self.there.iter().enumerate() {
            if !*there {
                return Some(place as u16);
            }
        }
        None
    }
}

impl Emptied {
    /// The assembler with these bytes, which have to be as many as the module has; no block is missing. With the bytes that
    /// [`Assembler::finish`] gave it is the assembler that was. The bytes aren't copied, and no memory is taken.
    pub fn refill(self, bytes: Vec<u8>) -> Assembler
        requires { length bytes.items ≡ self.size }
        ensures whole { join_all result.blocks ≡ Some bytes.items }
        ensures blocks { result ≡ refilled self bytes.items }
    {
        Assembler {
            size: self.size,
            block_size: self.block_size,
            bytes,
            there: self.there,
            missing: 0,
        }
    }
}
