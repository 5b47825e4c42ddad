ghost use Rattle.std.specs.Prelude.{◌≡◌, ◌≢◌, ◌<◌, ◌++◌, ◌∷◌, ◌==◌, ◌&&◌, not, if◌then◌else◌, [], List, map, length, true, IsTrue, IfSome, IfOk, OnOk, OnErr};
ghost use Rattle.std.specs.List.{position, list_any};
ghost use Rattle.ddb_block.specs.Blocks.{parts_view, view};
ghost use Rattle.dsi_dii.specs.Controls.{DiiFields, view_dii};
ghost use Rattle.module_cache.specs.Joining as limits;
ghost use Rattle.module_cache.specs.Joining.{no_id_twice, empty, joining, joined, turned, outline_held, is_there, is_apart, is_any, taken_unlisted, taken_held, taken_of, taken_among, offered_held, offered, slot_from, slot_at, slot_among};
ghost use Rattle.module_cache.specs.Held.{fresh_tuned};
ghost use Rattle.module_cache.specs.Inner.Joining.{without};
ghost use Rattle.module_cache.specs.Inner.Placing.{line_from};
ghost use Rattle.module_cache.specs.Calls.{Call, Turned, Joined, Offered, StandsFor, turns_of, itself};
ghost use Rattle.module_cache.specs.Slots.{view_slot};

use crate::taken::{Slot, Taken};
use crate::tuned::Tuned;
use ddb_block::{Ddb, Parts};
use dsi_dii::Dii;
use oc_bytes::NoMemory;
use std::alloc::Global;
use std::marker::Model;
use std::mem;

/// The modules of the held DIIs, whole or in part, and what waits for a DII of its identification.
///
/// Several DIIs may describe one generation, each with an identification of its own. The first one
/// turns: it takes the place of all that were held. The others join it.
///
/// Contracts see the held DIIs in the order of arrival, each with what is there of its modules, and
/// the DIIs whose modules wait. `StandsFor` relates this to the calls that led to it.
#[derive(Drop)]
pub struct Cache {
    alloc: Global,
    held: Vec<Tuned>,
    waiting: Vec<Tuned>,
}

impl Model for Cache {
    ghost use Rattle.module_cache.specs.Joining.{CacheState};

    ghost Value = { CacheState };

    ghost use Rattle.module_cache.specs.CacheView.{view_cache};
    ghost use Rattle.module_cache.specs.Inner.CacheView.{IsCache};

    ghost view = { view_cache };

    ghost invariant = { IsCache };
}

/// The place of the first DII of an identification.
fn place_of(tuned: &[Tuned], identification: u16) -> Option<usize>
    ensures { result ≡ position (λ t. t.identification == identification) tuned.now }
{
    tuned
        .iter()
        .position(|t| t.identification() == identification)
}

/// Moves what waits of the DII's identification into it.
fn take_over(tuned: &mut Tuned, waiting: &mut Vec<Tuned>)
    ensures tuned { (d : DiiFields)
        → tuned.old ≡ fresh_tuned d
        → no_id_twice d.modules ≡ true
        → tuned.new ≡ joining waiting.old.items d }
    ensures waiting { waiting.new.items ≡ without tuned.old.identification waiting.old.items }
{
    match place_of(waiting, tuned.identification()) {
        Some(place) => tuned.keep(waiting.remove(place)),
        None => {}
    }
}

/// What waits from now on.
fn kept_or_none(alloc: Global, before: Vec<Tuned>, keep: bool) -> Vec<Tuned>
    ensures { result.items ≡ (if keep then before.items else []) }
{
    if keep { before } else { Vec::new(alloc) }
}

/// The place of the first held DII that has a line for the block, and that of the line.
fn place_of_line(held: &[Tuned], parts: &Parts<'_>) -> Option<(usize, usize)>
    ensures found { result ≡ line_from (parts_view parts.now) 0 held.now }
    ensures inside { IfSome result (λ p. p.0 < length held.now) }
{
    for (place, tuned) in held.iter().enumerate() {
        if let Some(line) = tuned.place_for(parts) {
            return Some((place, line));
        }
    }
    None
}

/// A held DII has this download.
fn has_download(held: &[Tuned], download: u32) -> bool
    ensures { result ≡ list_any (λ t. t.download == download) held.now }
{
    held.iter().any(|t| t.download() == download)
}

/// What a block of this download answers that no held DII has a line for.
fn refusal(held: &[Tuned], download: u32) -> Taken
    ensures { result
        ≡ taken_unlisted (is_any held.now) (list_any (λ t. t.download == download) held.now) }
{
    if held.is_empty() {
        return Taken::NoDii;
    }
    if has_download(held, download) {
        return Taken::Unlisted;
    }
    Taken::OtherDownload
}

/// Offers a block to the held DIIs.
fn offer_to(held: &mut [Tuned], alloc: Global, parts: &Parts<'_>) -> Result<Taken, NoMemory>
    ensures answer { IfOk result (λ t. t ≡ taken_held held.old (parts_view parts.now)) }
    ensures ok { OnOk result (held.new ≡ offered_held held.old (parts_view parts.now)) }
    ensures changed { IfOk result (λ t. t ≡ Taken.New → held.new ≢ held.old) }
    ensures err { OnErr result (held.new ≡ held.old) }
    ensures memory { OnErr result (taken_held held.old (parts_view parts.now) ≡ Taken.New) }
{
    match place_of_line(held, parts) {
        Some((place, line)) => held[place].offer_at(line, alloc, parts),
        None => Ok(refusal(held, parts.download)),
    }
}

/// What is there of a module by the first of these DIIs that lists it.
fn slot_in(held: &[Tuned], id: u16) -> Slot<'_>
    ensures { view_slot result ≡ slot_from id held.now }
{
    for tuned in held {
        if let Some(line) = tuned.line(id) {
            return line.stored.slot();
        }
    }
    Slot::Unlisted
}

impl Cache {
    /// A cache that holds no DII.
    pub fn new(alloc: Global) -> Cache
        ensures empty { result ≡ empty }
        ensures stands { StandsFor result [] }
    {
        Cache {
            alloc,
            held: Vec::new(alloc),
            waiting: Vec::new(alloc),
        }
    }

    /// Holds this DII alone from now on. `is_within` tests that it is within the receiver's limits.
    ///
    /// What waited before is dropped. With `keep`, the modules of each DII that was held now wait
    /// under that DII's identification. Without it they are dropped too. Then the DII takes over
    /// what waits under its own identification, as in `join`.
    ///
    /// Memory is asked for before anything changes. Out of memory leaves the cache as it was.
    pub fn turn(&mut self, dii: &Dii, keep: bool) -> Result<(), NoMemory>
        requires { IsTrue (limits.is_within (view_dii dii.now)) }
        ensures ok { OnOk result (self.new ≡ turned self.old (view_dii dii.now) keep) }
        ensures stands { OnOk result ((calls : List Call)
            → StandsFor self.old calls
            → StandsFor self.new (calls ++ Turned (view_dii dii.now) keep ∷ [])) }
        ensures err { OnErr result (self.new ≡ self.old) }
    {
        let tuned = Tuned::new(self.alloc, dii)?;
        let mut held = Vec::with_capacity(self.alloc, 1)?;
        held.push(tuned)?;
        let before = mem::replace(&mut self.held, held);
        self.waiting = kept_or_none(self.alloc, before, keep);
        take_over(&mut self.held[0], &mut self.waiting);
        Ok(())
    }

    /// Holds this DII in addition to those that are held. `is_within`, `is_identification_held` and
    /// `is_apart` test what is required.
    ///
    /// A module that waits under the DII's identification stays, whole or in part, exactly where
    /// both DIIs have the same downloadId and block size and list it with the same version, size
    /// and compression. Every other module begins empty. What waits under other identifications
    /// goes on waiting. Nothing that stays is copied.
    ///
    /// Memory is asked for before anything changes. Out of memory leaves the cache as it was.
    pub fn join(&mut self, dii: &Dii) -> Result<(), NoMemory>
        requires within { IsTrue (limits.is_within (view_dii dii.now)) }
        requires may_join { IsTrue (
            not (is_there (map outline_held self.now.held) (view_dii dii.now))
            && is_apart (map outline_held self.now.held) (view_dii dii.now)) }
        ensures ok { OnOk result (self.new ≡ joined self.old (view_dii dii.now)) }
        ensures stands { OnOk result ((calls : List Call)
            → StandsFor self.old calls
            → StandsFor self.new (calls ++ Joined (view_dii dii.now) ∷ [])) }
        ensures err { OnErr result (self.new ≡ self.old) }
    {
        let tuned = Tuned::new(self.alloc, dii)?;
        self.held.push(tuned)?;
        let last = self.held.len() - 1;
        take_over(&mut self.held[last], &mut self.waiting);
        Ok(())
    }

    /// Offers a block message: `offer_parts` of its parts.
    pub fn offer(&mut self, ddb: &Ddb) -> Result<Taken, NoMemory>
        // the answer and the change, by the block's own rule
        ensures answer { IfOk result (λ t. t ≡ taken_of self.old (view ddb.now)) }
        ensures ok { OnOk result (self.new ≡ offered self.old (view ddb.now)) }
        ensures kept { IfOk result (λ t. t ≢ Taken.New → self.new ≡ self.old) }
        ensures changed { IfOk result (λ t. t ≡ Taken.New → self.new ≢ self.old) }
        // the same, looking back over all calls
        ensures looks_back { IfOk result (λ t.
            (calls : List Call)
            → StandsFor self.old calls
            → t ≡ taken_among itself (turns_of calls) (view ddb.now)) }
        ensures stands { OnOk result ((calls : List Call)
            → StandsFor self.old calls
            → StandsFor self.new (calls ++ Offered (view ddb.now) ∷ [])) }
        // out of memory
        ensures err { OnErr result (self.new ≡ self.old) }
        ensures memory { OnErr result (taken_of self.old (view ddb.now) ≡ Taken.New) }
    {
        self.offer_parts(&Parts {
            download: ddb.download,
            module: ddb.module,
            version: ddb.version,
            block: ddb.block,
            bytes: &ddb.bytes,
        })
    }

    /// Offers a block. The answer is the first case of `Taken` that holds; only `New` changes
    /// anything. The bytes are copied once, to their place in the module. The block that completes
    /// a module makes it whole in the same call.
    ///
    /// Memory is asked for only where the answer would be `New`: for the module's bytes at its
    /// first block, and for its index at its last. Out of memory leaves the cache as it was.
    pub fn offer_parts(&mut self, parts: &Parts<'_>) -> Result<Taken, NoMemory>
        // the answer and the change, by the block's own rule
        ensures answer { IfOk result (λ t. t ≡ taken_of self.old (parts_view parts.now)) }
        ensures ok { OnOk result (self.new ≡ offered self.old (parts_view parts.now)) }
        ensures kept { IfOk result (λ t. t ≢ Taken.New → self.new ≡ self.old) }
        ensures changed { IfOk result (λ t. t ≡ Taken.New → self.new ≢ self.old) }
        // the same, looking back over all calls
        ensures looks_back { IfOk result (λ t.
            (calls : List Call)
            → StandsFor self.old calls
            → t ≡ taken_among itself (turns_of calls) (parts_view parts.now)) }
        ensures stands { OnOk result ((calls : List Call)
            → StandsFor self.old calls
            → StandsFor self.new (calls ++ Offered (parts_view parts.now) ∷ [])) }
        // out of memory
        ensures err { OnErr result (self.new ≡ self.old) }
        ensures memory { OnErr result (taken_of self.old (parts_view parts.now) ≡ Taken.New) }
    {
        offer_to(&mut self.held, self.alloc, parts)
    }

    /// What is there of the module with this id, by the held DII that lists it. Takes no memory.
    pub fn module(&self, id: u16) -> Slot<'_>
        ensures slot { view_slot result ≡ slot_at self.now id }
        ensures looks_back { (calls : List Call)
            → StandsFor self.now calls
            → view_slot result ≡ slot_among itself (turns_of calls) id }
    {
        slot_in(&self.held, id)
    }

    /// The held DIIs in the order of arrival. Takes no memory.
    pub fn held(&self) -> &[Tuned]
        ensures { result.now ≡ self.now.held }
    {
        &self.held
    }
}
