ghost use Rattle.std.specs.Prelude.{◌≡◌, ◌<◌, ◌≤◌, ◌+◌, ◌++◌, ◌∷◌, [], List, ℕ, None, Some, Ok, map, length, get_or, true, false, IfOk, IfSome, IsSome, OnErr};
ghost use Rattle.std.specs.List.{All, Contains};
ghost use Rattle.std.specs.Option.{option_map};
ghost use Rattle.oc_bytes.specs.Outcome.{MakesList};
ghost use Rattle.path_tree.specs.Edits.{apply_all, AreAsBefore};
ghost use Rattle.path_tree.specs.Trees.{Tree};
ghost use Rattle.biop_object.specs.Names.{Layout, module_in};
ghost use Rattle.cycle_planner.specs.Cycle.{AreLines};
ghost use Rattle.dsmcc_section.specs.Sections.{IsFramed};
ghost use Rattle.generation.specs.Layouts.{GenerationState, first_of, next_of, lines_of, lines_in, items_of, section_of, count_in as count_at, ids_counted as ids, counts_after, one_if_changed, layout_of, module_bytes as bytes_in, module_if_used, objects_after, same_module};
ghost use Rattle.generation.specs.Kept.{StandsFor};
ghost use Rattle.generation.specs.Publication.{limit_of};
ghost use Rattle.generation.specs.Objects.{object_of};
ghost use Rattle.generation.specs.Inner.Stays.{AreTheirs};
ghost use Rattle.generation.specs.View.{view_listed, IsRising, all_placed, objects_in};
ghost use Rattle.generation.specs.Inner.View.{IsWeighed, AreReady, AreOld, IsMarked, AreMarked, IsSpotIn};
ghost use Rattle.dsi_dii.specs.declared.TheConstants.{LAST_GENERATION, MOST_TOTAL_SIZE};

use crate::control::{block_of_module, dii_section, dsi_section};
use crate::former::{former_of, modules};
use crate::keys::keys;
use crate::limit::{Publishable, Weighed, measure};
use crate::links::{By, gather};
use crate::listing::{Object, list_objects};
use crate::objects::{Objects, Placed, last_module, module_bytes, place_all};
use crate::ordered::{Keys, of_key};
use crate::spots::{Spot, is_equal};
use crate::unchanged::modules_that_stay;
use biop_object::Module;
use carousel_profile::BLOCK_SIZE;
use cycle_planner::Item;
use ddb_block::block_count;
use module_packer::kept_is_a_placement;
use oc_bytes::{Blob, NoMemory};
use path_tree::{Edit, Tree, edited_entries};
use std::alloc::Global;
use std::marker::Model;

/// The bytes of a module under its id.
#[derive(Drop)]
pub(crate) struct Listed {
    pub(crate) id: u16,
    pub(crate) bytes: Blob,
    /// Whether the generation before listed the id with the same bytes.
    pub(crate) stays: bool,
}

/// One published tree: its objects in modules, and what is sent of them.
///
/// A generation is seen by contracts as its carousel, number, tree, objects, layout (module ids with the bytes of each,
/// by rising id) and counts. Each later generation is made of the one before by `next`.
#[derive(Drop)]
pub struct Generation {
    alloc: Global,
    carousel: u32,
    number: u64,
    objects: Objects,
    modules: Vec<Listed>,
    lines: Vec<(u16, u32)>,
    counts: Vec<u64>,
}

impl Model for Generation {
    ghost use Rattle.cycle_planner.specs.Cycle.{AreLines};
    ghost use Rattle.dsmcc_section.specs.Sections.{IsFramed};
    ghost use Rattle.generation.specs.Layouts.{GenerationState};

    ghost Value = { GenerationState };

    ghost use Rattle.generation.specs.View.{view_generation};
    ghost use Rattle.generation.specs.Inner.View.{IsMade};

    ghost view = { view_generation };

    ghost invariant = { IsMade };
}

impl Generation {
    /// Generation 0 of a carousel, with the empty tree: the gateway alone, in module 1, and no module counted yet.
    ///
    /// `carousel` is the carousel's id, any 32-bit number. The only refusal is out of memory.
    #[tactic(auto, using(crate::proofs::Spotting::gateway_valid))]
    pub fn first(alloc: Global, carousel: u32) -> Result<Generation, NoMemory>
        ensures first { IfOk result (λ g. g ≡ first_of carousel) }
        ensures stands { IfOk result (λ g. StandsFor g []) }
    {
        let tree = Tree::empty(alloc);
        let gateway = Placed {
            spot: Spot::GATEWAY,
            key: 1,
            module: 1,
        };
        let weighed = measure(alloc, &tree)?;
        let objects = place_tree(alloc, &[gateway], &Tree::empty(alloc), tree, &weighed)?;
        let modules = modules_of(alloc, carousel, &objects, &[], &[])?;
        let lines = lines_of_modules(alloc, &modules)?;
        Ok(Generation {
            alloc,
            carousel,
            number: 0,
            objects,
            modules,
            lines,
            counts: Vec::new(alloc),
        })
    }

    /// The generation after this one, with another tree.
    ///
    /// An object whose path and kind are in this generation keeps its key, and stays in its module as far as there is room.
    /// A module whose bytes are as before is shared with this generation. The tree has to pass `check`, and this generation's number has to be below [`dsi_dii::LAST_GENERATION`]. The
    /// only refusal is out of memory.
    pub fn next(&self, tree: Tree) -> Result<Generation, NoMemory>
        requires tree { limit_of tree ≡ None }
        requires number { self.now.number < LAST_GENERATION }
        ensures stands { IfOk result (λ g.
            (trees : List Tree) → StandsFor self.now trees → StandsFor g (trees ++ tree ∷ [])) }
        ensures exact { IfOk result (λ g. g ≡ next_of self.now tree) }
    {
        let weighed = measure(self.alloc, &tree)?;
        self.renewed(Publishable { tree, weighed }, &[])
    }

    /// The generation that `next` makes of a tree that `checked` let pass, whose objects and sizes aren't worked out again.
    /// This generation's number has to be below [`dsi_dii::LAST_GENERATION`]. The only refusal is out of memory.
    pub fn next_checked(&self, tree: Publishable) -> Result<Generation, NoMemory>
        requires number { self.now.number < LAST_GENERATION }
        ensures stands { IfOk result (λ g.
            (trees : List Tree) → StandsFor self.now trees → StandsFor g (trees ++ tree ∷ [])) }
        ensures exact { IfOk result (λ g. g ≡ next_of self.now tree) }
    {
        self.renewed(tree, &[])
    }

    /// The generation after this one, with the tree that the edits make of this one's.
    ///
    /// It is the generation that `next` makes of that tree, for less work: the objects and their sizes are those that
    /// `checked` worked out, and where a module has the same files as here, in the same order, and no edit names any of
    /// them, its bytes are neither made nor compared. This generation's number has to be below
    /// [`dsi_dii::LAST_GENERATION`]. The only refusal is out of memory.
    pub fn next_after(&self, tree: Publishable, edits: &[Edit]) -> Result<Generation, NoMemory>
        requires number { self.now.number < LAST_GENERATION }
        requires edits { apply_all self.now.tree edits.now ≡ Ok tree }
        ensures stands { IfOk result (λ g.
            (trees : List Tree) → StandsFor self.now trees → StandsFor g (trees ++ tree ∷ [])) }
        ensures exact { IfOk result (λ g. g ≡ next_of self.now tree) }
    {
        let named = edited_entries(self.alloc, tree.tree(), edits)?;
        self.renewed(tree, &named)
    }

    /// The generation after this one. A file of the tree that has a flag which is off is as before.
    #[tactic(auto, using(crate::proofs::Sharing::are_theirs, crate::proofs::Placing::old_placed))]
    fn renewed(&self, tree: Publishable, flags: &[bool]) -> Result<Generation, NoMemory>
        requires number { self.now.number < LAST_GENERATION }
        requires flags { AreAsBefore self.now.tree tree flags.now }
        ensures stands { IfOk result (λ g.
            (trees : List Tree) → StandsFor self.now trees → StandsFor g (trees ++ tree ∷ [])) }
        ensures exact { IfOk result (λ g. g ≡ next_of self.now tree) }
    {
        let Publishable { tree, weighed } = tree;
        let before = &self.objects;
        let objects = place_tree(self.alloc, &before.all, &before.tree, tree, &weighed)?;
        let staying = modules_that_stay(self.alloc, before, &objects, flags)?;
        let modules = modules_of(self.alloc, self.carousel, &objects, &self.modules, &staying)?;
        let counts = counts_next(self.alloc, &modules, &self.counts)?;
        let lines = lines_of_modules(self.alloc, &modules)?;
        Ok(Generation {
            alloc: self.alloc,
            carousel: self.carousel,
            number: self.number + 1,
            objects,
            modules,
            lines,
            counts,
        })
    }

    /// The generation's number, from 0 to 16,383.
    pub fn number(&self) -> u64
        ensures { result ≡ self.now.number }
    {
        self.number
    }

    /// The tree that the generation publishes.
    pub fn tree(&self) -> &Tree
        ensures { result.now ≡ self.now.tree }
    {
        &self.objects.tree
    }

    /// The objects in the order of paths, each with the module that it lies in. The only refusal is out of memory.
    pub fn objects(&self) -> Result<Vec<Object>, NoMemory>
        ensures { MakesList result (map object_of self.now.objects) }
    {
        list_objects(self.alloc, &self.objects.tree, &self.objects.all)
    }

    /// The modules' ids, from 1 to [`module_groups::GREATEST_ID`] and rising, each with its number of
    /// blocks of [`BLOCK_SIZE`] bytes. There is at least one, and each block's number is one of 16 bits.
    pub fn lines(&self) -> &[(u16, u32)]
        ensures exact { result.now ≡ lines_of self.now }
        ensures lines { AreLines result.now }
    {
        &self.lines
    }

    /// The bytes of the module of an id, or none where the generation doesn't list the id.
    pub fn module_bytes(&self, id: u16) -> Option<&[u8]>
        ensures { option_map (λ bytes. bytes.now) result ≡ module_in self.now.layout id }
    {
        let bytes = find_module(&self.modules, id)?;
        Some(bytes.bytes())
    }

    /// The module of an id with its index, which is made of the kept bytes at each call, or none where the generation
    /// doesn't list the id. The only refusal is out of memory, and comes only where it lists the id.
    pub fn module(&self, id: u16) -> Result<Option<Module>, NoMemory>
        ensures reads { IfOk result (λ m. m ≡ module_in self.now.layout id) }
        ensures no_memory { OnErr result (IsSome (module_in self.now.layout id)) }
    {
        let Some(bytes) = self.module_bytes(id) else {
            return Ok(None);
        };
        let bytes = Vec::from_slice(self.alloc, bytes)?;
        match Module::read(self.alloc, bytes) {
            Ok(module) => Ok(Some(module)),
            Err((fault, _)) => Err(fault),
        }
    }

    /// How often the module of an id was new or had other bytes, up to this generation. The module's version in the DII
    /// that lists it is this count modulo 256.
    pub fn count(&self, id: u16) -> u64
        ensures { result ≡ count_at self.now.counts id }
    {
        count_in(&self.counts, usize::from(id))
    }

    /// The section of one of the generation's items: the DSI, the DII of a group that has one, or a block
    /// of a listed module whose number is below the module's number of blocks. Each DII has the version of
    /// the generation. A stream of sections can be cut by it. The only refusal is out of memory.
    pub fn section(&self, item: Item) -> Result<Vec<u8>, NoMemory>
        requires { Contains (items_of self.now) item }
        ensures exact { MakesList result (section_of self.now item) }
        ensures framed { IfOk result (λ bytes. IsFramed bytes.items) }
    {
        match item {
            Item::Dsi => dsi_section(self.alloc, self.carousel),
            Item::Dii(group) => dii_section(
                self.alloc,
                self.carousel,
                self.number,
                group,
                &self.modules,
                &self.counts,
            ),
            Item::Block(id, block) => block_of_module(
                self.alloc,
                self.carousel,
                &self.modules,
                &self.counts,
                id,
                block,
            ),
        }
    }
}

/// A tree with its objects, whose keys and modules are those after the objects of another tree.
fn place_tree(
    alloc: Global,
    old: &[Placed],
    old_tree: &Tree,
    tree: Tree,
    weighed: &Weighed,
) -> Result<Objects, NoMemory>
    requires tree { limit_of tree ≡ None }
    requires weighed { IsWeighed tree weighed.now }
    requires spots { All (λ o. IsSpotIn old_tree.now o.spot) old.now }
    requires old { AreOld (all_placed old_tree.now old.now) }
    ensures tree { IfOk result (λ o. o.tree ≡ tree) }
    ensures objects { IfOk result (λ o.
        objects_in o ≡ objects_after (all_placed old_tree.now old.now) tree) }
    ensures ready { IfOk result AreReady }
{
    kept_is_a_placement();
    let former = former_of(alloc, old, old_tree, &weighed.spots, &tree)?;
    let ids = modules(alloc, &weighed.sizes, &former.modules)?;
    let keys = keys(alloc, &former.keys)?;
    let all = place_all(alloc, &weighed.spots, &keys, &ids)?;
    let folders = gather(alloc, By::Folder, &all)?;
    let modules = gather(alloc, By::Module, &all)?;
    Ok(Objects {
        tree,
        all,
        folders,
        modules,
    })
}

/// The modules of objects, each shared with the one of its id before where that has the same bytes. A module whose flag
/// is on is known to have them.
fn modules_of(
    alloc: Global,
    carousel: u32,
    objects: &Objects,
    before: &[Listed],
    staying: &[bool],
) -> Result<Vec<Listed>, NoMemory>
    requires ready { AreReady objects.now }
    requires before { IsRising (map view_listed before.now) }
    requires staying { AreTheirs carousel (objects_in objects.now)
        (map view_listed before.now) staying.now }
    ensures layout { IfOk result (λ v.
        map view_listed v.items ≡ layout_of carousel (objects_in objects.now)) }
    ensures stays { IfOk result (λ v. AreMarked (map view_listed before.now) v.items) }
    ensures rising { IfOk result (λ v. IsRising (map view_listed v.items)) }
    ensures sizes { IfOk result (λ v. All (λ l. length l.bytes ≤ MOST_TOTAL_SIZE) v.items) }
    ensures lines { IfOk result (λ v. AreLines (lines_in (map view_listed v.items))) }
{
    let mut modules = Vec::new(alloc);
    for below in 0..last_module(&objects.all) {
        if let Some(listed) = listed_at(alloc, carousel, objects, before, staying, below + 1)? {
            modules.push(listed)?;
        }
    }
    Ok(modules)
}

/// The module of an id, where an object lies in it.
fn listed_at(
    alloc: Global,
    carousel: u32,
    objects: &Objects,
    before: &[Listed],
    staying: &[bool],
    id: u16,
) -> Result<Option<Listed>, NoMemory>
    requires ready { AreReady objects.now }
    requires before { IsRising (map view_listed before.now) }
    requires staying { AreTheirs carousel (objects_in objects.now)
        (map view_listed before.now) staying.now }
    ensures listed { IfOk result (λ l.
        option_map view_listed l ≡ module_if_used carousel (objects_in objects.now) id) }
    ensures stays { IfOk result (λ l. IfSome l (IsMarked (map view_listed before.now))) }
{
    if objects.in_module(id).is_empty() {
        return Ok(None);
    }
    let listed = used_at(alloc, carousel, objects, before, staying, id)?;
    Ok(Some(listed))
}

/// The module of an id, whose objects lie in it.
fn used_at(
    alloc: Global,
    carousel: u32,
    objects: &Objects,
    before: &[Listed],
    staying: &[bool],
    id: u16,
) -> Result<Listed, NoMemory>
    requires ready { AreReady objects.now }
    requires before { IsRising (map view_listed before.now) }
    requires staying { AreTheirs carousel (objects_in objects.now)
        (map view_listed before.now) staying.now }
    ensures listed { IfOk result (λ l.
        view_listed l ≡ (id, bytes_in carousel (objects_in objects.now) id)) }
    ensures stays { IfOk result (IsMarked (map view_listed before.now)) }
{
    if let Some(bytes) = staying_module(before, staying, id) {
        return shared(id, bytes);
    }
    let bytes = module_bytes(alloc, carousel, objects, id)?;
    module_after(alloc, before, id, bytes)
}

/// The module of an id that shares the bytes of the one before.
fn shared(id: u16, bytes: &Blob) -> Result<Listed, NoMemory>
    ensures listed { IfOk result (λ l. view_listed l ≡ (id, bytes.now)) }
    ensures stays { IfOk result (λ l.
        (before : Layout) → module_in before id ≡ Some bytes.now → IsMarked before l) }
{
    Ok(Listed {
        id,
        bytes: bytes.share()?,
        stays: true,
    })
}

/// The module of an id before, if it is known to stay.
fn staying_module<'a>(before: &'a [Listed], staying: &[bool], id: u16) -> Option<&'a Blob>
    requires { IsRising (map view_listed before.now) }
    ensures { IfSome result (λ b.
        (get_or staying.now id false ≡ true)
        × (module_in (map view_listed before.now) id ≡ Some b.now)) }
{
    if is_on(staying, usize::from(id)) {
        find_module(before, id)
    } else {
        None
    }
}

/// Whether a flag is there and on.
pub(crate) fn is_on(flags: &[bool], place: usize) -> bool
    ensures { result ≡ get_or flags.now place false }
{
    place < flags.len() && flags[place]
}

/// The module of an id with these bytes: the one before, where it has them, and else a new one.
fn module_after(
    alloc: Global,
    before: &[Listed],
    id: u16,
    bytes: Vec<u8>,
) -> Result<Listed, NoMemory>
    requires { IsRising (map view_listed before.now) }
    ensures listed { IfOk result (λ l. view_listed l ≡ (id, bytes.items)) }
    ensures stays { IfOk result (IsMarked (map view_listed before.now)) }
{
    if let Some(before) = find_module(before, id) {
        if is_equal(before.bytes(), &bytes) {
            return shared(id, before);
        }
    }
    Ok(Listed {
        id,
        bytes: Blob::new(alloc, bytes)?,
        stays: false,
    })
}

/// The bytes of the module of an id among these, which rise by id.
pub(crate) fn find_module(modules: &[Listed], id: u16) -> Option<&Blob>
    requires { IsRising (map view_listed modules.now) }
    ensures { option_map (λ b. b.now) result ≡ module_in (map view_listed modules.now) id }
{
    match find_listed(modules, usize::from(id)) {
        Some(listed) => Some(&listed.bytes),
        None => None,
    }
}

/// The module of an id among these, which rise by id. It is found by halves.
fn find_listed(modules: &[Listed], id: usize) -> Option<&Listed>
    requires { IsRising (map view_listed modules.now) }
    ensures bytes { option_map (λ l. l.bytes) (option_map (λ l. l.now) result)
        ≡ module_in (map view_listed modules.now) id }
    ensures marked { (before : Layout)
        → AreMarked before modules.now
        → IfSome (option_map (λ l. l.now) result) (λ l.
        l.stays ≡ same_module (module_in before id) (Some l.bytes)) }
{
    of_key(&ById, modules, id as u128).first()
}

/// Modules by their ids.
struct ById;

impl Keys<Listed> for ById {
    ghost key = { λ _ l. l.id };

    fn key(&self, listed: &Listed) -> u128 {
        u128::from(listed.id)
    }
}

/// How often the module of each id has changed: once more where it is listed, and is new or has other
/// bytes.
fn counts_next(alloc: Global, modules: &[Listed], counts: &[u64]) -> Result<Vec<u64>, NoMemory>
    requires counts { All (λ n. n < LAST_GENERATION) counts.now }
    requires rising { IsRising (map view_listed modules.now) }
    ensures { IfOk result (λ v. (before : Layout)
        → AreMarked before modules.now
        → v.items ≡ counts_after before (map view_listed modules.now) counts.now) }
{
    let end = ids_counted(modules, counts);
    let mut after = Vec::with_capacity(alloc, end)?;
    for id in 0..end {
        after.push(count_in(counts, id) + changes(modules, id))?;
    }
    Ok(after)
}

/// Once, where the module of an id is listed, and is new or has other bytes.
fn changes(modules: &[Listed], id: usize) -> u64
    requires { IsRising (map view_listed modules.now) }
    ensures changes { (before : Layout)
        → AreMarked before modules.now
        → result
        ≡ one_if_changed (module_in before id) (module_in (map view_listed modules.now) id) }
    ensures once { result ≤ 1 }
{
    match find_listed(modules, id) {
        Some(listed) if !listed.stays => 1,
        _ => 0,
    }
}

/// How many ids are counted, from 0 on.
fn ids_counted(modules: &[Listed], counts: &[u64]) -> usize
    ensures { result ≡ ids (map view_listed modules.now) counts.now }
{
    let mut end = counts.len();
    for listed in modules {
        end = end.max(usize::from(listed.id) + 1);
    }
    end
}

/// The count of an id, 0 where it isn't counted.
pub(crate) fn count_in(counts: &[u64], id: usize) -> u64
    ensures { result ≡ count_at counts.now id }
{
    if id < counts.len() { counts[id] } else { 0 }
}

/// Each module with its number of blocks.
fn lines_of_modules(alloc: Global, modules: &[Listed]) -> Result<Vec<(u16, u32)>, NoMemory>
    requires { All (λ l. length l.bytes ≤ MOST_TOTAL_SIZE) modules.now }
    ensures { MakesList result (lines_in (map view_listed modules.now)) }
{
    let mut lines = Vec::new(alloc);
    for listed in modules {
        lines.push((
            listed.id,
            block_count(listed.bytes.bytes().len() as u32, BLOCK_SIZE),
        ))?;
    }
    Ok(lines)
}
