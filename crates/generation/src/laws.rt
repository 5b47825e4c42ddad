//! What holds of every list of trees and layouts, as functions that do nothing.
ghost use Rattle.std.specs.Prelude.{List};
ghost use Rattle.biop_object.specs.Names.{Layout};
ghost use Rattle.generation.specs.Kept.{GenerationsAreOfTheLists, LayoutsAreLawful};
ghost use Rattle.generation.specs.Standing.{ObjectsAreWhatStands};
ghost use Rattle.generation.specs.Lawful.{EqualCountsMeanEqualBytes, EqualVersionsMeanEqualBytes};

/// The objects of a tree are the gateway, one for each folder, and one for each file: they stand in the order of paths, and
/// there is one at a path exactly where something stands there. A folder is the same object whether it is kept or only
/// leads on. The number of each is its place among them, and all but the gateway have the number of the folder that they
/// stand right in.
#[tactic(auto, using(crate::proofs::Numbering::objects_stand))]
pub fn objects_are_what_stands()
    ensures { ObjectsAreWhatStands }
{}

/// The layouts of a list of trees that can be published are lawful for these trees, generation 0 having the empty tree:
/// in each of them every path names, from the gateway on, just what stands there in the tree, each module reads to its
/// end, every binding leads into a listed module and says, where it says it, by which DII that module is listed, and the
/// limits of this project hold. The modules are those that up to 16 DIIs list, 139 ids each.
///
/// It stands on two laws of the crates below: spellings are read back as their objects, and a placement that leaves
/// objects where they were is a placement.
#[tactic(auto, using(crate::proofs::Assembly::lawful))]
pub fn layouts_are_lawful()
    ensures { LayoutsAreLawful }
{
    biop_object::spellings_read_back();
    module_packer::kept_is_a_placement();
}

/// A generation has the number, the tree, the layout, the counts and the sections that the lists of trees and layouts give,
/// and its items are just the DSI, the DII of each group that has one and each block of each module.
#[tactic(auto, using(crate::proofs::Lists::of_the_lists))]
pub fn generations_are_of_the_lists()
    ensures { GenerationsAreOfTheLists }
{}

/// Over every list of layouts: two generations that count a module alike list it with the same bytes, however far apart they are. A
/// module's version is its count modulo 256.
#[tactic(auto, using(crate::proofs::Counting::equal_counts))]
pub fn equal_counts_mean_equal_bytes()
    ensures { (layouts : List Layout) → EqualCountsMeanEqualBytes layouts }
{}

/// Over every list of layouts: two generations fewer than 256 apart that list a module with the same version list it with
/// the same bytes.
#[tactic(auto, using(crate::proofs::Counting::law_of_256))]
pub fn equal_versions_mean_equal_bytes()
    ensures { (layouts : List Layout) → EqualVersionsMeanEqualBytes layouts }
{}
