//! Laws of all trees and edits, each the contract of a function that does nothing.
ghost use Rattle.path_tree.specs.Edits.{OthersStay};
ghost use Rattle.path_tree.specs.Files.{FilesStayTheSame, LookupsStayTheSame};
ghost use Rattle.path_tree.specs.Laws.{NestingsAreTheirEntries, TreesAreNestings};

/// A path that no edit of a list names maps to the same, or to nothing, before and after all of
/// them.
pub fn others_stay()
    ensures { OthersStay }
{}

/// On a tree of files alone, puts and removals give the tree or fault that they would give without
/// kept folders.
pub fn files_stay_the_same()
    ensures { FilesStayTheSame }
{}

/// On a tree of files alone, a look-up answers as it would without kept folders.
pub fn lookups_stay_the_same()
    ensures { LookupsStayTheSame }
{}

/// As folders in folders a tree has the same entries, and a look-up walks down it.
pub fn trees_are_nestings()
    ensures { TreesAreNestings }
{}

/// Folders in folders are those of their entries.
pub fn nestings_are_their_entries()
    ensures { NestingsAreTheirEntries }
{}
