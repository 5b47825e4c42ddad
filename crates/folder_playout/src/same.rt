ghost use Rattle.std.specs.Prelude.{◌≡◌};
ghost use Rattle.folder_playout.specs.OnAir.{same_entry, same_node, same_tree};

use path_tree::{Entry, Path, Tree};

/// The same files and kept folders at the same paths.
pub(crate) fn is_same_tree(tree: &Tree, other: &Tree) -> bool
    ensures { result ≡ same_tree tree.now other.now }
{
    let entries = tree.entries();
    let others = other.entries();
    entries.len() == others.len()
        && entries
            .iter()
            .zip(others.iter())
            .all(|(one, another)| is_same_entry(one, another))
}

fn is_same_entry(one: &(Path, Entry), another: &(Path, Entry)) -> bool
    ensures { result ≡ same_entry one.now another.now }
{
    one.0.is_same(&another.0) && is_same_node(&one.1, &another.1)
}

fn is_same_node(one: &Entry, another: &Entry) -> bool
    ensures { result ≡ same_node one.now another.now }
{
    match (one, another) {
        (Entry::File(content), Entry::File(other)) => content.bytes() == other.bytes(),
        (Entry::Folder, Entry::Folder) => true,
        _ => false,
    }
}
