ghost use Rattle.std.specs.Prelude.{◌≡◌, ◌↔◌, IsTrue};
ghost use Rattle.path_tree.specs.Paths.{same_name};
ghost use Rattle.path_resolver.specs.Comparing.{same_answer, same_names};

use crate::answer::{Answer, FolderRef};

/// Whether two answers have the same variant, numbers, bytes, and names in order, whichever module
/// or shot has them.
pub fn same(a: &Answer, b: &Answer) -> bool
    ensures equal { IsTrue result ↔ (a.now ≡ b.now) }
    ensures test { result ≡ same_answer a.now b.now }
{
    is_same(a, b)
}

fn is_same(a: &Answer, b: &Answer) -> bool
    ensures { result ≡ same_answer a.now b.now }
{
    match (a, b) {
        (Answer::File(file), Answer::File(other)) => is_same_name(file.bytes(), other.bytes()),
        (Answer::Folder(folder), Answer::Folder(other)) => has_same_names(folder, other),
        (Answer::NoSuch, Answer::NoSuch) => true,
        (Answer::NotYet(module), Answer::NotYet(other)) => module == other,
        (Answer::NoCarousel, Answer::NoCarousel) => true,
        (Answer::Elsewhere, Answer::Elsewhere) => true,
        (Answer::Compressed(module), Answer::Compressed(other)) => module == other,
        (Answer::Bad(module, place), Answer::Bad(other, at)) => module == other && place == at,
        (Answer::Dangling(module), Answer::Dangling(other)) => module == other,
        (Answer::OtherKind(module), Answer::OtherKind(other)) => module == other,
        _ => false,
    }
}

fn has_same_names(a: &FolderRef, b: &FolderRef) -> bool
    ensures { result ≡ same_names a.now b.now }
{
    let count = a.count();
    let others = b.count();
    if count != others {
        return false;
    }
    for i in 0..count {
        let name = a.name(i);
        let other = b.name(i);
        if !is_same_name(name, other) {
            return false;
        }
    }
    true
}

fn is_same_name(a: &[u8], b: &[u8]) -> bool
    ensures { result ≡ same_name a.now b.now }
{
    a == b
}
