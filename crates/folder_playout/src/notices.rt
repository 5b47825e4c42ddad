ghost use Rattle.std.specs.Prelude.{◌≡◌, ◌++◌, ◌∷◌, [], List, length};
ghost use Rattle.std.specs.List.{sum_by};
ghost use Rattle.std.specs.Option.{unwrap_or};
ghost use Rattle.oc_bytes.specs.Outcome.{cap_at_u64};
ghost use Rattle.biop_object.specs.Names.{module_in};
ghost use Rattle.folder_playout.specs.Notices.{Notice, Began, bytes_changed, bytes_if_changed, difference_of, files_changed, is_changed, kept_notices, modules_changed, one_if, one_if_changed, one_if_gone, one_if_other};

use crate::reading::Unread;
use generation::Generation;
use path_tree::{Entry, Path, Tree};

/// Who is told of generations on the air. It has no answer.
pub trait Notices {
    ghost use Rattle.std.specs.Prelude.{List};
    ghost use Rattle.folder_playout.specs.Notices.{Notice};

    /// From the first value to the second exactly these notices were given, in order.
    ghost told: { Self → Self → List Notice → Type 0 };

    /// A generation goes on the air with this cycle, from 1. `difference` is from the generation
    /// before.
    fn began(&mut self, number: u64, cycle: u32, difference: Difference)
        ensures { (start : Self) (before : List Notice)
            → told start self.old before
            → told start self.new (before ++ Began number cycle difference ∷ []) };

    /// The generation stays on the air at this cycle, from 1, because no tree was read.
    fn kept(&mut self, number: u64, cycle: u32, cause: &Unread)
        ensures { (start : Self) (before : List Notice)
            → told start self.old before
            → told start self.new (before ++ kept_notices number cycle cause.now) };
}

/// What a receiver fetches again for the next generation. Each number is at most its type's
/// greatest.
#[derive(Clone, Copy, Debug, PartialEq, Eq)]
pub struct Difference {
    /// That are new, gone or have other bytes.
    pub files: u64,
    /// That are new or have another version.
    pub modules: u64,
    /// Bytes in these modules.
    pub bytes: u64,
}

/// In what a generation differs from the one before.
pub fn compared(before: &Generation, now: &Generation) -> Difference
    ensures { result ≡ difference_of before.now now.now }
{
    Difference {
        files: files_that_differ(before.tree(), now.tree()),
        modules: modules_that_differ(before, now),
        bytes: bytes_that_differ(before, now),
    }
}

/// New, gone or with other bytes.
fn files_that_differ(before: &Tree, now: &Tree) -> u64
    ensures { result ≡ cap_at_u64 (files_changed before.now now.now) }
{
    files_that_are_other(before, now).saturating_add(files_that_are_gone(before, now))
}

fn files_that_are_other(before: &Tree, now: &Tree) -> u64
    ensures { result ≡ cap_at_u64 (sum_by (one_if_other before.now) now.now) }
{
    let mut total = 0u64;
    for entry in now.entries() {
        total = total.saturating_add(u64::from(is_other(before, entry)));
    }
    total
}

fn files_that_are_gone(before: &Tree, now: &Tree) -> u64
    ensures { result ≡ cap_at_u64 (sum_by (one_if_gone now.now) before.now) }
{
    let mut total = 0u64;
    for entry in before.entries() {
        total = total.saturating_add(u64::from(is_gone(now, entry)));
    }
    total
}

/// Whether it is a file that `tree` lacks with these bytes.
fn is_other(tree: &Tree, entry: &(Path, Entry)) -> bool
    ensures { one_if result ≡ one_if_other tree.now entry.now }
{
    match &entry.1 {
        Entry::File(content) => match tree.content(&entry.0) {
            Some(there) => there.bytes() != content.bytes(),
            None => true,
        },
        Entry::Folder => false,
    }
}

/// Whether it is a file that `tree` lacks.
fn is_gone(tree: &Tree, entry: &(Path, Entry)) -> bool
    ensures { one_if result ≡ one_if_gone tree.now entry.now }
{
    entry.1.is_file() && tree.content(&entry.0).is_none()
}

/// New or with another version.
fn modules_that_differ(before: &Generation, now: &Generation) -> u64
    ensures { result ≡ cap_at_u64 (modules_changed before.now now.now) }
{
    let mut total = 0u64;
    for line in now.lines() {
        total = total.saturating_add(u64::from(has_changed(before, now, line.0)));
    }
    total
}

fn bytes_that_differ(before: &Generation, now: &Generation) -> u64
    ensures { result ≡ cap_at_u64 (bytes_changed before.now now.now) }
{
    let mut total = 0u64;
    for line in now.lines() {
        total = total.saturating_add(size_if_changed(before, now, line.0));
    }
    total
}

fn size_if_changed(before: &Generation, now: &Generation, id: u16) -> u64
    ensures { result ≡ bytes_if_changed before.now now.now (id, 0) }
{
    if has_changed(before, now, id) {
        return size_of(now, id);
    }
    0
}

fn has_changed(before: &Generation, now: &Generation, id: u16) -> bool
    ensures { result ≡ is_changed before.now now.now id }
{
    now.count(id) != before.count(id)
}

/// 0 if there is no such module.
fn size_of(generation: &Generation, id: u16) -> u64
    ensures { result ≡ length (unwrap_or (module_in generation.now.layout id) []) }
{
    match generation.module_bytes(id) {
        Some(bytes) => bytes.len() as u64,
        None => 0,
    }
}

/// Nobody.
#[derive(Clone, Copy, Debug, Drop)]
pub struct NoNotices;

impl Notices for NoNotices {
    ghost told = { λ _ _ _. Unit {0} };

    fn began(&mut self, _number: u64, _cycle: u32, _difference: Difference) {}

    fn kept(&mut self, _number: u64, _cycle: u32, _cause: &Unread) {}
}
