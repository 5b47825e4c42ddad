//! The walk over a carousel's paths that writes each into a folder of the outside.

ghost use Rattle.std.specs.Prelude.{◌≡◌, ◌≤◌, ◌∷◌, ◌++◌, [], true, codes, length, if◌then◌else◌, IfOk, OnOk};
ghost use Rattle.std.specs.List.{list_all};
ghost use Rattle.oc_bytes.specs.Outcome.{Faulted};
ghost use Rattle.path_resolver.specs.Shots.{answers_of};
ghost use Rattle.path_tree.specs.Texts.{is_name};
ghost use Rattle.folder_store.specs.Folders.{AFile, AFolder};
ghost use Rattle.folder_store.specs.Walk.{text_below};
ghost use Rattle.shell_streams.specs.Sending.{Puts, IsFlushed};
ghost use Rattle.shell_words.specs.Texts.{answered_line, is_found};
ghost use Rattle.folder_extract.specs.Naming.{can_stand};
ghost use Rattle.folder_extract.specs.Telling.{entry_line, is_whole, is_whole_answer, line_for, listed, passed_of, told_of, unnamed_lines};
ghost use Rattle.folder_extract.specs.Extracting.{Ends, WrotePart, entries_at, entries_for, entries_of};
ghost use Rattle.folder_extract.specs.Inner.Writing.{Takes};

use crate::naming::place_text;
use crate::telling::{last_line, put_answer, put_entry, put_passed_path, put_unnamed};
use folder_store::{Store, StoreFault};
use path_listing::listed_paths;
use path_resolver::{Answer, FileRef, FolderRef, Shot, resolve};
use path_tree::Path;
use shell_streams::{Output, OutputFault};
use std::alloc::Global;

/// How an extraction ended, where neither the output failed nor memory was wanting.
#[derive(Clone, Copy, Debug, PartialEq, Eq)]
pub enum Extracted {
    /// All paths of the listing are files and folders and were written, and each name of the
    /// folders is one of a path.
    All,
    /// The others were written; each that wasn't has its line.
    NotAll,
    /// The store failed at a path. What stands before it in the listing was written or has its
    /// line, and what stands after it wasn't looked at.
    Failed,
}

/// Writes each file and folder of a shot into the folder `folder`, which is made with them. The
/// paths are those of a listing, [`listed_paths`], in its order, and of each a line is put once it
/// is written: `folder PATH COUNT`, where COUNT is the number of the folder's names, or `file PATH
/// LENGTH`, in bytes. Where no file or folder is answered the line is that of the answer,
/// [`answered_text`](shell_words::answered_text).
///
/// A name that can't be that of a file gives the line `passed PATH`, and nothing below it is
/// written or told: `.`, `..`, one that isn't UTF-8, and [`PART_NAME`](folder_store::PART_NAME).
/// So does, right after the line of its folder, each binding of a name that no path can have: an
/// empty one, one of more than 254 bytes, or one with a zero byte or a `/`. After
/// [`MOST_LISTED`](path_listing::MOST_LISTED) paths the line `more` stands where there are others.
///
/// Nothing that stands is written over: where something stands at `folder`, the store fails at the
/// first path. After a fault of the store the lines so far are written. After one of the output,
/// or without memory, a part of the files and folders was written, each file whole, and a part of
/// the lines.
pub fn extract<T: Store, O: Output>(
    alloc: Global,
    shot: &Shot,
    folder: &str,
    store: &mut T,
    out: &mut O,
) -> Result<Extracted, OutputFault>
    ensures part { WrotePart (T.tree store.old) (T.tree store.new)
        (entries_for folder.now (answers_of shot.now) (listed (answers_of shot.now))) }
    ensures ends { Ends folder.now (answers_of shot.now) result (T.tree store.old)
        (T.tree store.new) (Faulted T.faults store.old store.new) (O.state out.old)
        (O.state out.new) }
    ensures later { T.faults store.old ≤ T.faults store.new }
    ensures empty { OnOk result (IsFlushed (O.state out.new)) }
{
    let listing = listed_paths(alloc, shot)?;
    let mut all = listing.whole;
    for path in &listing.paths {
        match extract_path(alloc, shot, folder, path, store, out)? {
            Extracted::All => {}
            Extracted::NotAll => all = false,
            Extracted::Failed => {
                out.flush()?;
                return Ok(Extracted::Failed);
            }
        }
    }
    out.put(last_line(listing.whole))?;
    out.flush()?;
    Ok(all_or_not(all))
}

fn all_or_not(all: bool) -> Extracted
    ensures { result ≡ (if all then Extracted.All else Extracted.NotAll) }
{
    if all {
        Extracted::All
    } else {
        Extracted::NotAll
    }
}

/// Writes what stands at a path, and tells of it.
fn extract_path<T: Store, O: Output>(
    alloc: Global,
    shot: &Shot,
    folder: &str,
    path: &Path,
    store: &mut T,
    out: &mut O,
) -> Result<Extracted, OutputFault>
    ensures takes { Takes (text_below folder.now path.now)
        (entries_at folder.now (answers_of shot.now) path.now)
        (line_for (answers_of shot.now) path.now) (is_whole (answers_of shot.now) path.now) result
        (T.tree store.old) (T.tree store.new) (Faulted T.faults store.old store.new)
        (O.state out.old) (O.state out.new) }
    ensures fails { IfOk result (λ end.
        end ≡ Extracted.Failed
        → (can_stand path.now ≡ true) × (is_found (answers_of shot.now path.now) ≡ true)) }
    ensures later { T.faults store.old ≤ T.faults store.new }
{
    let Some(text) = place_text(alloc, folder, path)? else {
        return pass_over(alloc, path, out);
    };
    let answer = resolve(shot, path)?;
    extract_answer(alloc, path, text.as_str(), &answer, store, out)
}

/// Tells of a path that has no place in the folder.
fn pass_over<O: Output>(alloc: Global, path: &Path, out: &mut O) -> Result<Extracted, OutputFault>
    ensures puts { Puts result (O.state out.old) (O.state out.new) (passed_of path.now) }
    ensures end { IfOk result (λ end. end ≡ Extracted.NotAll) }
{
    put_passed_path(alloc, path, out)?;
    Ok(Extracted::NotAll)
}

/// Writes the answer of a path under its path text, and tells of it.
fn extract_answer<T: Store, O: Output>(
    alloc: Global,
    path: &Path,
    text: &str,
    answer: &Answer,
    store: &mut T,
    out: &mut O,
) -> Result<Extracted, OutputFault>
    ensures takes { Takes text.now (entries_of text.now answer.now) (told_of path.now answer.now)
        (is_whole_answer answer.now) result (T.tree store.old) (T.tree store.new)
        (Faulted T.faults store.old store.new) (O.state out.old) (O.state out.new) }
    ensures fails { IfOk result (λ end. end ≡ Extracted.Failed → is_found answer.now ≡ true) }
    ensures later { T.faults store.old ≤ T.faults store.new }
{
    match answer {
        Answer::File(file) => write_file(alloc, path, text, file, store, out),
        Answer::Folder(names) => write_folder(alloc, path, text, names, store, out),
        _ => tell_answer(alloc, path, answer, out),
    }
}

/// Tells of a path that is neither a file nor a folder.
fn tell_answer<O: Output>(
    alloc: Global,
    path: &Path,
    answer: &Answer,
    out: &mut O,
) -> Result<Extracted, OutputFault>
    ensures puts { Puts result (O.state out.old) (O.state out.new)
        (answered_line path.now answer.now) }
    ensures end { IfOk result (λ end. end ≡ Extracted.NotAll) }
{
    put_answer(alloc, path, answer, out)?;
    Ok(Extracted::NotAll)
}

/// Writes a file under a path text, and tells of it.
fn write_file<T: Store, O: Output>(
    alloc: Global,
    path: &Path,
    text: &str,
    file: &FileRef,
    store: &mut T,
    out: &mut O,
) -> Result<Extracted, OutputFault>
    ensures takes { Takes text.now ((text.now, AFile file.now) ∷ [])
        (entry_line (codes "file") path.now (length file.now)) true result (T.tree store.old)
        (T.tree store.new) (Faulted T.faults store.old store.new) (O.state out.old)
        (O.state out.new) }
    ensures later { T.faults store.old ≤ T.faults store.new }
{
    match store.write_new(alloc, text, file.bytes()) {
        Ok(()) => {}
        Err(StoreFault::Failed) => return Ok(Extracted::Failed),
        Err(StoreFault::NoMemory) => return Err(OutputFault::NoMemory),
    }
    put_entry(alloc, "file", path, file.bytes().len(), out)?;
    Ok(Extracted::All)
}

/// Makes a folder under a path text, and tells of it and of the names in it that no path can have.
fn write_folder<T: Store, O: Output>(
    alloc: Global,
    path: &Path,
    text: &str,
    names: &FolderRef,
    store: &mut T,
    out: &mut O,
) -> Result<Extracted, OutputFault>
    ensures takes { Takes text.now ((text.now, AFolder) ∷ [])
        (entry_line (codes "folder") path.now (length names.now)
        ++ unnamed_lines path.now names.now) (list_all is_name names.now) result
        (T.tree store.old) (T.tree store.new) (Faulted T.faults store.old store.new)
        (O.state out.old) (O.state out.new) }
    ensures later { T.faults store.old ≤ T.faults store.new }
{
    match store.make_folder(alloc, text) {
        Ok(()) => {}
        Err(StoreFault::Failed) => return Ok(Extracted::Failed),
        Err(StoreFault::NoMemory) => return Err(OutputFault::NoMemory),
    }
    put_entry(alloc, "folder", path, names.count(), out)?;
    let all = put_unnamed(alloc, path, names, out)?;
    Ok(all_or_not(all))
}
