//! Lines on what was written, and on what was passed over.

ghost use Rattle.std.specs.Prelude.{◌≡◌, ◌++◌, ◌∷◌, [], IfOk, codes};
ghost use Rattle.std.specs.List.{list_all};
ghost use Rattle.oc_bytes.specs.Outcome.{Spells};
ghost use Rattle.path_tree.specs.Texts.{is_name, text_of};
ghost use Rattle.shell_streams.specs.Sending.{Puts};
ghost use Rattle.shell_words.specs.Texts.{answered_line, line as line_of};
ghost use Rattle.folder_extract.specs.Telling.{entry_line, more_unless, passed_of, unnamed_lines};

use crate::naming::{can_stand_above, is_path_name};
use oc_bytes::NoMemory;
use path_resolver::{Answer, FolderRef};
use path_tree::{Path, print_name};
use shell_streams::{Output, OutputFault};
use shell_words::answered_text;
use std::alloc::Global;

/// Puts the line of a file or a folder that was written, with its length or its number of names.
pub(crate) fn put_entry<O: Output>(
    alloc: Global,
    kind: &str,
    path: &Path,
    number: usize,
    out: &mut O,
) -> Result<(), OutputFault>
    ensures { Puts result (O.state out.old) (O.state out.new)
        (entry_line kind.now path.now number) }
{
    let line = entry_text(alloc, kind, path, number)?;
    out.put(line.as_bytes())
}

fn entry_text(alloc: Global, kind: &str, path: &Path, number: usize) -> Result<String, NoMemory>
    ensures { Spells result (entry_line kind.now path.now number) }
{
    let place = path.print()?;
    let place = place.as_str();
    format!(in alloc; "{kind} {place} {number}\n")
}

/// Puts the line of a path that is neither a file nor a folder.
pub(crate) fn put_answer<O: Output>(
    alloc: Global,
    path: &Path,
    answer: &Answer,
    out: &mut O,
) -> Result<(), OutputFault>
    ensures { Puts result (O.state out.old) (O.state out.new) (answered_line path.now answer.now) }
{
    let line = answered_text(alloc, path, answer)?;
    out.put(line.as_bytes())
}

/// Puts the line of a path that was passed over; nothing, where it is below one that was.
pub(crate) fn put_passed_path<O: Output>(
    alloc: Global,
    path: &Path,
    out: &mut O,
) -> Result<(), OutputFault>
    ensures { Puts result (O.state out.old) (O.state out.new) (passed_of path.now) }
{
    if !can_stand_above(path) {
        return Ok(());
    }
    let text = path.print()?;
    put_passed(alloc, text.as_str(), out)
}

/// Puts the line of each name of a folder that no path can have, and says whether there is none.
pub(crate) fn put_unnamed<O: Output>(
    alloc: Global,
    path: &Path,
    names: &FolderRef,
    out: &mut O,
) -> Result<bool, OutputFault>
    ensures all { IfOk result (λ all. all ≡ list_all is_name names.now) }
    ensures puts { Puts result (O.state out.old) (O.state out.new)
        (unnamed_lines path.now names.now) }
{
    let mut all = true;
    for i in 0..names.count() {
        let name = names.name(i);
        if !is_path_name(name) {
            all = false;
            let text = text_below(alloc, path, name)?;
            put_passed(alloc, text.as_str(), out)?;
        }
    }
    Ok(all)
}

/// The text of a path and one name more, whatever its bytes are.
fn text_below(alloc: Global, path: &Path, name: &[u8]) -> Result<String, NoMemory>
    ensures { Spells result (text_of (path.now ++ name.now ∷ [])) }
{
    let mut text = if path.len() == 0 {
        String::new(alloc)
    } else {
        path.print()?
    };
    let name = print_name(alloc, name)?;
    text.push('/')?;
    text.push_str(name.as_str())?;
    Ok(text)
}

/// Puts the line of a path text that was passed over.
fn put_passed<O: Output>(alloc: Global, text: &str, out: &mut O) -> Result<(), OutputFault>
    ensures { Puts result (O.state out.old) (O.state out.new)
        (line_of (codes "passed " ++ text.now)) }
{
    let line = passed_text(alloc, text)?;
    out.put(line.as_bytes())
}

fn passed_text(alloc: Global, text: &str) -> Result<String, NoMemory>
    ensures { Spells result (line_of (codes "passed " ++ text.now)) }
{
    format!(in alloc; "passed {text}\n")
}

/// The line after those of the paths: `more` where these aren't all.
pub(crate) fn last_line(whole: bool) -> &'static [u8]
    ensures { result.now ≡ more_unless whole }
{
    if whole { b"" } else { b"more\n" }
}
