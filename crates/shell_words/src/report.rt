//! The texts of a report's lines. They are this project's own.
ghost use Rattle.std.specs.Prelude.{◌∷◌};
ghost use Rattle.std.specs.List.{flat_map};
ghost use Rattle.oc_bytes.specs.Outcome.{Spells};
ghost use Rattle.hex.specs.Hex.{encode_lower};
ghost use Rattle.shell_streams.specs.Sending.{Puts};
ghost use Rattle.shell_words.specs.Reports as texts;

use crate::texts::{answer_text, refusal_text};
use generation_catalogue::Refusal;
use oc_bytes::NoMemory;
use path_resolver::{Answer, FolderRef};
use path_tree::print_name;
use shell_streams::{Output, OutputFault};
use std::alloc::Global;

/// The most bytes of a file whose digits are in memory at once.
const PIECE: usize = 16_384;

// ---- what a line begins with

/// `commit EDITOR`, the editor's number, 1 to 64.
pub fn commit_text(alloc: Global, editor: u32) -> Result<String, NoMemory>
    ensures { Spells result (texts.commit_words editor) }
{
    format!(in alloc; "commit {editor}")
}

/// `draw`.
pub fn draw_text(alloc: Global) -> Result<String, NoMemory>
    ensures { Spells result (texts.draw_words) }
{
    String::from_str(alloc, "draw")
}

/// `open READER`, the reader's number, 1 to 64.
pub fn open_text(alloc: Global, reader: u32) -> Result<String, NoMemory>
    ensures { Spells result (texts.open_words reader) }
{
    format!(in alloc; "open {reader}")
}

// ---- the words of a reply

/// `generation NUMBER`, of a commit that made one.
pub fn committed_text(alloc: Global, number: u64) -> Result<String, NoMemory>
    ensures { Spells result (texts.committed_words number) }
{
    format!(in alloc; "generation {number}")
}

/// `refused CAUSE`, as [`refusal_text`] has it.
pub fn refused_text(alloc: Global, refusal: &Refusal) -> Result<String, NoMemory>
    ensures { Spells result (texts.refused_words refusal.now) }
{
    let refusal = refusal_text(alloc, refusal)?;
    format!(in alloc; "refused {refusal}")
}

/// `GENERATION FIRST COUNT` of a draw. FIRST is the first item's place in its cycle, from 0, and
/// COUNT how many items were drawn.
pub fn drawn_text(
    alloc: Global,
    generation: u64,
    first: u64,
    count: u64,
) -> Result<String, NoMemory>
    ensures { Spells result (texts.drawn_words generation first count) }
{
    format!(in alloc; "{generation} {first} {count}")
}

/// `refused draws-full DRAWS`, how many draws were made already.
pub fn draws_full_text(alloc: Global, draws: u64) -> Result<String, NoMemory>
    ensures { Spells result (texts.draws_full_words draws) }
{
    format!(in alloc; "refused draws-full {draws}")
}

/// `LABEL PATH ANSWER` of an open: the held generation's number or `-`, the path's text, and
/// [`answer_text`].
pub fn opened_text(
    alloc: Global,
    path: &str,
    label: Option<u64>,
    answer: &Answer,
) -> Result<String, NoMemory>
    ensures { Spells result (texts.opened_words label path.now answer.now) }
{
    let answer = answer_text(alloc, answer)?;
    match label {
        Some(label) => format!(in alloc; "{label} {path} {answer}"),
        None => format!(in alloc; "- {path} {answer}"),
    }
}

// ---- what follows them

/// Puts what follows an open's words: after a space a file's bytes in small hexadecimal digits, or
/// `-` for none, or a folder's names, each after a space.
pub fn put_answer_tail<O: Output>(
    alloc: Global,
    answer: &Answer,
    out: &mut O,
) -> Result<(), OutputFault>
    ensures { Puts result (O.state out.old) (O.state out.new) (texts.answer_tail answer.now) }
{
    match answer {
        Answer::File(file) => put_content(alloc, file.bytes(), out),
        Answer::Folder(folder) => put_names(alloc, folder, out),
        _ => Ok(()),
    }
}

fn put_content<O: Output>(alloc: Global, content: &[u8], out: &mut O) -> Result<(), OutputFault>
    ensures { Puts result (O.state out.old) (O.state out.new)
        (32 ∷ texts.content_word content.now) }
{
    if content.is_empty() {
        return out.put(b" -");
    }
    out.put(b" ")?;
    put_digits(alloc, content, out)
}

/// Two for each byte.
fn put_digits<O: Output>(alloc: Global, content: &[u8], out: &mut O) -> Result<(), OutputFault>
    ensures { Puts result (O.state out.old) (O.state out.new) (encode_lower content.now) }
{
    for piece in content.chunks(PIECE) {
        let digits = hex::encode(alloc, piece)?;
        out.put(digits.as_bytes())?;
    }
    Ok(())
}

/// Each after a space.
fn put_names<O: Output>(alloc: Global, folder: &FolderRef, out: &mut O) -> Result<(), OutputFault>
    ensures { Puts result (O.state out.old) (O.state out.new)
        (flat_map texts.spaced_name folder.now) }
{
    for i in 0..folder.count() {
        put_name(alloc, folder.name(i), out)?;
    }
    Ok(())
}

fn put_name<O: Output>(alloc: Global, name: &[u8], out: &mut O) -> Result<(), OutputFault>
    ensures { Puts result (O.state out.old) (O.state out.new) (texts.spaced_name name.now) }
{
    let text = print_name(alloc, name)?;
    out.put(b" ")?;
    out.put(text.as_bytes())
}
