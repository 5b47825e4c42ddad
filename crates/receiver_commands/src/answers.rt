ghost use Rattle.std.specs.Prelude.{◌≡◌, ◌&&◌, ◌++◌, IfOk, OnOk};
ghost use Rattle.std.specs.List.{list_all, flat_map};
ghost use Rattle.shell_streams.specs.Sending.{Puts, IsFlushed};
ghost use Rattle.shell_words.specs.Texts as texts;
ghost use Rattle.receiver_commands.specs.Open.{AllAnswers};

use path_resolver::{Answer, FolderRef, Shot, resolve};
use path_tree::{Path, print_name};
use shell_streams::{Output, OutputFault};
use shell_words::answered_text;
use std::alloc::Global;

/// Who answers paths.
pub trait Answerer {
    ghost use Rattle.receiver_commands.specs.Open.{AllAnswers};

    /// All its answers.
    ghost answers: { Self → AllAnswers → Type 0 };

    /// Puts the answer to one path, and says whether it is a file or a folder.
    fn put_answer<O: Output>(
        &self,
        alloc: Global,
        path: &Path,
        out: &mut O,
    ) -> Result<bool, OutputFault>
        ensures found { IfOk result (λ found.
            (answer : AllAnswers)
            → answers self.now answer
            → found ≡ texts.is_found (answer path.now)) }
        ensures puts { (answer : AllAnswers)
            → answers self.now answer
            → Puts result (O.state out.old) (O.state out.new) (texts.open_entry answer path.now) };
}

impl Answerer for Shot {
    ghost use Rattle.std.specs.Prelude.{◌≡◌};
    ghost use Rattle.path_resolver.specs.Resolving.{answer_of};
    ghost use Rattle.path_resolver.specs.Shots.{held_of};

    ghost answers = { λ shot answer. answer ≡ answer_of (held_of shot) };

    fn put_answer<O: Output>(
        &self,
        alloc: Global,
        path: &Path,
        out: &mut O,
    ) -> Result<bool, OutputFault> {
        let answer = resolve(self, path)?;
        put_entry(alloc, path, &answer, out)
    }
}

/// Writes the answers in order, and says whether each is a file or a folder.
pub fn write_answers<A: Answerer, O: Output>(
    alloc: Global,
    answerer: &A,
    paths: &[Path],
    out: &mut O,
) -> Result<bool, OutputFault>
    ensures found { IfOk result (λ all.
        (answer : AllAnswers)
        → A.answers answerer.now answer
        → all ≡ list_all (λ p. texts.is_found (answer p)) paths.now) }
    ensures puts { (answer : AllAnswers)
        → A.answers answerer.now answer
        → Puts result (O.state out.old) (O.state out.new) (texts.open_text answer paths.now) }
    ensures empty { OnOk result (IsFlushed (O.state out.new)) }
{
    let mut all = true;
    for path in paths {
        let found = answerer.put_answer(alloc, path, out)?;
        all = both(all, found);
    }
    out.flush()?;
    Ok(all)
}

pub(crate) fn both(one: bool, other: bool) -> bool
    ensures { result ≡ (one && other) }
{
    one && other
}

/// The path's line, and what follows it.
pub(crate) fn put_entry<O: Output>(
    alloc: Global,
    path: &Path,
    answer: &Answer,
    out: &mut O,
) -> Result<bool, OutputFault>
    ensures found { IfOk result (λ found. found ≡ texts.is_found answer.now) }
    ensures puts { Puts result (O.state out.old) (O.state out.new)
        (texts.answered_line path.now answer.now ++ texts.tail_of answer.now) }
{
    put_line(alloc, path, answer, out)?;
    put_tail(alloc, answer, out)?;
    Ok(is_found(answer))
}

pub(crate) fn put_line<O: Output>(
    alloc: Global,
    path: &Path,
    answer: &Answer,
    out: &mut O,
) -> Result<(), OutputFault>
    ensures { Puts result (O.state out.old) (O.state out.new)
        (texts.answered_line path.now answer.now) }
{
    let line = answered_text(alloc, path, answer)?;
    out.put(line.as_bytes())
}

/// A file's bytes and a line feed, or a folder's names, each on a line.
fn put_tail<O: Output>(alloc: Global, answer: &Answer, out: &mut O) -> Result<(), OutputFault>
    ensures { Puts result (O.state out.old) (O.state out.new) (texts.tail_of answer.now) }
{
    match answer {
        Answer::File(file) => put_bytes_line(file.bytes(), out),
        Answer::Folder(folder) => put_names(alloc, folder, out),
        _ => Ok(()),
    }
}

fn put_bytes_line<O: Output>(bytes: &[u8], out: &mut O) -> Result<(), OutputFault>
    ensures { Puts result (O.state out.old) (O.state out.new) (texts.line bytes.now) }
{
    out.put(bytes)?;
    out.put(b"\n")
}

fn put_names<O: Output>(alloc: Global, folder: &FolderRef, out: &mut O) -> Result<(), OutputFault>
    ensures { Puts result (O.state out.old) (O.state out.new)
        (flat_map texts.name_line folder.now) }
{
    for i in 0..folder.count() {
        put_name(alloc, folder.name(i), out)?;
    }
    Ok(())
}

pub(crate) fn put_name<O: Output>(
    alloc: Global,
    name: &[u8],
    out: &mut O,
) -> Result<(), OutputFault>
    ensures { Puts result (O.state out.old) (O.state out.new) (texts.name_line name.now) }
{
    let text = print_name(alloc, name)?;
    put_bytes_line(text.as_bytes(), out)
}

pub(crate) fn is_found(answer: &Answer) -> bool
    ensures { result ≡ texts.is_found answer.now }
{
    matches!(answer, Answer::File(_) | Answer::Folder(_))
}
