//! The report of what has happened: a line for each event.
ghost use Rattle.std.specs.Prelude.{◌++◌, ◌∷◌, map, string_bytes, IfOk, OnOk};
ghost use Rattle.oc_bytes.specs.Outcome.{Spells};
ghost use Rattle.carousel_world.specs.Events as events;
ghost use Rattle.shell_streams.specs.Sending.{Puts, IsFlushed};
ghost use Rattle.rehearsal.specs.Reports as texts;

use carousel_world::{Event, Reply};
use oc_bytes::NoMemory;
use shell_streams::{Output, OutputFault};
use shell_words::{
    commit_text, committed_text, draw_text, drawn_text, draws_full_text, open_text, opened_text,
    put_answer_tail, refused_text,
};
use std::alloc::Global;

/// Puts a line for each event with its reply, in order, and writes what is pending. After `Failed`
/// and `NoMemory` a prefix of these lines was written.
pub fn put_report<O: Output>(
    alloc: Global,
    told: &[(Event, Reply)],
    out: &mut O,
) -> Result<(), OutputFault>
    ensures puts { Puts result (O.state out.old) (O.state out.new)
        (texts.report (map (λ x. events.view x.0) told.now) (map (λ x. x.1) told.now)) }
    ensures empty { OnOk result (IsFlushed (O.state out.new)) }
{
    for one in told {
        put_told(alloc, one, out)?;
    }
    out.flush()
}

/// Puts the line of one event.
fn put_told<O: Output>(alloc: Global, told: &(Event, Reply), out: &mut O) -> Result<(), OutputFault>
    ensures { Puts result (O.state out.old) (O.state out.new)
        (texts.report_line (events.view told.now.0) told.now.1) }
{
    let subject = Subject::of(alloc, &told.0)?;
    put_line(alloc, &subject, &told.1, out)
}

/// What the line of an event says of the event. It is taken before the event happens, which uses
/// the event up.
#[derive(Drop)]
pub(crate) struct Subject {
    /// The words that the line begins with.
    words: String,
    /// The path that is opened, as text, and else nothing.
    path: String,
}

impl Subject {
    ghost use Rattle.rehearsal.specs.Inner.{Tells};

    /// Out of memory is the only refusal.
    pub(crate) fn of(alloc: Global, event: &Event) -> Result<Subject, NoMemory>
        ensures { IfOk result (λ s. Tells s (events.view event.now)) }
    {
        let words = match event {
            Event::Commit { editor, .. } => commit_text(alloc, *editor)?,
            Event::Draw { .. } => draw_text(alloc)?,
            Event::Open { reader, .. } => open_text(alloc, *reader)?,
        };
        let path = match event {
            Event::Open { path, .. } => path.print()?,
            _ => String::new(alloc),
        };
        Ok(Subject { words, path })
    }
}

/// Puts the line of an event and its reply. A file's digits and a folder's names are put piece by
/// piece.
pub(crate) fn put_line<O: Output>(
    alloc: Global,
    subject: &Subject,
    reply: &Reply,
    out: &mut O,
) -> Result<(), OutputFault>
    ensures { Puts result (O.state out.old) (O.state out.new)
        (texts.line_of (string_bytes subject.now.words) (string_bytes subject.now.path) reply.now) }
{
    let words = front_words(alloc, subject, reply)?;
    out.put(words.as_bytes())?;
    put_tail(alloc, reply, out)?;
    out.put(b"\n")
}

/// Puts what follows the words of a reply: a file's bytes, or a folder's names.
fn put_tail<O: Output>(alloc: Global, reply: &Reply, out: &mut O) -> Result<(), OutputFault>
    ensures { Puts result (O.state out.old) (O.state out.new) (texts.reply_tail reply.now) }
{
    match reply {
        Reply::Opened { label: _, answer } => put_answer_tail(alloc, answer, out),
        _ => Ok(()),
    }
}

/// The words of a line up to a file's digits or a folder's names.
fn front_words(alloc: Global, subject: &Subject, reply: &Reply) -> Result<String, NoMemory>
    ensures { Spells result
        (string_bytes subject.now.words
        ++ 32 ∷ texts.reply_words (string_bytes subject.now.path) reply.now) }
{
    let path = subject.path.as_str();
    let reply = match reply {
        Reply::Committed(number) => committed_text(alloc, *number)?,
        Reply::Refused(refusal) => refused_text(alloc, refusal)?,
        Reply::Drawn {
            generation,
            first,
            count,
        } => drawn_text(alloc, *generation, *first, *count)?,
        Reply::DrawsFull(draws) => draws_full_text(alloc, *draws)?,
        Reply::Opened { label, answer } => opened_text(alloc, path, *label, answer)?,
    };
    let words = subject.words.as_str();
    format!(in alloc; "{words} {reply}")
}
