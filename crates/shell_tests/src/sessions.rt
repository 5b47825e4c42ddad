//! Sessions on running threads, by the call that runs every command.
ghost use Rattle.std.specs.Prelude.{◌≡◌};

use crate::failing::words;
use crate::meeting::Meeting;
use crate::steps::Steps;
use carousel_shell::run;
use cycle_planner::{GREATEST_ID, Weigh};
use folder_playout::NoNotices;
use folder_store::{MemFolders, MemStore};
use oc_bytes::{MemSink, MemSource};
use section_workers::{Gate, NoGate};
use std::alloc::Global;
use std::sync::Wait;
use std::test::Fail;
use std::thread::Threads;

/// A file that the first editor takes away and then the second, or the other way round: the second
/// of them finds none.
const WORKED: &[u8] =
    b"put 1 /x 31\ncommit 1\ndraw 1048576\nopen 1 /x\nstart\nremove 1 /x\ncommit 1\nremove 2 /x\ncommit 2\nsettle\nfinale 1 /x\n";

/// What is written before `start`.
const BEFORE: &[u8] = b"commit 1 generation 1\ndraw 1 0 3\nopen 1 1 /x file 1 31\n";

/// What is written below it, whichever editor is first.
const FIRST_BEFORE: &[u8] =
    b"commit 1 generation 2\ncommit 2 refused edit 0 no-such-file\ndraw 2 0 3\ndraw 2 0 3\nopen 1 2 /x no-such\n";

const SECOND_BEFORE: &[u8] =
    b"commit 2 generation 2\ncommit 1 refused edit 0 no-such-file\ndraw 2 0 3\ndraw 2 0 3\nopen 1 2 /x no-such\n";

/// An editor makes a folder, which no file takes the place of, and takes it out; below `start`
/// another one, and one in a third.
const FOLDERS: &[u8] =
    b"mkdir 1 /d\ncommit 1\ndraw 1048576\nopen 1 /d\nput 1 /d 31\ncommit 1\nrmdir 1 /d\ncommit 1\nstart\nmkdir 1 /e\nrmdir 1 /e\nmkdir 1 /d/e\ncommit 1\nsettle\nfinale 1 /\nfinale 1 /d/e\n";

/// What is written of it: the one editor's commits are in their order.
const FOLDERS_REPORT: &[u8] =
    b"commit 1 generation 1\ndraw 1 0 3\nopen 1 1 /d folder 0\ncommit 1 refused edit 0 folder-there\ncommit 1 generation 2\ncommit 1 generation 3\ndraw 3 0 3\ndraw 3 0 3\nopen 1 3 / folder 1 d\nopen 1 3 /d/e folder 0\n";

/// Two editors, the feeder and two readers with a step each.
const MEETING: &[u8] = b"commit 1\ncommit 2\ndraw 3\nopen 1 /\nopen 2 /\n";

/// Below `start` the first editor has two lines of edits and a commit, the second a line, a commit
/// and a line that no commit follows; the feeder has two draws, the first reader two opens and the
/// second one.
const STEPPING: &[u8] =
    b"put 1 /a 31\ncommit 1\nput 1 /b 32\ndraw 5\nopen 1 /a\nstart\nput 1 /c 33\nremove 1 /a\ncommit 1\nput 2 /d 34\ncommit 2\nput 2 /e 35\ndraw 3\ndraw 3\nopen 1 /a\nopen 1 /b\nopen 2 /c\nsettle\nfinale 1 /b\nfinale 2 /d\n";

/// The calls of the input and of the output that fail.
#[derive(Clone, Copy)]
struct Failing {
    read: Option<u64>,
    write: Option<u64>,
}

const NONE: Failing = Failing {
    read: None,
    write: None,
};

/// How a session ended.
#[derive(Drop)]
struct Played {
    code: u8,
    sink: MemSink,
}

/// The number of this call, if there is one.
fn calls(alloc: Global, failing: Option<u64>) -> Result<Vec<u64>, Fail> {
    let mut calls = Vec::new(alloc);
    if let Some(call) = failing {
        calls.push(call)?;
    }
    Ok(calls)
}

/// How the command of these words ends on an input that comes in pieces of 20 bytes, where each
/// module is sent once a cycle, and what is written in pieces of 100.
fn outcome<R: Threads + Wait + Sync, G: Gate>(
    rt: &R,
    alloc: Global,
    line: &str,
    script: &[u8],
    failing: Failing,
    gate: &G,
) -> Result<Played, Fail> {
    let words = words(alloc, line)?;
    let reads = calls(alloc, failing.read)?;
    let mut source = MemSource::new(Vec::from_slice(alloc, script)?, reads, 20);
    let mut sink = MemSink::new(alloc, calls(alloc, failing.write)?, 100);
    let mut folders = MemFolders::new(Vec::new(alloc), Vec::new(alloc));
    let mut store = MemStore::new(alloc, Vec::new(alloc));
    let call = Box::new(
        alloc,
        |_id: u16| -> u8
            ensures { result ≡ 1 }
        { 1 },
    )?;
    let weigh = Weigh::new([1; GREATEST_ID], call);
    let status = run(
        rt,
        alloc,
        &words,
        &mut source,
        &mut sink,
        &mut folders,
        &mut store,
        &mut NoNotices,
        gate,
        weigh,
        Vec::new(alloc),
    );
    let code = status.code();
    Ok(Played { code, sink })
}

/// Whether a command ends with this status, and wrote this.
fn is_played<R: Threads + Wait + Sync>(
    rt: &R,
    alloc: Global,
    line: &str,
    script: &[u8],
    code: u8,
    written: &[u8],
) -> Result<bool, Fail> {
    let played = outcome(rt, alloc, line, script, NONE, &NoGate)?;
    Ok(played.code == code && played.sink.written() == written)
}

/// Whether this is the report of the worked script.
fn is_worked(report: &[u8]) -> bool {
    match report.strip_prefix(BEFORE) {
        Some(rest) => rest == FIRST_BEFORE || rest == SECOND_BEFORE,
        None => false,
    }
}

#[test]
fn scripts_are_played(rt: HostRuntime) -> Result<(), Fail> {
    let alloc = rt.alloc();
    let played = outcome(&rt, alloc, "session", WORKED, NONE, &NoGate)?;
    assert!(rt; played.code == 0);
    assert!(rt; is_worked(played.sink.written()));

    assert!(rt; is_played(&rt, alloc, "session", b"", 0, b"")?);
    assert!(rt; is_played(&rt, alloc, "session", FOLDERS, 0, FOLDERS_REPORT)?);
    let bad_line = b"put 1 /x 31\ncommit 1\nopen 1 x\n";
    assert!(rt; is_played(&rt, alloc, "session", bad_line, 3, b"")?);
    assert!(rt; is_played(&rt, alloc, "session 1", WORKED, 2, b"")?);
    assert!(rt; is_played(&rt, alloc, "big 0", b"", 2, b"")?);
    let commit = b"commit 1 generation 1\n";
    assert!(rt; is_played(&rt, alloc, "rehearse", b"commit 1\n", 0, commit)?);
    Ok(())
}

/// How the worked script ends where a call of the input, of the output, or of both fails.
fn failed<R: Threads + Wait + Sync>(
    rt: &R,
    alloc: Global,
    read: Option<u64>,
    write: Option<u64>,
) -> Result<Played, Fail> {
    outcome(
        rt,
        alloc,
        "session",
        WORKED,
        Failing { read, write },
        &NoGate,
    )
}

/// The worked script has 111 bytes, so it takes six reads and one at its end; its report takes two
/// writes.
#[test]
fn each_failing_call_ends_the_session(rt: HostRuntime) -> Result<(), Fail> {
    let alloc = rt.alloc();
    for call in 0..7u64 {
        let played = failed(&rt, alloc, Some(call), None)?;
        assert!(rt; played.code == 4 && played.sink.written().is_empty());
    }
    let first = failed(&rt, alloc, None, Some(0))?;
    assert!(rt; first.code == 5 && first.sink.written().is_empty());
    let second = failed(&rt, alloc, None, Some(1))?;
    assert!(rt; second.code == 5 && second.sink.written().len() == 100);
    assert!(rt; second.sink.written().starts_with(BEFORE));
    let neither = failed(&rt, alloc, Some(7), Some(2))?;
    assert!(rt; neither.code == 0);
    Ok(())
}

/// The counts of size 1 come from sums by hand: 32 files, of which the shortest has 1,000 bytes and
/// each next one 500 more. Those of size 16 are an independent model's.
#[test]
fn a_generated_session_is_counted(rt: HostRuntime) -> Result<(), Fail> {
    let alloc = rt.alloc();
    let small = b"big 1 editors 1 commits 4 files 32 bytes 280000\n";
    assert!(rt; is_played(&rt, alloc, "big 1", WORKED, 0, small)?);
    let large = b"big 16 editors 16 commits 64 files 512 bytes 5680000\n";
    assert!(rt; is_played(&rt, alloc, "big 16", WORKED, 0, large)?);

    let failing = Failing {
        read: Some(0),
        write: Some(0),
    };
    let played = outcome(&rt, alloc, "big 1", b"", failing, &NoGate)?;
    assert!(rt; played.code == 5 && played.sink.written().is_empty());
    Ok(())
}

/// Plays a session of two editors, the feeder and two readers. Answers whether it ended well, and
/// all met at their first steps.
fn meets<R: Threads + Wait + Sync>(
    rt: &R,
    alloc: Global,
    line: &str,
    script: &[u8],
) -> Result<bool, Fail> {
    let gate = Meeting::new();
    let played = outcome(rt, alloc, line, script, NONE, &gate)?;
    let (first, second) = gate.workers();
    Ok(played.code == 0 && gate.actors() == 5 && first > 0 && second > 0 && gate.late() == 0)
}

#[test]
fn all_actors_of_a_session_are_at_work_at_once(rt: HostRuntime) -> Result<(), Fail> {
    let alloc = rt.alloc();
    assert!(rt; meets(&rt, alloc, "session", MEETING)?);
    assert!(rt; meets(&rt, alloc, "big 2", b"")?);
    Ok(())
}

/// What stands above `start` and at the end has no step, and each line between them has one.
#[test]
fn each_line_of_an_actor_is_a_step(rt: HostRuntime) -> Result<(), Fail> {
    let alloc = rt.alloc();
    let gate = Steps::new();
    let played = outcome(&rt, alloc, "session", STEPPING, NONE, &gate)?;
    assert!(rt; played.code == 0);
    assert!(rt; gate.all() == [3, 3, 2, 2, 1, 0]);
    Ok(())
}

/// A file of row `n`, in one of four folders: its length and its first byte.
fn row(n: u32) -> (u32, u32) {
    let length = if n >= 60 {
        2_097_152
    } else {
        n.wrapping_mul(676).wrapping_add(1_024)
    };
    (length, n)
}

/// The bytes that `fill` makes, as a report writes them.
fn push_filled(text: &mut String, length: u32, from: u32) -> Result<(), Fail> {
    for i in 0..length {
        let byte = from.wrapping_add(i.wrapping_mul(7)).wrapping_add(i / 256) % 256;
        for digit in [byte / 16, byte % 16] {
            text.push(char::from_digit(digit, 16).unwrap_or('-'))?;
        }
    }
    Ok(())
}

/// Sixty files and a large one, in three commits, with draws of which each fiftieth packet is lost.
#[test]
fn finales_are_the_last_tree(rt: HostRuntime) -> Result<(), Fail> {
    let alloc = rt.alloc();
    let mut script = String::new(alloc);
    let mut finales = String::new(alloc);
    let mut report = String::new(alloc);
    for n in 0..61u32 {
        let (length, from) = row(n);
        let path = format!(in alloc; "/{}/{n}", n % 4)?;
        script.push_str(&format!(in alloc; "fill 1 {path} {length} {from}\n")?)?;
        if n % 30 == 29 {
            script.push_str("commit 1\ndraw 1048576 k49 d1\n")?;
        }
        finales.push_str(&format!(in alloc; "finale 1 {path}\n")?)?;
        report.push_str(&format!(in alloc; "open 1 3 {path} file {length} ")?)?;
        push_filled(&mut report, length, from)?;
        report.push('\n')?;
    }
    script.push_str("commit 1\ndraw 1048576 k49 d1\ndraw 1048576 k49 d1\nsettle\n")?;
    script.push_str(&finales)?;
    let played = outcome(&rt, alloc, "session", script.as_bytes(), NONE, &NoGate)?;
    assert!(rt; played.code == 0);
    assert!(rt; played.sink.written().ends_with(report.as_bytes()));
    Ok(())
}
