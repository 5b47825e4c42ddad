//! Commands whose ends fail in mid-stream.
ghost use Rattle.std.specs.Prelude.{◌≡◌};

use carousel_shell::{Status, run_plain};
use cycle_planner::{GREATEST_ID, Weigh};
use folder_playout::NoNotices;
use folder_store::{Folders, MemFolders, MemStore, Store};
use oc_bytes::{Blob, MemSink, MemSource, NoMemory, Source};
use std::alloc::Global;
use std::test::Fail;

/// The section of a block message that says `hello`, its CRC of another program.
pub(crate) const HELLO: [u8; 35] = [
    0x3C, 0xB0, 0x20, 0x00, 0x01, 0xC1, 0x00, 0x00, 0x11, 0x03, 0x10, 0x03, 0x00, 0x00, 0x00, 0x2A,
    0xFF, 0x00, 0x00, 0x0B, 0x00, 0x01, 0x00, 0xFF, 0x00, 0x00, 0x68, 0x65, 0x6C, 0x6C, 0x6F, 0xDE,
    0xE9, 0xC3, 0x3D,
];

/// A new file, a new content of it, and a draw that damages the message that tells of it.
const NEWS: &[u8] =
    b"put 1 /a 6f6e65\ncommit 1\ndraw 1048576\nopen 1 /a\nput 1 /a 74776f\ncommit 1\n\
    draw 1048576 f1040 k2\nopen 1 /a\ndraw 1048576\nopen 1 /a\n";

/// One of the four ends of a command.
#[derive(Clone, Copy)]
pub(crate) enum End {
    Source,
    Sink,
    Folders,
    Store,
}

/// How a command ended.
#[derive(Drop)]
pub(crate) struct Ended {
    pub(crate) code: u8,
    pub(crate) sink: MemSink,
    store: MemStore,
}

/// The words of a line.
pub(crate) fn words(alloc: Global, line: &str) -> Result<Vec<String>, Fail> {
    let mut words = Vec::new(alloc);
    for word in line.split_whitespace() {
        words.push(String::from_str(alloc, word)?)?;
    }
    Ok(words)
}

/// The folder F with the file `a`, which says `hello`.
fn folder(alloc: Global, fail_at: Vec<u64>) -> Result<MemFolders, Fail> {
    let content = Vec::from_slice(alloc, b"hello")?;
    let mut entries = Vec::new(alloc);
    entries.push((String::from_str(alloc, "F/a")?, Blob::new(alloc, content)?))?;
    Ok(MemFolders::new(entries, fail_at))
}

/// The status of a command under which each module is sent once a cycle.
pub(crate) fn run_once<S: Source, F: Folders, T: Store>(
    alloc: Global,
    words: &[String],
    source: &mut S,
    sink: &mut MemSink,
    folders: &mut F,
    store: &mut T,
) -> Result<Status, NoMemory> {
    let call = Box::new(
        alloc,
        |_id: u16| -> u8
            ensures { result ≡ 1 }
        { 1 },
    )?;
    let weigh = Weigh::new([1; GREATEST_ID], call);
    let filters = Vec::new(alloc);
    Ok(run_plain(
        alloc,
        words,
        source,
        sink,
        folders,
        store,
        &mut NoNotices,
        weigh,
        filters,
    ))
}

/// Runs a command on an input that comes in pieces of `read` bytes, and with a sink that takes
/// `written`, both at least 1. One call of an end fails, if any.
pub(crate) fn run(
    alloc: Global,
    line: &str,
    input: &[u8],
    pieces: (usize, usize),
    failing: Option<(End, u64)>,
) -> Result<Ended, Fail> {
    let mut reads = Vec::new(alloc);
    let mut writes = Vec::new(alloc);
    let mut calls = Vec::new(alloc);
    let mut stores = Vec::new(alloc);
    match failing {
        Some((End::Source, call)) => reads.push(call)?,
        Some((End::Sink, call)) => writes.push(call)?,
        Some((End::Folders, call)) => calls.push(call)?,
        Some((End::Store, call)) => stores.push(call)?,
        None => {}
    }
    let words = words(alloc, line)?;
    let mut source = MemSource::new(Vec::from_slice(alloc, input)?, reads, pieces.0.max(1));
    let mut sink = MemSink::new(alloc, writes, pieces.1.max(1));
    let mut folders = folder(alloc, calls)?;
    let mut store = MemStore::new(alloc, stores);
    let status = run_once(
        alloc,
        &words,
        &mut source,
        &mut sink,
        &mut folders,
        &mut store,
    )?;
    let code = status.code();
    Ok(Ended { code, sink, store })
}

/// Whether a run ended as it should in which a call of this end failed: nothing was written, or
/// what the writes of a byte before it took, or which path can't be read, or the first sections of
/// `record`, or the lines of what was stored before, when each call before stored one file or
/// folder.
fn is_right(line: &str, end: End, call: u64, good: &[u8], ended: &Ended) -> bool {
    let written = ended.sink.written();
    match end {
        End::Source => {
            ended.code == 4
                && good.starts_with(written)
                && (written.is_empty() || line.starts_with("record"))
        }
        End::Sink => {
            ended.code == 5 && written.len() as u64 == call && good.starts_with(written)
        }
        End::Folders => {
            ended.code == 6 && (written.is_empty() || written.starts_with(b"unreadable /"))
        }
        End::Store => {
            ended.code == 6 && ended.store.count() as u64 == call && good.starts_with(written)
        }
    }
}

/// How many calls of an end a command makes, each of which failed in turn.
fn failing(alloc: Global, line: &str, input: &[u8], good: &Ended, end: End) -> Result<u64, Fail> {
    for call in 0..1000u64 {
        let ended = run(alloc, line, input, (20, 1), Some((end, call)))?;
        if ended.code == good.code {
            return Ok(call);
        }
        if !is_right(line, end, call, good.sink.written(), &ended) {
            return Err(Fail::from("a failed call"));
        }
    }
    Err(Fail::from("too many calls"))
}

#[test]
fn each_call_fails_in_turn(rt: HostRuntime) -> Result<(), Fail> {
    let alloc = rt.alloc();
    let published = run(alloc, "publish F 1 1", b"", (20, 1), None)?;
    let packets = published.sink.written();
    // The packets are 564 bytes, 29 reads and one that finds their end. Each byte that is written
    // is a write: 127, 716 and 21 of `plan`, `inspect` and `extract`. A folder is listed and a file
    // read; a folder is made and a file written.
    let rows: [(&str, &[u8], [u64; 4]); 10] = [
        ("assemble 1 0 5 42", &HELLO, [3, 5, 0, 0]),
        ("publish F 1 1", b"", [0, 564, 2, 0]),
        ("record 256", packets, [30, 386, 0, 0]),
        ("list 256", packets, [30, 21, 0, 0]),
        ("open 256 /a /a/b", packets, [30, 29, 0, 0]),
        ("rehearse", NEWS, [8, 155, 0, 0]),
        ("plan F 1 1000000", b"", [0, 127, 2, 0]),
        ("inspect 256", packets, [30, 716, 0, 0]),
        ("extract 256 G", packets, [30, 21, 0, 2]),
        ("air 256 F 1 1", b"", [0, 564, 2, 0]),
    ];
    for (line, input, [reads, writes, calls, stores]) in rows {
        let good = run(alloc, line, input, (20, 1), None)?;
        for (end, count) in [
            (End::Source, reads),
            (End::Sink, writes),
            (End::Folders, calls),
            (End::Store, stores),
        ] {
            assert_eq!(rt; failing(alloc, line, input, &good, end)?, count, "{line}");
        }
    }
    // Only the first of two readings has to succeed.
    let aired = run(
        alloc,
        "air 256 F 1 2",
        b"",
        (20, 1),
        Some((End::Folders, 2)),
    )?;
    let twice = run(alloc, "publish F 1 2", b"", (20, 1), None)?;
    assert_eq!(rt;
        (aired.code, aired.sink.written()),
        (0, twice.sink.written())
    );
    let extracted = run(alloc, "extract 256 G", packets, (20, 1), None)?;
    assert!(rt; extracted.store.is_folder("G"));
    assert!(rt; extracted.store.content("G/a") == Some(b"hello".as_slice()));
    Ok(())
}
