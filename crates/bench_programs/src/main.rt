//! What the scripts under bench/ measure or try from inside. The first word says which work, and
//! what is printed shows that it was done.
//!
//! `crc ROUNDS LENGTH`: each round takes the CRC of LENGTH bytes of standard input, or of all where
//! LENGTH is 0. Round k begins at byte k % 16. What is printed is the CRCs of all rounds, joined by
//! exclusive or.
//!
//! `crc-bits`: compares the CRC of each piece of 0 to 9,000 bytes of standard input, from each of
//! its first 16 bytes on, with the CRC that bits one after another give. What is printed is how
//! many agree.
//!
//! `commits FILES BYTES COMMITS`: the first commit puts so many files of so many bytes, each with
//! other bytes, and a small file of 4 bytes; each of the others puts 4 other bytes as the small
//! file. With no commit, only the edits of the first are made. What is printed is how many commits
//! were accepted.
//!
//! `station commits EDITORS ROUNDS`: in each round 1 to 64 editors make 16,000 commits in all, at
//! once on one station; with 0 editors, on a catalogue with no lock. Each commit puts 8 bytes as
//! the same file. What is printed is how many commits were accepted.
//!
//! `station sections WORKERS ROUNDS`: in each round the sections of one batch of 1,024 items are
//! made, by one worker where WORKERS is 1, else by two at once. What is printed is how many bytes
//! they have.
//!
//! `opens READERS ROUNDS STALLED`: in each round 1 to 32 readers make 120,000 opens in all, by
//! turns of a file, of its folder and of a name that isn't there, while a feeder shows one shot
//! after another until all of them are through. Of further readers, 0 to 32, each has opened one
//! path and stands still with the shot that it took. What is printed is how many opens of the
//! others answered the file.
//!
//! `session SEED`: plays the session of the script on standard input, as the program's command
//! does, but at a gate at which each thread yields, spins or goes on by chance. What is printed,
//! also on standard error, and the status are those of the command.
//!
//! `each`: a little of `crc`, `commits`, `station commits` and `opens`, one after another, which
//! the gate runs.
#![tactic(auto)]

mod checksums;
mod commits;
mod feeder;
mod opens;
mod readers;
mod request;
mod sessions;
mod station_commits;
mod station_sections;

use crate::request::{Request, Work, read_request};
use oc_bytes::{NoMemory, StdSink, StdSource};
use std::alloc::Global;
use std::io;
use std::io::Read;
use std::process::ExitCode;
use std::sync::Wait;
use std::thread::Threads;

/// The number of a work that counts.
fn counted<R: Threads + Wait + Sync>(
    rt: &R,
    alloc: Global,
    work: Work,
    numbers: [u32; 3],
) -> Result<u64, NoMemory> {
    let [first, second, third] = numbers;
    match work {
        Work::Commits => commits::accepted(
            alloc,
            commits::Request {
                files: first,
                bytes: second as usize,
                commits: third,
            },
        ),
        Work::Station if first == 0 => station_commits::accepted_alone(alloc, second),
        Work::Station => station_commits::accepted_by(rt, alloc, first.min(64), second),
        Work::Sections if first == 1 => station_sections::made_alone(alloc, second),
        Work::Sections => station_sections::made_by_two(rt, alloc, second),
        Work::Crc | Work::CrcBits | Work::Each | Work::Opens | Work::Session => opens::opened(
            rt,
            alloc,
            opens::Request {
                readers: first.clamp(1, 32),
                rounds: second,
                stalled: third.min(32),
            },
        ),
    }
}

/// Prints the number of a work that counts.
fn print_count(rt: &HostRuntime, count: Result<u64, NoMemory>) -> io::Result<()> {
    match count {
        Ok(count) => println!(rt; "{count}"),
        Err(_) => println!(rt; "out of memory"),
    }
}

/// The bytes of standard input.
fn input(rt: &HostRuntime) -> io::Result<Vec<u8>> {
    let mut bytes = Vec::new(rt.alloc());
    rt.stdin().read_to_end(&mut bytes)?;
    Ok(bytes)
}

/// Takes CRCs of standard input, of `length` bytes each or of all where that is 0, and prints them
/// joined.
fn print_crc(rt: &HostRuntime, rounds: u32, length: u32) -> io::Result<()> {
    let bytes = input(rt)?;
    let length = if length == 0 {
        bytes.len()
    } else {
        length as usize
    };
    let joined = checksums::joined(&bytes, rounds, length);
    println!(rt; "{joined:08x}")
}

/// Compares CRCs of standard input with those bit by bit, and prints how many agree.
fn print_crc_bits(rt: &HostRuntime) -> io::Result<()> {
    let agree = checksums::agreeing(&input(rt)?);
    println!(rt; "{agree}")
}

fn main(rt: HostRuntime) -> io::Result<ExitCode> {
    let alloc = rt.alloc();
    let Request { work, numbers } = read_request(&rt)?;
    let printed = match work {
        Work::Crc => print_crc(&rt, numbers[0], numbers[1]),
        Work::CrcBits => print_crc_bits(&rt),
        Work::Each => {
            print_crc(&rt, 2, 0)?;
            print_count(&rt, counted(&rt, alloc, Work::Commits, [20, 700, 3]))?;
            print_count(&rt, counted(&rt, alloc, Work::Station, [2, 1, 0]))?;
            print_count(&rt, counted(&rt, alloc, Work::Opens, [2, 1, 1]))
        }
        Work::Session => {
            let mut source = StdSource::new(rt.stdin());
            let mut sink = StdSink::new(rt.stdout());
            let status = sessions::play(&rt, alloc, &mut source, &mut sink, numbers[0]);
            return Ok(ExitCode::from(status));
        }
        _ => print_count(&rt, counted(&rt, alloc, work, numbers)),
    };
    printed?;
    Ok(ExitCode::SUCCESS)
}
