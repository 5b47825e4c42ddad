// A session whose threads don't go evenly.
ghost use Rattle.std.specs.Prelude.{◌≡◌, ◌==◌, if◌then◌else◌};

use carousel_shell::{Status, run_session};
use cycle_planner::{GREATEST_ID, Weigh};
use oc_bytes::{NoMemory, Sink, Source};
use section_workers::{Actor, Gate};
use std::alloc::Global;
use std::sync::Wait;
use std::sync::atomic::{AtomicU64, Ordering};
use std::thread::Threads;
use std::{hint, thread};

/// A gate at which a thread yields, spins or goes on, by a number made of the seed, of the actor
/// and its step, and of how often anybody passed before.
#[derive(Drop)]
struct UnevenGate {
    seed: u64,
    passes: AtomicU64,
}

impl Gate for UnevenGate {
    fn pass(&self, actor: Actor, step: u32) {
        let passes = self.passes.fetch_add(1, Ordering::SeqCst);
        let who = mixed(mixed(self.seed, number_of(actor)), u64::from(step));
        delay(mixed(who, passes));
    }
}

/// A number for each actor.
fn number_of(actor: Actor) -> u64 {
    match actor {
        Actor::Feeder => 0,
        Actor::Editor(number) => 4 * u64::from(number) + 1,
        Actor::Reader(number) => 4 * u64::from(number) + 2,
        Actor::Worker(number) => 4 * u64::from(number) + 3,
    }
}

/// A number out of two. A change of either changes about half of its bits.
fn mixed(first: u64, second: u64) -> u64 {
    let mut number = (first ^ second).wrapping_mul(0x9E37_79B9_7F4A_7C15);
    number ^= number >> 32;
    number = number.wrapping_mul(0xD6E8_FEB8_6659_FD93);
    number ^ (number >> 32)
}

/// Yields up to 8 times, spins up to 16,384 times, or does nothing, as the number says. Short spins
/// are as likely as long ones.
fn delay(number: u64) {
    match number % 4 {
        0 => yield_often(1 << (number / 4 % 4)),
        1 => spin(1 << (number / 4 % 15)),
        _ => {}
    }
}

fn yield_often(times: u64) {
    for _ in 0..times {
        thread::yield_now();
    }
}

fn spin(times: u64) {
    for _ in 0..times {
        hint::spin_loop();
    }
}

/// Plays the session of the script in the source at such a gate, as the program's command `session`
/// does it: with its weights, its report, its line on standard error, and its status, which is the
/// answer.
pub fn play<R: Threads + Wait + Sync + Eprint, S: Source, K: Sink>(
    rt: &R,
    alloc: Global,
    source: &mut S,
    sink: &mut K,
    seed: u32,
) -> u8 {
    let status = match run(rt, alloc, source, sink, seed) {
        Ok(status) => status,
        Err(_) => Status::NoMemory,
    };
    if let Ok(Some(line)) = status.line(alloc) {
        let _ = eprintln!(rt; "{line}");
    }
    status.code()
}

fn run<R: Threads + Wait + Sync, S: Source, K: Sink>(
    rt: &R,
    alloc: Global,
    source: &mut S,
    sink: &mut K,
    seed: u32,
) -> Result<Status, NoMemory> {
    let words = [String::from_str(alloc, "session")?];
    let mut weights = [1; GREATEST_ID];
    weights[0] = 2;
    let call = Box::new(
        alloc,
        |id: u16| -> u8
            ensures { result ≡ (if id == 1 then 2 else 1) }
        { if id == 1 { 2 } else { 1 } },
    )?;
    let gate = UnevenGate {
        seed: u64::from(seed),
        passes: AtomicU64::new(0),
    };
    let weigh = Weigh::new(weights, call);
    Ok(run_session(rt, alloc, &words, source, sink, &gate, weigh))
}
