ghost use Rattle.std.specs.Prelude.{◌≡◌, ◌<◌, ◌≤◌, ◌+◌, ◌↔◌, ◌++◌, ◌||◌, true, false, [], Some, vec_len, length, min, take, Contains, IfOk, IsErr, IsErrOf, OnErr};
ghost use Rattle.oc_bytes.specs.Outcome.{Known, cap_at_u64, Faulted};
ghost use Rattle.oc_bytes.specs.Streams.{Takes};

use crate::sink::{Sink, WriteFault};
use crate::source::{Failed, Source};
use std::alloc::Global;

/// Bytes in memory as a [`Source`]. A call moves at most `piece` bytes.
///
/// The calls numbered in `fail_at`, from 0, fail; only they count as faults.
#[derive(Drop)]
pub struct MemSource {
    bytes: Vec<u8>,
    at: usize,
    fail_at: Vec<u64>,
    calls: u64,
    failures: u64,
    piece: usize,
    ghost in_bytes: { at ≤ vec_len bytes },
    ghost positive: { 1 ≤ piece },
}

impl MemSource {
    ghost use Rattle.oc_bytes.specs.Memory.{left_of, failing_reads, reads_made, reads_failed, read_piece};

    /// A source of these bytes before its first call. `piece` is at least 1.
    pub fn new(bytes: Vec<u8>, fail_at: Vec<u64>, piece: usize) -> MemSource
        requires { 1 ≤ piece }
        ensures left { left_of result ≡ bytes.items }
        ensures fresh { (reads_made result ≡ 0) × (reads_failed result ≡ 0) }
        ensures plan { (failing_reads result ≡ fail_at.items) × (read_piece result ≡ piece) }
    {
        MemSource {
            bytes,
            at: 0,
            fail_at,
            calls: 0,
            failures: 0,
            piece,
        }
    }
}

impl Source for MemSource {
    ghost use Rattle.oc_bytes.specs.Memory.{left_of, failing_reads, reads_made, reads_failed, read_piece};

    ghost left = { λ s. Some (left_of s) };

    ghost faults = { λ s. s.failures };

    fn read(&mut self, into: &mut [u8]) -> Result<usize, Failed>
        // What each source promises:
        requires { 0 < length into.old }
        ensures within { IfOk result (λ n. n ≤ length into.old) }
        ensures read { IfOk result (λ n.
            Known (Some (left_of self.old)) (Some (left_of self.new)) (λ before after.
            Takes before after into.new n)) }
        // What a failed read leaves, and the count of faults:
        ensures nothing { OnErr result (Some (left_of self.new) ≡ Some (left_of self.old)) }
        ensures later { reads_failed self.old ≤ reads_failed self.new }
        ensures cause { OnErr result (Faulted reads_failed self.old self.new) }
        // The plan of failures and pieces:
        ensures planned { IsErr result ↔ Contains (failing_reads self.old) (reads_made self.old) }
        ensures piece { IfOk result (λ n.
            n ≡ min (min (read_piece self.old) (length into.old)) (length (left_of self.old))) }
        ensures alone { IfOk result (λ _. reads_failed self.new ≡ reads_failed self.old) }
        ensures once { OnErr result
            (reads_failed self.new ≡ cap_at_u64 (reads_failed self.old + 1)) }
        ensures made { reads_made self.new ≡ cap_at_u64 (reads_made self.old + 1) }
        ensures same { (failing_reads self.new ≡ failing_reads self.old)
            × (read_piece self.new ≡ read_piece self.old) }
    {
        let call = self.calls;
        self.calls = self.calls.saturating_add(1);
        if self.fail_at.contains(&call) {
            self.failures = self.failures.saturating_add(1);
            return Err(Failed);
        }
        let n = self.piece.min(into.len()).min(self.bytes.len() - self.at);
        into[..n].copy_from_slice(&self.bytes[self.at..self.at + n]);
        self.at += n;
        Ok(n)
    }

    fn faults(&self) -> u64 {
        self.failures
    }
}

/// Bytes written to memory as a [`Sink`]. A call moves at most `piece` bytes.
///
/// The calls numbered in `fail_at`, from 0, fail; only they count as faults.
#[derive(Drop)]
pub struct MemSink {
    bytes: Vec<u8>,
    fail_at: Vec<u64>,
    calls: u64,
    failures: u64,
    has_failed: bool,
    is_late: bool,
    piece: usize,
    ghost positive: { 1 ≤ piece },
}

impl MemSink {
    ghost use Rattle.oc_bytes.specs.Memory.{written_to, failing_writes, writes_made, writes_failed, write_piece};

    /// An empty sink before its first call. `piece` is at least 1.
    pub fn new(alloc: Global, fail_at: Vec<u64>, piece: usize) -> MemSink
        requires { 1 ≤ piece }
        ensures written { written_to result ≡ [] }
        ensures fresh { (writes_made result ≡ 0) × (writes_failed result ≡ 0) }
        ensures unfailed { (result.has_failed ≡ false) × (result.is_late ≡ false) }
        ensures plan { (failing_writes result ≡ fail_at.items) × (write_piece result ≡ piece) }
    {
        MemSink {
            bytes: Vec::new(alloc),
            fail_at,
            calls: 0,
            failures: 0,
            has_failed: false,
            is_late: false,
            piece,
        }
    }

    /// All bytes that were written.
    pub fn written(&self) -> &[u8]
        ensures { result.now ≡ written_to self.now }
    {
        &self.bytes
    }
}

impl Sink for MemSink {
    ghost use Rattle.oc_bytes.specs.Memory.{written_to, failing_writes, writes_made, writes_failed, write_piece};

    ghost written = { λ s. Some (written_to s) };

    ghost faults = { λ s. s.failures };

    ghost failed = { λ s. s.has_failed };

    ghost late = { λ s. s.is_late };

    fn write(&mut self, from: &[u8]) -> Result<usize, WriteFault>
        // What each sink promises of the bytes:
        requires { 0 < length from.now }
        ensures within { IfOk result (λ n. (0 < n) × (n ≤ length from.now)) }
        ensures appends { IfOk result (λ n.
            Known (Some (written_to self.old)) (Some (written_to self.new)) (λ before after.
            after ≡ before ++ take n from.now)) }
        ensures nothing { OnErr result (Some (written_to self.new) ≡ Some (written_to self.old)) }
        // What it promises of failures:
        ensures later { writes_failed self.old ≤ writes_failed self.new }
        ensures cause { IsErrOf result WriteFault.Failed → Faulted writes_failed self.old self.new }
        ensures tried { self.new.is_late ≡ (self.old.has_failed || self.old.is_late) }
        ensures fails { IsErrOf result WriteFault.Failed → self.new.has_failed ≡ true }
        ensures goes_on { (IsErrOf result WriteFault.Failed → ⊥)
            → self.new.has_failed ≡ self.old.has_failed }
        // The plan of failures and pieces:
        ensures planned { IsErrOf result WriteFault.Failed
            ↔ Contains (failing_writes self.old) (writes_made self.old) }
        ensures piece { IfOk result (λ n. n ≡ min (write_piece self.old) (length from.now)) }
        ensures alone { (IsErrOf result WriteFault.Failed → ⊥)
            → writes_failed self.new ≡ writes_failed self.old }
        ensures once { IsErrOf result WriteFault.Failed
            → writes_failed self.new ≡ cap_at_u64 (writes_failed self.old + 1) }
        ensures made { writes_made self.new ≡ cap_at_u64 (writes_made self.old + 1) }
        ensures same { (failing_writes self.new ≡ failing_writes self.old)
            × (write_piece self.new ≡ write_piece self.old) }
    {
        self.is_late = self.has_failed || self.is_late;
        let call = self.calls;
        self.calls = self.calls.saturating_add(1);
        if self.fail_at.contains(&call) {
            self.failures = self.failures.saturating_add(1);
            self.has_failed = true;
            return Err(WriteFault::Failed);
        }
        let n = self.piece.min(from.len());
        match self.bytes.extend_from_slice(&from[..n]) {
            Ok(()) => Ok(n),
            Err(_) => Err(WriteFault::NoMemory),
        }
    }

    fn faults(&self) -> u64 {
        self.failures
    }
}
