ghost use Rattle.std.specs.Prelude.{◌≡◌, ◌<◌, ◌≤◌, ◌++◌, ◌||◌, Bool, true, false, List, ℕ, Option, length, take, IfOk, OnOk, OnErr, IsErrOf};
ghost use Rattle.oc_bytes.specs.Outcome.{Known, Faulted};
ghost use Rattle.oc_bytes.specs.Streams.{AppendsPrefix};

use thiserror::Error;

/// Why a write took nothing.
#[derive(Clone, Copy, Debug, PartialEq, Eq, Error)]
pub enum WriteFault {
    /// The system answered with an error, and the count of faults rose, unless it is saturated.
    #[error("the write failed")]
    Failed,
    /// There is no memory.
    #[error("out of memory")]
    NoMemory,
}

/// Where bytes go. Whether a sink tells its content never changes.
pub trait Sink {
    /// The bytes written, if they are told.
    ghost written: { Self → Option (List ℕ) };

    /// How often a call failed. It never falls.
    ghost faults: { Self → ℕ };

    /// Whether a write has failed.
    ghost failed: { Self → Bool };

    /// Whether a write was tried after a failed one.
    ghost late: { Self → Bool };

    /// Appends at least one of the first bytes of `from`, which has some, and answers how many.
    fn write(&mut self, from: &[u8]) -> Result<usize, WriteFault>
        // What is written:
        requires { 0 < length from.now }
        ensures within { IfOk result (λ n. (0 < n) × (n ≤ length from.now)) }
        ensures appends { IfOk result (λ n.
            Known (written self.old) (written self.new) (λ before after.
            after ≡ before ++ take n from.now)) }
        ensures nothing { OnErr result (written self.new ≡ written self.old) }
        // What is known of failures:
        ensures later { faults self.old ≤ faults self.new }
        ensures cause { IsErrOf result WriteFault.Failed → Faulted faults self.old self.new }
        ensures tried { late self.new ≡ (failed self.old || late self.old) }
        ensures fails { IsErrOf result WriteFault.Failed → failed self.new ≡ true }
        ensures goes_on { (IsErrOf result WriteFault.Failed → ⊥)
            → failed self.new ≡ failed self.old };

    /// The count of faults, saturating.
    fn faults(&self) -> u64
        ensures { result ≡ faults self.now };
}

/// Writes all of the bytes, in as many calls as it takes.
pub fn write_all<K: Sink>(sink: &mut K, from: &[u8]) -> Result<(), WriteFault>
    // What is written:
    ensures ok { OnOk result
        (Known (K.written sink.old) (K.written sink.new) (λ before after.
        after ≡ before ++ from.now)) }
    ensures err { OnErr result
        (Known (K.written sink.old) (K.written sink.new) (λ before after.
        AppendsPrefix before after from.now)) }
    // What is known of failures:
    ensures later { K.faults sink.old ≤ K.faults sink.new }
    ensures cause { IsErrOf result WriteFault.Failed → Faulted K.faults sink.old sink.new }
    ensures in_time { K.failed sink.old ≡ false → K.late sink.new ≡ K.late sink.old }
    ensures fails { IsErrOf result WriteFault.Failed → K.failed sink.new ≡ true }
    ensures goes_on { (IsErrOf result WriteFault.Failed → ⊥)
        → K.failed sink.new ≡ K.failed sink.old }
{
    let mut done = 0;
    while done < from.len() {
        done += sink.write(&from[done..])?;
    }
    Ok(())
}
