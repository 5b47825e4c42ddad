ghost use Rattle.std.specs.Prelude.{◌≡◌, ◌<◌, ◌≤◌, List, ℕ, Option, length, IfOk, OnErr};
ghost use Rattle.oc_bytes.specs.Outcome.{Known, Faulted};
ghost use Rattle.oc_bytes.specs.Streams.{Takes};

use thiserror::Error;

/// The system answered a read with an error, and nothing was taken. The source's count of faults
/// rose, unless it is saturated.
#[derive(Clone, Copy, Debug, PartialEq, Eq, Error)]
#[error("the read failed")]
pub struct Failed;

/// Where bytes come from. Whether a source tells its content never changes.
pub trait Source {
    /// The bytes left, if they are told.
    ghost left: { Self → Option (List ℕ) };

    /// How often a call failed. It never falls.
    ghost faults: { Self → ℕ };

    /// Moves the next bytes to the front of `into`, which has at least one byte. It answers how
    /// many: 0 only at the end.
    fn read(&mut self, into: &mut [u8]) -> Result<usize, Failed>
        // What is read:
        requires { 0 < length into.old }
        ensures within { IfOk result (λ n. n ≤ length into.old) }
        ensures read { IfOk result (λ n.
            Known (left self.old) (left self.new) (λ before after. Takes before after into.new n)) }
        // What a failed read leaves, and the count of faults:
        ensures nothing { OnErr result (left self.new ≡ left self.old) }
        ensures later { faults self.old ≤ faults self.new }
        ensures cause { OnErr result (Faulted faults self.old self.new) };

    /// The count of faults, saturating.
    fn faults(&self) -> u64
        ensures { result ≡ faults self.now };
}
