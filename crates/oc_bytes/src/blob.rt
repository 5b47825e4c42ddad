ghost use Rattle.std.specs.Prelude.{◌≡◌, IfOk};
ghost use Rattle.oc_bytes.specs.Numbers.{IsBytes};

use crate::NoMemory;
use std::alloc::Global;
use std::marker::Model;
use std::sync::Arc;

/// Any slice of bytes has numbers below 256: its type says so, its lender's contract may not.
pub fn are_bytes(bytes: &[u8])
    ensures { IsBytes bytes.now }
{}

/// Bytes that several owners share. They never change.
#[derive(Drop)]
pub struct Blob {
    bytes: Arc<Vec<u8>>,
}

impl Model for Blob {
    ghost use Rattle.std.specs.Prelude.{List, ℕ};
    ghost use Rattle.std.specs.Arc.{arc_value};

    ghost Value = { List ℕ };

    ghost view = { λ b. (arc_value b.bytes).items };
}

impl Blob {
    /// Shares these bytes without a copy. `Err` is out of memory.
    pub fn new(alloc: Global, bytes: Vec<u8>) -> Result<Blob, NoMemory>
        ensures { IfOk result (λ b. b ≡ bytes.items) }
    {
        let bytes = Arc::new(alloc, bytes)?;
        Ok(Blob { bytes })
    }

    /// One more owner of the same bytes. `Err` is out of memory.
    pub fn share(&self) -> Result<Blob, NoMemory>
        ensures { IfOk result (λ b. b ≡ self.now) }
    {
        let bytes = Arc::try_clone(&self.bytes)?;
        Ok(Blob { bytes })
    }

    /// The bytes, lent.
    pub fn bytes(&self) -> &[u8]
        ensures { result.now ≡ self.now }
    {
        self.bytes.as_slice()
    }
}
