ghost use Rattle.std.specs.Prelude.{◌≡◌, ◌++◌, ◌∷◌, [], length, OnOk, OnErr, IfSome};
ghost use Rattle.std.specs.List.{flat_map};
ghost use Rattle.oc_bytes.specs.Numbers.{two_bytes, four_bytes, eight_bytes};

use crate::NoMemory;
use std::alloc::{AllocError, Global};
use std::marker::Model;

/// A message, written field by field. Numbers are big-endian (ISO/IEC 13818-1, 13818-6). `Err` is
/// out of memory, and changes nothing.
#[derive(Drop)]
pub struct Writer {
    bytes: Vec<u8>,
}

impl Model for Writer {
    ghost use Rattle.std.specs.Prelude.{List, ℕ};

    ghost Value = { List ℕ };

    ghost view = { λ w. w.bytes.items };
}

impl Writer {
    /// A writer of nothing yet.
    pub fn new(alloc: Global) -> Writer
        ensures { result ≡ [] }
    {
        Writer {
            bytes: Vec::new(alloc),
        }
    }

    /// Puts one byte.
    pub fn put_u8(&mut self, v: u8) -> Result<(), NoMemory>
        ensures ok { OnOk result (self.new ≡ self.old ++ v ∷ []) }
        ensures err { OnErr result (self.new ≡ self.old) }
    {
        self.bytes.push(v)?;
        Ok(())
    }

    /// Puts bytes as they are.
    pub fn put_bytes(&mut self, v: &[u8]) -> Result<(), NoMemory>
        ensures ok { OnOk result (self.new ≡ self.old ++ v.now) }
        ensures err { OnErr result (self.new ≡ self.old) }
    {
        self.bytes.extend_from_slice(v)
    }

    /// Puts all runs of bytes, or none of them.
    pub fn put_each(&mut self, parts: &[&[u8]]) -> Result<(), NoMemory>
        ensures ok { OnOk result (self.new ≡ self.old ++ flat_map (λ part. part.now) parts.now) }
        ensures err { OnErr result (self.new ≡ self.old) }
    {
        let Some(size) = size_of_all(parts) else {
            return Err(AllocError);
        };
        self.bytes.reserve(size)?;
        for part in parts {
            self.bytes.extend_from_slice(part)?;
        }
        Ok(())
    }

    /// Puts a number in two bytes.
    pub fn put_u16(&mut self, v: u16) -> Result<(), NoMemory>
        ensures ok { OnOk result (self.new ≡ self.old ++ two_bytes v) }
        ensures err { OnErr result (self.new ≡ self.old) }
    {
        self.bytes.extend_from_slice(&v.to_be_bytes())
    }

    /// Puts a number in four bytes.
    pub fn put_u32(&mut self, v: u32) -> Result<(), NoMemory>
        ensures ok { OnOk result (self.new ≡ self.old ++ four_bytes v) }
        ensures err { OnErr result (self.new ≡ self.old) }
    {
        self.bytes.extend_from_slice(&v.to_be_bytes())
    }

    /// Puts a number in eight bytes.
    pub fn put_u64(&mut self, v: u64) -> Result<(), NoMemory>
        ensures ok { OnOk result (self.new ≡ self.old ++ eight_bytes v) }
        ensures err { OnErr result (self.new ≡ self.old) }
    {
        self.bytes.extend_from_slice(&v.to_be_bytes())
    }

    /// All that was put.
    pub fn done(self) -> Vec<u8>
        ensures { result.items ≡ self }
    {
        self.bytes
    }
}

fn size_of_all(parts: &[&[u8]]) -> Option<usize>
    ensures { IfSome result (λ size. size ≡ length (flat_map (λ part. part.now) parts.now)) }
{
    let mut size: usize = 0;
    for part in parts {
        size = size.checked_add(part.len())?;
    }
    Some(size)
}
