ghost use Rattle.std.specs.Prelude.{◌≡◌, ◌≤◌, length, IfOk};
ghost use Rattle.oc_bytes.specs.Cursor.{Cursor, from_start, number_at, bytes_at, this_at, sized_at, part_at};
ghost use Rattle.oc_bytes.specs.Outcome.{Steps};

use byteorder::{BigEndian, ByteOrder};
use std::marker::Model;
use thiserror::Error;

/// The field at this place is cut or breaks its rule. Places count bytes from the message's front.
#[derive(Clone, Copy, Debug, PartialEq, Eq, Error)]
#[error("the field at byte {0} is cut or breaks its rule")]
pub struct Cut(pub usize);

/// The bytes of a message, read field by field. Numbers are big-endian (ISO/IEC 13818-1, 13818-6).
///
/// A call answers [`Cut`] if its field is cut or has another value than it must, and then stays at
/// its place.
#[derive(Drop)]
pub struct Fields<'a> {
    bytes: &'a [u8],
    place: usize,
}

impl<'a> Model for Fields<'a> {
    ghost use Rattle.std.specs.Prelude.{drop, length, ◌≤◌};
    ghost use Rattle.oc_bytes.specs.Cursor.{Cursor};

    ghost Value = { Cursor };

    ghost view = { λ f. record { place = f.place; rest = drop f.place f.bytes.now } };

    ghost invariant = { λ f. f.place ≤ length f.bytes.now };
}

impl<'a> Fields<'a> {
    ghost use Rattle.oc_bytes.specs.Cause.{place_of};

    /// Begins before the first of these bytes.
    pub fn new(bytes: &'a [u8]) -> Fields<'a>
        ensures { result ≡ from_start bytes.now }
    {
        Fields { bytes, place: 0 }
    }

    /// How many bytes were read: the offset of the next field.
    pub fn place(&self) -> usize
        ensures { result ≡ self.now.place }
    {
        self.place
    }

    /// All bytes that are left.
    pub fn rest(&self) -> &'a [u8]
        ensures { result.now ≡ self.now.rest }
    {
        &self.bytes[self.place..]
    }

    /// The next n bytes, lent.
    pub fn take(&mut self, n: usize) -> Result<&'a [u8], Cut>
        ensures bytes { Steps (λ x. x.now) place_of result self.old self.new (bytes_at n self.old) }
        ensures count { IfOk result (λ x. length x.now ≡ n) }
    {
        let bytes = self.bytes;
        let place = self.place;
        if bytes.len() - place < n {
            return Err(Cut(place));
        }
        self.place = place + n;
        Ok(&bytes[place..place + n])
    }

    /// The next n bytes as a message whose places count on from here.
    pub fn part(&mut self, n: usize) -> Result<Fields<'a>, Cut>
        ensures { Steps (λ f. f) place_of result self.old self.new (part_at n self.old) }
    {
        let bytes = self.bytes;
        let place = self.place;
        if bytes.len() - place < n {
            return Err(Cut(place));
        }
        self.place = place + n;
        Ok(Fields {
            bytes: &bytes[..place + n],
            place,
        })
    }

    /// The next byte.
    #[tactic(auto, using(crate::proofs::Reading::read_one))]
    pub fn u8(&mut self) -> Result<u8, Cut>
        ensures { Steps (λ n. n) place_of result self.old self.new (number_at 1 self.old) }
    {
        let bytes = self.take(1)?;
        Ok(bytes[0])
    }

    /// A number of two bytes.
    #[tactic(auto, using(crate::proofs::Reading::read_number))]
    pub fn u16(&mut self) -> Result<u16, Cut>
        ensures { Steps (λ n. n) place_of result self.old self.new (number_at 2 self.old) }
    {
        let bytes = self.take(2)?;
        Ok(BigEndian::read_u16(bytes))
    }

    /// A number of three bytes.
    #[tactic(auto, using(crate::proofs::Reading::read_number))]
    pub fn u24(&mut self) -> Result<u32, Cut>
        ensures { Steps (λ n. n) place_of result self.old self.new (number_at 3 self.old) }
    {
        let bytes = self.take(3)?;
        Ok(BigEndian::read_u24(bytes))
    }

    /// A number of four bytes.
    #[tactic(auto, using(crate::proofs::Reading::read_number))]
    pub fn u32(&mut self) -> Result<u32, Cut>
        ensures { Steps (λ n. n) place_of result self.old self.new (number_at 4 self.old) }
    {
        let bytes = self.take(4)?;
        Ok(BigEndian::read_u32(bytes))
    }

    /// A number of eight bytes.
    #[tactic(auto, using(crate::proofs::Reading::read_number))]
    pub fn u64(&mut self) -> Result<u64, Cut>
        ensures { Steps (λ n. n) place_of result self.old self.new (number_at 8 self.old) }
    {
        let bytes = self.take(8)?;
        Ok(BigEndian::read_u64(bytes))
    }

    fn ahead(&self) -> Fields<'a>
        ensures { result ≡ self.now }
    {
        Fields {
            bytes: self.bytes,
            place: self.place,
        }
    }

    /// One byte that must be this.
    pub fn this_u8(&mut self, value: u8) -> Result<(), Cut>
        ensures { Steps (λ _. value) place_of result self.old self.new (this_at 1 value self.old) }
    {
        let mut ahead = self.ahead();
        if ahead.u8()? != value {
            return Err(Cut(self.place));
        }
        *self = ahead;
        Ok(())
    }

    /// Two bytes that must be this number.
    pub fn this_u16(&mut self, value: u16) -> Result<(), Cut>
        ensures { Steps (λ _. value) place_of result self.old self.new (this_at 2 value self.old) }
    {
        let mut ahead = self.ahead();
        if ahead.u16()? != value {
            return Err(Cut(self.place));
        }
        *self = ahead;
        Ok(())
    }

    /// Four bytes that must be this number.
    pub fn this_u32(&mut self, value: u32) -> Result<(), Cut>
        ensures { Steps (λ _. value) place_of result self.old self.new (this_at 4 value self.old) }
    {
        let mut ahead = self.ahead();
        if ahead.u32()? != value {
            return Err(Cut(self.place));
        }
        *self = ahead;
        Ok(())
    }

    /// Eight bytes that must be this number.
    pub fn this_u64(&mut self, value: u64) -> Result<(), Cut>
        ensures { Steps (λ _. value) place_of result self.old self.new (this_at 8 value self.old) }
    {
        let mut ahead = self.ahead();
        if ahead.u64()? != value {
            return Err(Cut(self.place));
        }
        *self = ahead;
        Ok(())
    }

    /// Bytes after their count in one byte, lent.
    #[tactic(auto, unfolding(crate::specs::Cursor::sized_at))]
    pub fn sized8(&mut self) -> Result<&'a [u8], Cut>
        ensures bytes { Steps (λ x. x.now) place_of result self.old self.new (sized_at 1 self.old) }
        ensures count { IfOk result (λ x. length x.now ≤ 255) }
    {
        let mut ahead = self.ahead();
        let size = ahead.u8()?;
        let bytes = ahead.take(usize::from(size))?;
        *self = ahead;
        Ok(bytes)
    }

    /// Bytes after their count in two bytes, lent.
    #[tactic(auto, unfolding(crate::specs::Cursor::sized_at))]
    pub fn sized16(&mut self) -> Result<&'a [u8], Cut>
        ensures bytes { Steps (λ x. x.now) place_of result self.old self.new (sized_at 2 self.old) }
        ensures count { IfOk result (λ x. length x.now ≤ 65535) }
    {
        let mut ahead = self.ahead();
        let size = ahead.u16()?;
        let bytes = ahead.take(usize::from(size))?;
        *self = ahead;
        Ok(bytes)
    }

    /// Bytes after their count in four bytes, lent.
    #[tactic(auto, unfolding(crate::specs::Cursor::sized_at))]
    pub fn sized32(&mut self) -> Result<&'a [u8], Cut>
        ensures bytes { Steps (λ x. x.now) place_of result self.old self.new (sized_at 4 self.old) }
        ensures count { IfOk result (λ x. length x.now ≤ 4294967295) }
    {
        let mut ahead = self.ahead();
        let size = ahead.u32()?;
        let bytes = ahead.take(size as usize)?;
        *self = ahead;
        Ok(bytes)
    }
}
