//! Length fields of 12 bits in sections (ISO/IEC 13818-1, 2.4.4).

ghost use Rattle.std.specs.Prelude.{◌≡◌, ◌+◌, ◌*◌, ◌%◌};

/// The greatest length field of a section: the bytes after it.
pub const MOST_LENGTH: usize = 4_093;

/// The most bytes of a section.
pub const MOST_SECTION: usize = MOST_LENGTH + 3;

/// The number in the low 12 bits of two bytes.
#[inline]
pub fn length_field(high: u8, low: u8) -> usize
    ensures { result ≡ high % 16 * 256 + low }
{
    usize::from(high) % 16 * 256 + usize::from(low)
}
