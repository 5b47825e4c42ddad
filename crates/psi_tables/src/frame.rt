ghost use Rattle.std.specs.Prelude.{◌≡◌, ◌≤◌, ◌<◌, Some, None, length, MatchResult, Err};
ghost use Rattle.psi_tables.specs.Frames as frames;
ghost use Rattle.psi_tables.specs.Frames.{header_fault};

use long_section::ROUND;
use oc_bytes::{Cut, length_field};
use section_crc::crc;

/// The most bytes of a table's section after its section_length.
pub const MOST_LENGTH: usize = 1021;

/// The first field before the body that is cut or breaks its rule, in a section of table `id`. It
/// doesn't check the CRC.
pub fn check_header(id: u8, bytes: &[u8]) -> Result<(), Cut>
    ensures { MatchResult result (λ _. (header_fault id bytes.now ≡ None) × (12 ≤ length bytes.now))
        (λ cut. header_fault id bytes.now ≡ Some cut.0) }
{
    if bytes.is_empty() || bytes[0] != id {
        return Err(Cut(0));
    }
    if bytes.len() < 3 || bytes[1] < 128 || !is_counted(bytes) {
        return Err(Cut(1));
    }
    if bytes.len() < 5 {
        return Err(Cut(3));
    }
    if bytes.len() < 6 || bytes[5] % 2 == 0 {
        return Err(Cut(5));
    }
    if bytes.len() < ROUND {
        return Err(Cut(bytes.len().min(8)));
    }
    Ok(())
}

/// The length field fits the bytes and its limit.
fn is_counted(bytes: &[u8]) -> bool
    requires { 3 ≤ length bytes.now }
    ensures { result ≡ frames.is_counted bytes.now }
{
    let length = length_field(bytes[1], bytes[2]);
    length <= MOST_LENGTH && bytes.len() == length + 3
}

/// The CRC's place if it is wrong.
pub fn check_crc(bytes: &[u8]) -> Result<(), Cut>
    requires { 12 ≤ length bytes.now }
    ensures { MatchResult result (λ _. frames.crc_fault bytes.now ≡ None) (λ cut.
        frames.crc_fault bytes.now ≡ Some cut.0) }
{
    if crc(bytes) == 0 {
        Ok(())
    } else {
        Err(Cut(bytes.len() - 4))
    }
}
