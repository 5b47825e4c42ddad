ghost use Rattle.std.specs.Prelude.{◌≡◌, ◌<◌};
ghost use Rattle.mount_table.specs.Receiving as receiving;

use carousel_profile::PACKET_LENGTH;

/// The PID bits of a header, whatever the packet is; its receiver parses it.
#[inline]
pub fn header_pid(packet: &[u8; PACKET_LENGTH]) -> u16
    ensures pid { result ≡ receiving.header_pid packet.now }
    ensures low { result < 8192 }
{
    u16::from(packet[1] & 0x1F) << 8 | u16::from(packet[2])
}
