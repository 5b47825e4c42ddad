ghost use Rattle.std.specs.Prelude.{◌≡◌};
ghost use Rattle.psi_tables.specs.Receiving as receiving;

use carousel_profile::PACKET_LENGTH;
use ts_packet::parse;

/// The PID of a packet with a payload.
pub fn pid_of(packet: &[u8; PACKET_LENGTH]) -> Option<u16>
    ensures { result ≡ receiving.pid_of packet.now }
{
    match parse(packet) {
        Ok(fields) if !fields.payload.is_empty() => Some(fields.pid),
        _ => None,
    }
}
