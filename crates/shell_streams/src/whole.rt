ghost use Rattle.std.specs.Prelude.{◌≡◌, ◌≤◌, Err, IfOk, IfErr};
ghost use Rattle.oc_bytes.specs.Outcome.{Known, Faulted};
ghost use Rattle.shell_streams.specs.Packets.{AllTaken, Stopped, is_longer};

use crate::input::InputFault;
use oc_bytes::Source;
use std::alloc::Global;

/// The size of the pieces that are read, in bytes.
const PIECE: usize = 65_536;

/// Reads the source to its end, and gives all bytes that it had left, at most `most`.
///
/// `TooLong` comes exactly where at least a byte more than `most` is read, `Failed` where the
/// source fails, and `NoMemory` where the bytes find no memory; a prefix of the bytes was taken
/// then. The bytes are read in pieces of up to 65,536, and take memory of about their own number.
pub fn read_all<S: Source>(
    alloc: Global,
    source: &mut S,
    most: usize,
) -> Result<Vec<u8>, InputFault>
    ensures whole { IfOk result (λ bytes.
        Known (S.left source.old) (S.left source.new)
        (AllTaken (λ input. input) (is_longer most) bytes.items)) }
    ensures stopped { IfErr result (λ fault.
        Known (S.left source.old) (S.left source.new) (Stopped (is_longer most) fault)) }
    ensures later { S.faults source.old ≤ S.faults source.new }
    ensures cause { result ≡ Err InputFault.Failed → Faulted S.faults source.old source.new }
{
    let mut piece = vec![in alloc; 0; PIECE]?;
    let mut bytes = Vec::new(alloc);
    loop {
        let read = source.read(&mut piece)?;
        if read == 0 {
            return Ok(bytes);
        }
        if read > most - bytes.len() {
            return Err(InputFault::TooLong);
        }
        bytes.extend_from_slice(&piece[..read])?;
    }
}
