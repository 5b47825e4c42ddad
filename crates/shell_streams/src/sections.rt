ghost use Rattle.std.specs.Prelude.{◌≡◌, ◌≢◌, ◌<◌, ◌≤◌, ◌↔◌, [], Ok, Some, None, false, IsTrue, length, IfOk, OnErr};
ghost use Rattle.oc_bytes.specs.Outcome.{Faulted};
ghost use Rattle.shell_streams.specs.Cuts.{Bytes};
ghost use Rattle.shell_streams.specs.Inner.Cuts.{prefix_length};
ghost use Rattle.shell_streams.specs.Packets.{onto_left, LosesNothing};
ghost use Rattle.shell_streams.specs.Inner.Held.{IsDry};
ghost use Rattle.shell_streams.specs.declared.unread.TheConstants.{MOST_HELD};

use crate::unread::Unread;
use oc_bytes::{Failed, Source, length_field};

/// The length of the section at the front of the bytes, its three first bytes included, where it
/// is whole there.
fn section_len(bytes: &[u8]) -> Option<usize>
    ensures len { result ≡ prefix_length bytes.now }
    ensures short { result ≡ None → length bytes.now < MOST_HELD }
{
    if bytes.len() < 3 {
        return None;
    }
    let len = 3 + length_field(bytes[1], bytes[2]);
    if len <= bytes.len() { Some(len) } else { None }
}

/// The length of the next section, which then is held; none where the input ended before its end.
pub fn next_section<S: Source>(unread: &mut Unread, source: &mut S) -> Result<Option<usize>, Failed>
    ensures len { IfOk result (λ len. len ≡ prefix_length unread.new) }
    ensures ended { result ≡ Ok None → IsDry (S.left source.new) }
    ensures rest { LosesNothing unread.old (S.left source.old) unread.new (S.left source.new) }
    ensures later { S.faults source.old ≤ S.faults source.new }
    ensures cause { OnErr result (Faulted S.faults source.old source.new) }
{
    loop {
        let len = section_len(unread.held());
        if len.is_some() || !unread.more(source)? {
            return Ok(len);
        }
    }
}

/// Whether at least one byte more is there.
pub fn goes_on<S: Source>(unread: &mut Unread, source: &mut S) -> Result<bool, Failed>
    // What is answered:
    ensures more { IfOk result (λ more.
        (rest : Bytes)
        → onto_left unread.old (S.left source.old) ≡ Some rest
        → IsTrue more ↔ (rest ≢ [])) }
    ensures ended { result ≡ Ok false → IsDry (S.left source.new) }
    ensures none { OnErr result (unread.new ≡ []) }
    // What is left of the source:
    ensures rest { LosesNothing unread.old (S.left source.old) unread.new (S.left source.new) }
    ensures later { S.faults source.old ≤ S.faults source.new }
    ensures cause { OnErr result (Faulted S.faults source.old source.new) }
{
    if !unread.held().is_empty() {
        return Ok(true);
    }
    unread.more(source)
}
