//! The header that every download message has (ISO/IEC 13818-6, clause 7.2).

ghost use Rattle.std.specs.Prelude.{◌≡◌, ◌+◌, ◌<◌, ℕ, List, Ok, length, slice_index};
ghost use Rattle.oc_bytes.specs.Cursor.{Cursor, from_start};
ghost use Rattle.oc_bytes.specs.Grammar.{read};
ghost use Rattle.oc_bytes.specs.Outcome.{Gives};
ghost use Rattle.oc_bytes.specs.Cause.{place_of};
ghost use Rattle.ddb_block.specs.Message as spellings;
ghost use Rattle.ddb_block.specs.Message.{IsMessage, opening, prefix_of, message_at};
ghost use Rattle.ddb_block.specs.Inner.Message.{opening_with, body_at};

use oc_bytes::{Cut, Fields};

/// The header before a body of `size` bytes: its one spelling, without an adaptation and with the reserved byte 0xFF.
pub fn header_bytes(id: u16, transaction: u32, size: u16) -> [u8; 12]
    ensures { result ≡ prefix_of id transaction size }
{
    let [id_high, id_low] = id.to_be_bytes();
    let [first, second, third, fourth] = transaction.to_be_bytes();
    let [size_high, size_low] = size.to_be_bytes();
    [
        0x11, 0x03, id_high, id_low, first, second, third, fourth, 0xFF, 0, size_high, size_low,
    ]
}

/// Reads the fields before messageLength: the transaction, the reserved byte and adaptationLength.
#[tactic(auto, unfolding(oc_bytes::specs::Grammar::read))]
fn opening_of(fields: &mut Fields<'_>, id: u16) -> Result<(u32, u8, u8), Cut>
    ensures { Gives (λ x. (opening_with x.0 x.1 x.2, fields.new)) place_of result
        (read (opening id) fields.old) }
{
    fields.this_u8(0x11)?;
    fields.this_u8(0x03)?;
    fields.this_u16(id)?;
    let transaction = fields.u32()?;
    let reserved = fields.u8()?;
    let adaptation = fields.u8()?;
    Ok((transaction, reserved, adaptation))
}

/// Reads what follows an opening: its transaction again, and the fields of the body.
#[tactic(auto, unfolding(crate::specs::Inner::Message::body_at))]
fn body_of<'a>(
    fields: &mut Fields<'a>,
    transaction: u32,
    adaptation: u8,
) -> Result<(u32, Fields<'a>), Cut>
    ensures { Gives (λ x. x) place_of result (body_at transaction adaptation fields.old) }
{
    let adaptation = usize::from(adaptation);
    let place = fields.place();
    let length = usize::from(fields.u16()?);
    if length < adaptation || length > fields.rest().len() {
        return Err(Cut(place));
    }
    fields.take(adaptation)?;
    let body = fields.part(length - adaptation)?;
    Ok((transaction, body))
}

/// Reads the header of a download message: its transaction, and the fields of its body. The adaptation is passed over, and
/// so is what follows the message.
///
/// Places are counted from the payload's first byte. [`Cut`] has the place of the first field that is cut, or that breaks its
/// rule: protocolDiscriminator is 0x11, dsmccType 0x03 and messageId `id`; messageLength is at least adaptationLength and
/// at most the number of bytes after it.
#[tactic(auto, unfolding(crate::specs::Message::message_at, crate::specs::Inner::Message::body_at))]
pub fn message(payload: &[u8], id: u16) -> Result<(u32, Fields<'_>), Cut>
    ensures { Gives (λ x. x) place_of result (message_at id (from_start payload.now)) }
{
    let mut fields = Fields::new(payload);
    let (transaction, _reserved, adaptation) = opening_of(&mut fields, id)?;
    body_of(&mut fields, transaction, adaptation)
}

/// What holds of each message, whoever wrote it: what the relation says is read, what is read the relation says, and each
/// spelling is a message.
pub fn messages_read()
    ensures relation { (bytes : List ℕ) (id transaction : ℕ) (body : List ℕ)
        → (m : IsMessage bytes id transaction body)
        → message_at id (from_start bytes)
        ≡ Ok (transaction, record { place = 12 + length m.adaptation; rest = body }) }
    ensures reading { (bytes : List ℕ) (id : ℕ) (x : ℕ × Cursor)
        → ((i : ℕ) → slice_index bytes i < 256)
        → id < 65536
        → message_at id (from_start bytes) ≡ Ok x
        → IsMessage bytes id x.0 x.1.rest × ((i : ℕ) → slice_index x.1.rest i < 256) }
    ensures spells { (id transaction : ℕ) (body : List ℕ)
        → id < 65536
        → transaction < 4294967296
        → length body < 65536
        → IsMessage (spellings.message id transaction body) id transaction body }
{}
