ghost use Rattle.std.specs.Prelude.{◌≡◌, ◌↔◌, ◌≤◌, ◌<◌, ◌+◌, ℕ, ◌==◌, List, Some, None, Ok, length, IsTrue, IfOk, IsErrOf, IsOkAnd, MatchResult, false};
ghost use Rattle.std.specs.Option.{option_map_or};
ghost use Rattle.std.specs.List.{list_any};
ghost use Rattle.oc_bytes.specs.Descriptors.{descriptors_in};
ghost use Rattle.oc_bytes.specs.Outcome.{Gives};
ghost use Rattle.oc_bytes.specs.Cause.{place_of};
ghost use Rattle.oc_bytes.specs.Cursor.{Cursor, from_start, each_at, skip_reading, value_only};
ghost use Rattle.oc_bytes.specs.Grammar.{front_of, read as read_by};
ghost use Rattle.ior_tap.specs.IorReading.{tap_at, profile_count_at};
ghost use Rattle.ior_tap.specs.Iors as iors;
ghost use Rattle.dsi_dii.specs.Controls as controls;
ghost use Rattle.dsi_dii.specs.Controls.{cause, view, Message, Reads, head_at, gateway_at, private_at, dsi_at, opening_at, dii_at, message_id_of, read};
ghost use Rattle.dsi_dii.specs.declared.reading.Head.{Head};
ghost use Rattle.dsi_dii.specs.Inner.ControlReading.{line_at};

use crate::{Control, ControlFault, Dii, Dsi, ModuleLine, TransactionId};
use ddb_block::message;
use ior_tap::{Ior, IorFault};
use oc_bytes::{Cut, Descriptors, Fields};
use std::alloc::Global;

/// The fields of a DII before its modules that are used.
#[derive(Clone, Copy, Debug, PartialEq, Eq)]
pub struct Head {
    pub download: u32,
    pub block_size: u16,
    pub modules: u16,
}

#[tactic(auto, unfolding(oc_bytes::specs::Grammar::read))]
fn head_fields(fields: &mut Fields) -> Result<Head, Cut>
    ensures { Gives {Y = Head × Cursor} (λ h. (h, fields.new)) place_of result
        (head_at fields.old) }
{
    let download = fields.u32()?;
    let block_size = fields.u16()?;
    fields.u8()?;
    fields.u8()?;
    fields.u32()?;
    fields.u32()?;
    fields.sized16()?;
    let modules = fields.u16()?;
    Ok(Head {
        download,
        block_size,
        modules,
    })
}

/// Passes over a tap: three numbers and a selector.
#[tactic(auto, unfolding(oc_bytes::specs::Grammar::read))]
fn pass_tap(fields: &mut Fields) -> Result<(), Cut>
    ensures { Gives (λ _. (tt, fields.new)) place_of result (skip_reading (tap_at fields.old)) }
{
    fields.u16()?;
    fields.u16()?;
    fields.u16()?;
    fields.sized8()?;
    Ok(())
}

fn pass_taps(fields: &mut Fields, count: u8) -> Result<(), Cut>
    ensures { Gives (λ _. (tt, fields.new)) place_of result
        (skip_reading (each_at tap_at count fields.old)) }
{
    for _ in 0..count {
        pass_tap(fields)?;
    }
    Ok(())
}

#[tactic(auto, unfolding(oc_bytes::specs::Grammar::read))]
fn user_info(info: &[u8]) -> Result<&[u8], Cut>
    ensures { MatchResult result (λ u. front_of controls.info info.now ≡ Some u.now)
        (λ _. front_of controls.info info.now ≡ None) }
{
    let mut fields = Fields::new(info);
    fields.take(12)?;
    let taps = fields.u8()?;
    pass_taps(&mut fields, taps)?;
    fields.sized8()
}

fn has_compression(user_info: &[u8]) -> bool
    ensures { result ≡ list_any (λ d. d.0 == 0x09) (descriptors_in user_info.now) }
{
    let mut descriptors = Descriptors::new(user_info);
    while let Some(descriptor) = descriptors.next() {
        if descriptor.tag == 0x09 {
            return true;
        }
    }
    false
}

#[tactic(auto, unfolding(oc_bytes::specs::Grammar::read))]
fn line(fields: &mut Fields) -> Result<ModuleLine, Cut>
    ensures { Gives {Y = ModuleLine × Cursor} (λ l. (l, fields.new)) place_of result
        (line_at fields.old) }
{
    let id = fields.u16()?;
    let size = fields.u32()?;
    let version = fields.u8()?;
    let info = fields.sized8()?;
    Ok(ModuleLine {
        id,
        size,
        version,
        compressed: is_compressed(info),
    })
}

fn is_compressed(info: &[u8]) -> bool
    ensures { result
        ≡ option_map_or controls.is_compressed (front_of controls.info info.now) false }
{
    match user_info(info) {
        Ok(user_info) => has_compression(user_info),
        Err(Cut(_)) => false,
    }
}

fn lines(alloc: Global, fields: &mut Fields, count: u16) -> Result<Vec<ModuleLine>, ControlFault>
    ensures exact { Gives {Y = List ModuleLine × Cursor} (λ ls. (ls.items, fields.new)) cause result
        (each_at line_at count fields.old) }
    ensures memory { IsErrOf result ControlFault.NoMemory → 0 < count }
{
    let mut modules = Vec::new(alloc);
    for _ in 0..count {
        let module = line(fields)?;
        modules.push(module)?;
    }
    Ok(modules)
}

#[tactic(auto, unfolding(oc_bytes::specs::Grammar::read, crate::specs::Controls::dii_at, crate::specs::Controls::opening_at))]
fn dii_of(alloc: Global, payload: &[u8]) -> Result<Control, ControlFault>
    ensures exact { Gives view cause result (value_only (dii_at (from_start payload.now))) }
    ensures memory { IsErrOf result ControlFault.NoMemory
        → IsOkAnd (opening_at (from_start payload.now)) (λ h. 0 < h.0.modules) }
{
    let (transaction, mut fields) = message(payload, 0x1002)?;
    let head = head_fields(&mut fields)?;
    let modules = lines(alloc, &mut fields, head.modules)?;
    fields.sized16()?;
    Ok(Control::Dii(Dii {
        download: head.download,
        block_size: head.block_size,
        transaction: TransactionId(transaction),
        modules,
    }))
}

/// The private data of a DSI; the fields are left at its end.
#[tactic(auto, unfolding(oc_bytes::specs::Grammar::read, oc_bytes::specs::Cursor::sized_at))]
fn private_data<'a>(fields: &mut Fields<'a>) -> Result<&'a [u8], Cut>
    ensures exact { Gives {Y = List ℕ × Cursor} (λ x. (x.now, fields.new)) place_of result
        (read_by controls.private_data fields.old) }
    ensures inside { IfOk result (λ x. length x.now ≤ fields.new.place) }
{
    fields.take(20)?;
    fields.sized16()?;
    let size = fields.u16()?;
    fields.take(usize::from(size))
}

/// The IOR in private data at this place of the message.
fn gateway(alloc: Global, private: &[u8], place: usize) -> Result<Ior, ControlFault>
    requires { place + length private.now ≤ usize.MAX }
    ensures exact { (after : Cursor)
        → Gives {Y = iors.Fields × Cursor} (λ ior. (iors.view ior, after)) cause result
        (gateway_at place private.now after) }
    ensures memory { IsErrOf result ControlFault.NoMemory
        → IsOkAnd (profile_count_at (from_start private.now)) (λ n. 0 < n.0) }
{
    match ior_tap::decode(alloc, private) {
        Ok((ior, _)) => Ok(ior),
        Err(IorFault::BadIor(at)) => Err(ControlFault::NotControl(place + at)),
        Err(IorFault::NoMemory) => Err(ControlFault::NoMemory),
    }
}

#[tactic(auto, unfolding(crate::specs::Controls::dsi_at, crate::specs::Controls::private_at))]
fn dsi_of(alloc: Global, payload: &[u8]) -> Result<Control, ControlFault>
    ensures exact { Gives view cause result (value_only (dsi_at (from_start payload.now))) }
    ensures memory { IsErrOf result ControlFault.NoMemory
        → IsOkAnd (private_at (from_start payload.now)) (λ p.
        IsOkAnd (profile_count_at (from_start p.0)) (λ n. 0 < n.0)) }
{
    let (transaction, mut fields) = message(payload, 0x1006)?;
    let private = private_data(&mut fields)?;
    let gateway = gateway(alloc, private, fields.place() - private.len())?;
    Ok(Control::Dsi(Dsi {
        transaction: TransactionId(transaction),
        gateway,
    }))
}

#[tactic(auto, using(crate::proofs::Laws::short_is_other))]
fn is_dsi(payload: &[u8]) -> bool
    ensures { result ≡ (message_id_of payload.now == 0x1006) }
{
    match payload {
        [_, _, high, low, ..] => u16::from_be_bytes([*high, *low]) == 0x1006,
        _ => false,
    }
}

fn control(alloc: Global, payload: &[u8]) -> Result<Control, ControlFault>
    ensures exact { Gives view cause result (read payload.now) }
    ensures memory_dsi { IsErrOf result ControlFault.NoMemory
        → message_id_of payload.now ≡ 0x1006
        → IsOkAnd (private_at (from_start payload.now)) (λ p.
        IsOkAnd (profile_count_at (from_start p.0)) (λ n. 0 < n.0)) }
    ensures memory_dii { IsErrOf result ControlFault.NoMemory
        → (message_id_of payload.now ≡ 0x1006 → ⊥)
        → IsOkAnd (opening_at (from_start payload.now)) (λ h. 0 < h.0.modules) }
{
    if is_dsi(payload) {
        dsi_of(alloc, payload)
    } else {
        dii_of(alloc, payload)
    }
}

/// Reads a control message from a section's payload.
///
/// `NotControl` comes at the first field that breaks one of these rules:
///
/// - protocolDiscriminator 0x11, dsmccType 0x03, messageId 0x1006 (DSI) or 0x1002 (DII);
/// - messageLength, at least adaptationLength and at most the bytes that follow it;
/// - every field is in the message, the gateway's IOR in the DSI's private data.
///
/// Other fields may have any value. Bytes after the last field and after the message are ignored. A
/// moduleInfo that doesn't read counts as one without user info.
pub fn decode(alloc: Global, payload: &[u8]) -> Result<Control, ControlFault>
    ensures found { IfOk result (λ m. Reads payload.now (view m)) }
    ensures only { (m : Message) → Reads payload.now m → Gives view cause result (Ok m) }
    ensures exact { Gives view cause result (read payload.now) }
    ensures memory_dsi { IsErrOf result ControlFault.NoMemory
        → message_id_of payload.now ≡ 0x1006
        → IsOkAnd (private_at (from_start payload.now)) (λ p.
        IsOkAnd (profile_count_at (from_start p.0)) (λ n. 0 < n.0)) }
    ensures memory_dii { IsErrOf result ControlFault.NoMemory
        → (message_id_of payload.now ≡ 0x1006 → ⊥)
        → IsOkAnd (opening_at (from_start payload.now)) (λ h. 0 < h.0.modules) }
{
    control(alloc, payload)
}
