//! The sections of a generation's items.
ghost use Rattle.std.specs.Prelude.{◌≡◌, ◌≤◌, ◌<◌, ◌+◌, ◌%◌, ◌++◌, [], false, length, map, IfOk};
ghost use Rattle.std.specs.List.{All};
ghost use Rattle.std.specs.Option.{unwrap_or};
ghost use Rattle.oc_bytes.specs.Outcome.{MakesList};
ghost use Rattle.biop_object.specs.declared.reading.TheConstants.{GATEWAY};
ghost use Rattle.biop_object.specs.Names.{module_in};
ghost use Rattle.generation.specs.Layouts.{dii_lines, control_section, block_section as section_of_block, gateway_location, count_in};
ghost use Rattle.generation.specs.Groups.{group_in};
ghost use Rattle.generation.specs.View.{IsRising, view_listed};
ghost use Rattle.dsmcc_section.specs.Sections.{IsFramed, fields_with, spelling};
ghost use Rattle.ior_tap.specs.Iors.{view, written_form};
ghost use Rattle.ddb_block.specs.Blocks.{block_of};
ghost use Rattle.dsi_dii.specs.Controls.{dsi_spelling, dii_spelling, dii_transaction, DiiFields};
ghost use Rattle.dsi_dii.specs.declared.ModuleLine.{ModuleLine};
ghost use Rattle.dsi_dii.specs.declared.TheConstants.{LAST_GENERATION, MOST_TOTAL_SIZE};
ghost use Rattle.module_groups.specs.declared.TheConstants.{GROUP_SIZE, MOST_GROUPS};
ghost use Rattle.dsmcc_section.specs.declared.TheConstants.{MOST_PAYLOAD};

use crate::groups::group_modules;
use crate::made::{Listed, count_in as count_of, find_module};
use carousel_profile::{ASSOCIATION_TAG, BLOCK_SIZE, DELIVERY_USE, DSI_TRANSACTION};
use ddb_block::{Parts, block_count, block_front};
use dsi_dii::{Dii, DiiFault, Dsi, ModuleLine, TransactionId, encode_dii, encode_dsi};
use dsmcc_section::{EncodeFault, Header, Table, encode_parts};
use ior_tap::{Binder, Ior, Key, Location, Profile, Tap};
use oc_bytes::NoMemory;
use std::alloc::{AllocError, Global};

/// The block size, for places in a slice.
const BLOCK_BYTES: usize = BLOCK_SIZE as usize;

/// The section of the DSI: it names the gateway, which is the object of key 1 in module 1.
pub(crate) fn dsi_section(alloc: Global, carousel: u32) -> Result<Vec<u8>, NoMemory>
    ensures spells { MakesList result
        (spelling
        (control_section 0
        (dsi_spelling DSI_TRANSACTION GATEWAY (gateway_location carousel)))) }
    ensures framed { IfOk result (λ v. IsFramed v.items) }
{
    let dsi = Dsi {
        transaction: TransactionId::dsi(),
        gateway: gateway(alloc, carousel)?,
    };
    let payload = encode_dsi(alloc, &dsi)?;
    control(alloc, 0, payload)
}

/// The reference to the gateway.
fn gateway(alloc: Global, carousel: u32) -> Result<Ior, NoMemory>
    ensures { IfOk result (λ ior.
        view ior ≡ written_form GATEWAY (gateway_location carousel)) }
{
    let key = Key::new(vec![in alloc; 0, 0, 0, 1]?);
    let selector = vec![in alloc; 0, 1, 0x80, 0, 0, 2, 0xFF, 0xFF, 0xFF, 0xFF]?;
    let tap = Tap {
        id: 0,
        use_code: DELIVERY_USE,
        assoc: ASSOCIATION_TAG,
        selector,
    };
    let location = Location {
        carousel,
        module: 1,
        key,
    };
    let taps = vec![in alloc; tap]?;
    let profiles = vec![in alloc; Profile::Biop(location, Binder { taps })]?;
    Ok(Ior {
        kind: *b"srg\0",
        profiles,
    })
}

/// The section of the DII of a group: it lists each module of the group with its size and its version.
pub(crate) fn dii_section(
    alloc: Global,
    carousel: u32,
    number: u64,
    group: u16,
    modules: &[Listed],
    counts: &[u64],
) -> Result<Vec<u8>, NoMemory>
    requires number { number ≤ LAST_GENERATION }
    requires group { (1 ≤ group) × (group ≤ MOST_GROUPS) }
    requires rising { IsRising (map view_listed modules.now) }
    requires sizes { All (λ l. length l.bytes ≤ MOST_TOTAL_SIZE) modules.now }
    ensures spells { IfOk result (λ v. v.items
        ≡ spelling (control_section (dii_transaction number group % 65536) (dii_spelling (record {
          download = carousel;
          block_size = BLOCK_SIZE;
          transaction = dii_transaction number group;
          modules = dii_lines counts.now (group_in (map view_listed modules.now) group);
        })))) }
    ensures framed { IfOk result (λ v. IsFramed v.items) }
{
    let transaction = TransactionId::dii(number, group);
    let lines = module_lines(alloc, group_modules(modules, group), counts)?;
    let payload = dii_payload(alloc, carousel, transaction, lines)?;
    control(alloc, (transaction.0 % 65536) as u16, payload)
}

/// The payload of the DII that lists modules.
fn dii_payload(
    alloc: Global,
    carousel: u32,
    transaction: TransactionId,
    modules: Vec<ModuleLine>,
) -> Result<Vec<u8>, NoMemory>
    requires plain { All (λ l. l.compressed ≡ false) modules.items }
    requires few { length modules.items ≤ GROUP_SIZE }
    ensures spells { IfOk result (λ v. v.items ≡ dii_spelling (record {
      download = carousel;
      block_size = BLOCK_SIZE;
      transaction = transaction.0;
      modules = modules.items;
    })) }
    ensures short { IfOk result (λ v. length v.items ≤ MOST_PAYLOAD) }
{
    let dii = Dii {
        download: carousel,
        block_size: BLOCK_SIZE,
        transaction,
        modules,
    };
    match encode_dii(alloc, &dii) {
        Ok(payload) => Ok(payload),
        Err(DiiFault::NoMemory) => Err(AllocError),
        Err(DiiFault::TooMany) => unreachable!(),
    }
}

fn module_lines(
    alloc: Global,
    modules: &[Listed],
    counts: &[u64],
) -> Result<Vec<ModuleLine>, NoMemory>
    requires { All (λ l. length l.bytes ≤ MOST_TOTAL_SIZE) modules.now }
    ensures { MakesList result (dii_lines counts.now (map view_listed modules.now)) }
{
    let mut lines = Vec::new(alloc);
    for listed in modules {
        lines.push(ModuleLine {
            id: listed.id,
            size: listed.bytes.bytes().len() as u32,
            version: (count_of(counts, usize::from(listed.id)) % 256) as u8,
            compressed: false,
        })?;
    }
    Ok(lines)
}

/// A section of a control message.
fn control(alloc: Global, extension: u16, payload: Vec<u8>) -> Result<Vec<u8>, NoMemory>
    requires { length payload.items ≤ MOST_PAYLOAD }
    ensures spells { MakesList result (spelling (control_section extension payload.items)) }
    ensures framed { IfOk result (λ v. IsFramed v.items) }
{
    let header = Header {
        table: Table::Control,
        extension,
        version: 0,
        number: 0,
        last: 0,
    };
    section(alloc, &header, &[], &payload)
}

/// The section whose payload is both parts, one after the other.
fn section(alloc: Global, header: &Header, front: &[u8], rest: &[u8]) -> Result<Vec<u8>, NoMemory>
    requires version { header.now.version < 32 }
    requires room { length front.now + length rest.now ≤ MOST_PAYLOAD }
    ensures spells { MakesList result (spelling (fields_with header.now (front.now ++ rest.now))) }
    ensures framed { IfOk result (λ v. IsFramed v.items) }
{
    match encode_parts(alloc, header, front, rest) {
        Ok(bytes) => Ok(bytes),
        Err(EncodeFault::NoMemory) => Err(AllocError),
        Err(EncodeFault::TooLong) => unreachable!(),
    }
}

/// The section of a block of a listed module.
pub(crate) fn block_of_module(
    alloc: Global,
    carousel: u32,
    modules: &[Listed],
    counts: &[u64],
    id: u16,
    block: u16,
) -> Result<Vec<u8>, NoMemory>
    requires rising { IsRising (map view_listed modules.now) }
    requires sizes { All (λ l. length l.bytes ≤ MOST_TOTAL_SIZE) modules.now }
    ensures spells { MakesList result
        (spelling
        (section_of_block carousel id (count_in counts.now id % 256) block
        (unwrap_or (module_in (map view_listed modules.now) id) []))) }
    ensures framed { IfOk result (λ v. IsFramed v.items) }
{
    let version = (count_of(counts, usize::from(id)) % 256) as u8;
    block_section(alloc, carousel, id, version, block, bytes_of(modules, id))
}

/// The bytes of the module of an id, or none where it isn't listed.
fn bytes_of(modules: &[Listed], id: u16) -> &[u8]
    requires { IsRising (map view_listed modules.now) }
    ensures { result.now ≡ unwrap_or (module_in (map view_listed modules.now) id) [] }
{
    match find_module(modules, id) {
        Some(module) => module.bytes(),
        None => &[],
    }
}

/// The section of a block of a module's bytes.
fn block_section(
    alloc: Global,
    carousel: u32,
    id: u16,
    version: u8,
    block: u16,
    bytes: &[u8],
) -> Result<Vec<u8>, NoMemory>
    requires { length bytes.now ≤ MOST_TOTAL_SIZE }
    ensures spells { MakesList result
        (spelling (section_of_block carousel id version block bytes.now)) }
    ensures framed { IfOk result (λ v. IsFramed v.items) }
{
    let parts = Parts {
        download: carousel,
        module: id,
        version,
        block,
        bytes: block_bytes(bytes, block),
    };
    let blocks = block_count(bytes.len() as u32, BLOCK_SIZE);
    let header = Header {
        table: Table::Blocks,
        extension: id,
        version: version % 32,
        number: (block % 256) as u8,
        last: blocks.saturating_sub(1).min(255) as u8,
    };
    section(alloc, &header, &block_front(&parts), parts.bytes)
}

/// The bytes of a block: [`BLOCK_SIZE`], or what is left.
fn block_bytes(bytes: &[u8], block: u16) -> &[u8]
    requires { length bytes.now ≤ MOST_TOTAL_SIZE }
    ensures block { result.now ≡ block_of bytes.now BLOCK_SIZE block }
    ensures short { length result.now ≤ BLOCK_SIZE }
{
    let first = (usize::from(block) * BLOCK_BYTES).min(bytes.len());
    let rest = &bytes[first..];
    &rest[..rest.len().min(BLOCK_BYTES)]
}
