ghost use Rattle.std.specs.Prelude.{◌≡◌, ◌≤◌, ◌<◌, ◌+◌, ◌*◌, ◌++◌, ◌∷◌, ◌↔◌, [], length, IfOk, OnOk, IsErrOf};
ghost use Rattle.std.specs.List.{flat_map, All};
ghost use Rattle.oc_bytes.specs.Numbers.{two_bytes, four_bytes};
ghost use Rattle.oc_bytes.specs.Outcome.{MakesList};
ghost use Rattle.dsi_dii.specs.Controls.{IsDsi, IsDii, view_dsi, view_dii, Reads, line_bytes, dii_head, dii_spelling, dsi_spelling, IsWrittenDii, LineFits};
ghost use Rattle.ddb_block.specs.Message.{prefix_of};
ghost use Rattle.ior_tap.specs.Iors as iors;
ghost use Rattle.ior_tap.specs.declared.Location.{Location};
ghost use Rattle.dsi_dii.specs.Spellings.{DiiSpellingsReadBack, DiiSpellingsHaveSize, DsiSpellingsReadBack, DsiSpellingsHaveSize};

use crate::{Dii, DiiFault, Dsi, MOST_MODULES, ModuleLine};
use carousel_profile::{ASSOCIATION_TAG, BLOCK_SIZE, BLOCK_USE};
use ddb_block::header_bytes;
use oc_bytes::{NoMemory, Writer};
use std::alloc::Global;

/// The second byte of the use of the blocks' tap.
const USE: u8 = BLOCK_USE as u8;

/// The second byte of its association tag.
const TAG: u8 = ASSOCIATION_TAG as u8;

/// The moduleInfo: no time-outs, one tap for the blocks, no user info.
static MODULE_INFO: [u8; 21] = [
    0xFF, 0xFF, 0xFF, 0xFF, 0xFF, 0xFF, 0xFF, 0xFF, 0, 0, 0, 0, 1, 0, 0, 0, USE, 0, TAG, 0, 0,
];

fn put_header(writer: &mut Writer, id: u16, transaction: u32, size: u16) -> Result<(), NoMemory>
    ensures bytes { OnOk result (writer.new ≡ writer.old ++ prefix_of id transaction size) }
    ensures fits { transaction < 4294967296 }
{
    writer.put_bytes(&header_bytes(id, transaction, size))
}

fn put_line(writer: &mut Writer, line: ModuleLine) -> Result<(), NoMemory>
    ensures bytes { OnOk result (writer.new ≡ writer.old ++ line_bytes line) }
    ensures fits { LineFits line }
{
    writer.put_u16(line.id)?;
    writer.put_u32(line.size)?;
    writer.put_bytes(&[line.version, 21])?;
    writer.put_bytes(&MODULE_INFO)?;
    Ok(())
}

fn put_lines(writer: &mut Writer, lines: &[ModuleLine]) -> Result<(), NoMemory>
    ensures bytes { OnOk result (writer.new ≡ writer.old ++ flat_map line_bytes lines.now) }
    ensures fit { OnOk result (All LineFits lines.now) }
{
    for line in lines {
        put_line(writer, *line)?;
    }
    Ok(())
}

fn put_head(writer: &mut Writer, download: u32, modules: u16) -> Result<(), NoMemory>
    ensures bytes { OnOk result (writer.new ≡ writer.old ++ dii_head download modules) }
    ensures fits { download < 4294967296 }
{
    writer.put_u32(download)?;
    writer.put_u16(BLOCK_SIZE)?;
    writer.put_bytes(&[0; 10])?;
    writer.put_u16(0)?;
    writer.put_u16(modules)?;
    Ok(())
}

/// The one spelling of a DII of block size [`BLOCK_SIZE`] and no compressed module, as a section's
/// payload.
///
/// The windows are 0; there are no descriptors and no private data.
pub fn encode_dii(alloc: Global, dii: &Dii) -> Result<Vec<u8>, DiiFault>
    requires { IsWrittenDii (view_dii dii.now) }
    ensures spells { MakesList result (dii_spelling (view_dii dii.now)) }
    ensures reads { IfOk result (λ bytes. Reads bytes.items (IsDii (view_dii dii.now))) }
    ensures too_many { IsErrOf result DiiFault.TooMany
        ↔ (MOST_MODULES < length dii.now.modules.items) }
{
    let count = dii.modules.len();
    if count > MOST_MODULES {
        return Err(DiiFault::TooMany);
    }
    let mut writer = Writer::new(alloc);
    put_header(
        &mut writer,
        0x1002,
        dii.transaction.0,
        (22 + 29 * count) as u16,
    )?;
    put_head(&mut writer, dii.download, count as u16)?;
    put_lines(&mut writer, &dii.modules)?;
    writer.put_u16(0)?;
    Ok(writer.done())
}

/// The one spelling of a DSI, as a section's payload; the gateway is as `ior_tap::encode` asks.
/// `Err` is out of memory.
///
/// The serverId is 20 bytes 0xFF; there are no descriptors, taps, contexts or user info.
pub fn encode_dsi(alloc: Global, dsi: &Dsi) -> Result<Vec<u8>, NoMemory>
    requires { (l : Location) × iors.IsWritten (view_dsi dsi.now).gateway l }
    ensures spells { IfOk result (λ bytes.
        (l : Location)
        → iors.IsWritten (view_dsi dsi.now).gateway l
        → bytes.items ≡ dsi_spelling dsi.now.transaction.0 (view_dsi dsi.now).gateway.kind l) }
    ensures reads { IfOk result (λ bytes. Reads bytes.items (IsDsi (view_dsi dsi.now))) }
{
    let reference = ior_tap::encode(alloc, &dsi.gateway)?;
    let size = reference.len();
    let mut writer = Writer::new(alloc);
    put_header(&mut writer, 0x1006, dsi.transaction.0, (28 + size) as u16)?;
    writer.put_bytes(&[0xFF; 20])?;
    writer.put_u16(0)?;
    writer.put_u16((size + 4) as u16)?;
    writer.put_bytes(&reference)?;
    writer.put_u32(0)?;
    Ok(writer.done())
}

/// What is written is read back, and its size.
pub fn spellings_read_back()
    ensures dii { DiiSpellingsReadBack }
    ensures dii_size { DiiSpellingsHaveSize }
    ensures dsi { DsiSpellingsReadBack }
    ensures dsi_size { DsiSpellingsHaveSize }
{
    ior_tap::one_reading();
}
