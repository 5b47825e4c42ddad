ghost use Rattle.std.specs.Prelude.{◌≡◌, ◌==◌, ◌&&◌, ◌≤◌, ◌++◌, ◌∷◌, List, [], OnOk};
ghost use Rattle.std.specs.Option.{option_map};
ghost use Rattle.ddb_block.specs.Blocks as ddb;
ghost use Rattle.shell_streams.specs.Cuts.{Bytes};
ghost use Rattle.receiver_commands.specs.Over.{over, out_over};
ghost use Rattle.receiver_commands.specs.Input.{block_heard};
ghost use Rattle.receiver_commands.specs.Gathering.{asked_of};
ghost use Rattle.receiver_commands.specs.Inner.Gathering.{HasBlocks};
ghost use Rattle.shell_streams.specs.Sending.{Puts, IsInTime, IsFlushed};
ghost use Rattle.receiver_commands.specs.Assemble.{Assembles};
ghost use Rattle.receiver_commands.specs.Inner.Assemble.{IsModule};
ghost use Rattle.block_assembler.specs.declared.TheConstants.{MOST_MODULE_SIZE};

use crate::status::Status;
use block_assembler::{Assembler, NewFault};
use ddb_block::{Parts, parts_of};
use dsmcc_section::{Table, payload_of};
use oc_bytes::{NoMemory, Source};
use shell_streams::{Carrier, Listener, Output, OutputFault, hear_all};
use std::alloc::Global;

/// The most sections that are taken.
pub const MOST_ASSEMBLED: u32 = 65_536;

/// The bytes of each block of the module but its last: the most that a block has.
pub const ASSEMBLED_BLOCK: u16 = 4_066;

/// The module that is asked for.
#[derive(Clone, Copy)]
pub struct Wanted {
    /// Its id, any 16-bit number.
    pub id: u16,
    /// Its version, any 8-bit number.
    pub version: u8,
    /// Its size in bytes, at most [`block_assembler::MOST_MODULE_SIZE`].
    pub size: u32,
    /// The id of its blocks' download, any 32-bit number.
    pub download: u32,
}

#[derive(Drop)]
struct Gatherer {
    wanted: Wanted,
    assembler: Assembler,
}

impl Listener for Gatherer {
    ghost use Rattle.receiver_commands.specs.Inner.Gatherers.{Gathers};

    ghost heard = { Gathers };

    fn hear(&mut self, section: &[u8]) -> Result<(), NoMemory> {
        offer_section(self.wanted, section, &mut self.assembler);
        Ok(())
    }
}

/// Writes the module that is asked for, out of sections back to back: of each block the first that
/// fits (ISO/IEC 13818-6, 7.3.7.1). The whole input is read before anything is written, and nothing
/// is written if a block is missing.
pub fn assemble<S: Source, O: Output>(
    alloc: Global,
    wanted: Wanted,
    source: &mut S,
    out: &mut O,
) -> Status
    requires size { wanted.size ≤ MOST_MODULE_SIZE }
    requires pending { IsFlushed (O.state out.old) }
    ensures assembles { Assembles (asked_of wanted) result
        (over S.left S.faults source.old source.new) (out_over O.state out.old out.new) }
    ensures same { (O.state out.new).name ≡ (O.state out.old).name }
    ensures in_time { IsInTime (O.state out.old) (O.state out.new) }
{
    let assembler = match Assembler::new(alloc, wanted.size, ASSEMBLED_BLOCK) {
        Ok(assembler) => assembler,
        Err(NewFault::NoMemory) => return Status::NoMemory,
        Err(_) => unreachable!(),
    };
    let mut gatherer = Gatherer { wanted, assembler };
    match hear_all(
        alloc,
        Carrier::Sections(MOST_ASSEMBLED),
        source,
        &mut gatherer,
    ) {
        Ok(()) => write_module(&gatherer.assembler, out),
        Err(fault) => Status::from(fault),
    }
}

fn write_module<O: Output>(assembler: &Assembler, out: &mut O) -> Status
    requires { IsFlushed (O.state out.old) }
    ensures writes { IsModule assembler.now.blocks (out_over O.state out.old out.new) result }
    ensures same { (O.state out.new).name ≡ (O.state out.old).name }
    ensures in_time { IsInTime (O.state out.old) (O.state out.new) }
{
    if let Some(block) = assembler.first_missing() {
        return Status::Incomplete(u32::from(block));
    }
    match assembler.whole() {
        Some(bytes) => match write_all(bytes, out) {
            Ok(()) => Status::Done,
            Err(fault) => Status::from(fault),
        },
        None => unreachable!(),
    }
}

fn write_all<O: Output>(bytes: &[u8], out: &mut O) -> Result<(), OutputFault>
    ensures puts { Puts result (O.state out.old) (O.state out.new) bytes.now }
    ensures empty { OnOk result (IsFlushed (O.state out.new)) }
{
    out.put(bytes)?;
    out.flush()
}

/// The block's bytes are lent up to the assembler.
fn offer_section(wanted: Wanted, section: &[u8], assembler: &mut Assembler)
    ensures { (sections : List Bytes)
        → HasBlocks (asked_of wanted) assembler.old sections
        → HasBlocks (asked_of wanted) assembler.new (sections ++ section.now ∷ []) }
{
    if let Some(block) = block_in(section) {
        if is_wanted(wanted, &block) {
            let _ = assembler.offer(block.block, block.bytes);
        }
    }
}

fn is_wanted(wanted: Wanted, block: &Parts<'_>) -> bool
    ensures { result ≡ ((block.now.download == wanted.download)
        && (block.now.module == wanted.id)
        && (block.now.version == wanted.version)) }
{
    block.download == wanted.download
        && block.module == wanted.id
        && block.version == wanted.version
}

fn block_in(section: &[u8]) -> Option<Parts<'_>>
    ensures { option_map ddb.parts_view result ≡ block_heard section.now }
{
    match payload_of(section) {
        Ok((Table::Blocks, payload)) => parts_of(payload).ok(),
        Ok((Table::Control, _)) | Err(_) => None,
    }
}
