//! What a candidate says.

ghost use Rattle.std.specs.Prelude.{◌≡◌, Option, IsTrue, IfOk, OnErr};
ghost use Rattle.ddb_block.specs.Blocks as ddb;
ghost use Rattle.dsi_dii.specs.Controls as controls;
ghost use Rattle.tuner_core.specs.Heard.{as_heard, heard_control, heard_block};
ghost use Rattle.tuner_core.specs.Inner.Hearing.{view_told};
ghost use Rattle.tuner_core.specs.Stands.{asks};
ghost use Rattle.module_cache.specs.Joining.{CacheState};

use ddb_block::{Parts, parts_of};
use dsi_dii::{Control, ControlFault, Dii, Dsi};
use dsmcc_section::{Skip, Table, payload_of};
use oc_bytes::{Cut, NoMemory};
use std::alloc::{AllocError, Global};

/// What a candidate says. The bytes of a block are lent.
#[derive(Drop)]
pub enum Told<'a> {
    /// It is no section.
    Skipped(Skip),
    /// A section of table 0x3B that holds no control message, with the place.
    NoControl(usize),
    /// A section of table 0x3C that holds no block message, with the place.
    NoBlock(usize),
    Dsi(Dsi),
    Dii(Dii),
    Block(Parts<'a>),
}

#[tactic(auto, using(crate::proofs::Asking::asks_control))]
fn control_of(alloc: Global, payload: &[u8]) -> Result<Told<'_>, NoMemory>
    ensures says { IfOk result (λ t. view_told t ≡ heard_control (controls.read payload.now)) }
    ensures memory { (held : CacheState)
        → IsTrue (asks held (heard_control (controls.read payload.now))) }
{
    match dsi_dii::decode(alloc, payload) {
        Ok(Control::Dsi(d)) => Ok(Told::Dsi(d)),
        Ok(Control::Dii(d)) => Ok(Told::Dii(d)),
        Err(ControlFault::NotControl(place)) => Ok(Told::NoControl(place)),
        Err(ControlFault::NoMemory) => Err(AllocError),
    }
}

fn block_of(payload: &[u8]) -> Told<'_>
    ensures { view_told result ≡ heard_block (ddb.read payload.now) }
{
    match parts_of(payload) {
        Ok(parts) => Told::Block(parts),
        Err(Cut(place)) => Told::NoBlock(place),
    }
}

/// What a candidate says. Only a control message takes memory.
pub fn hear(alloc: Global, candidate: &[u8]) -> Result<Told<'_>, NoMemory>
    ensures says { IfOk result (λ t. view_told t ≡ as_heard candidate.now) }
    ensures memory { OnErr result ((held : CacheState)
        → IsTrue (asks held (as_heard candidate.now))) }
{
    match payload_of(candidate) {
        Ok((Table::Control, payload)) => control_of(alloc, payload),
        Ok((Table::Blocks, payload)) => Ok(block_of(payload)),
        Err(skip) => Ok(Told::Skipped(skip)),
    }
}
