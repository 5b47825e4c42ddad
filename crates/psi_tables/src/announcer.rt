ghost use Rattle.std.specs.Prelude.{◌≡◌, ◌++◌, IfOk, OnOk};
ghost use Rattle.section_stream.specs.Packing.{IsSectionLike};
ghost use Rattle.psi_tables.specs.Written.{announcer_packets, announcer_start, after_announcing, packets_of_table, past_table};

use crate::written::{written_pat, written_pmt};
use carousel_profile::{PACKET_LENGTH, PAT_PID, PMT_PID};
use oc_bytes::NoMemory;
use section_stream::Mux;
use std::alloc::Global;
use std::marker::Model;

/// Sends the tables that name a carousel: the PAT on PID 0, its map table on PID 32.
#[derive(Drop)]
pub struct Announcer {
    carousel: u32,
    pat: Vec<u8>,
    pmt: Vec<u8>,
    tables: Mux,
    maps: Mux,
}

impl Model for Announcer {
    ghost use Rattle.std.specs.Prelude.{◌≡◌, ◌<◌};
    ghost use Rattle.psi_tables.specs.Written.{AnnouncerState, pat_spelling, pmt_spelling};

    ghost Value = { AnnouncerState };

    ghost view = { λ a. record { carousel = a.carousel; tables = a.tables; maps = a.maps } };

    ghost invariant = { λ a.
        (a.carousel < 4294967296)
        × (a.pat.items ≡ pat_spelling)
        × (a.pmt.items ≡ pmt_spelling a.carousel) };
}

impl Announcer {
    /// An announcer of the carousel of this id. Its first packets have the continuity counter 0.
    pub fn new(alloc: Global, carousel: u32) -> Result<Announcer, NoMemory>
        ensures { IfOk result (λ a. a ≡ announcer_start carousel) }
    {
        let pat = written_pat(alloc)?;
        let pmt = written_pmt(alloc, carousel)?;
        Ok(Announcer {
            carousel,
            pat,
            pmt,
            tables: Mux::new(alloc, PAT_PID),
            maps: Mux::new(alloc, PMT_PID),
        })
    }

    /// Puts the packets of the PAT, then of the map table, into `out`; on its PID each is a group
    /// of its own.
    ///
    /// After `NoMemory` `out` may have the packets of the PAT, and the counters are undefined.
    pub fn packets(&mut self, out: &mut Vec<[u8; PACKET_LENGTH]>) -> Result<(), NoMemory>
        ensures packets { OnOk result
            (out.new.items ≡ out.old.items ++ announcer_packets self.old) }
        ensures counters { OnOk result (self.new ≡ after_announcing self.old) }
    {
        send(&mut self.tables, &self.pat, out)?;
        send(&mut self.maps, &self.pmt, out)
    }
}

fn send(mux: &mut Mux, table: &[u8], out: &mut Vec<[u8; PACKET_LENGTH]>) -> Result<(), NoMemory>
    requires { IsSectionLike table.now }
    ensures packets { OnOk result
        (out.new.items ≡ out.old.items ++ packets_of_table mux.old table.now) }
    ensures counters { OnOk result (mux.new ≡ past_table mux.old table.now) }
{
    mux.packets(table, out)?;
    mux.finish(out)
}
