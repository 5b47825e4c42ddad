ghost use Rattle.std.specs.Prelude.{◌≡◌, ◌++◌, ◌∷◌, ◌||◌, [], List, true, Some, if◌then◌else◌, IfOk, IsErr, OnOk, OnErr};
ghost use Rattle.section_stream.specs.Cuts.{Bytes};
ghost use Rattle.psi_tables.specs.Finding.{found_in};
ghost use Rattle.psi_tables.specs.Receiving as receiving;
ghost use Rattle.psi_tables.specs.Stands.{StandsFor, Holds, is_heard};
ghost use Rattle.psi_tables.specs.Inner.Stands.{found_by};
ghost use Rattle.psi_tables.specs.Inner.Steps.{TablesHeard};

use crate::directory::Directory;
use crate::receiving::pid_of;
use carousel_profile::{PACKET_LENGTH, PAT_PID};
use oc_bytes::NoMemory;
use section_stream::PacketDemux;
use std::alloc::{AllocError, Global};
use std::marker::Model;

/// Where a carousel is.
#[derive(Clone, Copy, Debug, PartialEq, Eq)]
pub enum Find {
    /// No section of the PAT came.
    NoPat,
    /// No map table of a program in force names the carousel.
    NotNamed,
    /// The PID of the first stream that names it, by the PAT's lines and then the map table's.
    At(u16),
}

/// Finds the PID of a carousel through the PAT and the map tables that it lists.
#[derive(Drop)]
pub struct Finder {
    tables: PacketDemux,
    directory: Directory,
    found: Find,
    spent: bool,
}

impl Model for Finder {
    ghost use Rattle.psi_tables.specs.Stands.{FinderState, view_finder};

    ghost Value = { FinderState };

    ghost view = { view_finder };
}

impl Finder {
    /// A finder of the carousel of this id, before the first packet. `Err` is out of memory.
    pub fn new(alloc: Global, carousel: u32) -> Result<Finder, NoMemory>
        ensures carousel { IfOk result (λ f. f.directory.carousel ≡ carousel) }
        ensures stands { IfOk result (λ f. StandsFor f []) }
    {
        Ok(Finder {
            tables: PacketDemux::new(alloc, PAT_PID)?,
            directory: Directory {
                alloc,
                carousel,
                newest: None,
                sections: Vec::new(alloc),
                followed: Vec::new(alloc),
            },
            found: Find::NoPat,
            spent: false,
        })
    }

    /// Takes one packet of any PID.
    ///
    /// The finder follows PID 0, and the first 64 PIDs that PAT sections list for programs, each
    /// from the packet after its section's last. After `NoMemory` it is spent: later calls answer
    /// `NoMemory`, and what it finds is undefined.
    pub fn feed(&mut self, packet: &[u8; PACKET_LENGTH]) -> Result<(), NoMemory>
        ensures stands { OnOk result ((packets : List Bytes)
            → StandsFor self.old packets
            → StandsFor self.new (packets ++ packet.now ∷ [])) }
        ensures carousel { OnOk result (self.new.directory.carousel ≡ self.old.directory.carousel) }
        ensures spent { OnErr result (self.new.spent ≡ true) }
        ensures stays { self.old.spent ≡ true → IsErr result }
        ensures memory { IsErr result
            → (packets : List Bytes)
            → StandsFor self.old packets
            → is_heard packets packet.now ≡ true }
    {
        if self.spent {
            return Err(AllocError);
        }
        self.spent = true;
        self.hear(packet)?;
        self.spent = false;
        Ok(())
    }

    fn hear(&mut self, packet: &[u8; PACKET_LENGTH]) -> Result<(), NoMemory>
        ensures holds { OnOk result ((packets : List Bytes)
            → Holds self.old packets
            → Holds self.new (packets ++ packet.now ∷ [])) }
        ensures carousel { OnOk result (self.new.directory.carousel ≡ self.old.directory.carousel) }
        ensures spent { self.new.spent ≡ self.old.spent }
        ensures memory { IsErr result
            → (packets : List Bytes)
            → Holds self.old packets
            → is_heard packets packet.now ≡ true }
    {
        let Some(pid) = pid_of(packet) else {
            return Ok(());
        };
        let completed = self.directory.feed(pid, packet)?;
        let listed = self.hear_tables(pid, packet)?;
        self.found = self.answer(completed, listed);
        Ok(())
    }

    /// Whether a packet completed a section of the PAT.
    fn hear_tables(&mut self, pid: u16, packet: &[u8; PACKET_LENGTH]) -> Result<bool, NoMemory>
        requires { receiving.pid_of packet.now ≡ Some pid }
        ensures heard { IfOk result (λ listed. TablesHeard packet.now listed self.old self.new) }
        ensures spent { self.new.spent ≡ self.old.spent }
        ensures memory { IsErr result → pid ≡ 0 }
    {
        if pid != PAT_PID {
            return Ok(false);
        }
        let sections = self.tables.feed(packet)?;
        self.directory.take_all(&sections)?;
        Ok(!sections.is_empty())
    }

    /// Searches again only if a section was completed.
    fn answer(&self, completed: bool, listed: bool) -> Find
        ensures { result ≡ (if completed
            || listed then found_by self.now.directory else self.now.found) }
    {
        if completed || listed {
            self.directory.search()
        } else {
            self.found
        }
    }

    /// Where the carousel is, by all packets so far. It takes no memory.
    pub fn find(&self) -> Find
        ensures { (packets : List Bytes)
            → StandsFor self.now packets
            → result ≡ found_in self.now.directory.carousel packets }
    {
        self.found
    }
}
