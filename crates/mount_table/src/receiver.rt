ghost use Rattle.std.specs.Prelude.{◌≡◌, ◌<◌, ◌++◌, ◌∷◌, [], List, length, map, drop, IfOk, IsErr, OnOk};
ghost use Rattle.section_stream.specs.Cuts.{Bytes, candidates};
ghost use Rattle.section_stream.specs.Kept.{view_bytes};
ghost use Rattle.tuner_core.specs.LookBack.{answer_after};
ghost use Rattle.tuner_core.specs.Stands as tuners;
ghost use Rattle.mount_table.specs.Receiving.{header_pid};
ghost use Rattle.mount_table.specs.Stands.{Receives};

use crate::mount::Mount;
use carousel_profile::PACKET_LENGTH;
use oc_bytes::NoMemory;
use path_resolver::{Answer, resolve};
use path_tree::Path;
use section_stream::PacketDemux;
use std::alloc::Global;
use tuner_core::Tuner;

/// A mount, with what receives its carousel.
#[derive(Drop)]
pub struct Receiver {
    pub mount: Mount,
    pub demux: PacketDemux,
    pub tuner: Tuner,
}

#[inline(never)]
fn hear_all(tuner: &mut Tuner, sections: Vec<Vec<u8>>) -> Result<(), NoMemory>
    ensures stands { OnOk result ((heard : List Bytes)
        → tuners.StandsFor tuner.old heard
        → tuners.StandsFor tuner.new (heard ++ map view_bytes sections.items)) }
    ensures some { IsErr result → 0 < length sections.items }
{
    for section in &sections {
        tuner.feed(section)?;
    }
    Ok(())
}

/// The path without its first name.
fn rest_of(path: &Path) -> Result<Path, NoMemory>
    ensures { IfOk result (λ rest. rest ≡ drop 1 path.now) }
{
    let mut rest = path.above(0)?;
    for i in 1..path.len() {
        rest = rest.below(path.name(i))?.unwrap();
    }
    Ok(rest)
}

impl Receiver {
    /// A mount before its first packet.
    pub fn new(alloc: Global, mount: Mount) -> Result<Receiver, NoMemory>
        ensures mount { IfOk result (λ r. r.mount ≡ mount) }
        ensures receives { IfOk result (λ r. Receives [] r) }
    {
        let demux = PacketDemux::new(alloc, mount.pid)?;
        Ok(Receiver {
            mount,
            demux,
            tuner: Tuner::new(alloc),
        })
    }

    /// Takes a packet of the mount's PID. Most complete no section; then it calls nothing.
    #[inline]
    pub fn hear(&mut self, packet: &[u8; PACKET_LENGTH]) -> Result<(), NoMemory>
        requires { header_pid packet.now ≡ self.old.mount.pid }
        ensures receives { OnOk result ((packets : List Bytes)
            → Receives packets self.old
            → Receives (packets ++ packet.now ∷ []) self.new) }
        ensures mount { self.new.mount ≡ self.old.mount }
        ensures memory { IsErr result
            → (packets : List Bytes)
            → Receives packets self.old
            → length (candidates self.old.mount.pid packets)
            < length (candidates self.old.mount.pid (packets ++ packet.now ∷ [])) }
    {
        let sections = self.demux.feed(packet)?;
        if sections.is_empty() {
            return Ok(());
        }
        hear_all(&mut self.tuner, sections)
    }

    /// The answer to what follows a path's first name.
    pub fn answer(&self, path: &Path) -> Result<Answer, NoMemory>
        ensures { IfOk result (λ a.
            (heard : List Bytes)
            → tuners.StandsFor self.now.tuner heard
            → a ≡ answer_after heard (drop 1 path.now)) }
    {
        let rest = rest_of(path)?;
        let shot = self.tuner.shot(0, 0)?;
        Ok(resolve(&shot, &rest)?)
    }
}
