//! The front of an input, which is looked at where it isn't one of packets.

ghost use Rattle.std.specs.Prelude.{◌≡◌, ◌++◌, ◌∷◌, [], List, IfOk, OnOk};
ghost use Rattle.path_tree.specs.Paths.{Bytes};
ghost use Rattle.reception_report.specs.Inner.Sync.{IsFront};

use carousel_profile::PACKET_LENGTH;
use oc_bytes::NoMemory;
use std::alloc::Global;

/// The most packets that are kept: in their 4,512 bytes stand 23 packets of 192 bytes, and 22 of
/// 204.
const MOST_PACKETS: usize = 24;

/// The first packets of an input, as they came.
#[derive(Drop)]
pub(crate) struct Front {
    pub(crate) bytes: Vec<u8>,
    /// How many they are.
    packets: usize,
}

impl Front {
    /// No packet came yet.
    pub(crate) fn new(alloc: Global) -> Result<Front, NoMemory>
        ensures { IfOk result (λ front. IsFront front []) }
    {
        Ok(Front {
            bytes: Vec::with_capacity(alloc, MOST_PACKETS * PACKET_LENGTH)?,
            packets: 0,
        })
    }

    /// Takes the next packet.
    pub(crate) fn take(&mut self, packet: &[u8; PACKET_LENGTH]) -> Result<(), NoMemory>
        ensures { OnOk result ((packets : List Bytes)
            → IsFront self.old packets
            → IsFront self.new (packets ++ packet.now ∷ [])) }
    {
        if self.packets < MOST_PACKETS {
            self.bytes.extend_from_slice(packet)?;
            self.packets += 1;
        }
        Ok(())
    }
}
