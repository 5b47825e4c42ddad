ghost use Rattle.std.specs.Prelude.{◌≡◌, ◌<◌, ◌++◌, ◌∷◌, [], List, length, map, true, false, None, Some, slice_get, IfOk, IfErr, IsErr, OnOk, OnErr};
ghost use Rattle.std.specs.List.{All, find};
ghost use Rattle.std.specs.Option.{option_map};
ghost use Rattle.path_tree.specs.Paths.{same_name};
ghost use Rattle.section_stream.specs.Cuts.{Bytes};
ghost use Rattle.mount_table.specs.Mounts.{refusal_of, refusal_in, IsTableOf, mounted_after, is_under_mount};
ghost use Rattle.mount_table.specs.Inner.Places.{pids_of, IsPlaceOf};
ghost use Rattle.mount_table.specs.Receiving as receiving;
ghost use Rattle.mount_table.specs.Stands.{StandsFor, Receives, CompletesOne, mounts_of};

use crate::fault::TableFault;
use crate::mount::{Mount, refusal, sort_by_name};
use crate::places::places_of;
use crate::receiver::Receiver;
use crate::receiving::header_pid;
use carousel_profile::PACKET_LENGTH;
use oc_bytes::NoMemory;
use path_resolver::Answer;
use path_tree::Path;
use std::alloc::{AllocError, Global};
use std::marker::Model;

/// The answer to a path below the mounts.
#[derive(Drop)]
pub enum Mounted {
    /// The path is the root, the folder of all mounts.
    Root,
    /// No mount has the path's first name.
    NoMount,
    /// The PID of the first name's mount, and its carousel's answer to the other names.
    At(u16, Answer),
}

/// Several carousels under names in one tree.
#[derive(Drop)]
pub struct Mounts {
    receivers: Vec<Receiver>,
    /// For each PID the place of its receiver.
    places: Vec<Option<u8>>,
    spent: bool,
}

impl Model for Mounts {
    ghost use Rattle.mount_table.specs.Stands.{MountsState, view_mounts};
    ghost use Rattle.mount_table.specs.Inner.Stands.{HasPlaces};

    ghost Value = { MountsState };

    ghost view = { view_mounts };

    ghost invariant = { HasPlaces };
}

fn receivers_of(alloc: Global, mounts: Vec<Mount>) -> Result<Vec<Receiver>, NoMemory>
    ensures mounts { IfOk result (λ rs. map (λ r. r.mount) rs.items ≡ mounts.items) }
    ensures receives { IfOk result (λ rs. All (Receives []) rs.items) }
{
    let mut receivers = Vec::with_capacity(alloc, mounts.len())?;
    for mount in mounts {
        let receiver = Receiver::new(alloc, mount)?;
        receivers.push(receiver)?;
    }
    Ok(receivers)
}

/// The mount at a PID's place takes the packet.
#[inline]
fn hear_at(
    receivers: &mut [Receiver],
    place: Option<u8>,
    packet: &[u8; PACKET_LENGTH],
) -> Result<(), NoMemory>
    requires { IsPlaceOf (receiving.header_pid packet.now)
        (pids_of (map (λ r. r.mount) receivers.old)) place }
    ensures receives { OnOk result ((packets : List Bytes)
        → All (Receives packets) receivers.old
        → All (Receives (packets ++ packet.now ∷ [])) receivers.new) }
    ensures mounts { map (λ r. r.mount) receivers.new ≡ map (λ r. r.mount) receivers.old }
    ensures memory { IsErr result → (packets : List Bytes) → All (Receives packets) receivers.old
        → CompletesOne (map (λ r. r.mount) receivers.old) packets packet.now }
{
    match place {
        Some(place) => receivers[usize::from(place)].hear(packet),
        None => Ok(()),
    }
}

fn receiver_named<'a>(receivers: &'a [Receiver], name: &[u8]) -> Option<&'a Receiver>
    ensures { option_map (λ r. r.now) result
        ≡ find (λ r. same_name r.mount.name name.now) receivers.now }
{
    receivers
        .iter()
        .find(|receiver| receiver.mount.is_named(name))
}

impl Mounts {
    /// A table of these mounts, perhaps none, before the first packet. [`TableFault`] says what is
    /// refused. A table keeps 16 KiB, by which [`feed`](Mounts::feed) finds the mount of a PID.
    pub fn new(alloc: Global, mut mounts: Vec<Mount>) -> Result<Mounts, TableFault>
        ensures refused { IfErr result (λ fault. refusal_of mounts.items ≡ refusal_in fault) }
        ensures accepted { OnOk result (refusal_of mounts.items ≡ None) }
        ensures table { IfOk result (λ m. IsTableOf mounts.items (mounts_of m)) }
        ensures stands { IfOk result (λ m. StandsFor m []) }
    {
        if let Some(fault) = refusal(&mounts) {
            return Err(fault);
        }
        sort_by_name(&mut mounts);
        let places = places_of(alloc, &mounts)?;
        let receivers = receivers_of(alloc, mounts)?;
        Ok(Mounts {
            receivers,
            places,
            spent: false,
        })
    }

    /// Takes one packet of any PID: only the mount of its PID receives it. One look-up by PID finds
    /// the mount, however many there are. Packets that don't parse change no answer.
    ///
    /// After `NoMemory` the table is spent: later calls of this and of
    /// [`open_path`](Mounts::open_path) answer `NoMemory`.
    pub fn feed(&mut self, packet: &[u8; PACKET_LENGTH]) -> Result<(), NoMemory>
        ensures stands { OnOk result ((packets : List Bytes)
            → StandsFor self.old packets
            → StandsFor self.new (packets ++ packet.now ∷ [])) }
        ensures mounts { mounts_of self.new ≡ mounts_of self.old }
        ensures spent { OnErr result (self.new.spent ≡ true) }
        ensures stays { self.old.spent ≡ true → IsErr result }
        ensures memory { IsErr result
            → (packets : List Bytes)
            → StandsFor self.old packets
            → CompletesOne (mounts_of self.old) packets packet.now }
    {
        if self.spent {
            return Err(AllocError);
        }
        self.spent = true;
        self.hear(packet)?;
        self.spent = false;
        Ok(())
    }

    #[inline]
    fn hear(&mut self, packet: &[u8; PACKET_LENGTH]) -> Result<(), NoMemory>
        ensures receives { OnOk result ((packets : List Bytes)
            → All (Receives packets) self.old.receivers
            → All (Receives (packets ++ packet.now ∷ [])) self.new.receivers) }
        ensures mounts { mounts_of self.new ≡ mounts_of self.old }
        ensures spent { self.new.spent ≡ self.old.spent }
        ensures memory { IsErr result
            → (packets : List Bytes)
            → All (Receives packets) self.old.receivers
            → CompletesOne (mounts_of self.old) packets packet.now }
    {
        let place = self.places[usize::from(header_pid(packet))];
        hear_at(&mut self.receivers, place, packet)
    }

    /// The answer to a path, by all packets so far. `NoMemory` comes if the table is spent, or
    /// below a mount, because each call makes a shot of its receiver.
    pub fn open_path(&self, path: &Path) -> Result<Mounted, NoMemory>
        ensures answer { IfOk result (λ m.
            (packets : List Bytes)
            → StandsFor self.now packets
            → m ≡ mounted_after (mounts_of self.now) packets path.now) }
        ensures spent { self.now.spent ≡ true → IsErr result }
        ensures memory { IsErr result
            → self.now.spent ≡ false
            → is_under_mount (mounts_of self.now) path.now ≡ true }
    {
        if self.spent {
            return Err(AllocError);
        }
        if path.len() == 0 {
            return Ok(Mounted::Root);
        }
        match receiver_named(&self.receivers, path.name(0)) {
            Some(receiver) => {
                let answer = receiver.answer(path)?;
                Ok(Mounted::At(receiver.mount.pid, answer))
            }
            None => Ok(Mounted::NoMount),
        }
    }

    /// The number of mounts.
    pub fn len(&self) -> usize
        ensures { result ≡ length (mounts_of self.now) }
    {
        self.receivers.len()
    }

    /// Mount number `i` from 0, by the bytes of their names.
    pub fn mount(&self, i: usize) -> &Mount
        requires { i < length (mounts_of self.now) }
        ensures { slice_get (mounts_of self.now) i ≡ Some result.now }
    {
        &self.receivers[i].mount
    }
}
