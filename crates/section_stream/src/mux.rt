ghost use Rattle.std.specs.Prelude.{◌≡◌, ◌++◌, ◌∷◌, [], ◌<◌, ◌≤◌, ◌+◌, ◌/◌, ◌%◌, nat_lt, length, vec_capacity, vec_len, OnOk, OnErr};
ghost use Rattle.ts_packet.specs.Packets.{packet_bytes};
ghost use Rattle.section_stream.specs.Packing.{IsSectionLike, with_stuffing, after_finish, idle, last_of, number_packets, packets_of, past, sent_of};

use crate::held::Held;
use crate::parts::Parts;
use crate::piece::copy_at;
use carousel_profile::PACKET_LENGTH;
use oc_bytes::NoMemory;
use std::alloc::Global;
use std::marker::Model;
use ts_packet::build;

/// The payload of a packet without an adaptation field, in bytes.
const PAYLOAD: usize = 184;

/// The same after a pointer field.
const ROOM: usize = PAYLOAD - 1;

/// Packs sections into transport packets of one PID (ISO/IEC 13818-1, 2.4.4). The sections between
/// two calls of `finish` are a group: they stand back to back.
///
/// Contracts see what is held back: `tail`, left of a section begun in earlier packets, and `body`,
/// the sections that begin in the next one.
#[derive(Drop)]
pub struct Mux {
    pid: u16,
    counter: u8,
    held: Held,
}

impl Model for Mux {
    ghost use Rattle.section_stream.specs.Packing.{MuxState};
    ghost use Rattle.std.specs.Prelude.{◌<◌};

    ghost Value = { MuxState };

    ghost view = { λ m.
        record { pid = m.pid; counter = m.counter; tail = m.held.tail; body = m.held.body } };

    ghost invariant = { λ m. (m.pid < 8192) × (m.counter < 16) };
}

impl Mux {
    /// A packer for a PID, 0 to 8,191. The first continuity counter is 0.
    pub fn new(alloc: Global, pid: u16) -> Mux
        requires { pid < 8192 }
        ensures { result ≡ idle pid 0 }
    {
        // It takes no memory.
        let _ = alloc;
        Mux {
            pid,
            counter: 0,
            held: Held::new(),
        }
    }

    /// Puts a section of 12 to 4,096 bytes after those of its group, and gives each packet that no
    /// further section can change. No section begins where only a pointer field has room: that byte
    /// is 0xFF.
    pub fn packets(
        &mut self,
        section: &[u8],
        out: &mut Vec<[u8; PACKET_LENGTH]>,
    ) -> Result<(), NoMemory>
        requires { IsSectionLike section.now }
        ensures packets { OnOk result
            (out.new.items ≡ out.old.items ++ packets_of self.old section.now) }
        ensures state { OnOk result (self.new ≡ past self.old section.now) }
        ensures memory { OnErr result (0 < length (packets_of self.old section.now)) }
        ensures err { OnErr result ((self.new ≡ self.old) × (out.new.items ≡ out.old.items)) }
    {
        self.packets_of_parts(&[], section, &[], out)
    }

    /// The same of a section that lies in three places; no buffer is made for it.
    pub fn packets_of_parts(
        &mut self,
        front: &[u8],
        body: &[u8],
        tail: &[u8],
        out: &mut Vec<[u8; PACKET_LENGTH]>,
    ) -> Result<(), NoMemory>
        requires { IsSectionLike (front.now ++ (body.now ++ tail.now)) }
        ensures packets { OnOk result (out.new.items
            ≡ out.old.items ++ packets_of self.old (front.now ++ (body.now ++ tail.now))) }
        ensures state { OnOk result
            (self.new ≡ past self.old (front.now ++ (body.now ++ tail.now))) }
        ensures memory { OnErr result
            (0 < length (packets_of self.old (front.now ++ (body.now ++ tail.now)))) }
        ensures err { OnErr result ((self.new ≡ self.old) × (out.new.items ≡ out.old.items)) }
    {
        let section = Parts::new(front, body, tail);
        let room = ROOM - self.held.bytes().len();
        if section.len() < room {
            self.held.append(&section);
            return Ok(());
        }
        let (first, rest) = section.split_at(room);
        out.reserve(1 + (rest.len() + 1) / PAYLOAD)?;
        let pointer = [self.held.tail()];
        put(
            self.pid,
            self.counter,
            &pointer,
            self.held.bytes(),
            &first,
            out,
        );
        let (tail, counter) = put_rest(self.pid, (self.counter + 1) % 16, rest, out);
        self.held.replace(&tail);
        self.counter = counter;
        Ok(())
    }

    /// Ends the group. What is held back becomes a packet, filled with 0xFF.
    pub fn finish(&mut self, out: &mut Vec<[u8; PACKET_LENGTH]>) -> Result<(), NoMemory>
        ensures packets { OnOk result (out.new.items ≡ out.old.items ++ last_of self.old) }
        ensures state { OnOk result (self.new ≡ after_finish self.old) }
        ensures memory { OnErr result (0 < length (last_of self.old)) }
        ensures err { OnErr result ((self.new ≡ self.old) × (out.new.items ≡ out.old.items)) }
    {
        let held = self.held.bytes();
        if held.is_empty() {
            return Ok(());
        }
        out.reserve(1)?;
        let length = [self.held.tail()];
        let pointer: &[u8] = if self.held.begins() { &length } else { &[] };
        let nothing = Parts::new(&[], &[], &[]);
        put(self.pid, self.counter, pointer, held, &nothing, out);
        self.held.replace(&nothing);
        self.counter = (self.counter + 1) % 16;
        Ok(())
    }
}

/// Puts the packets that the rest of a begun section fills, or leaves one byte of. Answers what is
/// left, and the next counter.
fn put_rest<'a>(
    pid: u16,
    first: u8,
    section: Parts<'a>,
    out: &mut Vec<[u8; PACKET_LENGTH]>,
) -> (Parts<'a>, u8)
    // Fields of a header, and room.
    requires pid { pid < 8192 }
    requires counter { first < 16 }
    requires room { vec_len out.old + (length section + 1) / 184 ≤ vec_capacity out.old }

    // What is given, and what is left.
    ensures packets { out.new.items
        ≡ out.old.items ++ number_packets pid first (sent_of section.entry).given }
    ensures rest { (result.0 ≡ (sent_of section.entry).tail) × (length result.0 < 183) }
    ensures counter { (result.1 ≡ (first + length (sent_of section.entry).given) % 16)
        × (result.1 < 16) }
{
    let mut rest = section;
    let mut counter = first;
    while rest.len() >= ROOM {
        let (part, behind) = rest.split_at(PAYLOAD);
        put(pid, counter, &[], &[], &part, out);
        rest = behind;
        counter = (counter + 1) % 16;
    }
    (rest, counter)
}

/// Puts one packet: a pointer field, what was held back, the front of a section, stuffing.
#[tactic(auto, using(crate::proofs::Filling::no_stuffing))]
fn put(
    pid: u16,
    counter: u8,
    pointer: &[u8],
    held: &[u8],
    front: &Parts,
    out: &mut Vec<[u8; PACKET_LENGTH]>,
)
    // Fields of a header, bytes of a payload, room.
    requires pid { pid < 8192 }
    requires counter { counter < 16 }
    requires size { length pointer.now + length held.now + length front.now ≤ 184 }
    requires room { vec_len out.old < vec_capacity out.old }

    // One packet more, in the same memory.
    ensures packet { out.new.items
        ≡ out.old.items
        ++ packet_bytes pid (nat_lt 0 (length pointer.now)) counter
        (with_stuffing (pointer.now ++ (held.now ++ front.now)))
        ∷ [] }
    ensures room { vec_capacity out.old ≤ vec_capacity out.new }
    ensures one { vec_len out.new ≡ vec_len out.old + 1 }
{
    match front.as_payload() {
        // These bytes are copied once.
        Some(payload) => push(pid, false, counter, payload, out),
        None => push(
            pid,
            !pointer.is_empty(),
            counter,
            &payload_of(pointer, held, front),
            out,
        ),
    }
}

fn push(pid: u16, start: bool, counter: u8, payload: &[u8; 184], out: &mut Vec<[u8; PACKET_LENGTH]>)
    // Fields of a header, and room.
    requires pid { pid < 8192 }
    requires counter { counter < 16 }
    requires room { vec_len out.old < vec_capacity out.old }

    // One packet more, in the same memory.
    ensures packet { out.new.items
        ≡ out.old.items ++ packet_bytes pid start counter payload.now ∷ [] }
    ensures room { vec_capacity out.old ≤ vec_capacity out.new }
    ensures one { vec_len out.new ≡ vec_len out.old + 1 }
{
    // The push is never refused. The test tells the compiler so, which makes the packet in place.
    if out.len() < out.capacity() {
        let _ = out.push(build(pid, start, counter, payload));
    }
}

fn payload_of(pointer: &[u8], held: &[u8], front: &Parts) -> [u8; 184]
    requires { length pointer.now + length held.now + length front.now ≤ 184 }
    ensures { result ≡ with_stuffing (pointer.now ++ (held.now ++ front.now)) }
{
    let mut payload = [0xFF; 184];
    copy_at(&mut payload, 0, pointer);
    copy_at(&mut payload, pointer.len(), held);
    front.copy_to(&mut payload, pointer.len() + held.len());
    payload
}
