ghost use Rattle.std.specs.Prelude.{◌≡◌, ◌++◌, ◌∷◌, ◌<◌, ◌≤◌, ◌+◌, ◌%◌, [], length, map, drop, Some, None, Ok, true, false, MatchOption, OnOk, OnErr, IfOk};
ghost use Rattle.ts_packet.specs.Packets.{parse_packet, view};
ghost use Rattle.section_stream.specs.Pieces.{packets_of, rest_of};
ghost use Rattle.section_stream.specs.Rules.{one_more, at_start, up};
ghost use Rattle.section_stream.specs.Inner.Rules.{HasRun, outputs};
ghost use Rattle.section_stream.specs.Rules as rules;
ghost use Rattle.section_stream.specs.Inner.Steps.{Completes, Gives};
ghost use Rattle.section_stream.specs.Kept.{view_bytes};

use crate::counts::{Aside, Counts, count_aside, count_packet, nothing_counted, up};
use crate::open_section::OpenSection;
use crate::payload::payload_done;
use carousel_profile::PACKET_LENGTH;
use oc_bytes::NoMemory;
use std::alloc::Global;
use std::marker::Model;
use ts_packet::{Packet, parse, parse_plain};

/// What is kept of the packets of one PID.
#[derive(Drop)]
pub struct Receiver {
    alloc: Global,
    pid: u16,
    /// The last packet that was taken; before the first, zeros, which are no packet.
    last: [u8; PACKET_LENGTH],
    /// The counter of `last`, and the index of its payload; before the first, 188.
    counter: u8,
    payload_at: usize,
    opened: OpenSection,
    counts: Counts,
}

impl Model for Receiver {
    ghost use Rattle.section_stream.specs.Rules.{Receiving};

    ghost Value = { Receiving };

    ghost use Rattle.std.specs.Prelude.{◌≡◌};
    ghost use Rattle.ts_packet.specs.Packets.{parse_packet};
    ghost use Rattle.section_stream.specs.Kept.{last_of, view_receiver};
    ghost use Rattle.section_stream.specs.Inner.Kept.{last_from};

    ghost view = { view_receiver };

    ghost invariant = { λ r.
        last_of (parse_packet r.last) ≡ last_from r.payload_at r.counter r.last };
}

/// What a packet is to the receiver of one PID.
#[derive(Clone, Copy)]
enum Class<'a> {
    Aside(Aside),
    /// It is taken. Packets before it are missing, or not.
    Taken(Packet<'a>, bool),
}

#[inline]
fn counter_after(counter: u8) -> u8
    ensures { result ≡ (counter + 1) % 16 }
{
    ((u16::from(counter) + 1) % 16) as u8
}

#[inline]
fn bytes_from(packet: &[u8; PACKET_LENGTH], at: usize) -> &[u8]
    requires { at ≤ PACKET_LENGTH }
    ensures { result.now ≡ drop at packet.now }
{
    &packet[at..]
}

impl Receiver {
    ghost use Rattle.section_stream.specs.Inner.Classes.{IsClass};

    pub fn new(alloc: Global, pid: u16) -> Result<Receiver, NoMemory>
        ensures { IfOk result (λ r. r ≡ at_start pid) }
    {
        Ok(Receiver {
            alloc,
            pid,
            last: [0; PACKET_LENGTH],
            counter: 0,
            payload_at: PACKET_LENGTH,
            opened: OpenSection::new(alloc)?,
            counts: nothing_counted(),
        })
    }

    pub fn copy(&mut self, from: &Receiver)
        ensures { self.new ≡ from.now }
    {
        self.pid = from.pid;
        self.last = from.last;
        self.counter = from.counter;
        self.payload_at = from.payload_at;
        self.opened.copy(&from.opened);
        self.counts = from.counts;
    }

    /// Takes the whole packets of `bytes` and answers the bytes after them. If memory runs out, some
    /// of the packets were taken.
    pub fn take_all<'a>(
        &mut self,
        bytes: &'a [u8],
        out: &mut Vec<Vec<u8>>,
    ) -> Result<&'a [u8], NoMemory>
        ensures run { OnOk result
            (HasRun self.old self.new (packets_of bytes.now) (map view_bytes out.old.items)
            (map view_bytes out.new.items)) }
        ensures rest { IfOk result (λ rest.
            (rest.now ≡ rest_of bytes.now) × (length rest.now < PACKET_LENGTH)) }
        ensures memory { OnErr result (0 < length (outputs self.old (packets_of bytes.now))) }
    {
        let mut rest = bytes;
        while let Some(packet) = rest.first_chunk::<PACKET_LENGTH>() {
            self.step(packet, out)?;
            rest = &rest[PACKET_LENGTH..];
        }
        Ok(rest)
    }

    /// Takes one packet and answers its candidates.
    #[inline]
    pub fn feed(&mut self, packet: &[u8; PACKET_LENGTH]) -> Result<Vec<Vec<u8>>, NoMemory>
        ensures ok { IfOk result (λ out.
            Gives (rules.step self.old packet.now) self.new [] (map view_bytes out.items)) }
        ensures memory { OnErr result (Completes (rules.step self.old packet.now)) }
        ensures err { OnErr result (self.new ≡ self.old) }
    {
        let mut out = Vec::new(self.alloc);
        self.step(packet, &mut out)?;
        Ok(out)
    }

    /// Takes one packet and appends its candidates to `out`. Packets of other PIDs and those in the
    /// middle of a section have a short path.
    #[inline]
    pub fn step(
        &mut self,
        packet: &[u8; PACKET_LENGTH],
        out: &mut Vec<Vec<u8>>,
    ) -> Result<(), NoMemory>
        ensures ok { OnOk result
            (Gives (rules.step self.old packet.now) self.new (map view_bytes out.old.items)
            (map view_bytes out.new.items)) }
        ensures memory { OnErr result (Completes (rules.step self.old packet.now)) }
        ensures err { OnErr result (self.new ≡ self.old) }
    {
        if let Some(fields) = parse_plain(packet) {
            if fields.pid != self.pid {
                count_aside(&mut self.counts, Aside::OtherPid);
                return Ok(());
            }
            if self.goes_on_quickly(packet, fields) {
                return Ok(());
            }
        }
        self.step_by_class(packet, out)
    }

    /// `step` without the short path.
    #[inline(never)]
    fn step_by_class(
        &mut self,
        packet: &[u8; PACKET_LENGTH],
        out: &mut Vec<Vec<u8>>,
    ) -> Result<(), NoMemory>
        ensures ok { OnOk result
            (Gives (rules.step self.old packet.now) self.new (map view_bytes out.old.items)
            (map view_bytes out.new.items)) }
        ensures memory { OnErr result (Completes (rules.step self.old packet.now)) }
        ensures err { OnErr result (self.new ≡ self.old) }
    {
        match self.classify(packet) {
            Class::Aside(aside) => {
                count_aside(&mut self.counts, aside);
                Ok(())
            }
            Class::Taken(fields, jumped) => self.take(packet, fields, jumped, out),
        }
    }

    /// Takes a packet of this PID without an adaptation field, if it follows the last one and only
    /// makes the open section longer.
    #[inline]
    fn goes_on_quickly(&mut self, packet: &[u8; PACKET_LENGTH], fields: Packet<'_>) -> bool
        requires packet { parse_packet packet.now ≡ Ok (view fields) }
        requires payload { fields.payload.now ≡ drop 4 packet.now }
        requires pid { fields.pid ≡ self.old.pid }
        ensures taken { result ≡ true → rules.step self.old packet.now ≡ (self.new, []) }
        ensures left { result ≡ false → self.new ≡ self.old }
    {
        if fields.start
            || fields.counter != counter_after(self.counter)
            || !self.opened.grow_within(fields.payload)
        {
            return false;
        }
        count_packet(&mut self.counts, false);
        self.last = *packet;
        self.counter = fields.counter;
        self.payload_at = 4;
        true
    }

    #[inline]
    fn last_kept(&self) -> Option<(u8, &[u8])>
        ensures { MatchOption result (self.now.last ≡ None) (λ l.
            self.now.last ≡ Some (l.0, l.1.now)) }
    {
        if self.payload_at < PACKET_LENGTH {
            Some((self.counter, bytes_from(&self.last, self.payload_at)))
        } else {
            None
        }
    }

    #[inline]
    fn classify<'a>(&self, packet: &'a [u8; PACKET_LENGTH]) -> Class<'a>
        ensures { IsClass self.now packet.now result }
    {
        let fields = match parse(packet) {
            Ok(fields) => fields,
            Err(fault) => return Class::Aside(Aside::Fault(fault)),
        };
        if fields.pid != self.pid {
            return Class::Aside(Aside::OtherPid);
        }
        if fields.payload.is_empty() {
            return Class::Aside(Aside::NoPayload);
        }
        let Some((counter, payload)) = self.last_kept() else {
            return Class::Taken(fields, false);
        };
        if counter == fields.counter && payload == fields.payload {
            return Class::Aside(Aside::Duplicate);
        }
        Class::Taken(fields, fields.counter != counter_after(counter))
    }

    /// Takes a packet by its payload. If memory runs out, it takes back the counts.
    #[inline]
    fn take(
        &mut self,
        packet: &[u8; PACKET_LENGTH],
        fields: Packet<'_>,
        jumped: bool,
        out: &mut Vec<Vec<u8>>,
    ) -> Result<(), NoMemory>
        // What the packet is:
        requires packet { parse_packet packet.now ≡ Ok (view fields) }
        requires payload { (0 < length fields.payload.now) × (length fields.payload.now ≤ 184) }
        requires jumped { rules.jumps_from fields.counter self.old.last ≡ jumped }
        // What it does:
        ensures ok { OnOk result
            (Gives (rules.takes (one_more self.old) (view fields.entry)) self.new
            (map view_bytes out.old.items) (map view_bytes out.new.items)) }
        ensures memory { OnErr result
            (Completes (rules.takes (one_more self.old) (view fields.entry))) }
        ensures err { OnErr result (self.new ≡ self.old) }
    {
        let before = (self.counts.packets, self.counts.jumps);
        count_packet(&mut self.counts, jumped);
        match payload_done(
            self.alloc,
            fields.start,
            jumped,
            &mut self.opened,
            fields.payload,
            out,
            &mut self.counts,
        ) {
            Ok(()) => {
                self.last = *packet;
                self.counter = fields.counter;
                self.payload_at = PACKET_LENGTH - fields.payload.len();
                Ok(())
            }
            Err(fault) => {
                self.counts.packets = before.0;
                self.counts.jumps = before.1;
                Err(fault)
            }
        }
    }

    pub fn counts(&self) -> Counts
        ensures { result ≡ self.now.counts }
    {
        self.counts
    }

    pub fn short(&mut self)
        ensures { self.new
            ≡ record self.old
            { counts = record self.old.counts { short_tail = up self.old.counts.short_tail } } }
    {
        self.counts.short_tail = up(self.counts.short_tail);
    }
}
