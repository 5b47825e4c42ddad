//! Sections into transport packets, and out of them again. What the receiver counts and drops is
//! this project's own rule; `specs/Rules.antt` has it.
//!
//! ```
//! use section_stream::{Mux, PacketDemux};
//!
//! let section = [0x3C, 0xB0, 0x09, 0, 1, 0xC1, 0, 0, 1, 2, 3, 4];
//! let mut packets = Vec::new(alloc);
//! let mut mux = Mux::new(alloc, 256);
//! mux.packets(&section, &mut packets)?;
//! mux.finish(&mut packets)?;
//! assert_eq!(rt; packets.len(), 1);
//! let sections = PacketDemux::new(alloc, 256)?.feed(&packets[0])?;
//! assert_eq!(rt; sections.len(), 1);
//! assert_eq!(rt; sections[0].as_slice(), section.as_slice());
//! ```
#![tactic(auto)]

mod counts;
mod demux;
mod held;
mod laws;
mod limits;
mod mux;
mod open_section;
mod packet_demux;
mod parts;
mod payload;
mod piece;
mod receiver;

pub use counts::Counts;
pub use demux::{Demux, MOST_PIECE};
pub use laws::{
    calls_give_the_group, candidates_grow, counts_are_numbers, cuts_come_in_order,
    groups_open_at_their_starts, later_groups_are_given, packets_give_the_groups, starts_rise,
};
pub use limits::limits_are_numbers;
pub use mux::Mux;
pub use packet_demux::PacketDemux;
