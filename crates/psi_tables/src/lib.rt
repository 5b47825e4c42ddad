//! Program specific information (ISO/IEC 13818-1, 2.4.4): the PAT, map tables, and the carousel's
//! PID that they name. The numbers in written tables, and the limit of followed PIDs, are this
//! project's own.
//!
//! ```
//! use psi_tables::{Announcer, Find, Finder};
//!
//! let mut packets = Vec::new(alloc);
//! Announcer::new(alloc, 7)?.packets(&mut packets)?;
//! let mut finder = Finder::new(alloc, 7)?;
//! for packet in packets.iter() {
//!     finder.feed(packet)?;
//! }
//! assert_eq!(rt; finder.find(), Find::At(256));
//! ```
#![tactic(auto)]

mod announcer;
mod directory;
mod finder;
mod followed;
mod frame;
mod laws;
mod limits;
mod pat;
mod pmt;
mod receiving;
mod tables;
mod written;

pub use announcer::Announcer;
pub use finder::{Find, Finder};
pub use laws::{
    each_listed_pid_is_followed, it_is_found_once_its_tables_came, it_is_nowhere_else,
    one_section_lists_its_lines, premises_can_be_met,
};
pub use limits::limits_are_numbers;
pub use pat::decode_pat;
pub use pmt::decode_pmt;
pub use tables::{Pat, PatLine, Pmt, PmtLine, PsiFault};
pub use written::{written_pat, written_pmt};
