//! Several carousels, each on its own PID, under names in one tree. Mounts, their rules and limits
//! are this project's own.
//!
//! A path's first name is a mount's. The other names are a path on the carousel of its PID, which
//! has a receiver of its own.
//!
//! ```
//! use mount_table::{Mount, Mounted, Mounts};
//! use path_resolver::Answer;
//! use path_tree::{Name, Path};
//! use section_stream::Mux;
//! use sample_sections::{DSI, FILE_BLOCK, FILE_DII};
//!
//! let mut packets = Vec::new(alloc);
//! let mut mux = Mux::new(alloc, 256);
//! mux.packets(&DSI, &mut packets)?;
//! mux.packets(&FILE_DII, &mut packets)?;
//! mux.packets(&FILE_BLOCK, &mut packets)?;
//! mux.finish(&mut packets)?;
//! let news = Mount { name: Name::new(Vec::from_slice(alloc, b"news")?), pid: 256 };
//! let mut mounts = Mounts::new(alloc, vec![in alloc; news]?)?;
//! for packet in packets.iter() {
//!     mounts.feed(packet)?;
//! }
//! let opened = mounts.open_path(&Path::parse(alloc, b"/news/a")?)?;
//! assert!(rt; matches!(&opened, Mounted::At(256, Answer::File(file)) if file.bytes() == b"hello".as_slice()));
//! ```
#![tactic(auto)]

mod fault;
mod laws;
mod mount;
mod mounts;
mod places;
mod receiver;
mod receiving;

pub use carousel_profile::MOST_PID;
pub use fault::TableFault;
pub use laws::{
    limits_are_numbers, one_mount_decides, one_pid_decides, order_is_free, premises_can_be_met,
    sound_is_accepted,
};
pub use mount::{MOST_MOUNTS, MOST_NAME, Mount};
pub use mounts::{Mounted, Mounts};
