//! BIOP messages: a carousel's files and folders in a module, and the index of a module's objects.
//!
//! The layout is that of ISO/IEC 13818-6, clause 11.3, in the profile of ETSI TR 101 202, clause
//! 4.7. That a folder's message has at most [`MOST_FOLDER_SIZE`] bytes, and that the first binding
//! of a name counts, is this project's own.
//!
//! ```
//! use biop_object::{Found, Module, Span, encode_file};
//! use ior_tap::Key;
//!
//! let key = Key::new(Vec::from_slice(alloc, &[0, 0, 0, 2])?);
//! let bytes = encode_file(alloc, &key, b"hello")?;
//! let module = Module::read(alloc, bytes).map_err(|(fault, _)| fault)?;
//! let content = Span { first: 44, length: 5 };
//! assert_eq!(rt; module.find(key.bytes()), Found::File(content));
//! ```
#![tactic(auto)]

mod labelled;
mod laws;
mod limits;
mod module;
mod reading;
mod written;

pub use laws::spellings_read_back;
pub use limits::{kinds_are_bytes, limits_are_numbers};
pub use module::{Binding, Found, Module, Span};
pub use reading::{DIRECTORY, FILE, GATEWAY};
pub use written::{
    Bound, FILE_BINDING, FILE_FRONT, FOLDER_BINDING, FOLDER_FRONT, FolderKind, MESSAGE_HEAD,
    MOST_FOLDER_SIZE, ObjectFault, Written, encode_file, encode_folder,
};
