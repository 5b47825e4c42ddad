//! What a command reads, writes and looks into, in memory.

use crate::notices::Lines;
use folder_store::MemFolders;
use oc_bytes::{MemSink, MemSource};

/// The input, the output, the folders and the notices of a command.
#[derive(Drop)]
pub(crate) struct Ends {
    pub(crate) source: MemSource,
    pub(crate) sink: MemSink,
    pub(crate) folders: MemFolders,
    pub(crate) notices: Lines,
}
