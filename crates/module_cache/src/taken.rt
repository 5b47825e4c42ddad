use biop_object::Module;
use std::fmt;
use std::sync::Arc;

/// What became of a block that was offered: the first of these that holds.
#[derive(Clone, Copy, Debug, PartialEq, Eq)]
pub enum Taken {
    /// No DII is held.
    NoDii,
    /// No held DII has its downloadId.
    OtherDownload,
    /// No held DII of its downloadId lists its module.
    Unlisted,
    /// That DII lists another version of the module.
    OtherVersion,
    /// The module is compressed; nothing of it is taken.
    Compressed,
    /// The module has no block of this number.
    WrongPlace,
    /// The block hasn't the length of its place: the block size, or the rest for the last block.
    WrongLength,
    /// The block is there already; it stays.
    Again,
    /// The block was taken.
    New,
}

impl fmt::Display for Taken {
    fn fmt<W: fmt::Write>(&self, f: &mut fmt::Formatter<W>) -> fmt::Result {
        f.write_str(match self {
            Taken::NoDii => "no DII is held",
            Taken::OtherDownload => "it has another downloadId",
            Taken::Unlisted => "its module isn't listed",
            Taken::OtherVersion => "its module is listed in another version",
            Taken::Compressed => "its module is compressed",
            Taken::WrongPlace => "its module has no block of this number",
            Taken::WrongLength => "it hasn't the length of its place",
            Taken::Again => "it is there already",
            Taken::New => "it is new",
        })
    }
}

/// What is there of a module.
#[derive(Drop)]
pub enum Slot<'a> {
    /// No held DII lists the module.
    Unlisted,
    /// The module is sent compressed; nothing of it is taken.
    Compressed,
    /// A block is missing; none may have come yet.
    Partial,
    /// The module, lent.
    Whole(&'a Arc<Module>),
}
