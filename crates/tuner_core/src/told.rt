use dsmcc_section::Skip;
use module_cache::Taken;
use thiserror::Error;

/// Why a candidate changed nothing of what is held.
#[derive(Clone, Copy, Debug, PartialEq, Eq, Error)]
pub enum Cause {
    /// It is no section.
    #[error("no section: {0}")]
    Section(Skip),
    /// Its section of table 0x3B holds no control message. The number is the place of the first
    /// field that is cut or breaks a rule, in bytes from the payload's first byte.
    #[error("no control message: the field at byte {0} is cut or breaks a rule")]
    NotControl(usize),
    /// Its section of table 0x3C holds no block message, with the place.
    #[error("no block message: the field at byte {0} is cut or breaks a rule")]
    NotDdb(usize),
    /// A DSI whose IOR has no BIOP profile.
    #[error("the DSI has no BIOP profile")]
    NoGateway,
    /// A DSI with the gateway that is held.
    #[error("the DSI has the gateway that is held")]
    SameDsi,
    /// A DII of identification 0, or one of the held version while 16 others are held.
    #[error("the DII has identification 0, or 16 others are held")]
    OtherDii,
    /// A DII that breaks a limit of the receiver or lists a module twice, by itself or with those
    /// that are held.
    #[error("the DII, by itself or beside those that are held, breaks a limit or lists a module twice")]
    DiiOverLimit,
    /// A DII of the held version and of an identification that is held, whatever it lists.
    #[error("the DII has a version and an identification that are held")]
    SameDii,
    /// A block message that wasn't taken; never `New`.
    #[error("the block was not taken: {0}")]
    Block(Taken),
}

/// What a candidate did.
#[derive(Clone, Copy, Debug, PartialEq, Eq)]
pub enum Fed {
    /// What is held has changed.
    Changed,
    /// What is held is as before; the candidate is counted.
    Nothing(Cause),
}
