use biop_object::Module;
use dsi_dii::ModuleLine;
use ior_tap::Location;
use std::sync::Arc;

/// A module as a receiver holds it.
#[derive(Drop)]
pub struct Held {
    /// Its DII's identification, 1 to 32,767.
    pub identification: u16,
    /// The module's line in that DII.
    pub line: ModuleLine,
    /// The module, once it is whole.
    pub module: Option<Arc<Module>>,
}

/// The service gateway as the DSI names it.
#[derive(Drop)]
pub struct Gateway {
    /// Its object; the carousel is the receiver's.
    pub location: Location,
    /// The transactionId of the DII that delivers it, if its IOR has one.
    pub delivery: Option<u32>,
}

/// What a receiver holds at one moment. It never changes; threads may share it.
#[derive(Drop)]
pub struct Shot {
    /// The shot's number, from 0.
    pub number: u64,
    /// How many draws were carried before it.
    pub draws: u64,
    /// How many candidates were fed before it. This count and the next two saturate.
    pub mark: u64,
    /// How many turns dropped all that was held.
    pub epoch: u64,
    /// The held generation: the first DII's version plus each turn's distance.
    pub label: Option<u64>,
    /// The identifications of the held DIIs, each 1 to 32,767, as they were heard.
    pub held: Vec<u16>,
    /// The gateway, if a DSI is held.
    pub gateway: Option<Gateway>,
    /// The modules of these DIIs, in order. Each identification is in `held`; if not, the table
    /// decides.
    pub table: Vec<Held>,
}
