ghost use Rattle.std.specs.Prelude.{◌≡◌, ◌≤◌, List, ℕ};
ghost use Rattle.cycle_planner.specs.Weights.{AreWeights, weight};
ghost use Rattle.module_groups.specs.declared.TheConstants.{GREATEST_ID};

use module_groups::GREATEST_ID;

/// The greatest weight of a module.
pub const GREATEST_WEIGHT: u8 = 8;

/// What answers the weight of a module, by its id.
pub type Call = Box<dyn Fn(u16) -> u8 + Send + Sync + Drop>;

/// How often each module is sent in a cycle: for each id, 1 to [`GREATEST_ID`], its weight, 1 to
/// [`GREATEST_WEIGHT`].
#[derive(Drop)]
pub struct Weigh {
    weights: [u8; GREATEST_ID],
    call: Call,
    pub ghost range: { AreWeights weights },
    pub ghost callable: { (m : ℕ) → 1 ≤ m → m ≤ GREATEST_ID → Call.pre call m },
    pub ghost answers: { (m r : ℕ)
        → 1 ≤ m
        → m ≤ GREATEST_ID
        → Call.post call m r
        → r ≡ weight weights m },
}

impl Weigh {
    /// `weights` begin with module 1, and the closure answers the same. Takes no memory.
    pub fn new(weights: [u8; GREATEST_ID], call: Call) -> Weigh
        requires weights { AreWeights weights }
        requires callable { (m : ℕ) → 1 ≤ m → m ≤ GREATEST_ID → Call.pre call m }
        requires answers { (m r : ℕ)
            → 1 ≤ m
            → m ≤ GREATEST_ID
            → Call.post call m r
            → r ≡ weight weights m }
        ensures { result.weights ≡ weights }
    {
        Weigh { weights, call }
    }

    /// From module 1 on. Takes no memory.
    pub fn kept(&self) -> [u8; GREATEST_ID]
        ensures weights { result ≡ self.now.weights }
        ensures range { AreWeights self.now.weights }
    {
        self.weights
    }

    /// 1 to 8, for an id from 1 to [`GREATEST_ID`]. Takes no memory.
    pub fn of(&self, id: u16) -> u8
        requires low { 1 ≤ id }
        requires high { id ≤ GREATEST_ID }
        ensures { result ≡ weight self.now.weights id }
    {
        (self.call)(id)
    }
}
