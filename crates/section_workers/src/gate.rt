/// Who passes a gate. Workers are 0 and 1.
#[derive(Clone, Copy, Debug, PartialEq, Eq)]
pub enum Actor {
    /// Commits edits.
    Editor(u32),
    /// Draws items and sends them.
    Feeder,
    /// Opens paths.
    Reader(u32),
    /// Makes sections of items.
    Worker(u32),
}

/// Is told of each actor before each of its steps.
pub trait Gate: Sync {
    /// The actor is about to take this step, from 0.
    fn pass(&self, actor: Actor, step: u32);
}

/// A gate that does nothing.
#[derive(Clone, Copy, Debug)]
pub struct NoGate;

impl Gate for NoGate {
    fn pass(&self, _actor: Actor, _step: u32) {}
}
