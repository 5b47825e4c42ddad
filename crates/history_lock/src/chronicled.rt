ghost use Rattle.std.specs.Prelude.{List};

/// A value that stands for a list of entries, which only grows while the value is shared. An entry
/// may be of any type: no value of it is made by the lock.
pub trait Chronicled: Send {
    /// What the list is made of.
    type Entry;

    // The list that the value stands for, its first entry first.
    ghost list: { Self → List Self.Entry };
}
