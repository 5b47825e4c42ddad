use crate::{Batch, Catalogue, Entry, Journal};
use generation::Generation;

fn crosses<T: Send + Sync>() {}

fn is_crossing<T: Send + Sync>(_value: &T) {}

/// What threads share of this crate can be sent to them and shared. Does nothing.
pub fn cross_threads(catalogue: &Catalogue) {
    is_crossing(catalogue);
    crosses::<Journal>();
    crosses::<Entry>();
    crosses::<Batch>();
    crosses::<Generation>();
}
