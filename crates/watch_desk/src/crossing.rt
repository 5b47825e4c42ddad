//! What threads share is proved here to be Send and Sync.

use crate::{Desk, Filter, Notice};

/// Values of this type may be moved to another thread, and lent to several at once.
fn crosses<T: Send + Sync>() {}

fn is_crossing<T: Send + Sync>(_value: &T) {}

/// Notices, filters and desks cross threads. It does nothing.
pub fn cross_threads(filter: &Filter, desk: &Desk) {
    crosses::<Notice>();
    is_crossing(filter);
    is_crossing(desk);
}
