use crate::{Pass, Station};

fn is_shared<T: Send + Sync>(_value: &T) {}

fn is_sent<T: Send>() {}

/// A station can be shared by threads, and passes can go to them and back. Does nothing.
pub fn cross_threads(station: &Station) {
    is_shared(station);
    is_sent::<Pass>();
}
