/// What a watcher is told: that the answer to a path isn't the one that it was on the shot before.
#[derive(Clone, Copy, Debug, PartialEq, Eq)]
pub struct Notice {
    /// The watcher: the place of its filter among the desk's filters, from 0, below
    /// [`MOST_FILTERS`](crate::MOST_FILTERS).
    pub watcher: u32,
    /// The path: its place among the desk's paths, from 0, below
    /// [`MOST_WATCHED`](crate::MOST_WATCHED).
    pub path: u32,
}
