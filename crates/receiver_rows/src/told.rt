//! Lists as answers.

use test_rows::Line;

/// What is written on a line.
pub(crate) trait Told {
    /// Puts it behind what stands.
    fn told(&self, line: Line) -> Line;
}

/// Puts each of a list behind what stands, with a text between.
pub(crate) fn each<T: Told>(mut line: Line, between: &str, list: &[T]) -> Line {
    for item in list {
        line = item.told(line.between(between));
    }
    line
}
