//! What was read, and lists, as answers.

use std::fmt::Display;
use test_rows::Line;

/// What is written on a line.
pub(crate) trait Told {
    /// Puts it behind what stands.
    fn told(&self, line: Line) -> Line;
}

/// Puts each of a list behind what stands, with a text between.
pub(crate) fn each<T: Told>(mut line: Line, between: &str, list: &[T]) -> Line {
    for item in list {
        line = item.told(line.between(between));
    }
    line
}

/// Puts what was read, or why nothing was, behind what stands.
pub(crate) fn read<T: Told + Drop, F: Display + Drop>(line: Line, outcome: Result<T, F>) -> Line {
    match outcome {
        Ok(value) => value.told(line),
        Err(fault) => line.value("", &fault),
    }
}
