//! Items, lists and answers as texts.

use cycle_planner::Item;
use path_resolver::Answer;
use test_rows::Line;

/// What is written on a line.
pub(crate) trait Told {
    /// Puts it behind what stands.
    fn told(&self, line: Line) -> Line;
}

/// Puts each of a list behind what stands, with a space between.
pub(crate) fn each<T: Told>(mut line: Line, list: &[T]) -> Line {
    for item in list {
        line = item.told(line.between(" "));
    }
    line
}

/// Puts an answer in brackets behind what stands.
pub(crate) fn answered(line: Line, answer: Line) -> Line {
    line.between(" ").line("[", answer).text("]")
}

impl Told for Item {
    fn told(&self, line: Line) -> Line {
        item_text(line, *self)
    }
}

/// Puts an item behind what stands: `DSI`, a DII as its group, `DII/1`, and a block as its module
/// and its number.
pub(crate) fn item_text(line: Line, item: Item) -> Line {
    match item {
        Item::Dsi => line.text("DSI"),
        Item::Dii(group) => line.value("DII/", &group),
        Item::Block(module, block) => line.value("", &module).value("/", &block),
    }
}

/// Puts what a receiver answers to a path behind what stands.
pub(crate) fn answer_text(line: Line, answer: &Answer) -> Line {
    match answer {
        Answer::File(file) => content_text(line, file.bytes()),
        Answer::NotYet(module) => line.value("not yet, for module ", module),
        Answer::NoSuch => line.text("no such file or folder"),
        Answer::NoCarousel => line.text("no carousel"),
        _ => line.text("another answer"),
    }
}

/// Puts a file's bytes behind what stands: `BYTE*COUNT` where they are many and all the same.
fn content_text(line: Line, bytes: &[u8]) -> Line {
    match bytes.first() {
        Some(byte) if is_filled(bytes, *byte) => {
            line.bytes("", &[*byte]).value("*", &bytes.len())
        }
        _ => line.bytes("", bytes),
    }
}

/// Whether there are more than 64 bytes, and each is this one.
fn is_filled(bytes: &[u8], byte: u8) -> bool {
    bytes.len() > 64 && bytes.iter().all(|other| *other == byte)
}
