//! Texts of several lines as the words of a row, and on one line.

use std::alloc::{AllocError, Global};
use test_rows::Row;

/// The text that a row's words spell: `;` ends a line, a space stands between two other words, `''` is an empty word, and `\r` and
/// `\t` in a word are a carriage return and a tab.
pub(crate) fn spelled(alloc: Global, row: &Row<'_>) -> String {
    let mut text = String::new(alloc);
    let mut is_front = true;
    for place in 0..row.len() {
        let word = row.text(place);
        row.keep(push_spelled(&mut text, word, is_front));
        is_front = word == ";";
    }
    text
}

/// Puts what a word spells behind what stands, with a space between where it isn't the front of a line.
fn push_spelled(text: &mut String, word: &str, is_front: bool) -> Result<(), AllocError> {
    if word == ";" {
        return text.push('\n');
    }
    if !is_front {
        text.push(' ')?;
    }
    push_word(text, word)
}

fn push_word(text: &mut String, word: &str) -> Result<(), AllocError> {
    if word == "''" {
        return Ok(());
    }
    let mut pieces = word.split('\\');
    if let Some(first) = pieces.next() {
        text.push_str(first)?;
    }
    for piece in pieces {
        push_escaped(text, piece)?;
    }
    Ok(())
}

/// Puts what follows a backslash: the character that its first letter stands for, and the others.
fn push_escaped(text: &mut String, piece: &str) -> Result<(), AllocError> {
    if let Some(rest) = piece.strip_prefix('r') {
        text.push('\r')?;
        return text.push_str(rest);
    }
    if let Some(rest) = piece.strip_prefix('t') {
        text.push('\t')?;
        return text.push_str(rest);
    }
    text.push('\\')?;
    text.push_str(piece)
}

/// A text on one line: each line feed is ` ;`, and a space follows where the text goes on.
pub(crate) fn on_one_line(alloc: Global, text: &str) -> Result<String, AllocError> {
    let mut line = String::new(alloc);
    let mut ends_line = false;
    for c in text.chars() {
        if ends_line {
            line.push(' ')?;
        }
        ends_line = c == '\n';
        if ends_line {
            line.push_str(" ;")?;
        } else {
            line.push(c)?;
        }
    }
    Ok(line)
}

/// An output on one line: `-` where it is empty, its text where it is one, and else the number of its bytes.
pub(crate) fn output_text(alloc: Global, bytes: &[u8]) -> Result<String, AllocError> {
    if bytes.is_empty() {
        return String::from_str(alloc, "-");
    }
    match text_in(bytes) {
        Some(text) => on_one_line(alloc, text),
        None => bytes_text(alloc, bytes),
    }
}

/// How many bytes there are.
pub(crate) fn bytes_text(alloc: Global, bytes: &[u8]) -> Result<String, AllocError> {
    let count = bytes.len();
    format!(in alloc; "{count} bytes")
}

/// The text that the bytes are, where each is of ASCII that can be seen, a space or a line feed.
fn text_in(bytes: &[u8]) -> Option<&str> {
    if !bytes.iter().all(|byte| is_of_text(*byte)) {
        return None;
    }
    match str::from_utf8(bytes) {
        Ok(text) => Some(text),
        Err(_) => None,
    }
}

fn is_of_text(byte: u8) -> bool {
    byte == b'\n' || byte == b' ' || byte.is_ascii_graphic()
}
