//! Bytes as rows spell them.

use test_rows::Line;

/// More equal bytes than these stand as one of them and their count.
const LONGEST_DIGITS: usize = 3;

/// What a word of bytes ends in.
#[derive(Clone, Copy, Drop)]
enum Ending {
    /// There are no bytes yet.
    Nothing,
    /// A piece of hex digits.
    Digits,
    /// A piece of one byte and `*COUNT`.
    Copies,
}

/// A word that says bytes, at the end of a line: pieces with `+` between, each of hex digits or of
/// one byte and `*COUNT`.
#[derive(Drop)]
struct Spelling {
    line: Line,
    ending: Ending,
}

impl Spelling {
    /// Puts a run of one byte behind the others.
    fn run(self, byte: u8, count: usize) -> Spelling {
        match [byte; LONGEST_DIGITS].get(..count) {
            Some([]) => self,
            Some(few) => self.digits(few),
            None => self.copies(byte, count),
        }
    }

    /// Puts bytes in digits behind the others.
    fn digits(self, bytes: &[u8]) -> Spelling {
        let before = match self.ending {
            Ending::Copies => "+",
            _ => "",
        };
        Spelling {
            line: self.line.bytes(before, bytes),
            ending: Ending::Digits,
        }
    }

    /// Puts so many copies of a byte behind the others.
    fn copies(self, byte: u8, count: usize) -> Spelling {
        let before = match self.ending {
            Ending::Nothing => "",
            _ => "+",
        };
        Spelling {
            line: self.line.bytes(before, &[byte]).value("*", &count),
            ending: Ending::Copies,
        }
    }
}

/// Puts bytes behind what stands, as a word of a row in which four or more equal bytes are one of
/// them and their count; `-` for none.
pub(crate) fn spelled(line: Line, bytes: &[u8]) -> Line {
    if bytes.is_empty() {
        return line.text("-");
    }
    let mut spelling = Spelling {
        line,
        ending: Ending::Nothing,
    };
    let mut last = 0;
    let mut count = 0usize;
    for byte in bytes {
        if *byte != last {
            spelling = spelling.run(last, count);
            count = 0;
        }
        last = *byte;
        count = count.saturating_add(1);
    }
    spelling.run(last, count).line
}
