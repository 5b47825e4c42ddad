use crate::bytes::{Named, bytes_of};
use crate::line::Line;
use std::alloc::{AllocError, AllocFailed, Global};
use std::cell::Cell;
use std::fmt::{self, Display, Formatter, Write};

/// Why a row has no answer of a call.
#[derive(Clone, Copy, Debug, PartialEq, Eq, Drop)]
pub enum RowFault {
    /// Its words aren't those of a call.
    BadRow,
    /// There was no memory.
    NoMemory,
}

impl From<AllocError> for RowFault {
    fn from(_error: AllocError) -> RowFault {
        RowFault::NoMemory
    }
}

impl<T: Drop> From<AllocFailed<T>> for RowFault {
    fn from(_: AllocFailed<T>) -> RowFault {
        RowFault::NoMemory
    }
}

impl Display for RowFault {
    fn fmt<W: Write>(&self, f: &mut Formatter<W>) -> fmt::Result {
        match self {
            RowFault::BadRow => f.write_str("bad row"),
            RowFault::NoMemory => f.write_str("no memory"),
        }
    }
}

/// A call's name and its words.
///
/// A word is read in two ways. `word`, `bytes` and `number` refuse one that isn't there or says something else. The others
/// read it as nothing then, and the row keeps the fault, which is told in place of the call's answer.
#[derive(Drop)]
pub struct Row<'a> {
    alloc: Global,
    named: &'a Named,
    words: Vec<&'a str>,
    fault: Cell<Option<RowFault>>,
}

impl<'a> Row<'a> {
    /// The row of a line, whose words may name these bytes.
    pub fn new(alloc: Global, named: &'a Named, line: &'a str) -> Result<Row<'a>, AllocError> {
        let mut words = Vec::new(alloc);
        for word in line.split_whitespace() {
            words.push(word)?;
        }
        Ok(Row {
            alloc,
            named,
            words,
            fault: Cell::new(None),
        })
    }

    /// The call's name: the first word, or nothing where there is none.
    pub fn name(&self) -> &str {
        match self.words.first() {
            Some(word) => word,
            None => "",
        }
    }

    /// How many words there are after the name.
    pub fn len(&self) -> usize {
        self.words.len().saturating_sub(1)
    }

    /// Whether there is no word after the name.
    pub fn is_empty(&self) -> bool {
        self.len() == 0
    }

    /// The word at a place after the name, from 0.
    pub fn word(&self, place: usize) -> Result<&str, RowFault> {
        match self.words.get(place.saturating_add(1)) {
            Some(word) => Ok(word),
            None => Err(RowFault::BadRow),
        }
    }

    /// The bytes that the word at a place says.
    pub fn bytes(&self, alloc: Global, place: usize) -> Result<Vec<u8>, RowFault> {
        bytes_of(alloc, self.named, self.word(place)?)
    }

    /// The number that the word at a place says, in decimal digits.
    pub fn number(&self, place: usize) -> Result<u64, RowFault> {
        match self.word(place)?.parse::<u64>() {
            Ok(number) => Ok(number),
            Err(_) => Err(RowFault::BadRow),
        }
    }

    /// The word at a place, or nothing where there is none.
    pub fn text(&self, place: usize) -> &str {
        match self.words.get(place.saturating_add(1)) {
            Some(word) => word,
            None => "",
        }
    }

    /// The bytes that the word at a place says, or none.
    pub fn octets(&self, place: usize) -> Vec<u8> {
        match self.bytes(self.alloc, place) {
            Ok(bytes) => bytes,
            Err(fault) => {
                self.fail(fault);
                Vec::new(self.alloc)
            }
        }
    }

    /// The number of eight bytes that the word at a place says, or 0.
    pub fn wide(&self, place: usize) -> u64 {
        match self.text(place).parse::<u64>() {
            Ok(number) => number,
            Err(_) => {
                self.fail(RowFault::BadRow);
                0
            }
        }
    }

    /// The number of four bytes that the word at a place says, or 0.
    pub fn long(&self, place: usize) -> u32 {
        match self.text(place).parse::<u32>() {
            Ok(number) => number,
            Err(_) => {
                self.fail(RowFault::BadRow);
                0
            }
        }
    }

    /// The number of two bytes that the word at a place says, or 0.
    pub fn short(&self, place: usize) -> u16 {
        match self.text(place).parse::<u16>() {
            Ok(number) => number,
            Err(_) => {
                self.fail(RowFault::BadRow);
                0
            }
        }
    }

    /// The number of one byte that the word at a place says, or 0.
    pub fn byte(&self, place: usize) -> u8 {
        match self.text(place).parse::<u8>() {
            Ok(number) => number,
            Err(_) => {
                self.fail(RowFault::BadRow);
                0
            }
        }
    }

    /// The number of things in memory that the word at a place says, or 0.
    pub fn count(&self, place: usize) -> usize {
        match self.text(place).parse::<usize>() {
            Ok(number) => number,
            Err(_) => {
                self.fail(RowFault::BadRow);
                0
            }
        }
    }

    /// Keeps a fault, unless there is one.
    pub fn fail(&self, fault: RowFault) {
        if self.fault.get().is_none() {
            self.fault.set(Some(fault));
        }
    }

    /// Puts an item behind those of a list, if there is memory for it.
    pub fn push<T: Drop>(&self, list: &mut Vec<T>, item: T) {
        if list.push(item).is_err() {
            self.fail(RowFault::NoMemory);
        }
    }

    /// Keeps want of memory as the row's fault.
    pub fn keep(&self, outcome: Result<(), AllocError>) {
        if outcome.is_err() {
            self.fail(RowFault::NoMemory);
        }
    }

    /// An empty line of answer.
    pub fn line(&self) -> Line {
        Line::new(self.alloc)
    }

    /// A line that tells of a fault alone.
    pub fn failed(&self, fault: RowFault) -> Line {
        self.line().failed(fault)
    }

    /// The answer of the row's call, unless a word of it wasn't what was asked for.
    pub(crate) fn answered(&self, answer: Result<String, RowFault>) -> Result<String, RowFault> {
        match self.fault.get() {
            Some(fault) => Err(fault),
            None => answer,
        }
    }
}
