use crate::bytes::hex_text;
use crate::row::RowFault;
use std::alloc::{AllocError, Global};
use std::fmt::{Display, Write};

/// A line of answer that is written piece by piece. The first fault on the way is told at its end.
#[derive(Drop)]
pub struct Line {
    alloc: Global,
    text: String,
    fault: Option<RowFault>,
}

impl Line {
    /// An empty line.
    pub fn new(alloc: Global) -> Line {
        Line {
            alloc,
            text: String::new(alloc),
            fault: None,
        }
    }

    /// Puts a text behind what stands.
    pub fn text(mut self, text: &str) -> Line {
        match self.text.push_str(text) {
            Ok(()) => self,
            Err(_) => self.failed(RowFault::NoMemory),
        }
    }

    /// Puts a text behind what stands, if anything does.
    pub fn between(self, text: &str) -> Line {
        if self.text.is_empty() {
            return self;
        }
        self.text(text)
    }

    /// Puts a text where nothing stands yet.
    pub fn or(self, text: &str) -> Line {
        if self.text.is_empty() {
            return self.text(text);
        }
        self
    }

    /// Puts a text and a value behind what stands.
    pub fn value<T: Display>(self, before: &str, value: &T) -> Line {
        let mut line = self.text(before);
        match write!(line.text, "{value}") {
            Ok(()) => line,
            Err(_) => line.failed(RowFault::NoMemory),
        }
    }

    /// Puts a text and bytes, as a word of a row, behind what stands.
    pub fn bytes(self, before: &str, bytes: &[u8]) -> Line {
        let word = hex_text(self.alloc, bytes);
        self.made(before, word)
    }

    /// Puts a text and one that a call made, if it had memory for it, behind what stands.
    pub fn made(self, before: &str, made: Result<String, AllocError>) -> Line {
        match made {
            Ok(text) => self.text(before).text(text.as_str()),
            Err(_) => self.failed(RowFault::NoMemory),
        }
    }

    /// Puts bytes that a call made, as a word of a row, or its fault behind what stands.
    pub fn outcome<F: Display + Drop>(self, outcome: Result<Vec<u8>, F>) -> Line {
        match outcome {
            Ok(bytes) => self.bytes("", &bytes),
            Err(fault) => self.value("", &fault),
        }
    }

    /// Puts a text and another line behind what stands.
    pub fn line(self, before: &str, other: Line) -> Line {
        match other.done() {
            Ok(text) => self.text(before).text(text.as_str()),
            Err(fault) => self.failed(fault),
        }
    }

    /// The line with a fault, unless it has one.
    pub fn failed(mut self, fault: RowFault) -> Line {
        if self.fault.is_none() {
            self.fault = Some(fault);
        }
        self
    }

    /// The line, or its fault.
    pub fn done(self) -> Result<String, RowFault> {
        match self.fault {
            Some(fault) => Err(fault),
            None => Ok(self.text),
        }
    }
}
