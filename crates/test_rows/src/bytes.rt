use crate::row::RowFault;
use hex::FromHex;
use std::alloc::{AllocError, Global};

/// Bytes by their names.
#[derive(Drop)]
pub struct Named {
    entries: Vec<(String, Vec<u8>)>,
}

impl Named {
    /// No names.
    pub fn new(alloc: Global) -> Named {
        Named {
            entries: Vec::new(alloc),
        }
    }

    /// Gives these bytes a name. The first bytes of a name are those that it keeps.
    pub fn put(&mut self, alloc: Global, name: &str, bytes: Vec<u8>) -> Result<(), AllocError> {
        let name = String::from_str(alloc, name)?;
        self.entries.push((name, bytes))?;
        Ok(())
    }

    /// The bytes of a name, if it has any.
    pub fn get(&self, name: &str) -> Option<&[u8]> {
        for (known, bytes) in &self.entries {
            if known.as_str() == name {
                return Some(bytes.as_slice());
            }
        }
        None
    }
}

/// The bytes that a word says.
pub(crate) fn bytes_of(alloc: Global, named: &Named, word: &str) -> Result<Vec<u8>, RowFault> {
    let mut bytes = Vec::new(alloc);
    for piece in word.split('+') {
        push_piece(alloc, named, piece, &mut bytes)?;
    }
    Ok(bytes)
}

/// Puts the copies of a piece behind the bytes.
fn push_piece(
    alloc: Global,
    named: &Named,
    piece: &str,
    bytes: &mut Vec<u8>,
) -> Result<(), RowFault> {
    let (changed, copies) = match piece.split_once('*') {
        Some((changed, count)) => (changed, decimal(count)?),
        None => (piece, 1),
    };
    let one = changed_bytes(alloc, named, changed)?;
    for _ in 0..copies {
        bytes.extend_from_slice(&one)?;
    }
    Ok(())
}

/// The bytes of a body with the changes behind it.
fn changed_bytes(alloc: Global, named: &Named, changed: &str) -> Result<Vec<u8>, RowFault> {
    let mut parts = changed.split('@');
    let Some(body) = parts.next() else {
        return Err(RowFault::BadRow);
    };
    let mut bytes = body_bytes(alloc, named, body)?;
    for change in parts {
        put_change(&mut bytes, change)?;
    }
    Ok(bytes)
}

/// The bytes of a body: hex digits, `-`, `=TEXT` or `$NAME`.
fn body_bytes(alloc: Global, named: &Named, body: &str) -> Result<Vec<u8>, RowFault> {
    if body == "-" {
        return Ok(Vec::new(alloc));
    }
    if let Some(text) = body.strip_prefix('=') {
        return Ok(Vec::from_slice(alloc, text.as_bytes())?);
    }
    if let Some(name) = body.strip_prefix('$') {
        return match named.get(name) {
            Some(bytes) => Ok(Vec::from_slice(alloc, bytes)?),
            None => Err(RowFault::BadRow),
        };
    }
    match hex::decode(alloc, body) {
        Ok(bytes) => Ok(bytes),
        Err(hex::FromHexError::OutOfMemory) => Err(RowFault::NoMemory),
        Err(_) => Err(RowFault::BadRow),
    }
}

/// Puts the byte of `PLACE:BYTE` in its place.
fn put_change(bytes: &mut Vec<u8>, change: &str) -> Result<(), RowFault> {
    let Some((place, digits)) = change.split_once(':') else {
        return Err(RowFault::BadRow);
    };
    let place = decimal(place)?;
    let Ok(byte) = <[u8; 1] as FromHex>::from_hex(digits) else {
        return Err(RowFault::BadRow);
    };
    match bytes.get_mut(place) {
        Some(to) => {
            *to = byte[0];
            Ok(())
        }
        None => Err(RowFault::BadRow),
    }
}

fn decimal(digits: &str) -> Result<usize, RowFault> {
    match digits.parse::<usize>() {
        Ok(number) => Ok(number),
        Err(_) => Err(RowFault::BadRow),
    }
}

/// Bytes as a word: hex digits, or `-` for none.
pub fn hex_text(alloc: Global, bytes: &[u8]) -> Result<String, AllocError> {
    if bytes.is_empty() {
        return String::from_str(alloc, "-");
    }
    hex::encode(alloc, bytes)
}
