//! The texts of names: escapes read and written.
ghost use Rattle.std.specs.Prelude.{◌≡◌, true, ◌<◌, length, drop, position, is_some, Ok, IfOk, IfSome, IsErrOf, option_map, ◌==◌, ◌&&◌, not, nat_le, Some};
ghost use Rattle.std.specs.List.{list_any, flat_map};
ghost use Rattle.std.specs.Fmt.{DisplaysOnOk};
ghost use Rattle.oc_bytes.specs.Numbers.{IsBytes};
ghost use Rattle.oc_bytes.specs.Outcome.{Gives, Spells, AddsText};
ghost use Rattle.path_tree.specs.Paths.{IsName, IsPath};
ghost use Rattle.path_tree.specs.Texts.{digit, upper_digit, printed_byte, printed_name, text_cause, is_name, is_slash, is_zero_or_slash, undo_escapes, name_of, names_after};
ghost use Rattle.path_tree.specs.Inner.Steps.{byte_of_digits, Undoes, IsNameAt, Cuts, verdict_of};

use crate::path::{Name, PathFault};
use oc_bytes::NoMemory;
use std::alloc::Global;
use std::fmt;

/// The most names of a path.
pub const MOST_NAMES: usize = 16;

/// The value of a digit of either case.
fn hex_digit(byte: u8) -> Option<u8>
    ensures value { result ≡ digit byte }
    ensures below { IfSome result (λ value. value < 16) }
{
    match byte {
        b'0'..=b'9' => Some(byte - b'0'),
        b'A'..=b'F' => Some(byte - b'A' + 10),
        b'a'..=b'f' => Some(byte - b'a' + 10),
        _ => None,
    }
}

fn hex_byte(high: u8, low: u8) -> Option<u8>
    ensures { result ≡ byte_of_digits (digit high) (digit low) }
{
    match (hex_digit(high), hex_digit(low)) {
        (Some(high), Some(low)) => Some(16 * high + low),
        _ => None,
    }
}

/// The first byte that a name's text means, and the text after it.
fn first_byte(text: &[u8]) -> Option<(u8, &[u8])>
    requires { 0 < length text.now }
    ensures { Undoes text.now (option_map (λ p. (p.0, p.1.now)) result) }
{
    match text {
        [b'%', high, low, rest @ ..] => match hex_byte(*high, *low) {
            Some(byte) => Some((byte, rest)),
            None => None,
        },
        [b'%', ..] => None,
        [] => None,
        [byte, rest @ ..] => Some((*byte, rest)),
    }
}

/// The bytes that a name's text means; none if a `%` lacks its digits.
fn unescaped(alloc: Global, text: &[u8]) -> Result<Option<Vec<u8>>, NoMemory>
    ensures bytes { IfOk result (λ bytes. option_map (λ v. v.items) bytes ≡ undo_escapes text.now) }
    ensures in_byte { IfOk result (λ bytes. IfSome bytes (λ v. IsBytes v.items)) }
{
    let mut bytes = Vec::new(alloc);
    let mut rest = text;
    while !rest.is_empty() {
        let Some((byte, more)) = first_byte(rest) else {
            return Ok(None);
        };
        bytes.push(byte)?;
        rest = more;
    }
    Ok(Some(bytes))
}

fn holds_zero_or_slash(bytes: &[u8]) -> bool
    ensures { result ≡ list_any is_zero_or_slash bytes.now }
{
    bytes.iter().any(|byte| *byte == 0 || *byte == b'/')
}

pub(crate) fn is_path_name(bytes: &[u8]) -> bool
    ensures value { result ≡ is_name bytes.now }
    ensures name { result ≡ true → IsName bytes.now }
{
    !bytes.is_empty() && bytes.len() <= 254 && !holds_zero_or_slash(bytes)
}

fn is_zero_or_slash(byte: u8) -> bool
    ensures { result ≡ is_zero_or_slash byte }
{
    byte == 0 || byte == b'/'
}

/// As `name_of`, without memory.
fn is_name_text(text: &[u8]) -> bool
    ensures { result ≡ is_some (name_of text.now) }
{
    let mut count = 0usize;
    let mut clean = true;
    let mut rest = text;
    while !rest.is_empty() {
        let Some((byte, more)) = first_byte(rest) else {
            return false;
        };
        clean = clean && !is_zero_or_slash(byte);
        count += 1;
        rest = more;
    }
    count >= 1 && count <= 254 && clean
}

/// The name that a text means, which begins at `place` in the whole.
fn read_name(alloc: Global, text: &[u8], place: usize) -> Result<Name, PathFault>
    ensures { IsNameAt text.now place result }
{
    match unescaped(alloc, text)? {
        Some(bytes) if is_path_name(&bytes) => Ok(Name::new(bytes)),
        _ => Err(PathFault::BadName(place)),
    }
}

fn first_slash(text: &[u8]) -> Option<usize>
    ensures { result ≡ position is_slash text.now }
{
    text.iter().position(|byte| *byte == b'/')
}

/// The text up to the first `/`, and the text after that `/`.
fn first_piece(text: &[u8]) -> (&[u8], Option<&[u8]>)
    ensures { Cuts text.now result.0.now (option_map (λ rest. rest.now) result.1) }
{
    match first_slash(text) {
        Some(end) => (&text[..end], Some(&text[end + 1..])),
        None => (text, None),
    }
}

/// The first fault from the left, without memory.
fn check_names(text: &[u8]) -> Result<(), PathFault>
    requires { 0 < length text.now }
    ensures read { Gives (λ _. tt) text_cause result (verdict_of (names_after (drop 1 text.now))) }
    ensures memory { IsErrOf result PathFault.NoMemory → ⊥ }
{
    let mut rest = &text[1..];
    for _ in 0..MOST_NAMES {
        let (piece, more) = first_piece(rest);
        if !is_name_text(piece) {
            return Err(PathFault::BadName(text.len() - rest.len()));
        }
        match more {
            Some(next) => rest = next,
            None => return Ok(()),
        }
    }
    Err(PathFault::TooDeep)
}

/// The names of a text that begins with `/` and isn't `/`. It checks all first, so that lack of
/// memory hides no fault.
pub(crate) fn read_names(alloc: Global, text: &[u8]) -> Result<Vec<Name>, PathFault>
    requires { 0 < length text.now }
    ensures read { Gives (λ names. names.items) text_cause result (names_after (drop 1 text.now)) }
    ensures path { IfOk result (λ names. IsPath names.items) }
    ensures no_memory { IsErrOf result PathFault.NoMemory
        → verdict_of (names_after (drop 1 text.now)) ≡ Ok tt }
{
    check_names(text)?;
    let mut names = Vec::new(alloc);
    let mut rest = &text[1..];
    for _ in 0..MOST_NAMES {
        let (piece, more) = first_piece(rest);
        let name = read_name(alloc, piece, text.len() - rest.len())?;
        names.push(name)?;
        match more {
            Some(next) => rest = next,
            None => return Ok(names),
        }
    }
    Err(PathFault::TooDeep)
}

fn hex_char(value: u8) -> char
    requires { value < 16 }
    ensures { result ≡ upper_digit value }
{
    let digit = if value < 10 {
        b'0' + value
    } else {
        b'A' - 10 + value
    };
    char::from(digit)
}

/// Whether a byte is itself in a text.
fn is_plain(byte: u8) -> bool
    ensures { result ≡ (nat_le 33 byte && nat_le byte 126 && not (byte == 37) && not (byte == 47)) }
{
    matches!(byte, 0x21..=0x7E) && byte != b'%' && byte != b'/'
}

fn push_byte(text: &mut String, byte: u8) -> Result<(), NoMemory>
    ensures { AddsText result text.old text.new (printed_byte byte) }
{
    if is_plain(byte) {
        return text.push(char::from(byte));
    }
    text.push('%')?;
    text.push(hex_char(byte / 16))?;
    text.push(hex_char(byte % 16))
}

/// The text of a name of any bytes: that of a path, without the `/`. `Err` is out of memory.
pub fn print_name(alloc: Global, name: &[u8]) -> Result<String, NoMemory>
    ensures { Spells result (flat_map printed_byte name.now) }
{
    let mut text = String::new(alloc);
    for byte in name {
        push_byte(&mut text, *byte)?;
    }
    Ok(text)
}

pub(crate) fn push_name(text: &mut String, name: &[u8]) -> Result<(), NoMemory>
    ensures { AddsText result text.old text.new (printed_name name.now) }
{
    text.push('/')?;
    for byte in name {
        push_byte(text, *byte)?;
    }
    Ok(())
}

fn write_byte<W: fmt::Write>(f: &mut fmt::Formatter<W>, byte: u8) -> fmt::Result
    ensures { DisplaysOnOk W.write_str_gives f.old result (Some (printed_byte byte)) f.new }
{
    if is_plain(byte) {
        return f.write_char(char::from(byte));
    }
    f.write_char('%')?;
    f.write_char(hex_char(byte / 16))?;
    f.write_char(hex_char(byte % 16))
}

pub(crate) fn write_name<W: fmt::Write>(f: &mut fmt::Formatter<W>, name: &[u8]) -> fmt::Result
    ensures { DisplaysOnOk W.write_str_gives f.old result (Some (printed_name name.now)) f.new }
{
    f.write_char('/')?;
    for byte in name {
        write_byte(f, *byte)?;
    }
    Ok(())
}
