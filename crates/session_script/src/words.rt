//! A line's words, taken from the left, what single words stand for, and why a line is refused.
ghost use Rattle.std.specs.Prelude.{◌≡◌, ◌∷◌, [], ◌≤◌, ◌<◌, Err, length, replicate, option_map, MatchOption, OnOk, IfErr, IfOk, IfSome, IsSome, position};
ghost use Rattle.std.specs.Option.{ok_or};
ghost use Rattle.std.specs.Result.{result_ok};
ghost use Rattle.oc_bytes.specs.Outcome.{Gives};
ghost use Rattle.oc_bytes.specs.Decimals.{decimal_in};
ghost use Rattle.hex.specs.Hex.{decode_of};
ghost use Rattle.session_script.specs.Grammar.{actor_of, path_in, content_in, fates_in, fates_of, is_space, words_in, word_by};
ghost use Rattle.session_script.specs.Ranges.{IsActor};
ghost use Rattle.session_script.specs.Inner.{words_left, line_cause, Takes};

use crate::script::LineCause;
use hex::FromHexError;
use oc_bytes::{Blob, decimal};
use path_tree::{MOST_CONTENT, Path, PathFault};
use std::alloc::{AllocError, Global};
use ts_packet::Fate;

/// The most editors, and the most readers.
pub const MOST_ACTORS: u32 = 64;

/// The most fates of one draw.
pub const MOST_FATES: u32 = 65_536;

/// One byte more than a file may have.
pub const MOST_FILLED: u32 = MOST_CONTENT as u32 + 1;

/// A packet has 188 bytes.
const LAST_BIT: u32 = 1_503;

/// The limits of a script: actors, fates of a draw, bytes of a filled file.
pub fn limits_are_numbers()
    ensures actors { MOST_ACTORS ≡ 64 }
    ensures fates { MOST_FATES ≡ 65536 }
    ensures filled { MOST_FILLED ≡ 16777217 }
{}

/// Why a line can't be read.
#[derive(Clone, Copy)]
pub enum LineFault {
    /// It doesn't fit.
    Bad(LineCause),
    /// Memory ran out.
    NoMemory,
}

impl From<AllocError> for LineFault {
    ghost use Rattle.std.specs.Prelude.{◌≡◌};
    ghost use Rattle.session_script.specs.declared.words.LineFault.TheVariants.{NoMemory};

    ghost from_gives = { λ _ e. e ≡ NoMemory };

    fn from(_error: AllocError) -> LineFault {
        LineFault::NoMemory
    }
}

/// The words of a line that are left, with one space between two. A word may be empty.
#[derive(Clone, Copy)]
pub struct Words<'a> {
    /// From the next word on; none if no word is left.
    rest: Option<&'a [u8]>,
}

impl<'a> Words<'a> {
    ghost use Rattle.std.specs.Prelude.{MatchResult};
    ghost use Rattle.session_script.specs.Inner.{words_left};

    /// An empty line has one, the empty word.
    pub fn of(line: &'a [u8]) -> Words<'a>
        ensures { words_left result ≡ words_in line.now }
    {
        Words { rest: Some(line) }
    }

    /// Takes the next word, if any.
    pub fn next(&mut self) -> Option<&'a [u8]>
        ensures { MatchOption result ((words_left self.old ≡ []) × (words_left self.new ≡ []))
            (λ word. words_left self.old ≡ word.now ∷ words_left self.new) }
    {
        let text = self.rest?;
        let Some(end) = first_space(text) else {
            self.rest = None;
            return Some(text);
        };
        self.rest = Some(&text[end + 1..]);
        Some(&text[..end])
    }

    /// Takes the next word, which has to be there.
    pub fn word(&mut self) -> Result<&'a [u8], LineFault>
        ensures { MatchResult result (λ word. words_left self.old ≡ word.now ∷ words_left self.new)
            (λ e. (e ≡ LineFault.Bad LineCause.Missing) × (words_left self.old ≡ [])) }
    {
        match self.next() {
            Some(word) => Ok(word),
            None => Err(LineFault::Bad(LineCause::Missing)),
        }
    }

    /// Refuses a word that is left.
    pub fn end(&mut self) -> Result<(), LineFault>
        ensures fits { OnOk result (words_left self.old ≡ []) }
        ensures extra { IfErr result (λ e.
            (e ≡ LineFault.Bad LineCause.Extra) × (0 < length (words_left self.old))) }
    {
        match self.next() {
            Some(_) => Err(LineFault::Bad(LineCause::Extra)),
            None => Ok(()),
        }
    }
}

fn first_space(text: &[u8]) -> Option<usize>
    ensures { result ≡ position is_space text.now }
{
    text.iter().position(|byte| *byte == b' ')
}

/// From `least` to `greatest`.
pub fn number(words: &mut Words, least: u32, greatest: u32) -> Result<u32, LineFault>
    ensures takes { Takes (λ n. n) result (words_left words.new)
        (word_by (decimal_in least greatest) LineCause.BadNumber (words_left words.old)) }
    ensures least { IfOk result (λ n. least ≤ n) }
    ensures greatest { IfOk result (λ n. n ≤ greatest) }
    ensures plain { result ≡ Err LineFault.NoMemory → ⊥ }
{
    let word = words.word()?;
    decimal(word, least, greatest).ok_or(LineFault::Bad(LineCause::BadNumber))
}

/// 1 to [`MOST_ACTORS`].
pub fn actor(words: &mut Words) -> Result<u32, LineFault>
    ensures takes { Takes (λ n. n) result (words_left words.new)
        (word_by actor_of LineCause.BadNumber (words_left words.old)) }
    ensures range { IfOk result (λ n. IsActor n) }
    ensures plain { result ≡ Err LineFault.NoMemory → ⊥ }
{
    number(words, 1, MOST_ACTORS)
}

/// Takes a path.
pub fn path(alloc: Global, words: &mut Words) -> Result<Path, LineFault>
    ensures takes { Takes (λ path. path) result (words_left words.new)
        (word_by path_in LineCause.BadPath (words_left words.old)) }
    ensures memory { result ≡ Err LineFault.NoMemory → 0 < length (words_left words.old) }
{
    let word = words.word()?;
    match Path::parse(alloc, word) {
        Ok(path) => Ok(path),
        Err(PathFault::NoMemory) => Err(LineFault::NoMemory),
        Err(_) => Err(LineFault::Bad(LineCause::BadPath)),
    }
}

/// `-` for none, else two hexadecimal digits a byte.
pub fn content(alloc: Global, words: &mut Words) -> Result<Blob, LineFault>
    ensures takes { Takes (λ blob. blob) result (words_left words.new)
        (word_by content_in LineCause.BadHex (words_left words.old)) }
{
    let word = words.word()?;
    let bytes = match word {
        [] => return Err(LineFault::Bad(LineCause::BadHex)),
        b"-" => Vec::new(alloc),
        digits => bytes_of(alloc, digits)?,
    };
    Ok(Blob::new(alloc, bytes)?)
}

fn bytes_of(alloc: Global, digits: &[u8]) -> Result<Vec<u8>, LineFault>
    ensures { Gives (λ bytes. bytes.items) line_cause result
        (ok_or (result_ok (decode_of digits.now)) LineCause.BadHex) }
{
    match hex::decode(alloc, digits) {
        Ok(bytes) => Ok(bytes),
        Err(FromHexError::OutOfMemory) => Err(LineFault::NoMemory),
        Err(_) => Err(LineFault::Bad(LineCause::BadHex)),
    }
}

/// A fate, and how many packets have it, 1 to [`MOST_FATES`].
fn fate_run(word: &[u8]) -> Option<(Fate, usize)>
    ensures fates { option_map (λ run. replicate run.1 run.0) result ≡ fates_in word.now }
    ensures most { IfSome result (λ run. run.1 ≤ MOST_FATES) }
{
    match word {
        [b'k', count @ ..] => Some((Fate::Keep, decimal(count, 1, MOST_FATES)? as usize)),
        [b'd', count @ ..] => Some((Fate::Lose, decimal(count, 1, MOST_FATES)? as usize)),
        [b'f', bit @ ..] => Some((Fate::Flip(decimal(bit, 0, LAST_BIT)? as u16), 1)),
        _ => None,
    }
}

/// 0 to [`MOST_FATES`], if each word makes some.
fn fate_count(mut words: Words) -> Option<usize>
    ensures count { result ≡ option_map length (fates_of (words_left words.entry)) }
    ensures most { IfSome result (λ n. n ≤ MOST_FATES) }
{
    let mut count = 0;
    while let Some(word) = words.next() {
        let (_, packets) = fate_run(word)?;
        count += packets;
        if count > MOST_FATES as usize {
            return None;
        }
    }
    Some(count)
}

/// Memory is asked for once the words are known to fit.
pub fn fates(alloc: Global, mut words: Words) -> Result<Vec<Fate>, LineFault>
    ensures gives { Gives (λ fates. fates.items) line_cause result
        (ok_or (fates_of (words_left words.entry)) LineCause.BadFate) }
    ensures most { IfOk result (λ fates. length fates.items ≤ MOST_FATES) }
    ensures memory { result ≡ Err LineFault.NoMemory → IsSome (fates_of (words_left words.entry)) }
{
    let Some(count) = fate_count(words) else {
        return Err(LineFault::Bad(LineCause::BadFate));
    };
    let mut fates = Vec::with_capacity(alloc, count)?;
    while let Some(word) = words.next() {
        let Some((fate, packets)) = fate_run(word) else {
            return Err(LineFault::Bad(LineCause::BadFate));
        };
        fates.resize(fates.len() + packets, fate)?;
    }
    Ok(fates)
}
