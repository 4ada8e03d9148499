//! Bytes as text: numbers, lines, patterns, and what test compares.

ghost use Rattle.std.specs.Prelude.{◌≡◌, ◌+◌, ◌*◌, ◌^◌, ◌<◌, ◌≤◌, IfSome};

use crate::system::System;
use std::alloc::{AllocError, Global};
use std::cmp::Ordering;
use std::collections::VecDeque;

/// The status of a command that did what it was to do, and of a test that holds.
pub const SUCCESS: u32 = 0;
/// The status of a command that did not, and of a test that doesn't hold.
pub const FAILURE: u32 = 1;
/// The status of a command that can do nothing with its words.
pub const MISUSE: u32 = 2;
/// The status of a name that is no command.
pub const NOT_FOUND: u32 = 127;
/// The status of a process that writes what nobody can read.
pub const NO_READER: u32 = 141;

/// The status of what holds or doesn't.
pub fn status_of(holds: bool) -> u32
    ensures { result ≤ 1 }
{
    if holds { SUCCESS } else { FAILURE }
}

/// A byte of a word, and whether it comes from quotes.
#[derive(Clone, Copy)]
pub struct QuotedByte {
    pub byte: u8,
    pub quoted: bool,
}

/// What a byte of a pattern stands for: any bytes, any one, or itself.
#[derive(Clone, Copy)]
enum Sign {
    AnyBytes,
    AnyByte,
    Itself(u8),
}

impl QuotedByte {
    /// * and ? outside quotes are signs of a pattern.
    fn sign(self) -> Sign {
        match (self.quoted, self.byte) {
            (false, b'*') => Sign::AnyBytes,
            (false, b'?') => Sign::AnyByte,
            (_, byte) => Sign::Itself(byte),
        }
    }
}

impl Sign {
    /// Whether it stands for this one byte.
    fn fits(self, byte: u8) -> bool {
        match self {
            Sign::AnyBytes | Sign::AnyByte => true,
            Sign::Itself(own) => own == byte,
        }
    }
}

/// The bytes of a word.
pub fn bytes_of(heap: Global, word: &[QuotedByte]) -> Result<Vec<u8>, AllocError> {
    word.iter().map(|c| c.byte).collect(heap)
}

pub fn has_pattern(word: &[QuotedByte]) -> bool {
    word.iter().any(|c| !matches!(c.sign(), Sign::Itself(_)))
}

/// Of the places of a name that a pattern's beginning can reach, those behind a *: all from the first on.
fn behind_star(reached: &mut [bool]) {
    let mut some = false;
    for place in reached {
        some = some || *place;
        *place = some;
    }
}

/// The same behind another sign.
fn behind_sign(
    heap: Global,
    reached: &[bool],
    sign: Sign,
    name: &[u8],
) -> Result<Vec<bool>, AllocError> {
    let mut next = vec![in heap; false]?;
    for (place, byte) in reached.iter().zip(name) {
        next.push(*place && sign.fits(*byte))?;
    }
    Ok(next)
}

/// Whether a pattern is a name: * outside quotes is any bytes, ? one.
pub fn matches_name(heap: Global, pattern: &[QuotedByte], name: &[u8]) -> Result<bool, AllocError> {
    let mut reached = vec![in heap; true]?;
    for _ in name {
        reached.push(false)?;
    }
    for c in pattern {
        match c.sign() {
            Sign::AnyBytes => behind_star(&mut reached),
            sign => reached = behind_sign(heap, &reached, sign, name)?,
        }
    }
    Ok(reached.last().copied().unwrap_or(false))
}

/// A number as decimal digits.
pub fn decimal(heap: Global, n: u64) -> Result<Vec<u8>, AllocError> {
    Ok(n.to_string(heap)?.into_bytes())
}

/// A number is 1 to 9 digits.
// By hand: `parse` takes a + too.
pub fn number(text: &[u8]) -> Option<u32>
    ensures { IfSome result (λ n. n < 10 ^ 9) }
{
    if text.is_empty() || text.len() > 9 {
        return None;
    }
    let mut n: u32 = 0;
    for c in text {
        match *c {
            b'0'..=b'9' => n = n.saturating_mul(10).saturating_add(u32::from(*c - b'0')),
            _ => return None,
        }
    }
    if n < 1_000_000_000 { Some(n) } else { None }
}

/// Whether a text stands somewhere in a line.
pub fn contains(text: &[u8], line: &[u8]) -> bool {
    text.is_empty() || line.windows(text.len()).any(|part| part == text)
}

/// A line of these bytes.
pub fn as_line(mut bytes: Vec<u8>) -> Result<Vec<u8>, AllocError> {
    bytes.push(b'\n')?;
    Ok(bytes)
}

/// Words with blanks between them, and the end of the line.
pub fn joined_line(heap: Global, words: &VecDeque<Vec<u8>>) -> Result<Vec<u8>, AllocError> {
    let mut line = Vec::new(heap);
    for (i, word) in words.iter().enumerate() {
        if i > 0 {
            line.push(b' ')?;
        }
        line.extend_from_slice(word)?;
    }
    as_line(line)
}

/// Without the ends of lines at the end.
pub fn trim(mut bytes: Vec<u8>) -> Vec<u8> {
    let end = match bytes.iter().rposition(|b| *b != b'\n') {
        Some(last) => last + 1,
        None => 0,
    };
    bytes.truncate(end);
    bytes
}

/// -n a: not empty; -e a: there is such a file.
fn test_word(system: &System, operator: &[u8], a: &[u8]) -> u32 {
    match operator {
        b"-n" => status_of(!a.is_empty()),
        b"-e" => status_of(system.has_file(a)),
        _ => MISUSE,
    }
}

/// How two words compare as numbers, if both are.
fn compare_numbers(a: &[u8], b: &[u8]) -> Option<Ordering> {
    Some(number(a)?.cmp(&number(b)?))
}

/// a = b and a != b compare bytes, a -lt b and a -eq b numbers.
/// A match on the bytes: the operators have nothing in common but a status.
fn test_words(a: &[u8], operator: &[u8], b: &[u8]) -> u32 {
    match operator {
        b"=" => status_of(a == b),
        b"!=" => status_of(a != b),
        b"-lt" => compare_numbers(a, b).map_or(MISUSE, |order| status_of(order == Ordering::Less)),
        b"-eq" => compare_numbers(a, b).map_or(MISUSE, |order| status_of(order == Ordering::Equal)),
        _ => MISUSE,
    }
}

/// A test that is none of these, and a number that is none, have status 2.
pub fn test_status(system: &System, words: &[Vec<u8>]) -> u32 {
    match words {
        [] => FAILURE,
        [a] => status_of(!a.is_empty()),
        [operator, a] => test_word(system, operator, a),
        [a, operator, b] => test_words(a, operator, b),
        _ => MISUSE,
    }
}
