//! What commands read off their arguments.
ghost use Rattle.std.specs.Prelude.{◌≡◌, ◌<◌, List, IfSome};
ghost use Rattle.meaning.specs.System.{QuotedByte};
ghost use Rattle.words.specs.Encoding.{marked, AllSmall};
ghost use Rattle.machine.specs.Arguments.{number_of, exit_number};
ghost use Rattle.machine.specs.Ranges.{seq_range};

use crate::expansion::word_len;

// A number has at most so many digits.
const MOST_DIGITS: usize = 9;

/// An encoded word as a number: 1 to 9 digits.
// By hand: the digits are words of the encoding, and nine at most.
pub fn number(word: &[u32]) -> Option<u32>
    ensures small { IfSome result (λ n. n < 1000000000) }
    ensures is { result ≡ number_of word.now }
{
    if word.is_empty() || word.len() > MOST_DIGITS {
        return None;
    }
    let mut n = 0;
    for w in word {
        let c = (*w % 256) as u8;
        if !c.is_ascii_digit() {
            return None;
        }
        n = n * 10 + u32::from(c - b'0');
    }
    Some(n)
}

/// The number that exit is given, or else the last status.
pub fn exit_number(arguments: &[u32], status: u32) -> Option<u32>
    ensures { result ≡ exit_number arguments.now status }
{
    if arguments.is_empty() {
        return Some(status);
    }
    let words = &arguments[1..];
    number(&words[..word_len(words)])
}

/// From where to where seq counts.
#[derive(Clone, Copy)]
pub struct Range {
    pub from: u32,
    pub to: u32,
}

/// seq n counts from 1, seq a b from a; any other number of arguments is wrong.
pub fn seq_range(arguments: &[u32]) -> Option<Range>
    ensures small { IfSome result (λ x. x.to < 1000000000) }
    ensures is { (es : List (List QuotedByte)) → AllSmall es → arguments.now ≡ marked es → result ≡ seq_range es }
{
    if arguments.is_empty() {
        return None;
    }
    let end = 1 + word_len(&arguments[1..]);
    let a = number(&arguments[1..end])?;
    if end >= arguments.len() {
        return Some(Range { from: 1, to: a });
    }
    let rest = &arguments[end + 1..];
    if word_len(rest) < rest.len() {
        return None;
    }
    let b = number(rest)?;
    Some(Range { from: a, to: b })
}
