//! What single bytes are, and how far runs of bytes go.
ghost use Rattle.std.specs.Prelude.{◌≡◌, ℕ, ◌==◌, ◌||◌, not, false, length, position, MatchOption};
ghost use Rattle.std.specs.List.{list_all, take_while};
ghost use Rattle.grammar.specs.Tokens.{doubles, ends_word};
ghost use Rattle.lexer.specs.Codes.{Signs};
ghost use Rattle.syntax.specs.Base.{digit, letter, valid_name};

use crate::token::Sign;
use code::RedirectTag;

/// The longest name.
const MAX_NAME: usize = 32;

pub fn is_letter(c: u8) -> bool
    ensures { result ≡ letter c }
{
    matches!(c, b'a'..=b'z' | b'A'..=b'Z' | b'_')
}

/// A byte of a name behind its first.
fn is_name_byte(c: u8) -> bool
    ensures { result ≡ (letter c || digit c) }
{
    is_letter(c) || c.is_ascii_digit()
}

/// A byte behind $ that is a parameter alone.
pub fn is_special(c: u8) -> bool
    ensures { result ≡ (digit c || (c == 35 || c == 63)) }
{
    matches!(c, b'0'..=b'9' | b'#' | b'?')
}

fn ends_word(c: u8) -> bool
    ensures { result ≡ ends_word c }
{
    matches!(
        c,
        b' ' | b'\t' | b'\n' | b';' | b'&' | b'|' | b'<' | b'>' | b'(' | b')' | b'"' | b'\'' | b'$'
    )
}

/// The signs that a byte makes alone and twice.
pub fn signs(c: u8) -> Option<(Sign, Sign)>
    ensures { MatchOption result (doubles c ≡ false) (Signs c) }
{
    match c {
        b';' => Some((Sign::Semicolon, Sign::DoubleSemicolon)),
        b'&' => Some((Sign::Ampersand, Sign::And)),
        b'|' => Some((Sign::Pipe, Sign::Or)),
        b'<' => Some((
            Sign::Redirect(RedirectTag::Input),
            Sign::Redirect(RedirectTag::Here),
        )),
        b'>' => Some((
            Sign::Redirect(RedirectTag::Output),
            Sign::Redirect(RedirectTag::Append),
        )),
        _ => None,
    }
}

// Each is one chain of the library with a test of its own: a function that takes the test would only give `take_while` another name.
/// How many bytes of a bare word stand at the front.
pub fn bare_len(bytes: &[u8]) -> usize
    ensures { result ≡ length (take_while (λ c. not (ends_word c)) bytes.now) }
{
    bytes.iter().take_while(|&&c| !ends_word(c)).count()
}

/// How many bytes of text in double quotes stand at the front.
pub fn quoted_len(bytes: &[u8]) -> usize
    ensures { result ≡ length (take_while (λ c. not (c == 34 || c == 36)) bytes.now) }
{
    bytes
        .iter()
        .take_while(|&&c| !matches!(c, b'"' | b'$'))
        .count()
}

/// How many bytes of a name stand at the front.
pub fn name_len(bytes: &[u8]) -> usize
    ensures { result ≡ length (take_while (λ c. letter c || digit c) bytes.now) }
{
    bytes.iter().take_while(|&&c| is_name_byte(c)).count()
}

/// Where a byte stands first.
pub fn find(bytes: &[u8], byte: u8) -> Option<usize>
    ensures { result ≡ position (λ c. c == byte) bytes.now }
{
    bytes.iter().position(|&c| c == byte)
}

fn are_name_bytes(bytes: &[u8]) -> bool
    ensures { result ≡ list_all (λ c. letter c || digit c) bytes.now }
{
    bytes.iter().all(|&c| is_name_byte(c))
}

/// Whether a variable or a function may be called so.
#[tactic(auto, using(crate::proofs::Runs::name_bytes_is))]
pub fn is_name(word: &[u8]) -> bool
    ensures { result ≡ valid_name word.now }
{
    match word {
        [] => false,
        [first, rest @ ..] => is_letter(*first) && are_name_bytes(rest) && rest.len() < MAX_NAME,
    }
}
