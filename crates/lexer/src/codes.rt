//! The numbers that stand for tokens in the lent words.
ghost use Rattle.std.specs.Prelude.{◌≡◌, ℕ, ◌≢◌, MatchOption};
ghost use Rattle.lexer.specs.Codes.{Decodes, code_of, joins, part_code, sign_code_of};

use crate::token::{Keyword, Sign, Token};
use code::{PartKind, PartTag};
use std::error::Error;
use std::fmt;

/// A number that stands for no token.
#[derive(Clone, Copy, Debug, PartialEq, Eq)]
pub struct UnknownCode(pub u32);

impl fmt::Display for UnknownCode {
    fn fmt<W: fmt::Write>(&self, f: &mut fmt::Formatter<W>) -> fmt::Result {
        write!(f, "no token has the code {}", self.0)
    }
}

impl Error for UnknownCode {}

// The numbers stand in lent words; but for the first keyword's they are known here alone.

/// The code of a quote that is not closed.
const UNCLOSED: u32 = 45;

const NAME: u32 = 46;

/// The code of an assignment whose name is empty.
const ASSIGNMENT: u32 = 64;

/// Added to a part's code where it is joined to the token before it.
const JOINED: u32 = 8;

/// No token has it: what is read behind the last token.
pub const END: u32 = 47;

/// Whether a code is that of a part that is joined to the token before it.
#[inline]
pub fn is_joined(code: u32) -> bool
    ensures { result ≡ joins code }
{
    matches!(code, 8..=15)
}

/// The code of a part that is not joined to the token before it. It is the number that the grammar has, where $( is 5 and 6; in
/// the code of a text it is 4 and 5.
fn part_code(part: PartTag) -> u32
    ensures { result ≡ part_code part }
{
    let unquoted = match part.kind {
        PartKind::Literal => 0,
        PartKind::Parameter => 2,
        PartKind::Substitution => 5,
    };
    unquoted + u32::from(part.quoted)
}

/// The part with a code.
fn part_with(code: u32) -> Option<PartTag>
    ensures { MatchOption result ((part : _) → part_code part ≢ code) (λ part. part_code part ≡ code) }
{
    let (kind, quoted) = match code {
        0 | 1 => (PartKind::Literal, code == 1),
        2 | 3 => (PartKind::Parameter, code == 3),
        5 | 6 => (PartKind::Substitution, code == 6),
        _ => return None,
    };
    Some(PartTag { kind, quoted })
}

/// The code of a sign.
fn sign_code(sign: Sign) -> u32
    ensures { result ≡ sign_code_of sign }
{
    match sign {
        Sign::Semicolon => 32,
        Sign::Newline => 33,
        Sign::Ampersand => 34,
        Sign::Pipe => 35,
        Sign::Redirect(tag) => 36 + tag as u32,
        Sign::OpenParen => 40,
        Sign::CloseParen => 41,
        Sign::And => 42,
        Sign::Or => 43,
        Sign::DoubleSemicolon => 44,
    }
}

impl From<Token> for u32 {
    ghost from_gives = { λ token code. code ≡ code_of token };

    #[inline]
    fn from(token: Token) -> u32 {
        match token {
            Token::Part { part, joined } => part_code(part) + if joined { JOINED } else { 0 },
            Token::Keyword(keyword) => keyword as u32,
            Token::Name => NAME,
            Token::Assignment { name } => ASSIGNMENT + u32::from(name),
            Token::Sign(sign) => sign_code(sign),
            Token::Unclosed => UNCLOSED,
        }
    }
}

impl TryFrom<u32> for Token {
    type Error = UnknownCode;

    ghost try_from_gives = { Decodes };

    #[inline]
    fn try_from(code: u32) -> Result<Self, UnknownCode> {
        match code {
            0..=15 => {
                let joined = code >= JOINED;
                part_with(code % JOINED)
                    .map(|part| Token::Part { part, joined })
                    .ok_or(UnknownCode(code))
            }
            16..=31 => Ok(Token::Keyword(Keyword::ALL[code as usize - 16])),
            32..=44 => Ok(Token::Sign(Sign::ALL[code as usize - 32])),
            UNCLOSED => Ok(Token::Unclosed),
            NAME => Ok(Token::Name),
            64..=319 => Ok(Token::Assignment {
                name: (code - ASSIGNMENT) as u8,
            }),
            47..=63 | 320..=u32::MAX => Err(UnknownCode(code)),
        }
    }
}
