//! Why a text is no list of commands.
ghost use Rattle.std.specs.Prelude.{◌≡◌, ◌≤◌, length};

use lexer::Tokens;
use std::error::Error;
use std::fmt;

/// What would have been read at the place where reading stopped.
#[derive(Clone, Copy, Debug, PartialEq, Eq)]
pub enum Expected {
    Command,
    Word,
    Name,
    Separator,
    Terminator,
    Then,
    Fi,
    Do,
    Done,
    In,
    Esac,
    OpenBrace,
    CloseBrace,
    CloseParen,
    DoubleSemicolon,
    End,
    LessDepth,
    ShorterText,
}

impl fmt::Display for Expected {
    fn fmt<W: fmt::Write>(&self, f: &mut fmt::Formatter<W>) -> fmt::Result {
        f.write_str(match self {
            Expected::Command => "a command",
            Expected::Word => "a word",
            Expected::Name => "a name",
            Expected::Separator => "';' or the end of a line",
            Expected::Terminator => "';', '&' or the end of a line",
            Expected::Then => "'then'",
            Expected::Fi => "'fi'",
            Expected::Do => "'do'",
            Expected::Done => "'done'",
            Expected::In => "'in'",
            Expected::Esac => "'esac'",
            Expected::OpenBrace => "'{'",
            Expected::CloseBrace => "'}'",
            Expected::CloseParen => "')'",
            Expected::DoubleSemicolon => "';;'",
            Expected::End => "the end of the text",
            Expected::LessDepth => "lists at most 32 deep",
            Expected::ShorterText => "at most 16384 bytes",
        })
    }
}

/// The token at which reading stopped.
#[derive(Clone, Copy, Debug, PartialEq, Eq)]
pub struct Stop {
    pub token: usize,
    pub expected: Expected,
}

/// The byte of the text at which reading stopped.
#[derive(Clone, Copy, Debug, PartialEq, Eq)]
pub struct SyntaxError {
    pub at: usize,
    pub expected: Expected,
}

impl fmt::Display for SyntaxError {
    fn fmt<W: fmt::Write>(&self, f: &mut fmt::Formatter<W>) -> fmt::Result {
        let expected = self.expected;
        write!(f, "expected {expected}")
    }
}

impl Error for SyntaxError {}

impl Stop {
    /// The same with its place in the text.
    pub fn in_text(self, tokens: &Tokens<'_>) -> SyntaxError
        ensures { result.at ≤ length tokens.now.text.now }
    {
        SyntaxError {
            at: tokens.place(self.token),
            expected: self.expected,
        }
    }
}
