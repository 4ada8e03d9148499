//! The reserved words, the signs and the quotes of a text.

use std::fmt;

/// A word that is reserved where a command may begin.
#[derive(Clone, Copy, PartialEq, Eq, Debug)]
pub enum Keyword {
    If,
    Then,
    Elif,
    Else,
    Fi,
    While,
    Do,
    Done,
    For,
    In,
    Case,
    When,
    Esac,
    OpenBrace,
    CloseBrace,
    Not,
}

/// A word that is not reserved.
#[derive(Clone, Copy, PartialEq, Eq, Debug)]
pub struct NotReserved;

impl<'t> TryFrom<&'t [u8]> for Keyword {
    type Error = NotReserved;

    // Each word of a text is looked up, so not by a search through the spellings.
    fn try_from(word: &'t [u8]) -> Result<Keyword, NotReserved> {
        match word {
            b"if" => Ok(Keyword::If),
            b"then" => Ok(Keyword::Then),
            b"elif" => Ok(Keyword::Elif),
            b"else" => Ok(Keyword::Else),
            b"fi" => Ok(Keyword::Fi),
            b"while" => Ok(Keyword::While),
            b"do" => Ok(Keyword::Do),
            b"done" => Ok(Keyword::Done),
            b"for" => Ok(Keyword::For),
            b"in" => Ok(Keyword::In),
            b"case" => Ok(Keyword::Case),
            b"when" => Ok(Keyword::When),
            b"esac" => Ok(Keyword::Esac),
            b"{" => Ok(Keyword::OpenBrace),
            b"}" => Ok(Keyword::CloseBrace),
            b"!" => Ok(Keyword::Not),
            _ => Err(NotReserved),
        }
    }
}

impl Keyword {
    fn spelling(self) -> &'static str {
        match self {
            Keyword::If => "if",
            Keyword::Then => "then",
            Keyword::Elif => "elif",
            Keyword::Else => "else",
            Keyword::Fi => "fi",
            Keyword::While => "while",
            Keyword::Do => "do",
            Keyword::Done => "done",
            Keyword::For => "for",
            Keyword::In => "in",
            Keyword::Case => "case",
            Keyword::When => "when",
            Keyword::Esac => "esac",
            Keyword::OpenBrace => "{",
            Keyword::CloseBrace => "}",
            Keyword::Not => "!",
        }
    }

    /// The others end the list that they stand behind.
    pub fn begins_command(self) -> bool {
        matches!(
            self,
            Keyword::If
                | Keyword::While
                | Keyword::For
                | Keyword::Case
                | Keyword::OpenBrace
                | Keyword::Not
        )
    }
}

impl fmt::Display for Keyword {
    fn fmt<W: fmt::Write>(&self, f: &mut fmt::Formatter<W>) -> fmt::Result {
        f.write_str(self.spelling())
    }
}

/// ; & | < > alone or twice, ( ) and the end of a line.
#[derive(Clone, Copy, PartialEq, Eq, Debug)]
pub enum Sign {
    Semicolon,
    DoubleSemicolon,
    Ampersand,
    DoubleAmpersand,
    Bar,
    DoubleBar,
    Less,
    DoubleLess,
    Greater,
    DoubleGreater,
    OpenParenthesis,
    CloseParenthesis,
    EndOfLine,
}

/// A byte with which no sign begins.
#[derive(Clone, Copy, PartialEq, Eq, Debug)]
pub struct NoSign;

impl TryFrom<u8> for Sign {
    type Error = NoSign;

    fn try_from(byte: u8) -> Result<Sign, NoSign> {
        match byte {
            b';' => Ok(Sign::Semicolon),
            b'&' => Ok(Sign::Ampersand),
            b'|' => Ok(Sign::Bar),
            b'<' => Ok(Sign::Less),
            b'>' => Ok(Sign::Greater),
            b'(' => Ok(Sign::OpenParenthesis),
            b')' => Ok(Sign::CloseParenthesis),
            b'\n' => Ok(Sign::EndOfLine),
            _ => Err(NoSign),
        }
    }
}

impl Sign {
    fn spelling(self) -> &'static str {
        match self {
            Sign::Semicolon => ";",
            Sign::DoubleSemicolon => ";;",
            Sign::Ampersand => "&",
            Sign::DoubleAmpersand => "&&",
            Sign::Bar => "|",
            Sign::DoubleBar => "||",
            Sign::Less => "<",
            Sign::DoubleLess => "<<",
            Sign::Greater => ">",
            Sign::DoubleGreater => ">>",
            Sign::OpenParenthesis => "(",
            Sign::CloseParenthesis => ")",
            Sign::EndOfLine => "\n",
        }
    }

    /// The sign that its byte is if it comes twice.
    // An Option, as not every byte is a sign twice.
    pub fn twice(self) -> Option<Sign> {
        match self {
            Sign::Semicolon => Some(Sign::DoubleSemicolon),
            Sign::Ampersand => Some(Sign::DoubleAmpersand),
            Sign::Bar => Some(Sign::DoubleBar),
            Sign::Less => Some(Sign::DoubleLess),
            Sign::Greater => Some(Sign::DoubleGreater),
            _ => None,
        }
    }
}

impl fmt::Display for Sign {
    fn fmt<W: fmt::Write>(&self, f: &mut fmt::Formatter<W>) -> fmt::Result {
        f.write_str(self.spelling())
    }
}

/// ' or "
#[derive(Clone, Copy, PartialEq, Eq, Debug)]
pub enum Quote {
    Single,
    Double,
}

impl fmt::Display for Quote {
    fn fmt<W: fmt::Write>(&self, f: &mut fmt::Formatter<W>) -> fmt::Result {
        f.write_str(match self {
            Quote::Single => "'",
            Quote::Double => "\"",
        })
    }
}
