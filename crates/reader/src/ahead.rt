//! What stands ahead, where a command may begin.
ghost use Rattle.std.specs.Prelude.{◌≡◌};
ghost use Rattle.grammar.specs.Parser.{ends_list, is_newline, is_not};
ghost use Rattle.reader.specs.Aheads.{HasCode, la_of};
ghost use Rattle.reader.specs.Reading.{lookahead_by};
ghost use Rattle.lexer.specs.Codes.{code_of, next_code};

use lexer::{Keyword, Sign, Token};

#[derive(Clone, Copy, Debug, PartialEq, Eq)]
pub enum Ahead {
    End,
    /// No command begins so: a part that is joined to one before, or a quote that is not closed.
    Odd,
    /// The first part of a word, also a keyword that a part is joined to.
    Part,
    Keyword(Keyword),
    Sign(Sign),
}

impl Ahead {
    /// What a token is there; whether the next one is joined to it.
    pub fn new(token: Option<Token>, joined: bool) -> Ahead
        ensures means { la_of result ≡ lookahead_by (next_code token) joined }
        ensures code { HasCode result (next_code token) }
    {
        match token {
            Some(token) => Ahead::of(token, joined),
            None => Ahead::End,
        }
    }

    fn of(token: Token, joined: bool) -> Ahead
        ensures means { la_of result ≡ lookahead_by (code_of token) joined }
        ensures code { HasCode result (code_of token) }
    {
        match token {
            Token::Part { joined: true, .. } | Token::Unclosed => Ahead::Odd,
            Token::Keyword(keyword) if !joined => Ahead::Keyword(keyword),
            Token::Sign(sign) => Ahead::Sign(sign),
            _ => Ahead::Part,
        }
    }

    pub fn is_newline(self) -> bool
        ensures { result ≡ is_newline (la_of self) }
    {
        matches!(self, Ahead::Sign(Sign::Newline))
    }

    pub fn is_not(self) -> bool
        ensures { result ≡ is_not (la_of self) }
    {
        matches!(self, Ahead::Keyword(Keyword::Not))
    }

    /// Whether a list of commands ends before it.
    pub fn ends_list(self) -> bool
        ensures { result ≡ ends_list (la_of self) }
    {
        match self {
            Ahead::End => true,
            Ahead::Sign(sign) => matches!(sign, Sign::CloseParen | Sign::DoubleSemicolon),
            Ahead::Keyword(keyword) => !matches!(
                keyword,
                Keyword::If
                    | Keyword::While
                    | Keyword::For
                    | Keyword::Case
                    | Keyword::OpenBrace
                    | Keyword::Not
            ),
            Ahead::Odd | Ahead::Part => false,
        }
    }
}
