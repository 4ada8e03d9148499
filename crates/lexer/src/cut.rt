//! What the lexer cuts from a text in one step.
ghost use Rattle.std.specs.Prelude.{◌≡◌, ℕ, ◌+◌, ◌<◌, length};

use crate::bytes::{bare_len, find, is_letter, is_special, name_len, quoted_len, signs};
use crate::token::{Sign, Token, bare_token};
use crate::tokens::Span;
use code::{PartKind, PartTag};

/// How the lexer stands between two tokens: whether in double quotes, and whether the next token is joined to the one
/// before.
#[derive(Clone, Copy, Debug, PartialEq, Eq)]
pub struct State {
    pub quoted: bool,
    pub joined: bool,
}

/// What is cut from a text: where the lexer goes on and how, and the token, if one was found.
#[derive(Clone, Copy, Debug)]
pub struct Cut {
    pub at: usize,
    pub state: State,
    pub token: Option<(Token, Span)>,
}

/// A byte of a text where no token has begun.
#[derive(Clone, Copy, Debug)]
pub struct Lexer<'a> {
    pub text: &'a [u8],
    pub at: usize,
    pub state: State,
    pub ghost inside: { at < length text.now },
}

impl State {
    ghost use Rattle.lexer.specs.Cuts.{behind_closed};

    /// Outside of quotes, behind nothing that a word could be joined to.
    pub const FRESH: State = State {
        quoted: false,
        joined: false,
    };

    /// Outside of quotes, behind part of a word.
    pub const JOINED: State = State {
        quoted: false,
        joined: true,
    };

    /// How the lexer goes on behind the bracket that closes a token's bracket: a $( is part of a word.
    pub fn behind_closed(token: Token) -> State
        ensures { result ≡ behind_closed token }
    {
        match token {
            Token::Part { part, .. } => State {
                quoted: part.quoted,
                joined: true,
            },
            _ => State::FRESH,
        }
    }
}

impl Lexer<'_> {
    ghost use Rattle.std.specs.Prelude.{◌≤◌, ◌≢◌, true, false, Some, None, drop, slice_index};
    ghost use Rattle.grammar.specs.Tokens.{ends_word};
    ghost use Rattle.lexer.specs.Codes.{Signs};
    ghost use Rattle.lexer.specs.Cuts.{Cuts, fresh};

    /// What begins here: a token, or what stands between tokens.
    pub fn cut(&self) -> Cut
        ensures { Cuts self.now.text.now self.now.at self.now.state result }
    {
        match self.text[self.at] {
            b'$' => self.dollar(),
            b'"' if self.state.quoted => self.nothing(1, State::JOINED),
            _ if self.state.quoted => self.quoted_text(),
            b'"' => self.opening_quote(),
            b'\'' => self.single_quotes(),
            b'(' => self.mark(Token::Sign(Sign::OpenParen), 1),
            b')' => self.mark(Token::Sign(Sign::CloseParen), 1),
            b'\n' => self.mark(Token::Sign(Sign::Newline), 1),
            b' ' | b'\t' => self.nothing(1, State::FRESH),
            c => match signs(c) {
                Some((once, twice)) => self.sign(once, twice),
                None => self.word(),
            },
        }
    }

    /// The text from a place on.
    fn tail(&self, at: usize) -> &[u8]
        requires { at ≤ length self.now.text.now }
        ensures { result.now ≡ drop at self.now.text.now }
    {
        &self.text[at..]
    }

    /// No token in `len` bytes.
    fn nothing(&self, len: usize, state: State) -> Cut
        requires { self.now.at + len ≤ length self.now.text.now }
        ensures { result ≡ record { at = self.now.at + len; state = state; token = None } }
    {
        Cut {
            at: self.at + len,
            state,
            token: None,
        }
    }

    /// A token of `len` bytes that need not be kept.
    fn mark(&self, token: Token, len: usize) -> Cut
        requires { self.now.at + len ≤ length self.now.text.now }
        ensures { result ≡ record { at = self.now.at + len; state = fresh; token = Some (token, record { start = self.now.at; len = 0 }) } }
    {
        let span = Span {
            start: self.at,
            len: 0,
        };
        Cut {
            at: self.at + len,
            state: State::FRESH,
            token: Some((token, span)),
        }
    }

    /// A part that is in quotes where the lexer is.
    fn tag(&self, kind: PartKind) -> PartTag
        ensures { result ≡ record { kind = kind; quoted = self.now.state.quoted } }
    {
        PartTag {
            kind,
            quoted: self.state.quoted,
        }
    }

    /// A part of a word, up to `at`.
    fn part(&self, part: PartTag, span: Span, at: usize) -> Cut
        ensures { result ≡ record { at = at; state = record { quoted = self.now.state.quoted; joined = true }; token = Some (Token.Part part self.now.state.joined, span) } }
    {
        let joined = self.state.joined;
        Cut {
            at,
            state: State {
                joined: true,
                ..self.state
            },
            token: Some((Token::Part { part, joined }, span)),
        }
    }

    /// What begins with a $.
    fn dollar(&self) -> Cut
        requires { slice_index self.now.text.now self.now.at ≡ 36 }
        ensures { Cuts self.now.text.now self.now.at self.now.state result }
    {
        let start = self.at + 1;
        let span = Span {
            start: self.at,
            len: 1,
        };
        let literal = self.part(self.tag(PartKind::Literal), span, start);
        if start >= self.text.len() {
            return literal;
        }
        match self.text[start] {
            b'(' => {
                let part = self.tag(PartKind::Substitution);
                let joined = self.state.joined;
                self.mark(Token::Part { part, joined }, 2)
            }
            c if is_letter(c) => {
                let len = name_len(self.tail(start));
                let span = Span { start, len };
                self.part(self.tag(PartKind::Parameter), span, start + len)
            }
            c if is_special(c) => {
                let span = Span { start, len: 1 };
                self.part(self.tag(PartKind::Parameter), span, start + 1)
            }
            _ => literal,
        }
    }

    /// The double quote that opens quoted text: an empty part, so that "" is a word.
    fn opening_quote(&self) -> Cut
        requires quote { slice_index self.now.text.now self.now.at ≡ 34 }
        requires unquoted { self.now.state.quoted ≡ false }
        ensures { Cuts self.now.text.now self.now.at self.now.state result }
    {
        let span = Span {
            start: self.at,
            len: 0,
        };
        Cut {
            state: State {
                quoted: true,
                joined: true,
            },
            ..self.part(PartTag::QUOTED, span, self.at + 1)
        }
    }

    /// Text in double quotes.
    fn quoted_text(&self) -> Cut
        requires quoted { self.now.state.quoted ≡ true }
        requires dollar { slice_index self.now.text.now self.now.at ≢ 36 }
        requires quote { slice_index self.now.text.now self.now.at ≢ 34 }
        ensures { Cuts self.now.text.now self.now.at self.now.state result }
    {
        let start = self.at;
        let len = quoted_len(self.tail(start));
        self.part(PartTag::QUOTED, Span { start, len }, start + len)
    }

    /// Text in single quotes.
    fn single_quotes(&self) -> Cut
        requires quote { slice_index self.now.text.now self.now.at ≡ 39 }
        requires unquoted { self.now.state.quoted ≡ false }
        ensures { Cuts self.now.text.now self.now.at self.now.state result }
    {
        let start = self.at + 1;
        match find(self.tail(start), b'\'') {
            Some(len) => self.part(PartTag::QUOTED, Span { start, len }, start + len + 1),
            None => self.mark(Token::Unclosed, self.text.len() - self.at),
        }
    }

    /// A sign: the byte alone, or twice.
    fn sign(&self, once: Sign, twice: Sign) -> Cut
        requires signs { Signs (slice_index self.now.text.now self.now.at) (once, twice) }
        requires unquoted { self.now.state.quoted ≡ false }
        ensures { Cuts self.now.text.now self.now.at self.now.state result }
    {
        let next = self.at + 1;
        if next < self.text.len() && self.text[next] == self.text[self.at] {
            return self.mark(Token::Sign(twice), 2);
        }
        self.mark(Token::Sign(once), 1)
    }

    /// A bare word, or a comment where no word has begun.
    fn word(&self) -> Cut
        requires bare { ends_word (slice_index self.now.text.now self.now.at) ≡ false }
        requires unquoted { self.now.state.quoted ≡ false }
        ensures { Cuts self.now.text.now self.now.at self.now.state result }
    {
        let start = self.at;
        let rest = self.tail(start);
        let joined = self.state.joined;
        if self.text[start] == b'#' && !joined {
            let len = find(rest, b'\n').unwrap_or(rest.len());
            return self.nothing(len, State::FRESH);
        }
        let len = bare_len(rest);
        let literal = self.part(PartTag::LITERAL, Span { start, len }, start + len);
        if joined {
            return literal;
        }
        Cut {
            token: Some((bare_token(&rest[..len]), Span { start, len })),
            ..literal
        }
    }
}
