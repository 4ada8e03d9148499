//! From bytes to tokens, a byte at a time. Every text has tokens; whether they are a list of commands the parser says.

use crate::signs::{Keyword, Quote, Sign};
use crate::tree::Fault;
use std::alloc::Global;

#[derive(Clone, Copy)]
pub enum TokenKind<'t> {
    /// Bytes outside quotes, and the reserved word that they are.
    Bare {
        bytes: &'t [u8],
        keyword: Option<Keyword>,
    },
    /// Bytes from quotes.
    Quoted(&'t [u8]),
    /// What stands behind $, in double quotes or not.
    Parameter {
        quoted: bool,
        name: &'t [u8],
    },
    /// $( in double quotes or not.
    Open {
        quoted: bool,
    },
    Sign(Sign),
    /// The quote that the text does not close, as a token at the text's end.
    Unclosed(Quote),
}

/// A token; whether it is joined to the one before, with nothing between them; and where it stands.
#[derive(Clone, Copy)]
pub struct Token<'t> {
    pub joined: bool,
    pub kind: TokenKind<'t>,
    pub place: usize,
}

/// What has begun and is not a token yet.
#[derive(Clone, Copy)]
enum Beginning {
    Word,
    /// In single quotes.
    Quote,
    /// In double quotes.
    Text,
    Dollar,
    Name,
    Sign(Sign),
    Comment,
}

/// What has begun, and where.
#[derive(Clone, Copy)]
struct Begun {
    what: Beginning,
    start: usize,
}

/// An open bracket.
#[derive(Clone, Copy)]
enum Bracket {
    Plain,
    /// $( in double quotes or not.
    Substitution { quoted: bool },
}

/// In double quotes or not; the open brackets; whether the next token is joined; what has begun; the tokens so far.
#[derive(Drop)]
struct Lexer<'t> {
    text: &'t [u8],
    quoted: bool,
    outer: Vec<Bracket>,
    glue: bool,
    begun: Option<Begun>,
    tokens: Vec<Token<'t>>,
}

/// A byte of a name that may be its first.
pub fn begins_name(c: u8) -> bool {
    c.is_ascii_alphabetic() || c == b'_'
}

/// A byte of a name.
pub fn in_name(c: u8) -> bool {
    begins_name(c) || c.is_ascii_digit()
}

/// Blanks, signs, quotes and $.
fn ends_word(c: u8) -> bool {
    matches!(c, b' ' | b'\t' | b'"' | b'\'' | b'$') || Sign::try_from(c).is_ok()
}

impl<'t> Lexer<'t> {
    /// Bytes of the text.
    fn bytes(&self, from: usize, to: usize) -> &'t [u8] {
        self.text.get(from..to).unwrap_or(&[])
    }

    fn put(&mut self, joined: bool, kind: TokenKind<'t>, place: usize) -> Result<(), Fault> {
        self.tokens.push(Token {
            joined,
            kind,
            place,
        })?;
        Ok(())
    }

    /// A sign ends what was joined.
    fn put_sign(&mut self, sign: Sign, place: usize) -> Result<(), Fault> {
        self.glue = false;
        self.put(false, TokenKind::Sign(sign), place)
    }

    /// Something begins here that becomes a token later.
    fn begin(&mut self, what: Beginning, start: usize) {
        self.begun = Some(Begun { what, start });
    }

    /// A byte inside double quotes where nothing has begun.
    fn scan_in_quotes(&mut self, c: u8, at: usize) {
        match c {
            b'"' => {
                self.quoted = false;
                self.glue = true;
            }
            b'$' => self.begin(Beginning::Dollar, at),
            _ => self.begin(Beginning::Text, at),
        }
    }

    /// A byte outside quotes where nothing has begun. An opening " is an empty quoted token, so that "" is a word;
    /// # begins a comment only where no word has begun.
    fn scan_bare(&mut self, c: u8, at: usize) -> Result<(), Fault> {
        match c {
            b' ' | b'\t' => self.glue = false,
            b'#' if !self.glue => self.begin(Beginning::Comment, at),
            b'"' => {
                self.put(self.glue, TokenKind::Quoted(&[]), at)?;
                self.quoted = true;
                self.glue = true;
            }
            b'\'' => self.begin(Beginning::Quote, at),
            b'$' => self.begin(Beginning::Dollar, at),
            _ => match Sign::try_from(c) {
                Ok(sign) => self.scan_sign(sign, at)?,
                Err(_) => self.begin(Beginning::Word, at),
            },
        }
        Ok(())
    }

    /// A ) gives back what was before its bracket; a sign that may come twice has only begun.
    fn scan_sign(&mut self, sign: Sign, at: usize) -> Result<(), Fault> {
        if sign.twice().is_some() {
            self.begin(Beginning::Sign(sign), at);
            return Ok(());
        }
        self.put_sign(sign, at)?;
        match sign {
            Sign::OpenParenthesis => self.outer.push(Bracket::Plain)?,
            Sign::CloseParenthesis => {
                if let Some(Bracket::Substitution { quoted }) = self.outer.pop() {
                    self.quoted = quoted;
                    self.glue = true;
                }
            }
            _ => {}
        }
        Ok(())
    }

    /// A byte where nothing has begun.
    fn scan_fresh(&mut self, c: u8, at: usize) -> Result<(), Fault> {
        if self.quoted {
            self.scan_in_quotes(c, at);
            Ok(())
        } else {
            self.scan_bare(c, at)
        }
    }

    /// What had begun is over at `at`: its token. A $ before anything else is itself.
    fn flush(&mut self, at: usize) -> Result<(), Fault> {
        let Some(Begun { what, start }) = self.begun.take() else {
            return Ok(());
        };
        let bytes = self.bytes(start, at);
        match what {
            Beginning::Comment => Ok(()),
            Beginning::Text => self.put(self.glue, TokenKind::Quoted(bytes), start),
            Beginning::Dollar if self.quoted => self.put(
                self.glue,
                TokenKind::Quoted(bytes),
                start,
            ),
            Beginning::Word | Beginning::Dollar => {
                let keyword = Keyword::try_from(bytes).ok();
                self.put(self.glue, TokenKind::Bare { bytes, keyword }, start)
            }
            Beginning::Quote => self.put(false, TokenKind::Unclosed(Quote::Single), at),
            Beginning::Name => {
                let name = self.bytes(start.saturating_add(1), at);
                self.put_parameter(name, start)
            }
            Beginning::Sign(sign) => self.put(false, TokenKind::Sign(sign), start),
        }
    }

    fn put_parameter(&mut self, name: &'t [u8], place: usize) -> Result<(), Fault> {
        let quoted = self.quoted;
        self.put(self.glue, TokenKind::Parameter { quoted, name }, place)
    }

    /// What had begun is over, and the byte is the first of what follows.
    fn flush_and_scan(&mut self, c: u8, at: usize) -> Result<(), Fault> {
        let sign = matches!(
            self.begun,
            Some(Begun {
                what: Beginning::Sign(_),
                ..
            },)
        );
        self.flush(at)?;
        self.glue = !sign;
        self.scan_fresh(c, at)
    }

    /// Behind the $ at `start`: a bracket, a name, or one of the digits, # and ?.
    fn scan_dollar(&mut self, start: usize, c: u8, at: usize) -> Result<(), Fault> {
        match c {
            b'(' => self.open_substitution(start),
            b'0'..=b'9' | b'#' | b'?' => {
                let name = self.bytes(at, at.saturating_add(1));
                self.put_parameter(name, start)?;
                self.glue = true;
                self.begun = None;
                Ok(())
            }
            _ if begins_name(c) => {
                self.begin(Beginning::Name, start);
                Ok(())
            }
            _ => self.flush_and_scan(c, at),
        }
    }

    /// The ( behind the $ at `start`.
    fn open_substitution(&mut self, start: usize) -> Result<(), Fault> {
        let quoted = self.quoted;
        self.put(self.glue, TokenKind::Open { quoted }, start)?;
        self.outer.push(Bracket::Substitution { quoted })?;
        self.quoted = false;
        self.glue = false;
        self.begun = None;
        Ok(())
    }

    /// The closing ' of the quote at `start`.
    fn close_quote(&mut self, start: usize, at: usize) -> Result<(), Fault> {
        let bytes = self.bytes(start.saturating_add(1), at);
        self.put(self.glue, TokenKind::Quoted(bytes), start)?;
        self.glue = true;
        self.begun = None;
        Ok(())
    }

    /// One byte.
    // The lexer goes by what has begun: a match over its state, no table of steps.
    fn scan_byte(&mut self, c: u8, at: usize) -> Result<(), Fault> {
        let Some(Begun { what, start }) = self.begun else {
            return self.scan_fresh(c, at);
        };
        match what {
            Beginning::Word if ends_word(c) => self.flush_and_scan(c, at),
            Beginning::Quote if c == b'\'' => self.close_quote(start, at),
            Beginning::Text if matches!(c, b'"' | b'$') => self.flush_and_scan(c, at),
            Beginning::Name if !in_name(c) => self.flush_and_scan(c, at),
            Beginning::Dollar => self.scan_dollar(start, c, at),
            Beginning::Sign(sign) => self.scan_behind_sign(sign, start, c, at),
            Beginning::Comment if c == b'\n' => {
                self.begun = None;
                self.put_sign(Sign::EndOfLine, at)
            }
            Beginning::Word
            | Beginning::Quote
            | Beginning::Text
            | Beginning::Name
            | Beginning::Comment => Ok(()),
        }
    }

    /// The byte behind a sign that may come twice.
    fn scan_behind_sign(
        &mut self,
        sign: Sign,
        start: usize,
        c: u8,
        at: usize,
    ) -> Result<(), Fault> {
        match sign.twice() {
            Some(double) if Sign::try_from(c) == Ok(sign) => {
                self.begun = None;
                self.put_sign(double, start)
            }
            _ => self.flush_and_scan(c, at),
        }
    }
}

/// The tokens of a text.
pub fn tokens<'t>(heap: Global, text: &'t [u8]) -> Result<Vec<Token<'t>>, Fault> {
    let mut lexer = Lexer {
        text,
        quoted: false,
        outer: Vec::new(heap),
        glue: false,
        begun: None,
        tokens: Vec::new(heap),
    };
    for (at, c) in text.iter().enumerate() {
        lexer.scan_byte(*c, at)?;
    }
    lexer.flush(text.len())?;
    if lexer.quoted {
        lexer.put(false, TokenKind::Unclosed(Quote::Double), text.len())?;
    }
    let Lexer { tokens, .. } = lexer;
    Ok(tokens)
}
