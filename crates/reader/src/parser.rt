//! A recursive-descent parser over the tokens of a text, which writes the tree as words.
ghost use Rattle.std.specs.Prelude.{◌≡◌, ◌+◌, ◌<◌, ◌≤◌, ◌≢◌, ◌↔◌, IsTrue, OnOk, OnErr, Some, drop, length, take};
ghost use Rattle.grammar.specs.Parser.{lookahead};
ghost use Rattle.lexer.specs.Codes.{code_of, keyword_code, next_code, sign_code_of};
ghost use Rattle.lexer.specs.Stored.{code_at, tokens_from};
ghost use Rattle.reader.specs.Aheads.{HasCode, la_of};
ghost use Rattle.reader.specs.Reading.{joins};

use crate::ahead::Ahead;
use crate::error::{Expected, Stop};
use crate::stage::Stage;
use lexer::{Keyword, Sign, Span, Token, Tokens};

mod commands;
mod lists;
mod words;

/// The end of a chain.
const NIL: u32 = 0;

/// What is read: the tokens of a text, with lists less than `left` deep.
#[derive(Clone, Copy)]
pub struct Parser<'t> {
    pub tokens: Tokens<'t>,
    pub left: u32,
}

/// Where reading and writing stand: the next token, the words for the code with the first that is free, and the highest
/// stage so far.
/// No ghost field stands beside a `&mut`, so each call that takes it says which words stay. `room` and `link` are facts of the
/// call: how many words a form takes, and where the link to it stands.
#[derive(Drop)]
pub struct Cursor<'c> {
    /// The cells are written word by word: the tree of a text is code in lent words.
    pub code: &'c mut [u32],
    pub at: usize,
    pub free: usize,
    pub stage: Stage,
}

impl Cursor<'_> {
    /// Reading stops here.
    pub fn stop(&self, expected: Expected) -> Stop {
        Stop {
            token: self.at,
            expected,
        }
    }
}

impl Parser<'_> {
    ghost use Rattle.reader.specs.Parsing.{ahead};

    fn peek(&self, cursor: &Cursor<'_>) -> Option<Token>
        ensures { next_code result ≡ code_at (ahead self.now cursor.now) }
    {
        self.tokens.get(cursor.at)
    }

    /// Whether the token `at` is joined to the one before it.
    fn is_joined(&self, at: usize) -> bool
        ensures { result ≡ joins (code_at (tokens_from self.now.tokens.text.now at)) }
    {
        self.tokens.is_joined(at)
    }

    fn look(&self, cursor: &Cursor<'_>) -> Ahead
        requires { cursor.now.at ≤ self.now.tokens.count }
        ensures means { la_of result ≡ lookahead (ahead self.now cursor.now) }
        ensures code { HasCode result (code_at (ahead self.now cursor.now)) }
    {
        // Known by its code alone: ends of lines may stand in long rows.
        if self.next_is(cursor, Token::Sign(Sign::Newline)) {
            return Ahead::Sign(Sign::Newline);
        }
        Ahead::new(self.peek(cursor), self.is_joined(cursor.at + 1))
    }

    fn bytes(&self, span: Span) -> &[u8]
        requires { span.start + span.len ≤ length self.now.tokens.text.now }
        ensures { result.now ≡ take span.len (drop span.start self.now.tokens.text.now) }
    {
        &self.tokens.text[span.start..][..span.len]
    }

    fn token_is(&self, at: usize, wanted: Token) -> bool
        ensures { IsTrue result ↔ (code_at (tokens_from self.now.tokens.text.now at) ≡ code_of wanted) }
    {
        self.tokens.is(at, wanted)
    }

    fn next_is(&self, cursor: &Cursor<'_>, wanted: Token) -> bool
        ensures { IsTrue result ↔ (code_at (ahead self.now cursor.now) ≡ code_of wanted) }
    {
        self.token_is(cursor.at, wanted)
    }

    // Two calls, since the contracts of their callers speak of `keyword_code` and of `sign_code_of`. They only look: a call that takes
    // the cursor to write has to say which words stay.
    /// The next token is that keyword, or reading stops.
    fn keyword(&self, cursor: &Cursor<'_>, wanted: Keyword, expected: Expected) -> Result<(), Stop>
        ensures found { OnOk result ((cursor.now.at < self.now.tokens.count) × (code_at (ahead self.now cursor.now) ≡ keyword_code wanted)) }
        ensures another { OnErr result (code_at (ahead self.now cursor.now) ≢ keyword_code wanted) }
    {
        if self.next_is(cursor, Token::Keyword(wanted)) {
            Ok(())
        } else {
            Err(cursor.stop(expected))
        }
    }

    /// The next token is that sign, or reading stops.
    fn sign(&self, cursor: &Cursor<'_>, wanted: Sign, expected: Expected) -> Result<(), Stop>
        ensures found { OnOk result ((cursor.now.at < self.now.tokens.count) × (code_at (ahead self.now cursor.now) ≡ sign_code_of wanted)) }
        ensures another { OnErr result (code_at (ahead self.now cursor.now) ≢ sign_code_of wanted) }
    {
        if self.next_is(cursor, Token::Sign(wanted)) {
            Ok(())
        } else {
            Err(cursor.stop(expected))
        }
    }
}
