//! The tokens of a text, read from the words that they are kept in.
ghost use Rattle.std.specs.Prelude.{◌≡◌, ◌↔◌, IsTrue, ℕ, ◌+◌, ◌*◌, ◌<◌, ◌≤◌, false, [], length, slice_index_or};
ghost use Rattle.grammar.specs.Tokens.{token};
ghost use Rattle.lexer.specs.Codes.{code_of, joins, next_code};
ghost use Rattle.lexer.specs.Stored.{Has, Spelled, code_at, tokens_from, tokens_of};

use crate::codes::{END, is_joined};
use crate::token::Token;
use crate::write::write_tokens;

/// The tokens of a text, each kept in three lent words from the word 3 on: the token's code, where it starts in the text,
/// and its length or, at a bracket, what was needed to write them.
#[derive(Clone, Copy, Debug)]
pub struct Tokens<'a> {
    pub text: &'a [u8],
    words: &'a [u32],
    count: usize,
    pub ghost small: { length text.now ≤ 16384 },
    pub ghost few: { count ≤ 16385 },
    pub ghost room: { 3 * count + 3 ≤ length words.now },
    pub ghost has: { Has text.now count words.now },
}

/// Where the bytes of a token stand in its text.
#[derive(Clone, Copy, Debug, PartialEq, Eq)]
pub struct Span {
    pub start: usize,
    pub len: usize,
}

/// The tokens of a text, written to the lent words.
pub fn tokenize<'a>(text: &'a [u8], words: &'a mut [u32]) -> Tokens<'a>
    requires { (length text.now ≤ 16384) × (3 * length text.now + 6 ≤ length words.old) }
    ensures { result.text.now ≡ text.now }
{
    let count = write_tokens(text, words);
    Tokens { text, words, count }
}

// Three lent words for a token.
impl Tokens<'_> {
    /// How many tokens the text has.
    pub fn len(&self) -> usize
        ensures count { result ≡ length (tokens_of self.now.text.now) }
        ensures few { result ≤ length self.now.text.now + 1 }
    {
        self.count
    }

    /// The code of the token at a place, and `END` behind the last.
    #[inline]
    fn code(&self, at: usize) -> u32
        ensures { result ≡ code_at (tokens_from self.now.text.now at) }
    {
        if at >= self.count {
            return END;
        }
        self.words[3 * at + 3]
    }

    /// The token at a place; none behind the last.
    #[inline]
    pub fn get(&self, at: usize) -> Option<Token>
        ensures { next_code result ≡ code_at (tokens_from self.now.text.now at) }
    {
        Token::try_from(self.code(at)).ok()
    }

    /// Whether the token at a place is this one.
    #[inline]
    pub fn is(&self, at: usize, wanted: Token) -> bool
        ensures { IsTrue result ↔ (code_at (tokens_from self.now.text.now at) ≡ code_of wanted) }
    {
        self.code(at) == u32::from(wanted)
    }

    /// Whether the token at a place is joined to the one before it.
    #[inline]
    pub fn is_joined(&self, at: usize) -> bool
        ensures { result ≡ joins (code_at (tokens_from self.now.text.now at)) }
    {
        is_joined(self.code(at))
    }

    /// Where the bytes of the token at a place stand. A sign's and a bracket's are not kept: it has the place alone.
    pub fn span(&self, at: usize) -> Span
        requires { at < length (tokens_of self.now.text.now) }
        ensures within { result.start + result.len ≤ length self.now.text.now }
        ensures spelled { Spelled self.now.text.now result.start result.len (slice_index_or (tokens_of self.now.text.now) at (token false 0 [])) }
    {
        let start = self.words[3 * at + 4] as usize;
        let len = match self.get(at) {
            Some(token) if token.has_bytes() => self.words[3 * at + 5] as usize,
            _ => 0,
        };
        Span { start, len }
    }

    /// Where the token at a place starts in the text; behind the last token, where the text ends.
    pub fn place(&self, at: usize) -> usize
        ensures within { result ≤ length self.now.text.now }
        ensures end { length (tokens_of self.now.text.now) ≤ at → result ≡ length self.now.text.now }
    {
        if at < self.count {
            self.words[3 * at + 4] as usize
        } else {
            self.text.len()
        }
    }
}
