//! From a text to code: a recursive-descent parser over the tokens of the text, which writes the tree as words.
#![tactic(auto)]

ghost use Rattle.std.specs.Prelude.{◌≡◌, ℕ, ◌+◌, ◌*◌, ◌<◌, ◌≤◌, length, MatchResult};
ghost use Rattle.reader.specs.Answer.{IsProgram, NoProgram};

pub use crate::error::{Expected, SyntaxError};
use crate::parser::{Cursor, Parser};
use code::LEVELS;
use lexer::{MAX_TEXT, tokenize};

mod ahead;
mod error;
mod parser;
mod stage;

// Callers write the sums: their contracts speak of these numbers.
/// Words of code for each byte of a text, and besides.
pub const CODE_PER_BYTE: usize = 16;

pub const CODE_EXTRA: usize = 160;
/// Words for the tokens, for each byte of a text, and besides.
pub const TOKENS_PER_BYTE: usize = 3;

pub const TOKENS_EXTRA: usize = 6;

/// The word that links to the first cell, and the first free word.
const ROOT: usize = 1;

const FIRST: usize = 2;

/// A text as code: the address of its first cell, how many words the code takes, and its stage.
/// The stage leaves as its number: the promise of the call speaks of numbers.
#[derive(Clone, Copy, Debug, PartialEq, Eq)]
pub struct Program {
    pub root: u32,
    pub words: usize,
    pub stage: u32,
}

/// Reads a text: writes its code, with the tokens as words beside it.
pub fn read(text: &[u8], code: &mut [u32], tokens: &mut [u32]) -> Result<Program, SyntaxError>
    requires { (16 * length text.now + 160 ≤ length code.old) × ((length code.old < 4294967296) × (3 * length text.now + 6 ≤ length tokens.old)) }
    ensures { MatchResult result (λ p. IsProgram text.now code.new p.root p.words p.stage) (λ e. NoProgram text.now e.at) }
{
    if text.len() > MAX_TEXT {
        return Err(SyntaxError {
            at: MAX_TEXT,
            expected: Expected::ShorterText,
        });
    }
    let tokens = tokenize(text, tokens);
    let parser = Parser {
        tokens,
        left: LEVELS,
    };
    let mut cursor = Cursor {
        code,
        at: 0,
        free: FIRST,
        stage: stage::Stage::Core,
    };
    if let Err(stop) = parser.list(&mut cursor, ROOT, true) {
        return Err(stop.in_text(&tokens));
    }
    if cursor.at < tokens.len() {
        return Err(cursor.stop(Expected::End).in_text(&tokens));
    }
    Ok(Program {
        root: cursor.code[ROOT],
        words: cursor.free,
        stage: cursor.stage.number(),
    })
}
