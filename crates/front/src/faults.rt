//! Where reading a text stopped, and what was expected there.
ghost use Rattle.std.specs.Prelude.{◌≡◌, IfOk, MatchResult};
ghost use Rattle.reader.specs.Answer.{IsProgram, NoProgram};

use crate::place::place_at;
use code::Code;
use lexer::MAX_TEXT;
use reader::{
    CODE_EXTRA, CODE_PER_BYTE, Expected, Program, SyntaxError, TOKENS_EXTRA, TOKENS_PER_BYTE, read,
};
use std::alloc::{AllocError, Global};
use std::fmt;

/// Why a text of this name is no list of commands.
#[derive(Clone, Copy, Debug)]
pub struct Fault<'a> {
    pub name: &'a str,
    pub text: &'a [u8],
    pub error: SyntaxError,
}

impl fmt::Display for Fault<'_> {
    fn fmt<W: fmt::Write>(&self, f: &mut fmt::Formatter<W>) -> fmt::Result {
        let Fault { name, text, error } = *self;
        let place = place_at(text, error.at.min(MAX_TEXT));
        write!(f, "{name}:{place}: {error}")
    }
}

/// The code of a text that was read.
#[derive(Drop)]
pub struct Reading {
    pub words: Vec<u32>,
    pub program: Program,
}

impl Reading {
    /// The code beside its text.
    pub fn code<'a>(&'a self, text: &'a [u8]) -> Code<'a>
        ensures text { result.text.now ≡ text.now }
        ensures words { result.words.now ≡ self.now.words.items }
    {
        Code {
            text,
            words: &self.words,
        }
    }
}

/// Reads a text into words of its own.
pub fn read_text(heap: Global, text: &[u8]) -> Result<Result<Reading, SyntaxError>, AllocError>
    ensures { IfOk result (λ read. MatchResult read (λ r. IsProgram text.now r.words.items r.program.root r.program.words r.program.stage) (λ e. NoProgram text.now e.at)) }
{
    // The answer of `read`, for which no words are asked here.
    if text.len() > MAX_TEXT {
        return Ok(Err(SyntaxError {
            at: MAX_TEXT,
            expected: Expected::ShorterText,
        }));
    }
    let mut words = vec![in heap; 0u32; CODE_PER_BYTE * text.len() + CODE_EXTRA]?;
    let mut tokens = vec![in heap; 0u32; TOKENS_PER_BYTE * text.len() + TOKENS_EXTRA]?;
    match read(text, &mut words, &mut tokens) {
        Ok(program) => Ok(Ok(Reading { words, program })),
        Err(error) => Ok(Err(error)),
    }
}
