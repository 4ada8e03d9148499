//! The words behind a program's name.
ghost use Rattle.std.specs.Prelude.{◌≡◌, ◌≤◌, length, take, IfOk, OnOk, string_bytes};
ghost use Rattle.front.specs.Sources.{source_name, TextIs};

use crate::files::fill;
use lexer::MAX_TEXT;
use std::error::Error;
use std::str::FromStr;
use std::{env, fmt, fs, io};

/// A buffer for the longest text that is read, and a byte more.
pub const TEXT_BYTES: usize = MAX_TEXT + 1;

/// Where the text comes from: a file by its name, or the command line itself.
#[derive(Debug, Drop)]
pub enum Source {
    File(String),
    Text(String),
}

impl Source {
    /// The name of the text in messages.
    pub fn name(&self) -> &str
        ensures { result.now ≡ source_name self.now }
    {
        match self {
            Source::File(name) => name.as_str(),
            Source::Text(_) => "-c",
        }
    }

    /// The text, as far as it fits into the buffer.
    pub fn read<'a>(&'a self, rt: &HostRuntime, buffer: &'a mut [u8]) -> io::Result<&'a [u8]>
        ensures { IfOk result (λ text. (length text.now ≤ length buffer.old) × TextIs self.now (length buffer.old) text.now) }
    {
        match self {
            Source::File(name) => fill(&mut fs::open(rt, name.as_str())?, buffer),
            Source::Text(text) => Ok(&text.as_bytes()[..text.len().min(buffer.len())]),
        }
    }
}

/// What is wrong with a command line.
#[derive(Clone, Copy, Debug, PartialEq, Eq)]
pub enum Mistake {
    NoSuchOption,
    NoMoves,
    NoWords,
    NoTextBehind,
    TwoTexts,
    NoText,
}

impl fmt::Display for Mistake {
    fn fmt<W: fmt::Write>(&self, f: &mut fmt::Formatter<W>) -> fmt::Result {
        f.write_str(match self {
            Mistake::NoSuchOption => "no such option",
            Mistake::NoMoves => "--moves takes a number",
            Mistake::NoWords => "--words takes a number",
            Mistake::NoTextBehind => "-c takes a text",
            Mistake::TwoTexts => "more than one text",
            Mistake::NoText => "no text",
        })
    }
}

impl Error for Mistake {}

/// Why a program does not run a text.
#[derive(Clone, Copy, Debug, PartialEq, Eq)]
pub enum Usage {
    Help,
    Wrong(Mistake),
}

impl From<Mistake> for Usage {
    fn from(mistake: Mistake) -> Usage {
        Usage::Wrong(mistake)
    }
}

/// What the words of a command line say.
#[derive(Debug, Drop)]
pub struct Options {
    pub input: bool,
    pub moves: Option<u64>,
    pub words: Option<usize>,
    pub source: Source,
}

impl Options {
    /// Reads the words behind a program's name.
    pub(crate) fn parse(mut words: env::Args) -> Result<Options, Usage> {
        let mut input = true;
        let mut moves = None;
        let mut limit = None;
        let mut source = None;
        // No `for`: an option takes the word behind it.
        while let Some(word) = words.next() {
            match word.as_str() {
                "-n" => input = false,
                "--moves" => moves = Some(number(words.next()).ok_or(Mistake::NoMoves)?),
                "--words" => limit = Some(number(words.next()).ok_or(Mistake::NoWords)?),
                "-c" => {
                    let text = words.next().ok_or(Mistake::NoTextBehind)?;
                    put(&mut source, Source::Text(text))?;
                }
                "-h" | "--help" => return Err(Usage::Help),
                w if w.starts_with("-") => return Err(Mistake::NoSuchOption.into()),
                _ => put(&mut source, Source::File(word))?,
            }
        }
        Ok(Options {
            input,
            moves,
            words: limit,
            source: source.ok_or(Mistake::NoText)?,
        })
    }
}

/// Takes a text, if it is the first.
fn put(source: &mut Option<Source>, more: Source) -> Result<(), Mistake> {
    if source.is_some() {
        return Err(Mistake::TwoTexts);
    }
    *source = Some(more);
    Ok(())
}

/// The number that a word is.
fn number<N: FromStr<Err: Drop>>(word: Option<String>) -> Option<N> {
    word?.as_str().parse().ok()
}
