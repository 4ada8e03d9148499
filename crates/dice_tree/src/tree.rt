//! Command trees, which own what is in them, and what is lent of them to who walks them: slices.

ghost use Rattle.dice_tree.specs.declared.tree.AndOr.{out-AndOr};
ghost use Rattle.std.specs.List.{IsFirstAndRest, IsLastAndRest};
ghost use Rattle.std.specs.Prelude.{◌≡◌, ◌≤◌, drop, length, MatchOption};

use crate::signs::{Keyword, Quote, Sign};
use std::alloc::{AllocError, AllocFailed};
use std::fmt;

/// A part of a word: bytes; what a parameter stands for; what a list of commands prints, $( ).
#[cycle(tree)]
#[derive(Clone, Drop)]
pub enum WordPart {
    Literal { quoted: bool, bytes: Vec<u8> },
    Parameter { quoted: bool, name: Vec<u8> },
    Substitution { quoted: bool, list: CommandList },
}

/// Parts without a blank between them.
#[cycle(tree)]
#[derive(Clone, Drop)]
pub struct Word {
    pub parts: Vec<WordPart>,
}

/// name=word
#[cycle(tree)]
#[derive(Clone, Drop)]
pub struct Assignment {
    pub name: Vec<u8>,
    pub word: Word,
}

/// < reads a file, > writes a file that is empty first, >> writes behind what is there, << reads the word itself.
#[derive(Clone, Copy, PartialEq, Eq, Debug)]
pub enum RedirectKind {
    Input,
    Output,
    Append,
    Here,
}

#[cycle(tree)]
#[derive(Clone, Drop)]
pub struct Redirect {
    pub kind: RedirectKind,
    pub word: Word,
}

#[cycle(tree)]
#[derive(Clone, Drop)]
pub enum Command {
    Simple {
        assignments: Vec<Assignment>,
        words: Vec<Word>,
        redirects: Vec<Redirect>,
    },
    Compound {
        compound: Compound,
        redirects: Vec<Redirect>,
    },
    Function {
        name: Vec<u8>,
        body: CommandList,
    },
}

/// A command that is made of lists.
#[cycle(tree)]
#[derive(Clone, Drop)]
pub enum Compound {
    Group(CommandList),
    Subshell(CommandList),
    If {
        condition: CommandList,
        then: CommandList,
        otherwise: Option<CommandList>,
    },
    While {
        condition: CommandList,
        body: CommandList,
    },
    For {
        name: Vec<u8>,
        words: Vec<Word>,
        body: CommandList,
    },
    Case {
        word: Word,
        arms: Vec<Arm>,
    },
}

/// when pattern ; list ;;
#[cycle(tree)]
#[derive(Clone, Drop)]
pub struct Arm {
    pub pattern: Word,
    pub list: CommandList,
}

/// Commands with | between them, with or without ! before the first.
#[cycle(tree)]
#[derive(Clone, Drop)]
pub struct Pipeline {
    pub negated: bool,
    pub commands: Vec<Command>,
}

/// && or ||
#[derive(Clone, Copy, PartialEq, Eq, Debug)]
pub enum Joiner {
    And,
    Or,
}

/// A pipeline, and what joins it to those on its left.
#[cycle(tree)]
#[derive(Clone, Drop)]
pub struct Joined {
    pub joiner: Joiner,
    pub pipeline: Pipeline,
}

/// Pipelines joined by && and ||, from the left.
#[cycle(tree)]
#[derive(Clone, Drop)]
pub struct AndOr {
    pub first: Pipeline,
    pub rest: Vec<Joined>,
}

/// One of the commands of a list; `background` says whether & stands behind it.
#[cycle(tree)]
#[derive(Clone, Drop)]
pub struct Item {
    pub and_or: AndOr,
    pub background: bool,
}

pub type CommandList = Vec<Item>;

/// Pipelines joined by && and ||: the first, and some of those behind it.
#[derive(Clone, Copy)]
pub struct Joins<'t> {
    pub first: &'t Pipeline,
    pub rest: &'t [Joined],
}

impl AndOr {
    /// All its pipelines.
    pub fn joins(&self) -> Joins<'_>
        ensures { (result.first.now ≡ (out-AndOr self.now).first) × (result.rest.now ≡ (out-AndOr self.now).rest.items) }
    {
        Joins {
            first: &self.first,
            rest: &self.rest,
        }
    }
}

impl<'t> Joins<'t> {
    /// The last pipeline, and what stands on its left.
    pub fn split_last(self) -> Option<(&'t Joined, Joins<'t>)>
        ensures { MatchOption result (length self.entry.rest.now ≡ 0)
            (λ p. IsLastAndRest self.entry.rest.now p.0.now p.1.rest.now × (p.1.first.now ≡ self.entry.first.now)) }
    {
        let (last, rest) = self.rest.split_last()?;
        Some((last, Joins { rest, ..self }))
    }
}

/// Words that are still to be expanded: what is to come of the word at work, and the words behind it.
#[derive(Clone, Copy)]
pub struct Unexpanded<'t> {
    pub parts: &'t [WordPart],
    pub words: &'t [Word],
}

impl<'t> Unexpanded<'t> {
    /// The next part of the word at work, and what comes behind it.
    pub fn split_first(self) -> Option<(&'t WordPart, Unexpanded<'t>)>
        ensures { MatchOption result (length self.entry.parts.now ≡ 0)
            (λ p. IsFirstAndRest self.entry.parts.now p.0.now p.1.parts.now × (p.1.words.now ≡ self.entry.words.now)) }
    {
        let (first, parts) = self.parts.split_first()?;
        Some((first, Unexpanded { parts, ..self }))
    }

    /// The next word is at work.
    pub fn next_word(self) -> Option<Unexpanded<'t>>
        ensures { MatchOption result (length self.entry.words.now ≡ 0) (λ u. u.words.now ≡ drop 1 self.entry.words.now) }
    {
        let (first, words) = self.words.split_first()?;
        Some(Unexpanded {
            parts: &first.parts,
            words,
        })
    }
}

/// What was expected where reading stopped.
#[derive(Clone, Copy, PartialEq, Eq, Debug)]
pub enum Expected {
    Command,
    Word,
    Name,
    Keyword(Keyword),
    Sign(Sign),
    ClosingQuote(Quote),
    Separator,
    Terminator,
    ElseOrFi,
    LessDepth,
    EndOfText,
}

impl fmt::Display for Expected {
    fn fmt<W: fmt::Write>(&self, f: &mut fmt::Formatter<W>) -> fmt::Result {
        match *self {
            Expected::Command => f.write_str("a command"),
            Expected::Word => f.write_str("a word"),
            Expected::Name => f.write_str("a name"),
            Expected::Keyword(word) => write!(f, "'{word}'"),
            Expected::Sign(sign) => write!(f, "'{sign}'"),
            Expected::ClosingQuote(quote) => write!(f, "a closing {quote}"),
            Expected::Separator => f.write_str("';' or the end of the line"),
            Expected::Terminator => f.write_str("';', '&' or the end of the line"),
            Expected::ElseOrFi => f.write_str("'elif', 'else' or 'fi'"),
            Expected::LessDepth => f.write_str("lists at most 32 deep"),
            Expected::EndOfText => f.write_str("the end of the text"),
        }
    }
}

/// A text that is no list of commands: the byte at which reading stopped, and what was expected there.
#[derive(Clone, Copy, PartialEq, Eq, Debug)]
pub struct NoText {
    pub place: usize,
    pub expected: Expected,
}

/// A place as a line and a byte in it, each counted from 1.
pub fn line_and_column(text: &[u8], place: usize) -> (usize, usize)
    ensures { (1 ≤ result.0) × (1 ≤ result.1) }
{
    let before = text.get(..place).unwrap_or(text);
    let line = before.iter().filter(|c| **c == b'\n').count() + 1;
    let column = before.iter().rev().take_while(|c| **c != b'\n').count() + 1;
    (line, column)
}

#[derive(Debug, Drop)]
pub enum Fault {
    NoText(NoText),
    Memory,
}

impl From<AllocError> for Fault {
    fn from(_e: AllocError) -> Fault {
        Fault::Memory
    }
}

impl<T: Drop> From<AllocFailed<T>> for Fault {
    fn from(_e: AllocFailed<T>) -> Fault {
        Fault::Memory
    }
}
