//! What a process does next, and what it does after that.

use crate::system::{HandleId, PipeEnd, Streams, System};
use crate::text::SUCCESS;
use crate::words::{Values, WordBuilder};
use dice_tree::tree::{
    Arm, Assignment, Command, Compound, Item, Joined, Joins, Pipeline, Redirect, RedirectKind,
    Unexpanded, Word,
};
use std::alloc::Global;
use std::collections::VecDeque;
use std::ops::RangeInclusive;

/// The number of a process, in the order in which they began.
#[derive(Clone, Copy, PartialEq, Eq, PartialOrd, Ord)]
pub struct Pid(pub usize);

/// A builtin command at work, byte by byte.
#[derive(Drop)]
pub enum Builtin {
    /// It is done, with this status.
    Done(u32),
    /// The names of files still to be copied; the handle that is read now.
    Cat {
        names: VecDeque<Vec<u8>>,
        handle: Option<HandleId>,
    },
    /// So many lines still.
    Head(u32),
    /// Ends of lines and bytes so far.
    Wc {
        lines: u64,
        bytes: u64,
    },
    /// What is looked for, the line so far, whether it was found before.
    Grep {
        pattern: Vec<u8>,
        line: Vec<u8>,
        found: bool,
    },
    /// The numbers still to be printed.
    Seq(RangeInclusive<u32>),
    Yes(Vec<u8>),
    /// Into this variable; the line so far.
    Read {
        name: Vec<u8>,
        line: Vec<u8>,
    },
}

/// Bytes still to be printed, and the builtin that then goes on.
#[derive(Drop)]
pub struct Printing {
    pub bytes: VecDeque<u8>,
    pub then: Builtin,
}

/// A simple command: its assignments that are still to be made, and what comes behind them.
#[derive(Clone, Copy)]
pub struct Simple<'t> {
    pub assignments: &'t [Assignment],
    pub words: &'t [Word],
    pub redirects: &'t [Redirect],
}

/// The lists of then and else of an if.
#[derive(Clone, Copy)]
pub struct Branches<'t> {
    pub then: &'t [Item],
    pub otherwise: Option<&'t [Item]>,
}

/// The two lists of a while.
#[derive(Clone, Copy)]
pub struct While<'t> {
    pub condition: &'t [Item],
    pub body: &'t [Item],
}

/// The variable and the list of a for.
#[derive(Clone, Copy)]
pub struct For<'t> {
    pub name: &'t [u8],
    pub body: &'t [Item],
}

/// What follows when all redirections are made: these words are invoked, or this command is done.
#[derive(Drop)]
pub enum AfterRedirects<'t> {
    Invoke(VecDeque<Vec<u8>>),
    Compound(&'t Compound),
}

/// What words are expanded for.
#[derive(Drop)]
pub enum Purpose<'t> {
    /// An assignment to this variable, and what then comes.
    Assign {
        name: &'t [u8],
        rest: Simple<'t>,
    },
    Invoke {
        redirects: &'t [Redirect],
    },
    Redirect {
        kind: RedirectKind,
        rest: &'t [Redirect],
        then: AfterRedirects<'t>,
    },
    For(For<'t>),
    Select {
        arms: &'t [Arm],
    },
    Match {
        subject: Vec<u8>,
        list: &'t [Item],
        rest: &'t [Arm],
    },
}

/// Words being expanded: what is to come of them, what there is of them so far, and what all this is for.
#[derive(Drop)]
pub struct Expansion<'t> {
    pub to_come: Unexpanded<'t>,
    pub built: WordBuilder,
    pub purpose: Purpose<'t>,
}

impl<'t> Expansion<'t> {
    /// Words of which nothing is expanded yet.
    pub fn of_words(heap: Global, words: &'t [Word], purpose: Purpose<'t>) -> Expansion<'t> {
        let all = Unexpanded { parts: &[], words };
        Expansion {
            to_come: all.next_word().unwrap_or(all),
            built: WordBuilder::new(heap, Values::Split),
            purpose,
        }
    }

    /// One word, whose values are not split.
    pub fn of_word(heap: Global, word: &'t Word, purpose: Purpose<'t>) -> Expansion<'t> {
        Expansion {
            to_come: Unexpanded {
                parts: &word.parts,
                words: &[],
            },
            built: WordBuilder::new(heap, Values::Whole),
            purpose,
        }
    }
}

/// What a process prints is read from a handle until it ends; whether that stands in quotes; the words that it is for.
#[derive(Drop)]
pub struct Capture<'t> {
    pub handle: HandleId,
    pub bytes: Vec<u8>,
    pub quoted: bool,
    pub expansion: Expansion<'t>,
}

/// What leads out of lists, loops and functions, and the status that return and exit give.
#[derive(Clone, Copy)]
pub enum Unwind {
    Break,
    Continue,
    Return(u32),
    Exit(u32),
}

impl Unwind {
    pub fn status(self) -> u32 {
        match self {
            Unwind::Break | Unwind::Continue => SUCCESS,
            Unwind::Return(status) | Unwind::Exit(status) => status,
        }
    }
}

/// What a process does next.
#[derive(Drop)]
pub enum Control<'t> {
    List(&'t [Item]),
    AndOr(Joins<'t>),
    Pipeline(&'t Pipeline),
    Command(&'t Command),
    /// A command whose redirections are made.
    Compound(&'t Compound),
    Words(Expansion<'t>),
    Redirects {
        redirects: &'t [Redirect],
        then: AfterRedirects<'t>,
    },
    Builtin(Builtin),
    Print(Printing),
    /// A command is done, with this status.
    Status(u32),
    Unwind(Unwind),
    /// It waits until these processes have exited, and has the last one's status.
    Wait(Vec<Pid>),
    Capture(Capture<'t>),
}

impl Control<'_> {
    /// A cat or a $( ) reads this end of a pipe.
    pub fn keeps(&self, system: &System, end: PipeEnd) -> bool {
        match self {
            Control::Builtin(builtin) => builtin.keeps(system, end),
            Control::Print(printing) => printing.then.keeps(system, end),
            Control::Capture(capture) => system.is_end(capture.handle, end),
            _ => false,
        }
    }
}

impl Builtin {
    fn keeps(&self, system: &System, end: PipeEnd) -> bool {
        match self {
            Builtin::Cat {
                handle: Some(handle),
                ..
            } => system.is_end(*handle, end),
            _ => false,
        }
    }
}

/// What it does after that.
#[derive(Drop)]
pub enum Frame<'t> {
    /// The rest of a list.
    List(&'t [Item]),
    /// The pipeline behind && or ||.
    AndOr(&'t Joined),
    Not,
    If(Branches<'t>),
    /// A while whose condition is at work, and one whose body is.
    Condition(While<'t>),
    Body(While<'t>),
    /// The words still to come of a for.
    For {
        of: For<'t>,
        words: VecDeque<Vec<u8>>,
    },
    /// What is open again after this.
    Streams(Streams),
    /// The arguments that hold again after a function.
    Arguments(VecDeque<Vec<u8>>),
}

impl Frame<'_> {
    /// This end of a pipe will be open again.
    pub fn keeps(&self, system: &System, end: PipeEnd) -> bool {
        match self {
            Frame::Streams(streams) => streams.have(system, end),
            _ => false,
        }
    }
}

/// What a step leads to: the process goes on with this; it has to wait, and is as it was; it has exited with this
/// status.
#[derive(Drop)]
pub enum Step<'t> {
    GoesTo(Control<'t>),
    Waits(Control<'t>),
    Exits(u32),
}

impl<'t> Step<'t> {
    /// The command is done, with this status.
    pub fn completes(status: u32) -> Step<'t> {
        Step::GoesTo(Control::Status(status))
    }

    /// Words are expanded.
    pub fn expands(heap: Global, words: &'t [Word], purpose: Purpose<'t>) -> Step<'t> {
        Step::GoesTo(Control::Words(Expansion::of_words(heap, words, purpose)))
    }

    /// One word is expanded, and its values are not split.
    pub fn expands_one(heap: Global, word: &'t Word, purpose: Purpose<'t>) -> Step<'t> {
        Step::GoesTo(Control::Words(Expansion::of_word(heap, word, purpose)))
    }

    pub fn works(builtin: Builtin) -> Step<'t> {
        Step::GoesTo(Control::Builtin(builtin))
    }

    pub fn unwinds(unwind: Unwind) -> Step<'t> {
        Step::GoesTo(Control::Unwind(unwind))
    }

    pub fn prints(bytes: Vec<u8>, then: Builtin) -> Step<'t> {
        let bytes = VecDeque::from_vec(bytes);
        Step::GoesTo(Control::Print(Printing { bytes, then }))
    }
}
