//! Cells, read at once. An address of a list, of words, assignments, redirections or arms is that of the first cell of a chain,
//! 0 where it is empty. It is no Option: an address is a word of the code as it stands, and chains take 0 as well.
use crate::tags::RedirectTag;

/// A command, the cell of a pipeline behind the link to the next.
#[derive(Clone, Copy, Debug, PartialEq, Eq)]
pub enum Command<'a> {
    Simple {
        assignments: u32,
        words: u32,
        redirects: u32,
    },
    Group {
        list: u32,
        redirects: u32,
    },
    Subshell {
        list: u32,
        redirects: u32,
    },
    If {
        condition: u32,
        then: u32,
        otherwise: u32,
        redirects: u32,
    },
    While {
        condition: u32,
        body: u32,
        redirects: u32,
    },
    For {
        name: &'a [u8],
        words: u32,
        body: u32,
        redirects: u32,
    },
    Case {
        word: u32,
        arms: u32,
        redirects: u32,
    },
    Function {
        name: &'a [u8],
        body: u32,
    },
}

/// A part of a word, behind the link to the next.
#[derive(Clone, Copy, Debug, PartialEq, Eq)]
pub enum Part<'a> {
    Literal { quoted: bool, bytes: &'a [u8] },
    Parameter { quoted: bool, name: &'a [u8] },
    Substitution { quoted: bool, list: u32 },
}

/// A command of a list: the next, whether it is done in the background, the last of its chain of && and ||.
#[derive(Clone, Copy, Debug, PartialEq, Eq)]
pub struct Item {
    pub next: u32,
    pub background: bool,
    pub and_or: u32,
}

/// A pipeline of a chain of && and ||: the one before, whether && stands between them, whether ! stands before it, its first
/// command.
#[derive(Clone, Copy, Debug, PartialEq, Eq)]
pub struct AndOr {
    pub before: u32,
    pub and: bool,
    pub not: bool,
    pub pipeline: u32,
}

/// An assignment, behind the link to the next: the name, and the parts of the value.
#[derive(Clone, Copy, Debug, PartialEq, Eq)]
pub struct Assignment<'a> {
    pub name: &'a [u8],
    pub value: u32,
}

/// A redirection, behind the link to the next: what it does, and the parts of its word.
#[derive(Clone, Copy, Debug, PartialEq, Eq)]
pub struct Redirect {
    pub tag: RedirectTag,
    pub word: u32,
}

/// An arm of a case, behind the link to the next: the parts of the pattern, and its list.
#[derive(Clone, Copy, Debug, PartialEq, Eq)]
pub struct Arm {
    pub pattern: u32,
    pub list: u32,
}
