//! What stands in the words of a text's code: tags, cells, and chains of cells.
#![tactic(auto)]

ghost use Rattle.std.specs.Prelude.{◌≡◌, ◌+◌, ◌-◌, ◌^◌, ◌<◌, length, take, drop, slice_index, MatchOption};
ghost use Rattle.code.specs.Cells.{CommandIs, PartIs, AssignmentIs, RedirectIs, item_at, and_or_at, arm_at, bytes_at};
ghost use Rattle.code.specs.Chains.{chain_of, ends, ends_at, links_of};

pub use crate::cells::{AndOr, Arm, Assignment, Command, Item, Part, Redirect};
pub use crate::chain::Chain;
pub use crate::tags::{CommandTag, PartKind, PartTag, RedirectTag, UnknownTag};

mod cells;
mod chain;
mod tags;

/// Lists stand less deep in one another than this.
pub const LEVELS: u32 = 33;

/// A text beside the words of its code.
#[derive(Clone, Copy)]
pub struct Code<'a> {
    pub text: &'a [u8],
    pub words: &'a [u32],
}

impl<'a> Code<'a> {
    /// The word at a place; past the end it is 0.
    #[inline]
    pub fn word(self, at: usize) -> u32
        ensures { result ≡ slice_index self.entry.words.now at }
    {
        self.words.get(at).copied().unwrap_or(0)
    }

    /// So many bytes of the text from a place on, as far as there are any.
    #[inline]
    pub fn bytes(self, start: u32, len: u32) -> &'a [u8]
        ensures { result.now ≡ take len (drop start self.entry.text.now) }
    {
        let start = (start as usize).min(self.text.len());
        let end = (start + len as usize).min(self.text.len());
        &self.text[start..end]
    }

    /// The bytes whose start stands in a word, and their number in the next.
    #[inline]
    pub fn bytes_at(self, at: usize) -> &'a [u8]
        requires { at < 2 ^ 64 - 1 }
        ensures { result.now ≡ bytes_at self.entry.text.now self.entry.words.now at }
    {
        self.bytes(self.word(at), self.word(at + 1))
    }

    /// The cells of the chain whose first is at `first`; 0 begins an empty one.
    #[inline]
    pub fn chain(self, first: u32) -> Chain<'a>
        ensures cells { links_of result ≡ chain_of self.entry.words.now first }
        ensures end { ends result ≡ ends_at self.entry.words.now first }
    {
        Chain::new(self.words, first)
    }

    /// A command of a list.
    #[inline]
    pub fn item(self, at: u32) -> Item
        ensures { result ≡ item_at self.entry.words.now at }
    {
        let at = at as usize;
        Item {
            next: self.word(at),
            background: self.word(at + 1) != 0,
            and_or: self.word(at + 2),
        }
    }

    /// A pipeline of a chain of && and ||.
    #[inline]
    pub fn and_or(self, at: u32) -> AndOr
        ensures { result ≡ and_or_at self.entry.words.now at }
    {
        let at = at as usize;
        AndOr {
            before: self.word(at),
            and: self.word(at + 1) != 0,
            not: self.word(at + 2) != 0,
            pipeline: self.word(at + 3),
        }
    }

    /// A command, unless its tag is none.
    #[inline]
    pub fn command(self, at: u32) -> Option<Command<'a>>
        ensures { MatchOption result (7 < slice_index self.entry.words.now (at + 1)) (λ c. CommandIs self.entry.text.now self.entry.words.now at c) }
    {
        let at = at as usize;
        let tag = CommandTag::try_from(self.word(at + 1)).ok()?;
        Some(match tag {
            CommandTag::Simple => Command::Simple {
                assignments: self.word(at + 2),
                words: self.word(at + 3),
                redirects: self.word(at + 4),
            },
            CommandTag::Group => Command::Group {
                list: self.word(at + 2),
                redirects: self.word(at + 3),
            },
            CommandTag::Subshell => Command::Subshell {
                list: self.word(at + 2),
                redirects: self.word(at + 3),
            },
            CommandTag::If => Command::If {
                condition: self.word(at + 2),
                then: self.word(at + 3),
                otherwise: self.word(at + 4),
                redirects: self.word(at + 5),
            },
            CommandTag::While => Command::While {
                condition: self.word(at + 2),
                body: self.word(at + 3),
                redirects: self.word(at + 4),
            },
            CommandTag::For => Command::For {
                name: self.bytes_at(at + 2),
                words: self.word(at + 4),
                body: self.word(at + 5),
                redirects: self.word(at + 6),
            },
            CommandTag::Case => Command::Case {
                word: self.word(at + 2),
                arms: self.word(at + 3),
                redirects: self.word(at + 4),
            },
            CommandTag::Function => Command::Function {
                name: self.bytes_at(at + 2),
                body: self.word(at + 4),
            },
        })
    }

    /// A part of a word, unless its tag is none.
    #[inline]
    pub fn part(self, at: u32) -> Option<Part<'a>>
        ensures { MatchOption result (5 < slice_index self.entry.words.now (at + 1)) (λ p. PartIs self.entry.text.now self.entry.words.now at p) }
    {
        let at = at as usize;
        let PartTag { kind, quoted } = PartTag::try_from(self.word(at + 1)).ok()?;
        Some(match kind {
            PartKind::Literal => Part::Literal {
                quoted,
                bytes: self.bytes_at(at + 2),
            },
            PartKind::Parameter => Part::Parameter {
                quoted,
                name: self.bytes_at(at + 2),
            },
            PartKind::Substitution => Part::Substitution {
                quoted,
                list: self.word(at + 2),
            },
        })
    }

    /// An assignment.
    #[inline]
    pub fn assignment(self, at: u32) -> Assignment<'a>
        ensures { AssignmentIs self.entry.text.now self.entry.words.now at result }
    {
        let at = at as usize;
        Assignment {
            name: self.bytes_at(at + 1),
            value: self.word(at + 3),
        }
    }

    /// A redirection, unless its tag is none.
    #[inline]
    pub fn redirect(self, at: u32) -> Option<Redirect>
        ensures { MatchOption result (3 < slice_index self.entry.words.now (at + 1)) (λ r. RedirectIs self.entry.words.now at r) }
    {
        let at = at as usize;
        let tag = RedirectTag::try_from(self.word(at + 1)).ok()?;
        Some(Redirect {
            tag,
            word: self.word(at + 2),
        })
    }

    /// An arm of a case.
    #[inline]
    pub fn arm(self, at: u32) -> Arm
        ensures { result ≡ arm_at self.entry.words.now at }
    {
        let at = at as usize;
        Arm {
            pattern: self.word(at + 1),
            list: self.word(at + 2),
        }
    }
}
