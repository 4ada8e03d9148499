//! Numbers that stand in the code for what a cell is.
ghost use Rattle.code.specs.Tags.{IsCommandNumber, IsRedirectNumber, IsPartNumber, DecodesCommand, DecodesRedirect, DecodesPart};

/// What a command is: the second word of its cell.
#[derive(Clone, Copy, Debug, PartialEq, Eq)]
pub enum CommandTag {
    Simple,
    Group,
    Subshell,
    If,
    While,
    For,
    Case,
    Function,
}

/// What a redirection does: it reads from a file or from the text, or writes over a file or behind it. The second word of its
/// cell.
#[derive(Clone, Copy, Debug, PartialEq, Eq)]
pub enum RedirectTag {
    Input,
    Output,
    Append,
    Here,
}

/// What a part of a word stands for: its bytes, the value of a parameter, or what the commands behind `$(` print.
#[derive(Clone, Copy, Debug, PartialEq, Eq)]
pub enum PartKind {
    Literal,
    Parameter,
    Substitution,
}

/// What a part of a word is, and whether it stands in quotes: the second word of its cell.
#[derive(Clone, Copy, Debug, PartialEq, Eq)]
pub struct PartTag {
    pub kind: PartKind,
    pub quoted: bool,
}

impl PartTag {
    /// Bytes outside of quotes.
    pub const LITERAL: PartTag = PartTag {
        kind: PartKind::Literal,
        quoted: false,
    };

    /// Bytes in quotes.
    pub const QUOTED: PartTag = PartTag {
        kind: PartKind::Literal,
        quoted: true,
    };
}

/// A word that is no tag.
#[derive(Clone, Copy, Debug, PartialEq, Eq)]
pub struct UnknownTag(pub u32);

// Here a number becomes a tag, and a tag its number: the numbers are the layout of the code. Who writes a tag that is known there has the same number by `as`.

impl From<CommandTag> for u32 {
    ghost from_gives = { IsCommandNumber };

    fn from(tag: CommandTag) -> u32 {
        tag as u32
    }
}

impl TryFrom<u32> for CommandTag {
    type Error = UnknownTag;

    ghost try_from_gives = { DecodesCommand };

    fn try_from(word: u32) -> Result<Self, UnknownTag> {
        match word {
            0 => Ok(CommandTag::Simple),
            1 => Ok(CommandTag::Group),
            2 => Ok(CommandTag::Subshell),
            3 => Ok(CommandTag::If),
            4 => Ok(CommandTag::While),
            5 => Ok(CommandTag::For),
            6 => Ok(CommandTag::Case),
            7 => Ok(CommandTag::Function),
            _ => Err(UnknownTag(word)),
        }
    }
}

impl From<RedirectTag> for u32 {
    ghost from_gives = { IsRedirectNumber };

    fn from(tag: RedirectTag) -> u32 {
        tag as u32
    }
}

impl TryFrom<u32> for RedirectTag {
    type Error = UnknownTag;

    ghost try_from_gives = { DecodesRedirect };

    fn try_from(word: u32) -> Result<Self, UnknownTag> {
        match word {
            0 => Ok(RedirectTag::Input),
            1 => Ok(RedirectTag::Output),
            2 => Ok(RedirectTag::Append),
            3 => Ok(RedirectTag::Here),
            _ => Err(UnknownTag(word)),
        }
    }
}

impl From<PartTag> for u32 {
    ghost from_gives = { IsPartNumber };

    fn from(tag: PartTag) -> u32 {
        2 * tag.kind as u32 + u32::from(tag.quoted)
    }
}

impl TryFrom<u32> for PartTag {
    type Error = UnknownTag;

    ghost try_from_gives = { DecodesPart };

    fn try_from(word: u32) -> Result<Self, UnknownTag> {
        let kind = match word {
            0 | 1 => PartKind::Literal,
            2 | 3 => PartKind::Parameter,
            4 | 5 => PartKind::Substitution,
            _ => return Err(UnknownTag(word)),
        };
        Ok(PartTag {
            kind,
            quoted: word % 2 == 1,
        })
    }
}
