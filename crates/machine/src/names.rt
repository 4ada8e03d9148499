//! Builtin commands by their names.
ghost use Rattle.std.specs.Prelude.{◌≡◌};
ghost use Rattle.words.specs.Encoding.{named};
ghost use Rattle.machine.specs.Commands.{name_of};

use crate::expansion::word_len;

/// The commands of the shell; any other name is none.
#[derive(Clone, Copy, Debug, PartialEq, Eq)]
pub enum BuiltinName {
    Echo,
    Cat,
    Head,
    Wc,
    Grep,
    Seq,
    Rm,
    Yes,
    True,
    False,
    Test,
    Read,
    Exit,
    Return,
    Break,
    Continue,
    Shift,
    Wait,
    /// A name that is none: a command too, with a status of its own.
    Other,
}

const NAMES: [(&str, BuiltinName); 18] = [
    ("echo", BuiltinName::Echo),
    ("cat", BuiltinName::Cat),
    ("head", BuiltinName::Head),
    ("wc", BuiltinName::Wc),
    ("grep", BuiltinName::Grep),
    ("seq", BuiltinName::Seq),
    ("rm", BuiltinName::Rm),
    ("yes", BuiltinName::Yes),
    ("true", BuiltinName::True),
    ("false", BuiltinName::False),
    ("test", BuiltinName::Test),
    ("read", BuiltinName::Read),
    ("exit", BuiltinName::Exit),
    ("return", BuiltinName::Return),
    ("break", BuiltinName::Break),
    ("continue", BuiltinName::Continue),
    ("shift", BuiltinName::Shift),
    ("wait", BuiltinName::Wait),
];

// Whether the first of these words, which begin behind a mark, is this name.
fn is_named(words: &[u32], name: &str) -> bool
    ensures { result ≡ named words.now name.now }
{
    let word = &words[..word_len(words)];
    let name = name.as_bytes();
    word.len() == name.len()
        && word
            .iter()
            .zip(name)
            .all(|(w, b)| *w % 256 == u32::from(*b))
}

/// The first of these words, which begin behind a mark, as the name of a builtin.
pub fn builtin_name(words: &[u32]) -> BuiltinName
    ensures { result ≡ name_of words.now }
{
    // Tried with `find`: the whole equation over the table is left to prove, where a loop goes row by row.
    for (name, builtin) in NAMES {
        if is_named(words, name) {
            return builtin;
        }
    }
    BuiltinName::Other
}
