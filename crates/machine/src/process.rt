//! A process, as far as it is passed by value. What grows stands in lists of the store, from the number `base` on.
ghost use Rattle.std.specs.Prelude.{◌≡◌, ◌+◌};

/// The handles of the host's input and of its paper.
pub const INPUT: u32 = 0;

pub const PAPER: u32 = 1;

// Lists of the store have numbers alone.
// The lists of a process behind that of its frames, from its base on.
const WORDS: usize = 1;

const TEXT: usize = 2;

const LINE: usize = 3;

/// What a builtin does when its text is printed.
#[derive(Clone, Copy, Debug, PartialEq, Eq)]
pub enum Builtin {
    Done(u32),
    /// from and to, as the meaning has them
    Seq(u32, u32),
    Yes,
}

#[derive(Clone, Copy, Debug, PartialEq, Eq)]
pub enum Unwind {
    Break,
    Continue,
    Return,
    Exit,
}

/// Words being expanded, by their addresses.
#[derive(Clone, Copy, Debug, PartialEq, Eq)]
pub struct Expansion {
    /// the words to come
    pub words: u32,
    /// the parts to come of this one
    pub parts: u32,
    /// whether anything of it is there
    pub opened: bool,
}

/// What a process does next; a number is an address in the code or a status.
#[derive(Clone, Copy, Debug, PartialEq, Eq)]
pub enum Control {
    AtList(u32),
    AtAndOr(u32),
    /// with whether ! stands before it
    AtPipeline(u32, bool),
    AtCommand(u32),
    AtWords(Expansion),
    AtInvoke,
    AtPrint(Builtin),
    AtBuiltin(Builtin),
    AtStatus(u32),
    /// the number is as the meaning has it: 0 at break and continue
    AtUnwind(Unwind, u32),
}

#[derive(Clone, Copy, Debug, PartialEq, Eq)]
pub struct Process {
    pub control: Control,
    /// a number of the language; 0 is success
    pub status: u32,
    /// handles are numbers, as in the meaning
    pub stdin: u32,
    pub stdout: u32,
    pub base: u32,
}

impl Process {
    ghost use Rattle.machine.specs.Decide.{going};

    /// The same process, with this to do next.
    pub(crate) fn goes_to(self, control: Control) -> Self
        ensures { result ≡ going self control }
    {
        Process { control, ..self }
    }

    /// The list of its frames.
    pub(crate) fn frames(self) -> usize
        ensures { result ≡ self.base }
    {
        self.base as usize
    }

    /// The list of its words being expanded.
    pub(crate) fn words(self) -> usize
        ensures { result ≡ self.base + 1 }
    {
        self.base as usize + WORDS
    }

    /// The list of its text to print, reversed.
    pub(crate) fn text(self) -> usize
        ensures { result ≡ self.base + 2 }
    {
        self.base as usize + TEXT
    }

    /// The list of the line of yes, reversed.
    pub(crate) fn line(self) -> usize
        ensures { result ≡ self.base + 3 }
    {
        self.base as usize + LINE
    }
}
