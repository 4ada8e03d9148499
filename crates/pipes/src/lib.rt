//! The public call: a text of commands is read, and run within lent memory.
#![tactic(auto)]

ghost use Rattle.std.specs.Prelude.{◌≡◌, ℕ, ◌+◌, ◌*◌, ◌<◌, ◌≤◌, ◌↔◌, length, IsTrue};
ghost use Rattle.pipes.specs.Says.{RanPost, paper_bytes};

use lexer::MAX_TEXT;
use reader::{CODE_EXTRA, CODE_PER_BYTE, read};
use std::fmt;

/// How a run came out. The first number of each that ran is how many bytes stand on the paper.
/// It stands in each, since callers match on one value.
#[derive(Clone, Copy, Debug, PartialEq, Eq)]
pub enum Ran {
    /// All processes have exited, the first one with this status.
    Ended(usize, u32),
    /// Processes are left, and none can go on.
    Still(usize),
    /// The moves that were allowed are used up.
    Spent(usize),
    /// More memory would be needed.
    NoRoom(usize),
    /// The next byte doesn't fit on the paper.
    OutFull(usize),
    /// The text is of this stage, which is not run.
    NotYet(u32),
    /// The text is no list of commands.
    NoText,
    /// Too few words are lent.
    Few,
}

impl Ran {
    /// How many bytes stand on the paper.
    pub fn on_paper(self) -> usize
        ensures { result ≡ paper_bytes self }
    {
        match self {
            Ran::Ended(n, _) | Ran::Still(n) | Ran::Spent(n) | Ran::NoRoom(n) | Ran::OutFull(n) => {
                n
            }
            Ran::NotYet(_) | Ran::NoText | Ran::Few => 0,
        }
    }
}

impl fmt::Display for Ran {
    fn fmt<W: fmt::Write>(&self, f: &mut fmt::Formatter<W>) -> fmt::Result {
        match self {
            Ran::Ended(_, status) => write!(f, "ended {status}"),
            Ran::Still(_) => write!(f, "still"),
            Ran::Spent(_) => write!(f, "spent"),
            Ran::NoRoom(_) => write!(f, "no room"),
            Ran::OutFull(_) => write!(f, "paper full"),
            Ran::NotYet(stage) => write!(f, "not yet {stage}"),
            Ran::NoText => write!(f, "no text"),
            Ran::Few => write!(f, "few"),
        }
    }
}

/// The words that are lent at least: these, and those for the code of the text.
const FLOOR: usize = 65536;

/// Whether too few words are lent for a text of so many bytes.
fn too_few(words: usize, bytes: usize) -> bool
    ensures { IsTrue result ↔ (words < 65536 + 16 * bytes) }
{
    words < FLOOR || (words - FLOOR) / CODE_PER_BYTE < bytes
}

/// Reads a text and runs it: with this input, at most about so many moves, what it prints on the paper, within these words.
pub fn run(text: &[u8], input: &[u8], most: u64, paper: &mut [u8], work: &mut [u32]) -> Ran
    ensures says { RanPost text.now input.now most (length work.old) paper.old paper.new result }
    ensures within { paper_bytes result ≤ length paper.old }
{
    if too_few(work.len(), text.len()) {
        return Ran::Few;
    }
    if text.len() > MAX_TEXT {
        return Ran::NoText;
    }
    let (code, tokens) = work.split_at_mut(CODE_PER_BYTE * text.len() + CODE_EXTRA);
    let Ok(program) = read(text, code, tokens) else {
        return Ran::NoText;
    };
    Ran::NotYet(program.stage)
}
