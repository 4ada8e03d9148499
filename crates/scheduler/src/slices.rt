//! The loop: the first in the queue takes a slice of moves, and goes to the back.
ghost use Rattle.std.specs.Prelude.{◌≡◌, ◌/◌, ◌<◌, length, MatchResult};
ghost use Rattle.store.specs.Held.{model, bounds};
ghost use Rattle.scheduler.specs.Lists.{opened, Begun};
ghost use Rattle.scheduler.specs.Outcomes.{Executed, Goes, at_root};

use crate::lists::open_lists;
use crate::queue::{QUEUE, first_ready, rotate};
use code::Code;
use machine::{Control, Ending, Halt, INPUT, PAPER, Process, run_stretch};
use store::{Refusal, Store, store_in};

/// How a run ended where nothing stopped it.
#[derive(Clone, Copy, Debug, PartialEq, Eq)]
pub enum End {
    /// all processes have exited, the first one with this status
    Exited(u32),
    /// processes are left, and none can go on
    Still,
    /// as many moves are made as were allowed
    Spent,
}

/// What a run came to, with how many bytes stand on the paper.
#[derive(Clone, Copy, Debug, PartialEq, Eq)]
pub struct Outcome {
    pub printed: usize,
    pub end: Result<End, Halt>,
}

// At most so many moves in a row by one process.
const SLICE: u64 = 4096;

// The lists of the first process begin behind the queue.
const FIRST: u32 = 1;

/// The queue and the four lists of the first process.
pub const LISTS: usize = 5;

/// The first process, at the beginning of a list of commands.
pub fn first_process(root: u32) -> Process
    ensures { result ≡ at_root root }
{
    Process {
        control: Control::AtList(root),
        status: 0,
        stdin: INPUT,
        stdout: PAPER,
        base: FIRST,
    }
}

fn ended(printed: usize, end: Result<End, Halt>) -> Outcome
    ensures { result ≡ record { printed = printed; end = end } }
{
    Outcome { printed, end }
}

// Slices of moves, until the run is over.
fn run_slices(
    code: Code<'_>,
    st: &mut Store,
    most: u64,
    paper: &mut [u8],
    root: u32,
    words: usize,
) -> Outcome
    requires numbers { bounds st.old ≡ (words / 2, opened 5 (words / 2)) }
    requires goes { Goes code.text.now code.words.now root (opened 5 (words / 2)) (model st.old) paper.old paper.old 0 0 (at_root root) }
    ensures { Executed code.entry.text.now code.entry.words.now root most words paper.old paper.new result }
{
    let mut process = first_process(root);
    let mut printed = 0;
    let mut made = 0;
    // The last slice may be shorter, so the moves are counted here.
    while made < most {
        if first_ready(st).is_none() {
            return ended(printed, Ok(End::Still));
        }
        let slice = (most - made).min(SLICE);
        let stretch = run_stretch(code, st, paper, printed, process, slice as u32);
        printed = stretch.place;
        // Not by `?`: what was printed goes out beside the halt.
        let ending = match stretch.ending {
            Ok(ending) => ending,
            Err(halt) => return ended(printed, Err(halt)),
        };
        match ending {
            Ending::Spent => process = stretch.process,
            Ending::Exited(status) => return ended(printed, Ok(End::Exited(status))),
        }
        made += slice;
        rotate(st);
    }
    ended(printed, Ok(End::Spent))
}

// A store in these words, with the lists of the first process, which is alone in the queue; or there is no room for them.
fn begin(words: &mut [u32]) -> Result<Store<'_>, Refusal>
    ensures { MatchResult result (λ st. Begun (length words.old) (bounds st) (model st)) (λ _. length words.old < 65376) }
{
    let Some(mut st) = store_in(words) else {
        return Err(Refusal::NoRoom);
    };
    open_lists(&mut st, LISTS)?;
    st.push(QUEUE, 0)?;
    Ok(st)
}

/// Runs the list of commands whose code begins at `root`, at most so many moves, within these words.
pub fn execute(code: Code<'_>, root: u32, most: u64, paper: &mut [u8], words: &mut [u32]) -> Outcome
    ensures { Executed code.entry.text.now code.entry.words.now root most (length words.old) paper.old paper.new result }
{
    let all = words.len();
    match begin(words) {
        Ok(mut st) => run_slices(code, &mut st, most, paper, root, all),
        Err(refusal) => ended(0, Err(refusal.into())),
    }
}
