//! Several steps of one process in a row.
ghost use Rattle.std.specs.Prelude.{◌≡◌};
ghost use Rattle.store.specs.Held.{model, bounds};
ghost use Rattle.machine.specs.Stretches.{Onward, Stretched};

use crate::halt::Halt;
use crate::process::Process;
use crate::step::{Step, take_step};
use code::Code;
use store::Store;

/// How a stretch ended where nothing stopped it.
#[derive(Clone, Copy, Debug, PartialEq, Eq)]
pub enum Ending {
    /// all moves that were allowed are made
    Spent,
    Exited(u32),
}

/// What a stretch led to: the process, up to which place the paper is printed, how many moves were made, why it ended.
#[derive(Clone, Copy, Debug, PartialEq, Eq)]
pub struct Stretch {
    pub process: Process,
    pub place: usize,
    pub moves: u32,
    pub ending: Result<Ending, Halt>,
}

fn ended(process: Process, place: usize, moves: u32, ending: Result<Ending, Halt>) -> Stretch
    ensures { result ≡ record { process = process; place = place; moves = moves; ending = ending } }
{
    Stretch {
        process,
        place,
        moves,
        ending,
    }
}

/// Steps of one process, at most so many.
pub fn run_stretch(
    code: Code<'_>,
    st: &mut Store,
    paper: &mut [u8],
    place: usize,
    process: Process,
    most: u32,
) -> Stretch
    ensures says { Stretched code.entry.text.now code.entry.words.now st.old st.new paper.old paper.new place process most result }
    ensures onward { Onward code.entry.text.now code.entry.words.now (bounds st.old).1 (model st.old) paper.old place process result.place }
{
    let mut process = process;
    let mut place = place;
    // Counts the moves.
    for moves in 0..most {
        // Not by `?`: what was printed goes out beside the halt.
        let step = match take_step(code, st, paper, place, process) {
            Ok(step) => step,
            Err(halt) => return ended(process, place, moves, Err(halt)),
        };
        match step {
            Step::Continues(next) => process = next,
            Step::Prints(next, printed) => {
                process = next;
                place = printed;
            }
            Step::Exits(n) => return ended(process, place, moves + 1, Ok(Ending::Exited(n))),
        }
    }
    ended(process, place, most, Ok(Ending::Spent))
}
