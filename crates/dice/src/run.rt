//! Whole runs: one move after the other, the mover drawn by dice.

ghost use Rattle.std.specs.Prelude.{◌≤◌, IfOk};

use crate::control::Pid;
use crate::runner::{Runner, Turn};
use crate::text::SUCCESS;
use dice_tree::tree::Item;
use prng::Dice;
use std::alloc::{AllocError, Global};

/// How a run came out: no process is left, with the status of the first; processes are left and none can go on; all
/// moves that were allowed are made.
#[derive(Clone, Copy, PartialEq, Eq, Debug)]
pub enum Outcome {
    Ended(u32),
    Still,
    Spent,
}

#[derive(Drop)]
pub struct Report {
    pub outcome: Outcome,
    pub paper: Vec<u8>,
    pub moves: u64,
}

/// Makes at most so many moves, and answers how many.
fn make_moves(runner: &mut Runner<'_>, dice: &mut Dice, most: u64) -> Result<u64, AllocError>
    ensures { IfOk result (λ n. n ≤ most) }
{
    // Counts the moves.
    for n in 0..most {
        if runner.processes.is_empty() || runner.move_one(dice)? == Turn::Stuck {
            return Ok(n);
        }
    }
    Ok(most)
}

/// How the run came out after so many of these moves.
fn outcome_of(runner: &Runner<'_>, moves: u64, most: u64) -> Outcome {
    if runner.processes.is_empty() {
        Outcome::Ended(runner.exited.get(&Pid(0)).copied().unwrap_or(SUCCESS))
    } else if moves < most {
        Outcome::Still
    } else {
        Outcome::Spent
    }
}

/// Runs a list of commands on an input for at most so many moves.
pub fn run(
    heap: Global,
    list: &[Item],
    input: &[u8],
    seed: u64,
    most: u64,
) -> Result<Report, AllocError>
    ensures { IfOk result (λ p. p.moves ≤ most) }
{
    let mut runner = Runner::new(heap, list, input.to_vec(heap)?)?;
    let moves = make_moves(&mut runner, &mut Dice::new(seed), most)?;
    Ok(Report {
        outcome: outcome_of(&runner, moves, most),
        paper: std::mem::replace(&mut runner.system.paper, Vec::new(heap)),
        moves,
    })
}
