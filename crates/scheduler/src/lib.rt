//! Who moves: the queue of those who can go on, and the loop that gives each a slice of moves.
#![tactic(auto)]

mod lists;
mod queue;
mod slices;

pub use lists::open_lists;
pub use slices::{End, LISTS, Outcome, execute, first_process};
