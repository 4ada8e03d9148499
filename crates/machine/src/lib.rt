//! The steps of one process, over code words and lists in a store.
#![tactic(auto)]

mod arguments;
mod builtins;
mod control;
mod expansion;
mod frames;
mod halt;
mod names;
mod print;
mod process;
mod room;
mod step;
mod stretch;

pub use halt::Halt;
pub use process::{Builtin, Control, Expansion, INPUT, PAPER, Process, Unwind};
pub use room::{own_room_stands, refusal_bound_stands};
pub use step::{Step, take_step};
pub use stretch::{Ending, Stretch, run_stretch};
