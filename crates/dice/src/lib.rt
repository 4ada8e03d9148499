//! A second, simple runner: every move of every process as the meaning has it, the mover drawn by dice. It shares no code with the
//! crates that it is compared with: a mistake would be shared too. `heap` goes along wherever something is allocated.

#![tactic(auto)]

mod builtins;
mod control;
mod files;
mod process;
pub mod run;
mod runner;
mod step;
mod system;
mod text;
mod words;
