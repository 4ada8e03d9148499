//! What the programs share: places in a text, why a text is refused, the words of the command line, files.
#![tactic(auto)]

pub mod faults;
pub mod files;
pub mod options;
pub mod place;
pub mod program;
pub mod visible;
