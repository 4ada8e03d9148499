//! What a text is, for people: its tokens one a line, its tree indented.
#![tactic(auto)]

pub mod tokens;
pub mod tree;
