//! Texts of commands as owned trees, for the runner that draws its moves by dice: a lexer and a parser of their own.
//! They share no code with those that they are compared with, so they have their own enums of words, signs and stages.

#![tactic(auto)]

pub mod calm;
mod lexer;
pub mod parser;
mod signs;
pub mod stage;
pub mod tree;
