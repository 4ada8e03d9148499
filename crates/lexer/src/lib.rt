//! From bytes to tokens: the tokens of a text are kept as words, three each.
#![tactic(auto)]

pub use crate::codes::UnknownCode;
pub use crate::token::{Keyword, Sign, Token};
pub use crate::tokens::{Span, Tokens, tokenize};
pub use crate::write::write_tokens;
pub use code::{PartKind, PartTag, RedirectTag};

mod bytes;
mod codes;
mod cut;
mod token;
mod tokens;
mod write;

/// The longest text that is read.
pub const MAX_TEXT: usize = 16384;
