//! A text's tokens, one a line.
use front::place::Place;
use front::visible::Visible;
use lexer::{PartKind, PartTag, Sign, Token, UnknownCode};
use std::{fmt, io};

/// Lines and columns are counted no further.
const LAST: usize = 4294967296;

/// What a token is, in words. Words that no lexer wrote may stand for none.
#[derive(Clone, Copy)]
struct Kind(Result<Token, UnknownCode>);

impl fmt::Display for Kind {
    fn fmt<W: fmt::Write>(&self, f: &mut fmt::Formatter<W>) -> fmt::Result {
        match self.0 {
            Ok(Token::Part { part, joined }) => {
                let kind = part_name(part);
                let joined = if joined { "joined " } else { "" };
                write!(f, "{joined}{kind}")
            }
            Ok(Token::Keyword(_)) => f.write_str("keyword"),
            Ok(Token::Name) => f.write_str("name"),
            Ok(Token::Assignment { .. }) | Err(UnknownCode(64..)) => f.write_str("assignment"),
            Ok(Token::Sign(Sign::Newline)) => f.write_str("newline"),
            Ok(Token::Sign(_)) => f.write_str("sign"),
            Ok(Token::Unclosed) => f.write_str("unclosed quote"),
            Err(UnknownCode(8..=15)) => f.write_str("joined none"),
            Err(UnknownCode(_)) => f.write_str("none"),
        }
    }
}

// It has one caller.
fn part_name(part: PartTag) -> &'static str {
    match (part.kind, part.quoted) {
        (PartKind::Literal, false) => "literal",
        (PartKind::Literal, true) => "quoted",
        (PartKind::Parameter, false) => "parameter",
        (PartKind::Parameter, true) => "quoted parameter",
        (PartKind::Substitution, false) => "$(",
        (PartKind::Substitution, true) => "quoted $(",
    }
}

/// What is shown of a token: a sign, or its bytes in the text; none of a bracket and of what is no token.
fn spelling(token: Result<Token, UnknownCode>, text: &[u8], start: usize, len: usize) -> &[u8] {
    match token {
        Ok(Token::Sign(sign)) => return sign.spelling(),
        Ok(Token::Unclosed) | Err(UnknownCode(..64)) => return &[],
        Ok(Token::Part { part, .. }) if part.kind == PartKind::Substitution => return &[],
        _ => {}
    }
    let from = start.min(text.len());
    let to = from.saturating_add(len).min(text.len());
    &text[from..to]
}

/// The place behind so many bytes more of the text; from `LAST` on it stays.
fn go_on(text: &[u8], from: usize, to: usize, place: Place) -> Place {
    let to = to.min(text.len());
    if from >= to || place.line >= LAST || place.column >= LAST {
        return place;
    }
    place.behind(&text[from..to])
}

/// The tokens of a text, of which there are n, with their places. Three words are each, from the word 3 on: code, start, length.
pub fn show_tokens(rt: &HostRuntime, text: &[u8], words: &[u32], n: usize) -> io::Result<()> {
    let mut place = Place::START;
    let mut from = 0;
    // Whatever the words are: three that are not all there end it.
    for token in words.chunks_exact(3).skip(1).take(n) {
        let start = token[1] as usize;
        place = go_on(text, from, start, place);
        from = start;
        let value = Token::try_from(token[0]);
        let kind = Kind(value);
        let shown = Visible(spelling(value, text, start, token[2] as usize));
        println!(rt; "{place} {kind} {shown}")?;
    }
    Ok(())
}
