//! The tokens of a text, written as words.
ghost use Rattle.std.specs.Prelude.{◌≡◌, ℕ, ◌+◌, ◌*◌, ◌^◌, ◌<◌, ◌≤◌, Bool, List, length};
ghost use Rattle.grammar.specs.Tokens.{rest_of};
ghost use Rattle.lexer.specs.Codes.{code_of};
ghost use Rattle.lexer.specs.Cuts.{around};
ghost use Rattle.lexer.specs.Stored.{Has};
ghost use Rattle.lexer.specs.Written.{Brackets, entry};

use crate::cut::{Lexer, State};
use crate::token::{Bracket, Token};

/// Writes all tokens of a text from the word 3 on, and says how many they are. At an opening bracket the third word says
/// where the bracket around it stands. `tokenize` does this for who reads the tokens as `Tokens`.
pub fn write_tokens(text: &[u8], words: &mut [u32]) -> usize
    requires { (length text.now ≤ 16384) × (3 * length text.now + 6 ≤ length words.old) }
    ensures few { result ≤ length text.now + 1 }
    ensures has { Has text.now result words.new }
{
    let mut at = 0;
    let mut state = State::FRESH;
    // 0 where no bracket is open, as it is kept in a lent word: no token stands before the word 3.
    let mut innermost = 0;
    let mut count = 0;
    // A turn goes on by as many bytes as it cut.
    while at < text.len() {
        let cut = Lexer { text, at, state }.cut();
        at = cut.at;
        state = cut.state;
        let Some((token, span)) = cut.token else {
            continue;
        };
        let place = 3 * count + 3;
        count += 1;
        match token.bracket() {
            None => put(words, place, token, span.start, span.len),
            Some(Bracket::Opens) => {
                put(words, place, token, span.start, innermost);
                innermost = place;
            }
            Some(Bracket::Closes) => {
                put(words, place, token, span.start, 0);
                (state, innermost) = close(words, innermost);
            }
        }
    }
    if state.quoted {
        put(words, 3 * count + 3, Token::Unclosed, text.len(), 0);
        count += 1;
    }
    count
}

/// Writes the three words of a token.
fn put(words: &mut [u32], place: usize, token: Token, start: usize, third: usize)
    requires room { place + 3 ≤ length words.old }
    requires small { (start < 2 ^ 32) × (third < 2 ^ 32) }
    ensures { words.new ≡ entry words.old place (code_of token) start third }
{
    words[place] = token.into();
    words[place + 1] = start as u32;
    words[place + 2] = third as u32;
}

/// How the lexer stands behind the innermost open bracket, and where the bracket around that stands.
fn close(words: &[u32], innermost: usize) -> (State, usize)
    requires { innermost + 3 ≤ length words.now }
    ensures { (hi : ℕ) (o : List Bool) → Brackets words.now hi innermost o → (result.0 ≡ around o) × Brackets words.now innermost result.1 (rest_of (rest_of o)) }
{
    if innermost == 0 {
        return (State::FRESH, 0);
    }
    match Token::try_from(words[innermost]) {
        Ok(token) => (State::behind_closed(token), words[innermost + 2] as usize),
        Err(_) => (State::FRESH, 0),
    }
}
