//! Words being expanded, in the list behind the frames: a mark before each word, then its bytes.
ghost use Rattle.std.specs.Prelude.{◌≡◌, ◌≤◌, ◌++◌, length, ◌≢◌};
ghost use Rattle.code.specs.Layout.{flag};
ghost use Rattle.words.specs.Encoding.{Bytes, coded, mark, patterned, word_length};
ghost use Rattle.words.specs.Pushed.{Pushed};
ghost use Rattle.machine.specs.Promises.{Does};

use crate::control::start_words;
use crate::frames::{Frame, push_frame};
use crate::halt::Halt;
use crate::process::{Control, Expansion, Process};
use code::{Code, Part};
use store::{Refusal, Store};
use words::{MARK, QUOTED, extend};

const STAR: u32 = b'*' as u32;

const QUESTION_MARK: u32 = b'?' as u32;

// Bytes of a literal behind list i, or a refusal.
fn push_bytes(st: &mut Store, i: usize, bytes: &[u8], quoted: bool) -> Result<(), Refusal>
    ensures pushed { Pushed st.old st.new i (coded (flag quoted) bytes.now) result }
    ensures bytes { Bytes bytes.now }
{
    for b in bytes {
        extend(st, i, &[u32::from(*b) + QUOTED * u32::from(quoted)])?;
    }
    Ok(())
}

// A literal behind the words in list i, with a mark before it unless a word is open; or a refusal.
fn push_literal(
    st: &mut Store,
    i: usize,
    bytes: &[u8],
    quoted: bool,
    opened: bool,
) -> Result<(), Refusal>
    ensures pushed { Pushed st.old st.new i (mark opened ++ coded (flag quoted) bytes.now) result }
    ensures bytes { Bytes bytes.now }
{
    if opened {
        return push_bytes(st, i, bytes, quoted);
    }
    extend(st, i, &[MARK])?;
    push_bytes(st, i, bytes, quoted)
}

// Whether * or ? stands in the words outside quotes.
fn has_pattern(words: &[u32]) -> bool
    ensures { result ≡ patterned words.now }
{
    words.iter().any(|w| matches!(*w, STAR | QUESTION_MARK))
}

// One part of a word is expanded.
fn step_part(
    code: Code<'_>,
    st: &mut Store,
    process: Process,
    expansion: Expansion,
) -> Result<Process, Halt>
    requires control { process.control ≡ Control.AtWords expansion }
    requires parts { expansion.parts ≢ 0 }
    ensures { Does code.entry.text.now code.entry.words.now st.old st.new process result }
{
    let Some(part) = code.part(expansion.parts) else {
        return Err(Halt::Unsupported);
    };
    let Part::Literal { quoted, bytes } = part else {
        return Err(Halt::Unsupported);
    };
    push_literal(st, process.words(), bytes, quoted, expansion.opened)?;
    Ok(process.goes_to(Control::AtWords(Expansion {
        words: expansion.words,
        parts: code.word(expansion.parts as usize),
        opened: true,
    })))
}

/// One part of a word is expanded, the next word begins, or all words are there.
pub fn step_words(
    code: Code<'_>,
    st: &mut Store,
    process: Process,
    expansion: Expansion,
) -> Result<Process, Halt>
    requires control { process.control ≡ Control.AtWords expansion }
    ensures { Does code.entry.text.now code.entry.words.now st.old st.new process result }
{
    if expansion.parts != 0 {
        return step_part(code, st, process, expansion);
    }
    if expansion.words != 0 {
        let next = start_words(code, expansion.words);
        return Ok(process.goes_to(Control::AtWords(next)));
    }
    if has_pattern(st.words(process.words())) {
        return Err(Halt::Unsupported);
    }
    let Process { stdin, stdout, .. } = process;
    push_frame(st, process, Some(Frame::Handles { stdin, stdout }))?;
    Ok(process.goes_to(Control::AtInvoke))
}

/// How many words stand before the next mark.
pub fn word_len(words: &[u32]) -> usize
    ensures within { result ≤ length words.now }
    ensures is { result ≡ word_length words.now }
{
    words.iter().position(|w| *w >= MARK).unwrap_or(words.len())
}
