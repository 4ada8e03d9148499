//! Builtin commands: how they begin, and what they do between prints.
ghost use Rattle.std.specs.Prelude.{◌≡◌, ℕ, ◌%◌, ◌<◌, ◌≤◌, List, [], ◌∷◌, ◌++◌, length, take, drop, nat_le, slice_index_or};
ghost use Rattle.syntax.specs.Base.{pick};
ghost use Rattle.store.specs.Held.{model};
ghost use Rattle.words.specs.Encoding.{shown, rev};
ghost use Rattle.words.specs.Pushed.{Pushed};
ghost use Rattle.machine.specs.Arguments.{chosen};
ghost use Rattle.machine.specs.Commands.{at_once, Invoked, IsPlain};
ghost use Rattle.machine.specs.Promises.{Does};

use crate::arguments::{exit_number, seq_range};
use crate::expansion::word_len;
use crate::halt::Halt;
use crate::names::{BuiltinName, builtin_name};
use crate::process::{Builtin, Control, Process, Unwind};
use store::{Refusal, Store};
use words::{MARK, extend};

const BLANK: u32 = b' ' as u32;

const LETTER_Y: u32 = b'y' as u32;

pub const NEWLINE: u32 = b'\n' as u32;

// The status of a command whose words are wrong.
const USAGE: u32 = 2;

// Statuses are below this number.
const STATUSES: u32 = 256;

// The status of a command that is none.
const NOT_FOUND: u32 = 127;

// A word of the encoding as a byte of text: a blank for a mark.
fn shown_byte(w: u32) -> u32
    ensures { result ≡ pick (nat_le 512 w) 32 (w % 256) }
{
    if w >= MARK { BLANK } else { w % 256 }
}

// The words from low up to high of one list, as text, behind another, the last first; or a refusal.
fn push_reversed(
    st: &mut Store,
    from: usize,
    to: usize,
    low: usize,
    high: usize,
) -> Result<(), Refusal>
    requires lists { from < to }
    requires order { low ≤ high }
    requires in_bounds { high ≤ length (slice_index_or (model st.old) from []) }
    ensures { Pushed st.old st.new to (rev (shown (drop low (take high (slice_index_or (model st.old) from []))))) result }
{
    // By place: the store that lends the one list is written to at each turn.
    for j in (low..high).rev() {
        let w = st.get(from, j);
        extend(st, to, &[shown_byte(w)])?;
    }
    Ok(())
}

// The words from low up to high of one list as a line behind another, reversed; or a refusal.
fn push_line(st: &mut Store, from: usize, to: usize, low: usize, high: usize) -> Result<(), Refusal>
    requires lists { from < to }
    requires order { low ≤ high }
    requires in_bounds { high ≤ length (slice_index_or (model st.old) from []) }
    ensures { Pushed st.old st.new to (rev (shown (drop low (take high (slice_index_or (model st.old) from []))) ++ (10 ∷ []))) result }
{
    extend(st, to, &[NEWLINE])?;
    push_reversed(st, from, to, low, high)
}

// echo prints its arguments with blanks between them; the first stands behind the mark at `first`.
fn start_echo(st: &mut Store, process: Process, first: usize) -> Result<Process, Halt>
    requires invoked { Invoked (model st.old) process BuiltinName.Echo first }
    ensures { (text code : List ℕ) → Does text code st.old st.new process result }
{
    let list = process.words();
    let len = st.len(list);
    let low = first.saturating_add(1).min(len);
    push_line(st, list, process.text(), low, len)?;
    st.clear(list);
    Ok(process.goes_to(Control::AtPrint(Builtin::Done(0))))
}

// exit leaves with the number that it is given, modulo 256, or with the last status; status 2 if that is no number.
fn start_exit(st: &mut Store, process: Process, first: usize) -> Process
    requires invoked { Invoked (model st.old) process BuiltinName.Exit first }
    ensures { (text code : List ℕ) → Does text code st.old st.new process (Ok result) }
{
    let list = process.words();
    let number = exit_number(st.words_from(list, first), process.status);
    st.clear(list);
    let Some(n) = number else {
        return process.goes_to(Control::AtStatus(USAGE));
    };
    process.goes_to(Control::AtUnwind(Unwind::Exit, n % STATUSES))
}

// What yes prints, its first argument or y, as a line behind list `to`, reversed; or a refusal.
fn push_choice(st: &mut Store, from: usize, to: usize, first: usize) -> Result<(), Refusal>
    requires lists { from < to }
    ensures { Pushed st.old st.new to (rev (chosen (drop first (slice_index_or (model st.old) from [])) ++ (10 ∷ []))) result }
{
    if first >= st.len(from) {
        return extend(st, to, &[NEWLINE, LETTER_Y]);
    }
    let low = first + 1;
    let len = word_len(st.words_from(from, low));
    push_line(st, from, to, low, low + len)
}

// yes prints one line for ever.
fn start_yes(st: &mut Store, process: Process, first: usize) -> Result<Process, Halt>
    requires invoked { Invoked (model st.old) process BuiltinName.Yes first }
    ensures { (text code : List ℕ) → Does text code st.old st.new process result }
{
    let list = process.words();
    push_choice(st, list, process.line(), first)?;
    st.clear(list);
    Ok(process.goes_to(Control::AtBuiltin(Builtin::Yes)))
}

// seq counts; status 2 if its arguments are wrong.
fn start_seq(st: &mut Store, process: Process, first: usize) -> Process
    requires invoked { Invoked (model st.old) process BuiltinName.Seq first }
    ensures { (text code : List ℕ) → Does text code st.old st.new process (Ok result) }
{
    let list = process.words();
    let range = seq_range(st.words_from(list, first));
    st.clear(list);
    let Some(range) = range else {
        return process.goes_to(Control::AtStatus(USAGE));
    };
    process.goes_to(Control::AtBuiltin(Builtin::Seq(range.from, range.to)))
}

// The control to which a command leads at once.
fn at_once(name: BuiltinName) -> Option<Control>
    ensures { result ≡ at_once name }
{
    match name {
        BuiltinName::True => Some(Control::AtStatus(0)),
        BuiltinName::False => Some(Control::AtStatus(1)),
        BuiltinName::Break => Some(Control::AtUnwind(Unwind::Break, 0)),
        BuiltinName::Continue => Some(Control::AtUnwind(Unwind::Continue, 0)),
        BuiltinName::Other => Some(Control::AtStatus(NOT_FOUND)),
        _ => None,
    }
}

// A command that leads to another control at once, if the machine has it.
fn start_at_once(
    st: &mut Store,
    process: Process,
    first: usize,
    name: BuiltinName,
) -> Result<Process, Halt>
    requires invoked { Invoked (model st.old) process name first }
    requires plain { IsPlain name }
    ensures { (text code : List ℕ) → Does text code st.old st.new process result }
{
    let Some(control) = at_once(name) else {
        return Err(Halt::Unsupported);
    };
    st.clear(process.words());
    Ok(process.goes_to(control))
}

/// The words are expanded: the command that the first one names begins.
// One arm for each builtin that reads its arguments.
pub fn step_invoke(st: &mut Store, process: Process) -> Result<Process, Halt>
    requires control { process.control ≡ Control.AtInvoke }
    ensures { (text code : List ℕ) → Does text code st.old st.new process result }
{
    let list = process.words();
    if st.len(list) == 0 {
        return Ok(process.goes_to(Control::AtStatus(0)));
    }
    let words = st.words_from(list, 1);
    let first = 1 + word_len(words);
    let name = builtin_name(words);
    match name {
        BuiltinName::Echo => start_echo(st, process, first),
        BuiltinName::Exit => Ok(start_exit(st, process, first)),
        BuiltinName::Yes => start_yes(st, process, first),
        BuiltinName::Seq => Ok(start_seq(st, process, first)),
        _ => start_at_once(st, process, first, name),
    }
}
