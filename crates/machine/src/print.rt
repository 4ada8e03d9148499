//! Printing on the paper, byte by byte.
ghost use Rattle.std.specs.Prelude.{◌≡◌, ℕ, List};
ghost use Rattle.meaning.specs.Words.{decimal, as_line};
ghost use Rattle.words.specs.Encoding.{rev};
ghost use Rattle.words.specs.Pushed.{Pushed};
ghost use Rattle.machine.specs.Promises.{Does, Stepped};

use crate::builtins::NEWLINE;
use crate::halt::Halt;
use crate::process::{Builtin, Control, PAPER, Process};
use crate::step::Step;
use store::{Refusal, Store};
use words::{append, extend};

const ZERO: u32 = b'0' as u32;

/// The next byte of the text goes to the paper, at this place; where there is none the builtin goes on.
// The paper and the place are passed side by side, as the store and the process are (step.rt).
pub fn step_print(
    st: &mut Store,
    paper: &mut [u8],
    place: usize,
    process: Process,
    builtin: Builtin,
) -> Result<Step, Halt>
    requires control { process.control ≡ Control.AtPrint builtin }
    ensures { (text code : List ℕ) → Stepped text code st.old st.new paper.old paper.new place process result }
{
    let list = process.text();
    let len = st.len(list);
    if len == 0 {
        return Ok(Step::Continues(process.goes_to(Control::AtBuiltin(builtin))));
    }
    if process.stdout != PAPER {
        return Err(Halt::Unsupported);
    }
    if place >= paper.len() {
        return Err(Halt::PaperFull);
    }
    let byte = st.get(list, len - 1);
    st.truncate(list, len - 1);
    paper[place] = (byte % 256) as u8;
    Ok(Step::Prints(process, place + 1))
}

// The digits of a number behind list i, the last first; or a refusal.
fn push_decimal(st: &mut Store, i: usize, n: u32) -> Result<(), Refusal>
    ensures { Pushed st.old st.new i (rev (decimal n)) result }
{
    let mut rest = n;
    // By hand and by what is left: there is no heap, and the last digit comes first.
    while rest >= 10 {
        extend(st, i, &[ZERO + rest % 10])?;
        rest /= 10;
    }
    extend(st, i, &[ZERO + rest])
}

// A number as a line behind list i, reversed; or a refusal.
fn push_number(st: &mut Store, i: usize, n: u32) -> Result<(), Refusal>
    ensures { Pushed st.old st.new i (rev (as_line (decimal n))) result }
{
    extend(st, i, &[NEWLINE])?;
    push_decimal(st, i, n)
}

/// A builtin goes on when its text is printed.
pub fn step_builtin(st: &mut Store, process: Process, builtin: Builtin) -> Result<Process, Halt>
    requires control { process.control ≡ Control.AtBuiltin builtin }
    ensures { (text code : List ℕ) → Does text code st.old st.new process result }
{
    match builtin {
        Builtin::Done(n) => Ok(process.goes_to(Control::AtStatus(n))),
        Builtin::Seq(from, to) => {
            if from > to {
                return Ok(process.goes_to(Control::AtStatus(0)));
            }
            push_number(st, process.text(), from)?;
            let next = Builtin::Seq(from.saturating_add(1), to);
            Ok(process.goes_to(Control::AtPrint(next)))
        }
        Builtin::Yes => {
            append(st, process.text(), process.line())?;
            Ok(process.goes_to(Control::AtPrint(Builtin::Yes)))
        }
    }
}
