//! One step of a process.
ghost use Rattle.std.specs.Prelude.{◌≡◌, ℕ, List, Ok};
ghost use Rattle.machine.specs.Decide.{Tree};
ghost use Rattle.machine.specs.Promises.{Does, Stepped};

use crate::builtins::step_invoke;
use crate::control::{Next, next_of_tree, next_status, next_unwind};
use crate::expansion::step_words;
use crate::frames::{push_frame, settle, top};
use crate::halt::Halt;
use crate::print::{step_builtin, step_print};
use crate::process::{Control, Process, Unwind};
use code::Code;
use store::Store;

/// What a step led to.
#[derive(Clone, Copy, Debug, PartialEq, Eq)]
pub enum Step {
    Continues(Process),
    /// with a byte more on the paper, which is printed up to this place now
    Prints(Process, usize),
    Exits(u32),
}

// The store is passed beside the process: a struct of both would hold what is lent, and each call would have to promise that it
// holds the same still.

// A step that the code alone decides.
fn step_tree(code: Code<'_>, st: &mut Store, process: Process) -> Result<Process, Halt>
    requires tree { Tree process.control }
    ensures { Does code.entry.text.now code.entry.words.now st.old st.new process result }
{
    let Some(Next { control, frame }) = next_of_tree(code, process) else {
        return Err(Halt::Unsupported);
    };
    push_frame(st, process, frame)?;
    Ok(process.goes_to(control))
}

// A command is done with status n.
fn step_status(code: Code<'_>, st: &mut Store, process: Process, n: u32) -> Step
    requires control { process.control ≡ Control.AtStatus n }
    ensures { (o : List ℕ) (place : ℕ) → Stepped code.entry.text.now code.entry.words.now st.old st.new o o place process (Ok result) }
{
    let Some(frame) = top(st, process) else {
        return Step::Exits(n);
    };
    let done = Process {
        status: n,
        ..process
    };
    let resumed = next_status(code, done, frame, n);
    settle(st, process, resumed.frame);
    Step::Continues(resumed.process)
}

// break, continue, return or exit goes out of the last frame.
fn step_unwind(code: Code<'_>, st: &mut Store, process: Process, unwind: Unwind, n: u32) -> Step
    requires control { process.control ≡ Control.AtUnwind unwind n }
    ensures { (o : List ℕ) (place : ℕ) → Stepped code.entry.text.now code.entry.words.now st.old st.new o o place process (Ok result) }
{
    let Some(frame) = top(st, process) else {
        return Step::Exits(n);
    };
    let resumed = next_unwind(code, process, unwind, frame, n);
    settle(st, process, resumed.frame);
    Step::Continues(resumed.process)
}

/// One step of a process; what it prints goes to this place of the paper.
// One arm for each control: each takes other data out of its variant, so no table of functions would do.
pub fn take_step(
    code: Code<'_>,
    st: &mut Store,
    paper: &mut [u8],
    place: usize,
    process: Process,
) -> Result<Step, Halt>
    ensures { Stepped code.entry.text.now code.entry.words.now st.old st.new paper.old paper.new place process result }
{
    match process.control {
        Control::AtList(_)
        | Control::AtAndOr(_)
        | Control::AtPipeline(..)
        | Control::AtCommand(_) => step_tree(code, st, process).map(Step::Continues),
        Control::AtWords(expansion) => {
            step_words(code, st, process, expansion).map(Step::Continues)
        }
        Control::AtInvoke => step_invoke(st, process).map(Step::Continues),
        Control::AtPrint(builtin) => step_print(st, paper, place, process, builtin),
        Control::AtBuiltin(builtin) => step_builtin(st, process, builtin).map(Step::Continues),
        Control::AtStatus(n) => Ok(step_status(code, st, process, n)),
        Control::AtUnwind(unwind, n) => Ok(step_unwind(code, st, process, unwind, n)),
    }
}
