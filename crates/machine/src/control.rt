//! What a process does next, from the code and a few numbers alone.
ghost use Rattle.std.specs.Prelude.{◌≡◌};
ghost use Rattle.machine.specs.Decide.{plainly, list_next, and_or_next, pipeline_next, words_start, command_next, tree_next, removed, replaced, and_or_status, if_status, status_next, loop_unwind, unwind_next};

use crate::frames::Frame;
use crate::process::{Control, Expansion, Process, Unwind};
use code::{Code, Command};

// Not by `Code::command`, which would ask for a case that cannot come: the frame tells which command stands there.

// Where a loop's condition stands in its cell.
const CONDITION: usize = 2;

// Where its body stands, and the list behind `then` of an if.
const BODY: usize = 3;

// Where an if has what stands behind `else`.
const OTHERWISE: usize = 4;

/// The next control, with a frame to push, if there is one.
#[derive(Clone, Copy)]
pub struct Next {
    pub control: Control,
    pub frame: Option<Frame>,
}

/// The process behind its last frame, and the frame that takes the place of that one, if there is one.
#[derive(Clone, Copy)]
pub struct Resumed {
    pub process: Process,
    pub frame: Option<Frame>,
}

impl From<Control> for Next {
    ghost from_gives = { λ control next. next ≡ plainly control };

    fn from(control: Control) -> Next {
        Next {
            control,
            frame: None,
        }
    }
}

fn next_list(code: Code<'_>, a: u32, status: u32) -> Option<Next>
    ensures { result ≡ list_next code.entry.words.now a status }
{
    if a == 0 {
        return Some(Next::from(Control::AtStatus(status)));
    }
    let item = code.item(a);
    if item.background {
        return None;
    }
    Some(Next {
        control: Control::AtAndOr(item.and_or),
        frame: Some(Frame::List(item.next)),
    })
}

fn next_and_or(code: Code<'_>, a: u32) -> Next
    ensures { result ≡ and_or_next code.entry.words.now a }
{
    let joined = code.and_or(a);
    if joined.before == 0 {
        return Next::from(Control::AtPipeline(joined.pipeline, joined.not));
    }
    Next {
        control: Control::AtAndOr(joined.before),
        frame: Some(Frame::AndOr(a)),
    }
}

fn next_pipeline(code: Code<'_>, a: u32, not: bool) -> Option<Next>
    ensures { result ≡ pipeline_next code.entry.words.now a not }
{
    if code.word(a as usize) != 0 {
        return None;
    }
    Some(Next {
        control: Control::AtCommand(a),
        frame: not.then_some(Frame::Not),
    })
}

/// Words from the cell at a, with nothing of them expanded yet.
pub fn start_words(code: Code<'_>, a: u32) -> Expansion
    ensures { result ≡ words_start code.entry.words.now a }
{
    if a == 0 {
        return Expansion {
            words: 0,
            parts: 0,
            opened: false,
        };
    }
    Expansion {
        words: code.word(a as usize),
        parts: code.word(a as usize + 1),
        opened: false,
    }
}

fn next_command(code: Code<'_>, a: u32) -> Option<Next>
    ensures { result ≡ command_next code.entry.words.now a }
{
    match code.command(a)? {
        Command::Simple {
            assignments: 0,
            words,
            redirects: 0,
        } => Some(Next::from(Control::AtWords(start_words(code, words)))),
        Command::Group { list, redirects: 0 } => Some(Next::from(Control::AtList(list))),
        Command::If {
            condition,
            redirects: 0,
            ..
        } => Some(Next {
            control: Control::AtList(condition),
            frame: Some(Frame::If(a)),
        }),
        Command::While {
            condition,
            redirects: 0,
            ..
        } => Some(Next {
            control: Control::AtList(condition),
            frame: Some(Frame::Condition(a)),
        }),
        _ => None,
    }
}

/// What comes next where the code alone decides it.
pub fn next_of_tree(code: Code<'_>, process: Process) -> Option<Next>
    ensures { result ≡ tree_next code.entry.words.now process.control process.status }
{
    match process.control {
        Control::AtList(a) => next_list(code, a, process.status),
        Control::AtAndOr(a) => Some(next_and_or(code, a)),
        Control::AtPipeline(a, not) => next_pipeline(code, a, not),
        Control::AtCommand(a) => next_command(code, a),
        _ => None,
    }
}

// The frame goes.
fn off(process: Process, control: Control) -> Resumed
    ensures { result ≡ removed process control }
{
    Resumed {
        process: process.goes_to(control),
        frame: None,
    }
}

// Another frame takes its place.
fn on(process: Process, control: Control, frame: Frame) -> Resumed
    ensures { result ≡ replaced process control frame }
{
    Resumed {
        process: process.goes_to(control),
        frame: Some(frame),
    }
}

fn and_or_status(code: Code<'_>, process: Process, a: u32, n: u32) -> Resumed
    ensures { result ≡ and_or_status code.entry.words.now process a n }
{
    let joined = code.and_or(a);
    if joined.and == (n == 0) {
        off(process, Control::AtPipeline(joined.pipeline, joined.not))
    } else {
        off(process, Control::AtStatus(n))
    }
}

fn if_status(code: Code<'_>, process: Process, a: u32, n: u32) -> Resumed
    ensures { result ≡ if_status code.entry.words.now process a n }
{
    let at = a as usize;
    if n == 0 {
        return off(process, Control::AtList(code.word(at + BODY)));
    }
    let other = code.word(at + OTHERWISE);
    if other == 0 {
        return off(process, Control::AtStatus(0));
    }
    off(process, Control::AtList(code.word(other as usize)))
}

/// A command is done with status n, which is the last status of the process already; `frame` is its last frame.
// One arm for each frame: each takes other data out of its variant, so no table of functions would do.
pub fn next_status(code: Code<'_>, process: Process, frame: Frame, n: u32) -> Resumed
    ensures { result ≡ status_next code.entry.words.now process frame n }
{
    match frame {
        Frame::List(0) => off(process, Control::AtStatus(n)),
        Frame::List(rest) => off(process, Control::AtList(rest)),
        Frame::Handles { stdin, stdout } => off(
            Process {
                stdin,
                stdout,
                ..process
            },
            Control::AtStatus(n),
        ),
        Frame::AndOr(a) => and_or_status(code, process, a, n),
        Frame::Not => off(process, Control::AtStatus(u32::from(n == 0))),
        Frame::If(a) => if_status(code, process, a, n),
        Frame::Condition(a) => {
            if n != 0 {
                return off(process, Control::AtStatus(0));
            }
            let body = code.word(a as usize + BODY);
            on(process, Control::AtList(body), Frame::Body(a))
        }
        Frame::Body(a) => {
            let condition = code.word(a as usize + CONDITION);
            on(process, Control::AtList(condition), Frame::Condition(a))
        }
    }
}

// break, continue, return or exit at the frame of the loop at a.
fn loop_unwind(code: Code<'_>, process: Process, unwind: Unwind, a: u32, n: u32) -> Resumed
    ensures { result ≡ loop_unwind code.entry.words.now process unwind a n }
{
    match unwind {
        Unwind::Break => off(process, Control::AtStatus(0)),
        Unwind::Continue => {
            let condition = code.word(a as usize + CONDITION);
            on(process, Control::AtList(condition), Frame::Condition(a))
        }
        Unwind::Return | Unwind::Exit => off(process, Control::AtUnwind(unwind, n)),
    }
}

/// break, continue, return or exit goes out of a frame.
pub fn next_unwind(
    code: Code<'_>,
    process: Process,
    unwind: Unwind,
    frame: Frame,
    n: u32,
) -> Resumed
    ensures { result ≡ unwind_next code.entry.words.now process unwind frame n }
{
    match frame {
        Frame::Condition(a) | Frame::Body(a) => loop_unwind(code, process, unwind, a, n),
        Frame::Handles { stdin, stdout } => off(
            Process {
                stdin,
                stdout,
                ..process
            },
            Control::AtUnwind(unwind, n),
        ),
        _ => off(process, Control::AtUnwind(unwind, n)),
    }
}
