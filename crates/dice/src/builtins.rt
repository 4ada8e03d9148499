//! The builtin commands: how each begins, and its moves.

use crate::control::{Builtin, Control, Printing, Step, Unwind};
use crate::process::Process;
use crate::runner::{ReadByte, Runner};
use crate::system::{FileReader, Handle, HandleId, WriteByte};
use crate::text::{
    FAILURE, MISUSE, NO_READER, NOT_FOUND, SUCCESS, as_line, contains, decimal, joined_line,
    number, status_of, test_status,
};
use dice_tree::parser::valid_name;
use std::alloc::{AllocError, Global};
use std::collections::VecDeque;
use std::ops::RangeInclusive;

/// What a move of a builtin comes to.
#[derive(Drop)]
pub enum Progress {
    /// It goes on.
    Works,
    /// It prints these bytes, and goes on.
    Prints(Vec<u8>),
    /// It prints this line, if it is there, and is done with this status.
    Ends { line: Option<Vec<u8>>, status: u32 },
    /// The command is done, with this status.
    Completes(u32),
    /// It has to wait, and is as it was.
    Waits,
}

impl Progress {
    /// It is done, with this status, and prints nothing more.
    fn ends(status: u32) -> Progress {
        Progress::Ends { line: None, status }
    }
}

/// The first word, or a default.
fn first_or(
    heap: Global,
    words: &VecDeque<Vec<u8>>,
    default: &[u8],
) -> Result<Vec<u8>, AllocError> {
    match words.front() {
        Some(word) => word.clone(),
        None => default.to_vec(heap),
    }
}

/// echo prints its words.
fn start_echo<'t>(heap: Global, words: &VecDeque<Vec<u8>>) -> Result<Step<'t>, AllocError> {
    let line = joined_line(heap, words)?;
    Ok(Step::prints(line, Builtin::Done(SUCCESS)))
}

/// cat copies the files that it is given, or what it reads.
fn start_cat<'t>(heap: Global, stdin: HandleId, words: &mut VecDeque<Vec<u8>>) -> Step<'t> {
    let names = std::mem::replace(words, VecDeque::new(heap));
    let handle = if names.is_empty() { Some(stdin) } else { None };
    Step::works(Builtin::Cat { names, handle })
}

/// yes prints a line again and again.
fn start_yes<'t>(heap: Global, words: &VecDeque<Vec<u8>>) -> Result<Step<'t>, AllocError> {
    let line = as_line(first_or(heap, words, b"y")?)?;
    Ok(Step::works(Builtin::Yes(line)))
}

/// seq n counts from 1, seq a b from a.
fn seq_range(words: &[Vec<u8>]) -> Option<RangeInclusive<u32>> {
    match words {
        [to] => Some(1..=number(to)?),
        [from, to] => Some(number(from)?..=number(to)?),
        _ => None,
    }
}

/// exit n and return n, modulo 256; without a word the last status.
fn unwind_status(last: u32, words: &VecDeque<Vec<u8>>) -> Option<u32> {
    match words.front() {
        Some(word) => Some(number(word)? % 256),
        None => Some(last % 256),
    }
}

/// head n, or 10
fn start_head<'t>(words: &VecDeque<Vec<u8>>) -> Step<'t> {
    let lines = match words.front() {
        Some(word) => number(word),
        None => Some(10),
    };
    match lines {
        Some(n) => Step::works(Builtin::Head(n)),
        None => Step::completes(MISUSE),
    }
}

/// read x: a line into a variable; status 2 if that is no name.
fn start_read<'t>(heap: Global, words: &VecDeque<Vec<u8>>) -> Result<Step<'t>, AllocError> {
    let name = first_or(heap, words, b"x")?;
    if !valid_name(&name) {
        return Ok(Step::completes(MISUSE));
    }
    let line = Vec::new(heap);
    Ok(Step::works(Builtin::Read { name, line }))
}

/// grep prints the lines in which a text stands.
fn start_grep<'t>(heap: Global, words: &VecDeque<Vec<u8>>) -> Result<Step<'t>, AllocError> {
    Ok(Step::works(Builtin::Grep {
        pattern: first_or(heap, words, b"")?,
        line: Vec::new(heap),
        found: false,
    }))
}

fn start_seq<'t>(words: &[Vec<u8>]) -> Step<'t> {
    match seq_range(words) {
        Some(range) => Step::works(Builtin::Seq(range)),
        None => Step::completes(MISUSE),
    }
}

/// break and continue; exit n and return n, whose status is that modulo 256, or the last one. Anything else is no command.
fn start_unwind<'t>(last: u32, name: &[u8], words: &VecDeque<Vec<u8>>) -> Step<'t> {
    let status = unwind_status(last, words);
    let unwind = match (name, status) {
        (b"break", _) => Unwind::Break,
        (b"continue", _) => Unwind::Continue,
        (b"return", Some(status)) => Unwind::Return(status),
        (b"exit", Some(status)) => Unwind::Exit(status),
        (b"return" | b"exit", None) => return Step::completes(MISUSE),
        _ => return Step::completes(NOT_FOUND),
    };
    Step::unwinds(unwind)
}

impl<'t> Runner<'t> {
    /// The commands that read and print.
    /// One arm for each name: what they begin with differs.
    pub fn start_builtin(
        &mut self,
        process: &mut Process<'t>,
        name: &[u8],
        words: &mut VecDeque<Vec<u8>>,
    ) -> Result<Step<'t>, AllocError> {
        let heap = self.system.heap;
        match name {
            b"echo" => start_echo(heap, words),
            b"cat" => Ok(start_cat(heap, process.streams.stdin, words)),
            b"head" => Ok(start_head(words)),
            b"wc" => Ok(Step::works(Builtin::Wc { lines: 0, bytes: 0 })),
            b"grep" => start_grep(heap, words),
            b"seq" => Ok(start_seq(words.make_contiguous())),
            b"yes" => start_yes(heap, words),
            b"read" => start_read(heap, words),
            _ => Ok(self.do_at_once(process, name, words)),
        }
    }

    /// The commands that are done in one move. Anything else has status 127.
    fn do_at_once(
        &mut self,
        process: &mut Process<'t>,
        name: &[u8],
        words: &mut VecDeque<Vec<u8>>,
    ) -> Step<'t> {
        let status = match name {
            b"rm" => self.remove_files(words),
            b"true" => SUCCESS,
            b"false" => FAILURE,
            b"test" => test_status(&self.system, words.make_contiguous()),
            b"shift" => process.shift(),
            b"wait" => return self.wait_for_jobs(process),
            _ => return start_unwind(process.environment.status, name, words),
        };
        Step::completes(status)
    }

    /// rm: a file that isn't there is no error.
    fn remove_files(&mut self, names: &VecDeque<Vec<u8>>) -> u32 {
        for name in names.iter() {
            self.system.remove_file(name);
        }
        SUCCESS
    }

    /// It waits for all that were begun with & since it last did.
    fn wait_for_jobs(&self, process: &mut Process<'t>) -> Step<'t> {
        let none = Vec::new(self.system.heap);
        Step::GoesTo(Control::Wait(std::mem::replace(&mut process.jobs, none)))
    }

    /// Writing to a pipe that nobody can read ends the process with 141.
    pub fn print_byte(
        &mut self,
        process: &Process<'t>,
        mut printing: Printing,
    ) -> Result<Step<'t>, AllocError> {
        let Some(byte) = printing.bytes.front().copied() else {
            return Ok(Step::works(printing.then));
        };
        match self.write_byte(process, byte)? {
            WriteByte::Wrote => {
                let _ = printing.bytes.pop_front();
                Ok(Step::GoesTo(Control::Print(printing)))
            }
            WriteByte::PipeFull => Ok(Step::Waits(Control::Print(printing))),
            WriteByte::NoReader => Ok(Step::Exits(NO_READER)),
        }
    }

    /// A move of a builtin.
    pub fn step_builtin(
        &mut self,
        process: &mut Process<'t>,
        mut builtin: Builtin,
    ) -> Result<Step<'t>, AllocError> {
        let step = match self.progress(process, &mut builtin)? {
            Progress::Works => Step::works(builtin),
            Progress::Prints(bytes) => Step::prints(bytes, builtin),
            Progress::Ends { line, status } => match line {
                Some(line) => Step::prints(line, Builtin::Done(status)),
                None => Step::works(Builtin::Done(status)),
            },
            Progress::Completes(status) => Step::completes(status),
            Progress::Waits => Step::Waits(Control::Builtin(builtin)),
        };
        Ok(step)
    }

    /// One arm for each builtin at work: each takes other data out of its variant, so no table of functions would do.
    fn progress(
        &mut self,
        process: &mut Process<'t>,
        builtin: &mut Builtin,
    ) -> Result<Progress, AllocError> {
        match builtin {
            Builtin::Done(status) => Ok(Progress::Completes(*status)),
            Builtin::Cat { names, handle } => self.step_cat(process, names, handle),
            Builtin::Head(lines) => self.step_head(process, lines),
            Builtin::Wc { lines, bytes } => self.step_wc(process, lines, bytes),
            Builtin::Grep {
                pattern,
                line,
                found,
            } => self.step_grep(process, pattern, line, found),
            Builtin::Seq(range) => step_seq(self.system.heap, range),
            Builtin::Yes(line) => Ok(Progress::Prints(line.clone()?)),
            Builtin::Read { name, line } => self.step_read(process, name, line),
        }
    }

    /// cat opens its next file. It stops at the first that isn't there, with status 1.
    fn open_next(
        &mut self,
        names: &mut VecDeque<Vec<u8>>,
        handle: &mut Option<HandleId>,
    ) -> Result<Progress, AllocError> {
        let Some(name) = names.pop_front() else {
            return Ok(Progress::ends(SUCCESS));
        };
        if !self.system.has_file(&name) {
            return Ok(Progress::ends(FAILURE));
        }
        let file = Handle::FileRead(FileReader::new(name));
        *handle = Some(self.system.open(file)?);
        Ok(Progress::Works)
    }

    fn step_cat(
        &mut self,
        process: &Process<'t>,
        names: &mut VecDeque<Vec<u8>>,
        handle: &mut Option<HandleId>,
    ) -> Result<Progress, AllocError> {
        let Some(open) = *handle else {
            return self.open_next(names, handle);
        };
        match self.read_byte(process, open) {
            ReadByte::Got(byte) => Ok(Progress::Prints(vec![in self.system.heap; byte]?)),
            ReadByte::AtEnd => {
                *handle = None;
                Ok(Progress::Works)
            }
            ReadByte::MustWait => Ok(Progress::Waits),
        }
    }

    fn step_head(
        &mut self,
        process: &Process<'t>,
        lines: &mut u32,
    ) -> Result<Progress, AllocError> {
        if *lines == 0 {
            return Ok(Progress::Completes(SUCCESS));
        }
        match self.read_byte(process, process.streams.stdin) {
            ReadByte::Got(byte) => {
                if byte == b'\n' {
                    *lines -= 1;
                }
                Ok(Progress::Prints(vec![in self.system.heap; byte]?))
            }
            ReadByte::AtEnd => Ok(Progress::Completes(SUCCESS)),
            ReadByte::MustWait => Ok(Progress::Waits),
        }
    }

    fn step_wc(
        &mut self,
        process: &Process<'t>,
        lines: &mut u64,
        bytes: &mut u64,
    ) -> Result<Progress, AllocError> {
        match self.read_byte(process, process.streams.stdin) {
            ReadByte::Got(byte) => {
                *bytes = bytes.saturating_add(1);
                if byte == b'\n' {
                    *lines = lines.saturating_add(1);
                }
                Ok(Progress::Works)
            }
            ReadByte::AtEnd => {
                let line = format!(in self.system.heap; "{lines} {bytes}\n")?;
                Ok(Progress::Ends {
                    line: Some(line.into_bytes()),
                    status: SUCCESS,
                })
            }
            ReadByte::MustWait => Ok(Progress::Waits),
        }
    }

    fn step_grep(
        &mut self,
        process: &Process<'t>,
        pattern: &[u8],
        line: &mut Vec<u8>,
        found: &mut bool,
    ) -> Result<Progress, AllocError> {
        match self.read_byte(process, process.streams.stdin) {
            ReadByte::Got(b'\n') => {
                let has = contains(pattern, line);
                *found |= has;
                let line = std::mem::replace(line, Vec::new(self.system.heap));
                if has {
                    Ok(Progress::Prints(as_line(line)?))
                } else {
                    Ok(Progress::Works)
                }
            }
            ReadByte::Got(byte) => {
                line.push(byte)?;
                Ok(Progress::Works)
            }
            ReadByte::AtEnd => {
                let line = std::mem::replace(line, Vec::new(self.system.heap));
                grep_last(pattern, line, *found)
            }
            ReadByte::MustWait => Ok(Progress::Waits),
        }
    }

    /// The status is 1 if the input ends in the line.
    fn step_read(
        &mut self,
        process: &mut Process<'t>,
        name: &[u8],
        line: &mut Vec<u8>,
    ) -> Result<Progress, AllocError> {
        let heap = self.system.heap;
        let status = match self.read_byte(process, process.streams.stdin) {
            ReadByte::Got(b'\n') => SUCCESS,
            ReadByte::Got(byte) => {
                line.push(byte)?;
                return Ok(Progress::Works);
            }
            ReadByte::AtEnd => FAILURE,
            ReadByte::MustWait => return Ok(Progress::Waits),
        };
        let value = std::mem::replace(line, Vec::new(heap));
        process.environment.set(heap, name, value)?;
        Ok(Progress::Completes(status))
    }
}

/// A last line without an end is a line, if there is anything of it.
fn grep_last(pattern: &[u8], line: Vec<u8>, found: bool) -> Result<Progress, AllocError> {
    let has = !line.is_empty() && contains(pattern, &line);
    let status = status_of(found || has);
    let line = if has { Some(as_line(line)?) } else { None };
    Ok(Progress::Ends { line, status })
}

/// The next number, as a line.
fn step_seq(heap: Global, range: &mut RangeInclusive<u32>) -> Result<Progress, AllocError> {
    match range.next() {
        Some(n) => Ok(Progress::Prints(as_line(decimal(heap, u64::from(n))?)?)),
        None => Ok(Progress::Completes(SUCCESS)),
    }
}
