//! What a process does in one move.

use crate::control::{
    AfterRedirects, Branches, Capture, Control, Expansion, For, Frame, Pid, Purpose, Simple, Step,
    Unwind, While,
};
use crate::process::Process;
use crate::runner::{ReadByte, Runner};
use crate::system::Streams;
use crate::text::{FAILURE, QuotedByte, SUCCESS, bytes_of, has_pattern, matches_name, trim};
use crate::words::WordBuilder;
use dice_tree::tree::{
    Arm, Command, Compound, Item, Joined, Joiner, Joins, Pipeline, Redirect, RedirectKind, WordPart,
};
use std::alloc::{AllocError, Global};
use std::collections::VecDeque;

/// name=word from the left, each holding from then on; then the words.
fn step_simple<'t>(heap: Global, simple: Simple<'t>) -> Step<'t> {
    let Simple {
        assignments,
        words,
        redirects,
    } = simple;
    let Some((assignment, assignments)) = assignments.split_first() else {
        return Step::expands(heap, words, Purpose::Invoke { redirects });
    };
    let rest = Simple {
        assignments,
        ..simple
    };
    let name = assignment.name.as_slice();
    Step::expands_one(heap, &assignment.word, Purpose::Assign { name, rest })
}

/// The arms of a case, until one matches; status 0 if none does.
fn step_arms<'t>(heap: Global, subject: Vec<u8>, arms: &'t [Arm]) -> Step<'t> {
    let Some((arm, rest)) = arms.split_first() else {
        return Step::completes(SUCCESS);
    };
    let list = arm.list.as_slice();
    let purpose = Purpose::Match {
        subject,
        list,
        rest,
    };
    Step::expands_one(heap, &arm.pattern, purpose)
}

/// The word of a case is expanded: its first arm.
fn select<'t>(heap: Global, built: &WordBuilder, arms: &'t [Arm]) -> Result<Step<'t>, AllocError> {
    Ok(step_arms(heap, built.first_bytes()?, arms))
}

/// The pattern of an arm is expanded: its list is done if it matches, else the next arm is tried. No word is the empty
/// pattern.
fn step_match<'t>(
    heap: Global,
    built: &WordBuilder,
    subject: Vec<u8>,
    list: &'t [Item],
    rest: &'t [Arm],
) -> Result<Step<'t>, AllocError> {
    let matches = match built.complete().first() {
        Some(pattern) => matches_name(heap, pattern, &subject)?,
        None => subject.is_empty(),
    };
    Ok(if matches {
        Step::GoesTo(Control::List(list))
    } else {
        step_arms(heap, subject, rest)
    })
}

/// A condition is done. An if of which no branch is taken has status 0; an else that is there is a branch.
fn step_branches<'t>(branches: Branches<'t>, status: u32) -> Step<'t> {
    match branches.otherwise {
        _ if status == SUCCESS => Step::GoesTo(Control::List(branches.then)),
        Some(list) => Step::GoesTo(Control::List(list)),
        None => Step::completes(SUCCESS),
    }
}

/// What stands behind && or || is done or not.
fn step_joined<'t>(joined: &'t Joined, status: u32) -> Step<'t> {
    if (joined.joiner == Joiner::And) == (status == SUCCESS) {
        Step::GoesTo(Control::Pipeline(&joined.pipeline))
    } else {
        Step::completes(status)
    }
}

impl<'t> Process<'t> {
    /// It does this, and goes on behind it with that frame.
    fn enters(&mut self, frame: Frame<'t>, control: Control<'t>) -> Result<Step<'t>, AllocError> {
        self.frames.push(frame)?;
        Ok(Step::GoesTo(control))
    }

    fn enters_condition(&mut self, round: While<'t>) -> Result<Step<'t>, AllocError> {
        self.enters(Frame::Condition(round), Control::List(round.condition))
    }

    /// The next round of a for: its variable is set, and its list is done. Where no word is left the status is given.
    fn step_for(
        &mut self,
        heap: Global,
        of: For<'t>,
        mut words: VecDeque<Vec<u8>>,
        status: u32,
    ) -> Result<Step<'t>, AllocError> {
        let Some(word) = words.pop_front() else {
            return Ok(Step::completes(status));
        };
        self.environment.set(heap, of.name, word)?;
        self.enters(Frame::For { of, words }, Control::List(of.body))
    }

    /// The last of several comes after those before it.
    fn step_and_or(&mut self, joins: Joins<'t>) -> Result<Step<'t>, AllocError> {
        match joins.split_last() {
            Some((last, before)) => self.enters(Frame::AndOr(last), Control::AndOr(before)),
            None => Ok(Step::GoesTo(Control::Pipeline(joins.first))),
        }
    }

    /// Redirections are made first; what was open before is open again after the command.
    fn enters_redirects(
        &mut self,
        redirects: &'t [Redirect],
        then: AfterRedirects<'t>,
    ) -> Result<Step<'t>, AllocError> {
        let control = Control::Redirects { redirects, then };
        self.enters(Frame::Streams(self.streams), control)
    }

    /// The word of an assignment is expanded: it is made, and then what comes behind it.
    fn assign(
        &mut self,
        heap: Global,
        name: &[u8],
        built: &WordBuilder,
        rest: Simple<'t>,
    ) -> Result<Step<'t>, AllocError> {
        self.environment.set(heap, name, built.first_bytes()?)?;
        Ok(step_simple(heap, rest))
    }

    /// A function is defined.
    fn define(
        &mut self,
        heap: Global,
        name: &[u8],
        body: &'t [Item],
    ) -> Result<Step<'t>, AllocError> {
        self.environment.define(heap, name, body)?;
        Ok(Step::completes(SUCCESS))
    }

    /// A command is done with a status: the innermost frame.
    fn step_status(&mut self, heap: Global, status: u32) -> Result<Step<'t>, AllocError> {
        self.environment.status = status;
        let Some(frame) = self.frames.pop() else {
            return Ok(Step::Exits(status));
        };
        let step = match frame {
            Frame::List([]) => Step::completes(status),
            Frame::List(rest) => Step::GoesTo(Control::List(rest)),
            Frame::AndOr(joined) => step_joined(joined, status),
            Frame::Not => Step::completes(if status == SUCCESS { FAILURE } else { SUCCESS }),
            Frame::If(branches) => step_branches(branches, status),
            Frame::Condition(_) if status != SUCCESS => Step::completes(SUCCESS),
            Frame::Condition(round) => {
                return self.enters(Frame::Body(round), Control::List(round.body));
            }
            Frame::Body(round) => return self.enters_condition(round),
            Frame::For { of, words } => return self.step_for(heap, of, words, status),
            Frame::Streams(streams) => {
                self.streams = streams;
                Step::completes(status)
            }
            Frame::Arguments(before) => {
                self.environment.arguments = before;
                Step::completes(status)
            }
        };
        Ok(step)
    }

    /// break, continue, return, exit go outward: break and continue to the innermost loop, or out of a function if that
    /// is nearer; return out of the innermost function. Where there is nothing to go out of, the process ends.
    fn step_unwind(&mut self, unwind: Unwind) -> Result<Step<'t>, AllocError> {
        let Some(frame) = self.frames.pop() else {
            return Ok(Step::Exits(unwind.status()));
        };
        match frame {
            Frame::Condition(round) | Frame::Body(round) => match unwind {
                Unwind::Break => Ok(Step::completes(SUCCESS)),
                Unwind::Continue => self.enters_condition(round),
                Unwind::Return(_) | Unwind::Exit(_) => Ok(Step::unwinds(unwind)),
            },
            Frame::For { of, words } => match unwind {
                Unwind::Break => Ok(Step::completes(SUCCESS)),
                Unwind::Continue => {
                    self.enters(Frame::For { of, words }, Control::Status(SUCCESS))
                }
                Unwind::Return(_) | Unwind::Exit(_) => Ok(Step::unwinds(unwind)),
            },
            Frame::Streams(streams) => {
                self.streams = streams;
                Ok(Step::unwinds(unwind))
            }
            Frame::Arguments(before) => {
                self.environment.arguments = before;
                match unwind {
                    Unwind::Exit(_) => Ok(Step::unwinds(unwind)),
                    _ => Ok(Step::completes(unwind.status())),
                }
            }
            Frame::List(_) | Frame::AndOr(_) | Frame::Not | Frame::If(_) => {
                Ok(Step::unwinds(unwind))
            }
        }
    }
}

impl<'t> Runner<'t> {
    /// An empty list has the last status; what is begun with & has status 0 at first.
    fn step_list(
        &mut self,
        process: &mut Process<'t>,
        list: &'t [Item],
    ) -> Result<Step<'t>, AllocError> {
        let Some((item, rest)) = list.split_first() else {
            return Ok(Step::completes(process.environment.status));
        };
        let control = Control::AndOr(item.and_or.joins());
        if !item.background {
            return process.enters(Frame::List(rest), control);
        }
        let pid = self.spawn(process, control, process.streams)?;
        process.jobs.push(pid)?;
        process.environment.status = SUCCESS;
        Ok(Step::GoesTo(Control::List(rest)))
    }

    /// A process for each command of a pipeline, all at once, each reading the pipe that the one before writes.
    fn spawn_pipeline(
        &mut self,
        process: &Process<'t>,
        before: &'t [Command],
        last: &'t Command,
    ) -> Result<Vec<Pid>, AllocError> {
        let mut pids = Vec::new(self.system.heap);
        let Streams { mut stdin, stdout } = process.streams;
        for command in before {
            let (reading, writing) = self.system.open_pipe()?;
            let streams = Streams {
                stdin,
                stdout: writing,
            };
            pids.push(self.spawn(process, Control::Command(command), streams)?)?;
            stdin = reading;
        }
        let streams = Streams { stdin, stdout };
        pids.push(self.spawn(process, Control::Command(last), streams)?)?;
        Ok(pids)
    }

    /// A command alone is done by this process, those between pipes by processes of their own that it waits for.
    fn step_pipeline(
        &mut self,
        process: &mut Process<'t>,
        pipeline: &'t Pipeline,
    ) -> Result<Step<'t>, AllocError> {
        if pipeline.negated {
            process.frames.push(Frame::Not)?;
        }
        let control = match pipeline.commands.split_last() {
            Some((command, [])) => Control::Command(command),
            Some((last, before)) => Control::Wait(self.spawn_pipeline(process, before, last)?),
            None => Control::Status(SUCCESS),
        };
        Ok(Step::GoesTo(control))
    }

    /// A command that is made of lists makes its redirections first; what was open before is open again after it.
    fn step_command(
        &mut self,
        process: &mut Process<'t>,
        command: &'t Command,
    ) -> Result<Step<'t>, AllocError> {
        let heap = self.system.heap;
        match command {
            Command::Simple {
                assignments,
                words,
                redirects,
            } => Ok(step_simple(
                heap,
                Simple {
                    assignments,
                    words,
                    redirects,
                },
            )),
            Command::Function { name, body } => process.define(heap, name, body),
            Command::Compound {
                compound,
                redirects,
            } if redirects.is_empty() => self.step_compound(process, compound),
            Command::Compound {
                compound,
                redirects,
            } => process.enters_redirects(redirects, AfterRedirects::Compound(compound)),
        }
    }

    /// A command that is made of lists, whose redirections are made.
    fn step_compound(
        &mut self,
        process: &mut Process<'t>,
        compound: &'t Compound,
    ) -> Result<Step<'t>, AllocError> {
        let heap = self.system.heap;
        match compound {
            Compound::Group(list) => Ok(Step::GoesTo(Control::List(list))),
            Compound::Subshell(list) => {
                let pid = self.spawn(process, Control::List(list), process.streams)?;
                Ok(Step::GoesTo(Control::Wait(vec![in heap; pid]?)))
            }
            Compound::If {
                condition,
                then,
                otherwise,
            } => {
                let otherwise = otherwise.as_deref();
                let branches = Branches { then, otherwise };
                process.enters(Frame::If(branches), Control::List(condition))
            }
            Compound::While { condition, body } => process.enters_condition(While {
                condition,
                body,
            }),
            Compound::For { name, words, body } => Ok(Step::expands(
                heap,
                words,
                Purpose::For(For { name, body }),
            )),
            Compound::Case { word, arms } => Ok(Step::expands_one(
                heap,
                word,
                Purpose::Select { arms },
            )),
        }
    }

    /// Redirections from the left, then what they are for.
    fn step_redirects(
        &mut self,
        process: &mut Process<'t>,
        redirects: &'t [Redirect],
        then: AfterRedirects<'t>,
    ) -> Result<Step<'t>, AllocError> {
        if let Some((redirect, rest)) = redirects.split_first() {
            let kind = redirect.kind;
            let purpose = Purpose::Redirect { kind, rest, then };
            return Ok(Step::expands_one(self.system.heap, &redirect.word, purpose));
        }
        match then {
            AfterRedirects::Invoke(words) => self.invoke(process, words),
            AfterRedirects::Compound(compound) => Ok(Step::GoesTo(Control::Compound(compound))),
        }
    }

    /// The first word names a function, or else a builtin; no words at all have status 0.
    fn invoke(
        &mut self,
        process: &mut Process<'t>,
        mut words: VecDeque<Vec<u8>>,
    ) -> Result<Step<'t>, AllocError> {
        let Some(name) = words.pop_front() else {
            return Ok(Step::completes(SUCCESS));
        };
        let Some(body) = process.environment.function(&name) else {
            return self.start_builtin(process, &name, &mut words);
        };
        let before = std::mem::replace(&mut process.environment.arguments, words);
        process.enters(Frame::Arguments(before), Control::List(body))
    }

    /// Each word with * or ? outside quotes becomes the names of all files that match, the oldest first, if there are any.
    fn all_pathnames(&self, words: &[Vec<QuotedByte>]) -> Result<VecDeque<Vec<u8>>, AllocError> {
        let mut all = VecDeque::new(self.system.heap);
        for word in words {
            let before = all.len();
            if has_pattern(word) {
                self.push_matching(word, &mut all)?;
            }
            if all.len() == before {
                all.push_back(bytes_of(self.system.heap, word)?)?;
            }
        }
        Ok(all)
    }

    fn push_matching(
        &self,
        pattern: &[QuotedByte],
        all: &mut VecDeque<Vec<u8>>,
    ) -> Result<(), AllocError> {
        for file in self.system.files.oldest_first() {
            if matches_name(self.system.heap, pattern, &file.name)? {
                all.push_back(file.name.clone()?)?;
            }
        }
        Ok(())
    }

    /// All words are expanded: what they are for.
    /// One arm for each purpose: each takes other data out of its variant, so no table of functions would do.
    fn expanded(
        &mut self,
        process: &mut Process<'t>,
        expansion: Expansion<'t>,
    ) -> Result<Step<'t>, AllocError> {
        let heap = self.system.heap;
        let Expansion { built, purpose, .. } = expansion;
        match purpose {
            Purpose::Assign { name, rest } => process.assign(heap, name, &built, rest),
            Purpose::Invoke { redirects } => self.start_invocation(process, &built, redirects),
            Purpose::Redirect { kind, rest, then } => {
                self.redirect(process, &built, kind, rest, then)
            }
            Purpose::For(of) => self.start_for(process, &built, of),
            Purpose::Select { arms } => select(heap, &built, arms),
            Purpose::Match {
                subject,
                list,
                rest,
            } => step_match(heap, &built, subject, list, rest),
        }
    }

    /// The words of a simple command: its redirections are made, and then they are invoked.
    fn start_invocation(
        &self,
        process: &mut Process<'t>,
        built: &WordBuilder,
        redirects: &'t [Redirect],
    ) -> Result<Step<'t>, AllocError> {
        let words = self.all_pathnames(built.complete())?;
        process.enters_redirects(redirects, AfterRedirects::Invoke(words))
    }

    /// A redirection's word: its file or text is opened. If the file isn't there the command is not done, and has status 1.
    fn redirect(
        &mut self,
        process: &mut Process<'t>,
        built: &WordBuilder,
        kind: RedirectKind,
        redirects: &'t [Redirect],
        then: AfterRedirects<'t>,
    ) -> Result<Step<'t>, AllocError> {
        let name = built.first_bytes()?;
        let Some(streams) = self.system.redirected(process.streams, kind, name)? else {
            return Ok(Step::completes(FAILURE));
        };
        process.streams = streams;
        Ok(Step::GoesTo(Control::Redirects { redirects, then }))
    }

    fn start_for(
        &self,
        process: &mut Process<'t>,
        built: &WordBuilder,
        of: For<'t>,
    ) -> Result<Step<'t>, AllocError> {
        let words = self.all_pathnames(built.complete())?;
        process.step_for(self.system.heap, of, words, SUCCESS)
    }

    /// One part of a word; behind the last part, the next word, if there is one.
    fn step_expansion(
        &mut self,
        process: &mut Process<'t>,
        mut expansion: Expansion<'t>,
    ) -> Result<Step<'t>, AllocError> {
        let Some((part, rest)) = expansion.to_come.split_first() else {
            return self.next_word(process, expansion);
        };
        expansion.to_come = rest;
        if let WordPart::Substitution { quoted, list } = part {
            return self.start_capture(process, list, *quoted, expansion);
        }
        let heap = self.system.heap;
        process
            .environment
            .insert_part(heap, &mut expansion.built, part)?;
        Ok(Step::GoesTo(Control::Words(expansion)))
    }

    /// The word is complete: the next one, if there is one.
    fn next_word(
        &mut self,
        process: &mut Process<'t>,
        mut expansion: Expansion<'t>,
    ) -> Result<Step<'t>, AllocError> {
        expansion.built.close_word()?;
        match expansion.to_come.next_word() {
            Some(next) => {
                expansion.to_come = next;
                Ok(Step::GoesTo(Control::Words(expansion)))
            }
            None => self.expanded(process, expansion),
        }
    }

    /// A $( ) is a process of its own that writes to a pipe.
    fn start_capture(
        &mut self,
        process: &Process<'t>,
        list: &'t [Item],
        quoted: bool,
        expansion: Expansion<'t>,
    ) -> Result<Step<'t>, AllocError> {
        let (handle, stdout) = self.system.open_pipe()?;
        let stdin = process.streams.stdin;
        let _ = self.spawn(process, Control::List(list), Streams { stdin, stdout })?;
        Ok(Step::GoesTo(Control::Capture(Capture {
            handle,
            bytes: Vec::new(self.system.heap),
            quoted,
            expansion,
        })))
    }

    /// $( ) is read until nobody can write to it any more. What was printed comes into the word, without the ends of
    /// lines at its end.
    fn step_capture(
        &mut self,
        process: &Process<'t>,
        mut capture: Capture<'t>,
    ) -> Result<Step<'t>, AllocError> {
        match self.read_byte(process, capture.handle) {
            ReadByte::Got(byte) => {
                capture.bytes.push(byte)?;
                Ok(Step::GoesTo(Control::Capture(capture)))
            }
            ReadByte::AtEnd => {
                let Capture {
                    bytes,
                    quoted,
                    mut expansion,
                    ..
                } = capture;
                expansion.built.insert_value(quoted, &trim(bytes))?;
                Ok(Step::GoesTo(Control::Words(expansion)))
            }
            ReadByte::MustWait => Ok(Step::Waits(Control::Capture(capture))),
        }
    }

    /// Waiting for others: a step only if all have exited; then the last one's status, 0 if there is none.
    fn step_wait(&self, pids: Vec<Pid>) -> Step<'t> {
        let mut last = SUCCESS;
        for pid in pids.iter() {
            match self.exited.get(pid) {
                Some(status) => last = *status,
                None => return Step::Waits(Control::Wait(pids)),
            }
        }
        Step::completes(last)
    }

    /// The step of a process, if it can take one now. Its control is taken apart: what a cat reads is its input or a
    /// file, so that nobody's pipe seems closed by that.
    /// One arm for each control, as in `expanded`.
    pub fn step(
        &mut self,
        process: &mut Process<'t>,
        control: Control<'t>,
    ) -> Result<Step<'t>, AllocError> {
        let heap = self.system.heap;
        match control {
            Control::List(list) => self.step_list(process, list),
            Control::AndOr(joins) => process.step_and_or(joins),
            Control::Pipeline(pipeline) => self.step_pipeline(process, pipeline),
            Control::Command(command) => self.step_command(process, command),
            Control::Compound(compound) => self.step_compound(process, compound),
            Control::Words(expansion) => self.step_expansion(process, expansion),
            Control::Redirects { redirects, then } => self.step_redirects(process, redirects, then),
            Control::Builtin(builtin) => self.step_builtin(process, builtin),
            Control::Print(printing) => self.print_byte(process, printing),
            Control::Status(status) => process.step_status(heap, status),
            Control::Unwind(unwind) => process.step_unwind(unwind),
            Control::Wait(pids) => Ok(self.step_wait(pids)),
            Control::Capture(capture) => self.step_capture(process, capture),
        }
    }
}
