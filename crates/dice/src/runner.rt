//! All processes, and the moves that they make.

use crate::control::{Control, Pid, Step};
use crate::process::{Environment, Process};
use crate::system::{HandleId, PipeEnd, Streams, System, WriteByte};
use crate::text::SUCCESS;
use dice_tree::tree::Item;
use prng::Dice;
use std::alloc::{AllocError, Global};
use std::collections::BTreeMap;

/// The system and its processes. The one that moves stands beside the others, and its place is empty: so they are boxed.
#[derive(Drop)]
pub struct Runner<'t> {
    pub system: System,
    pub processes: Vec<Option<Box<Process<'t>>>>,
    next_pid: usize,
    /// The statuses of those who have exited.
    pub exited: BTreeMap<Pid, u32>,
}

/// Reading a byte: a byte; there are no more; there may be more later.
/// Three answers that lead to three different moves, and none of them is an error.
#[derive(Clone, Copy)]
pub enum ReadByte {
    Got(u8),
    AtEnd,
    MustWait,
}

/// What a move comes to: the process goes on, it has to wait, or it has exited with this status.
/// `Step` without its control, which is put back by then.
#[derive(Clone, Copy, PartialEq, Eq)]
enum Motion {
    Continues,
    Waits,
    Exits(u32),
}

/// What a turn comes to: somebody has moved, or nobody can.
#[derive(Clone, Copy, PartialEq, Eq)]
pub enum Turn {
    Moved,
    Stuck,
}

impl<'t> Runner<'t> {
    /// At first one process, number 0, reads the host's input and writes the paper.
    pub fn new(heap: Global, list: &'t [Item], input: Vec<u8>) -> Result<Runner<'t>, AllocError> {
        let mut system = System::new(heap, input);
        let streams = system.open_host()?;
        let mut runner = Runner {
            system,
            processes: Vec::new(heap),
            next_pid: 0,
            exited: BTreeMap::new(heap),
        };
        runner.begin(Control::List(list), streams, Environment::new(heap))?;
        Ok(runner)
    }

    /// A new process. Answers its number.
    fn begin(
        &mut self,
        control: Control<'t>,
        streams: Streams,
        environment: Environment<'t>,
    ) -> Result<Pid, AllocError> {
        let pid = Pid(self.next_pid);
        let process = Process::new(self.system.heap, pid, control, streams, environment);
        self.processes
            .push(Some(Box::new(self.system.heap, process)?))?;
        self.next_pid = self.next_pid.saturating_add(1);
        Ok(pid)
    }

    /// A new process: like this one, with other things to do and other streams. It begins with the variables, functions,
    /// arguments and last status as they are, and with no jobs.
    pub fn spawn(
        &mut self,
        process: &Process<'t>,
        control: Control<'t>,
        streams: Streams,
    ) -> Result<Pid, AllocError> {
        let environment = process.environment.clone()?;
        self.begin(control, streams, environment)
    }

    /// Somebody holds this end of a pipe: the process that moves, or another.
    fn is_held(&self, process: &Process<'t>, end: PipeEnd) -> bool {
        let system = &self.system;
        let mut others = self.processes.iter().filter_map(|place| place.as_ref());
        process.holds(system, end) || others.any(|other| other.holds(system, end))
    }

    /// Reads a byte from a handle. An empty pipe ends when nobody holds its other end any more.
    pub fn read_byte(&mut self, process: &Process<'t>, handle: HandleId) -> ReadByte {
        match self.system.take_byte(handle) {
            Ok(Some(byte)) => ReadByte::Got(byte),
            Ok(None) => ReadByte::AtEnd,
            Err(empty) if self.is_held(process, PipeEnd::Writing(empty.0)) => ReadByte::MustWait,
            Err(_) => ReadByte::AtEnd,
        }
    }

    /// Writes a byte to what a process writes to.
    pub fn write_byte(&mut self, process: &Process<'t>, byte: u8) -> Result<WriteByte, AllocError> {
        let stdout = process.streams.stdout;
        match self.system.written_pipe(stdout) {
            Some(pipe) if !self.is_held(process, PipeEnd::Reading(pipe)) => Ok(WriteByte::NoReader),
            _ => self.system.put_byte(stdout, byte),
        }
    }

    /// A process moves, if it can: its control is what the step leads to, or as it was.
    fn move_process(&mut self, process: &mut Process<'t>) -> Result<Motion, AllocError> {
        let control = std::mem::replace(&mut process.control, Control::Status(SUCCESS));
        let (control, motion) = match self.step(process, control)? {
            Step::GoesTo(next) => (next, Motion::Continues),
            Step::Waits(same) => (same, Motion::Waits),
            Step::Exits(status) => return Ok(Motion::Exits(status)),
        };
        process.control = control;
        Ok(motion)
    }

    /// Takes the process at this place out of it.
    /// It is looked up: that those who wait keep their places would be owed by every step otherwise.
    fn take_out(&mut self, i: usize) -> Option<Box<Process<'t>>> {
        self.processes.get_mut(i)?.take()
    }

    /// Puts a process back to its place.
    fn put_back(&mut self, i: usize, process: Box<Process<'t>>) {
        if let Some(place) = self.processes.get_mut(i) {
            *place = Some(process);
        }
    }

    /// The process at this place has exited: its status stays, and nothing else of it.
    fn leave(&mut self, i: usize, pid: Pid, status: u32) -> Result<(), AllocError> {
        self.exited.insert(pid, status)?;
        if i < self.processes.len() {
            let _ = self.processes.remove(i);
        }
        Ok(())
    }

    /// The process at this place moves, if it can.
    fn move_at(&mut self, i: usize) -> Result<Motion, AllocError> {
        let Some(mut process) = self.take_out(i) else {
            return Ok(Motion::Waits);
        };
        let motion = self.move_process(&mut process)?;
        let pid = process.pid;
        self.put_back(i, process);
        if let Motion::Exits(status) = motion {
            self.leave(i, pid, status)?;
        }
        Ok(motion)
    }

    /// One move: from a place that the dice choose on, the first process that can.
    pub fn move_one(&mut self, dice: &mut Dice) -> Result<Turn, AllocError> {
        let count = self.processes.len();
        let first = dice.below(count);
        // By number: a process is taken out of its place and put back.
        for i in (first..count).chain(0..first) {
            if self.move_at(i)? != Motion::Waits {
                return Ok(Turn::Moved);
            }
        }
        Ok(Turn::Stuck)
    }
}
