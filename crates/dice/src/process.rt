//! A process.

use crate::control::{Control, Frame, Pid};
use crate::system::{PipeEnd, Streams, System};
use crate::text::{SUCCESS, decimal};
use crate::words::WordBuilder;
use dice_tree::tree::{Item, WordPart};
use std::alloc::{AllocError, Global};
use std::collections::{BTreeMap, VecDeque};

/// What holds in a process, and at first in those that it begins.
#[derive(Clone, Drop)]
pub struct Environment<'t> {
    pub variables: BTreeMap<Vec<u8>, Vec<u8>>,
    pub functions: BTreeMap<Vec<u8>, &'t [Item]>,
    pub arguments: VecDeque<Vec<u8>>,
    /// The last status, $?.
    pub status: u32,
}

impl<'t> Environment<'t> {
    pub fn new(heap: Global) -> Environment<'t> {
        Environment {
            variables: BTreeMap::new(heap),
            functions: BTreeMap::new(heap),
            arguments: VecDeque::new(heap),
            status: SUCCESS,
        }
    }

    pub fn set(&mut self, heap: Global, name: &[u8], value: Vec<u8>) -> Result<(), AllocError> {
        self.variables.insert(name.to_vec(heap)?, value)?;
        Ok(())
    }

    pub fn define(
        &mut self,
        heap: Global,
        name: &[u8],
        body: &'t [Item],
    ) -> Result<(), AllocError> {
        self.functions.insert(name.to_vec(heap)?, body)?;
        Ok(())
    }

    /// The body of a function, the newest of its name.
    pub fn function(&self, name: &[u8]) -> Option<&'t [Item]> {
        self.functions.get(name).copied()
    }

    /// What a variable stands for: nothing if it was never set.
    fn variable(&self, name: &[u8]) -> &[u8] {
        match self.variables.get(name) {
            Some(value) => value,
            None => &[],
        }
    }

    /// $1 to $9 are the arguments; $0 and one that isn't there are nothing.
    fn argument(&self, digit: u8) -> &[u8] {
        let Some(before) = digit.checked_sub(b'1') else {
            return &[];
        };
        match self.arguments.get(usize::from(before)) {
            Some(value) => value,
            None => &[],
        }
    }

    /// $? is the last status, $# how many arguments there are; any other name is a variable.
    fn value(&self, heap: Global, name: &[u8]) -> Result<Vec<u8>, AllocError> {
        match name {
            [] => Ok(Vec::new(heap)),
            [b'?', ..] => decimal(heap, u64::from(self.status)),
            [b'#', ..] => decimal(heap, self.arguments.len() as u64),
            [digit @ b'0'..=b'9', ..] => self.argument(*digit).to_vec(heap),
            _ => self.variable(name).to_vec(heap),
        }
    }

    /// A part that is bytes or a parameter comes into the word.
    pub fn insert_part(
        &self,
        heap: Global,
        built: &mut WordBuilder,
        part: &WordPart,
    ) -> Result<(), AllocError> {
        match part {
            WordPart::Literal { quoted, bytes } => built.insert_bytes(*quoted, bytes),
            WordPart::Parameter { quoted, name } => {
                let value = self.value(heap, name)?;
                built.insert_value(*quoted, &value)
            }
            WordPart::Substitution { .. } => Ok(()),
        }
    }
}

#[derive(Drop)]
pub struct Process<'t> {
    pub pid: Pid,
    pub control: Control<'t>,
    /// The innermost last.
    pub frames: Vec<Frame<'t>>,
    pub streams: Streams,
    pub environment: Environment<'t>,
    /// The processes begun with & since the last wait.
    pub jobs: Vec<Pid>,
}

impl<'t> Process<'t> {
    pub fn new(
        heap: Global,
        pid: Pid,
        control: Control<'t>,
        streams: Streams,
        environment: Environment<'t>,
    ) -> Process<'t> {
        Process {
            pid,
            control,
            frames: Vec::new(heap),
            streams,
            environment,
            jobs: Vec::new(heap),
        }
    }

    /// The first argument goes, if there is one.
    pub fn shift(&mut self) -> u32 {
        let _ = self.environment.arguments.pop_front();
        SUCCESS
    }

    /// It has this end of a pipe open, or will have it open again: as its input or output, saved in a frame, in a cat or
    /// in a $( ).
    pub fn holds(&self, system: &System, end: PipeEnd) -> bool {
        self.streams.have(system, end)
            || self.frames.iter().any(|frame| frame.keeps(system, end))
            || self.control.keeps(system, end)
    }
}
