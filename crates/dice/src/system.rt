//! What processes share: files, what is open, pipes, and taking and putting a byte.

use crate::files::Files;
use dice_tree::tree::RedirectKind;
use std::alloc::{AllocError, Global};
use std::collections::VecDeque;

/// A pipe holds up to so many bytes.
const PIPE_SIZE: usize = 512;

/// The number of what is open. Numbers are given out in order, and nothing is ever closed: so handles stand in a Vec.
#[derive(Clone, Copy)]
pub struct HandleId(usize);

/// The number of a pipe, in the order in which they were made.
#[derive(Clone, Copy, PartialEq, Eq)]
pub struct PipeId(usize);

/// One end of a pipe.
#[derive(Clone, Copy, PartialEq, Eq)]
pub enum PipeEnd {
    Reading(PipeId),
    Writing(PipeId),
}

/// A file that is read, by its name, and the place of the next byte.
#[derive(Drop)]
pub struct FileReader {
    name: Vec<u8>,
    at: usize,
}

impl FileReader {
    pub fn new(name: Vec<u8>) -> FileReader {
        FileReader { name, at: 0 }
    }

    /// The next byte. Where there is no such file now, or nothing at that place, it ends.
    fn next(&mut self, files: &Files) -> Option<u8> {
        let byte = files.get(self.name.as_slice())?.get(self.at).copied()?;
        self.at = self.at.saturating_add(1);
        Some(byte)
    }
}

/// What is open: a file that is read; a file that is written behind what is there; an end of a pipe; the host's input;
/// the paper; what is left of a text given by <<.
#[derive(Drop)]
pub enum Handle {
    FileRead(FileReader),
    FileAppend { name: Vec<u8> },
    Pipe(PipeEnd),
    HostInput,
    HostPaper,
    HereText(VecDeque<u8>),
}

/// What a process reads from and writes to.
#[derive(Clone, Copy)]
pub struct Streams {
    pub stdin: HandleId,
    pub stdout: HandleId,
}

impl Streams {
    pub fn have(self, system: &System, end: PipeEnd) -> bool {
        system.is_end(self.stdin, end) || system.is_end(self.stdout, end)
    }
}

/// A pipe that is empty now.
#[derive(Clone, Copy)]
pub struct EmptyPipe(pub PipeId);

/// Writing a byte: it is written; the pipe is full; nobody can read the pipe any more.
/// Three answers that lead to three different moves, and none of them is an error.
#[derive(Clone, Copy)]
pub enum WriteByte {
    Wrote,
    PipeFull,
    NoReader,
}

#[derive(Drop)]
pub struct System {
    pub heap: Global,
    handles: Vec<Handle>,
    pipes: Vec<VecDeque<u8>>,
    pub files: Files,
    input: VecDeque<u8>,
    pub paper: Vec<u8>,
}

impl System {
    /// A system with nothing in it but the host's input.
    pub fn new(heap: Global, input: Vec<u8>) -> System {
        System {
            heap,
            handles: Vec::new(heap),
            pipes: Vec::new(heap),
            files: Files::new(heap),
            input: VecDeque::from_vec(input),
            paper: Vec::new(heap),
        }
    }

    /// Opens something, and answers its handle.
    pub fn open(&mut self, handle: Handle) -> Result<HandleId, AllocError> {
        let number = HandleId(self.handles.len());
        self.handles.push(handle)?;
        Ok(number)
    }

    /// Opens the host's input and the paper.
    pub fn open_host(&mut self) -> Result<Streams, AllocError> {
        let stdin = self.open(Handle::HostInput)?;
        let stdout = self.open(Handle::HostPaper)?;
        Ok(Streams { stdin, stdout })
    }

    /// A pipe and its two ends: the one that is read, and the one that is written.
    pub fn open_pipe(&mut self) -> Result<(HandleId, HandleId), AllocError> {
        let pipe = PipeId(self.pipes.len());
        self.pipes.push(VecDeque::new(self.heap))?;
        let reading = self.open(Handle::Pipe(PipeEnd::Reading(pipe)))?;
        let writing = self.open(Handle::Pipe(PipeEnd::Writing(pipe)))?;
        Ok((reading, writing))
    }

    /// What is open after a redirection to a file or a text; nothing if the file to be read isn't there. A file that is
    /// written is made if need be.
    pub fn redirected(
        &mut self,
        streams: Streams,
        kind: RedirectKind,
        name: Vec<u8>,
    ) -> Result<Option<Streams>, AllocError> {
        if kind == RedirectKind::Input && !self.has_file(name.as_slice()) {
            return Ok(None);
        }
        let Streams { stdin, stdout } = streams;
        let streams = match kind {
            RedirectKind::Input => Streams {
                stdin: self.open(Handle::FileRead(FileReader::new(name)))?,
                stdout,
            },
            RedirectKind::Here => Streams {
                stdin: self.open(Handle::HereText(VecDeque::from_vec(name)))?,
                stdout,
            },
            RedirectKind::Output => Streams {
                stdin,
                stdout: self.create(name)?,
            },
            RedirectKind::Append => Streams {
                stdin,
                stdout: self.append(name)?,
            },
        };
        Ok(Some(streams))
    }

    /// Opens a file that is empty first.
    fn create(&mut self, name: Vec<u8>) -> Result<HandleId, AllocError> {
        self.files.create(&name)?;
        self.open(Handle::FileAppend { name })
    }

    /// Opens a file that is written behind what is there.
    fn append(&mut self, name: Vec<u8>) -> Result<HandleId, AllocError> {
        if !self.has_file(name.as_slice()) {
            self.files.create(&name)?;
        }
        self.open(Handle::FileAppend { name })
    }

    pub fn has_file(&self, name: &[u8]) -> bool {
        self.files.contains(name)
    }

    /// A file that isn't there is no error.
    pub fn remove_file(&mut self, name: &[u8]) {
        self.files.remove(name);
    }

    /// Whether a handle is this end of a pipe.
    pub fn is_end(&self, handle: HandleId, end: PipeEnd) -> bool {
        matches!(self.handles.get(handle.0), Some(Handle::Pipe(open)) if *open == end)
    }

    /// The pipe that is written by a handle, if it is one.
    pub fn written_pipe(&self, handle: HandleId) -> Option<PipeId> {
        match self.handles.get(handle.0) {
            Some(Handle::Pipe(PipeEnd::Writing(pipe))) => Some(*pipe),
            _ => None,
        }
    }

    /// Takes a byte from a handle; nothing at its end. From what is open for writing there is nothing to read.
    pub fn take_byte(&mut self, handle: HandleId) -> Result<Option<u8>, EmptyPipe> {
        match self.handles.get_mut(handle.0) {
            Some(Handle::Pipe(PipeEnd::Reading(pipe))) => {
                let pipe = *pipe;
                self.take_from_pipe(pipe)
            }
            Some(Handle::HostInput) => Ok(self.input.pop_front()),
            Some(Handle::HereText(bytes)) => Ok(bytes.pop_front()),
            Some(Handle::FileRead(file)) => Ok(file.next(&self.files)),
            _ => Ok(None),
        }
    }

    fn take_from_pipe(&mut self, pipe: PipeId) -> Result<Option<u8>, EmptyPipe> {
        match self.pipes.get_mut(pipe.0) {
            Some(bytes) => match bytes.pop_front() {
                Some(byte) => Ok(Some(byte)),
                None => Err(EmptyPipe(pipe)),
            },
            None => Ok(None),
        }
    }

    /// Puts a byte into what a handle stands for. Who writes to a file writes behind what is there, and makes it again if
    /// it was removed. What is written to something that is open for reading is lost.
    pub fn put_byte(&mut self, handle: HandleId, byte: u8) -> Result<WriteByte, AllocError> {
        match self.handles.get(handle.0) {
            None => return Ok(WriteByte::NoReader),
            Some(Handle::Pipe(PipeEnd::Writing(pipe))) => {
                let pipe = *pipe;
                return self.put_into_pipe(pipe, byte);
            }
            Some(Handle::FileAppend { name }) => self.files.append(name, byte)?,
            Some(Handle::HostPaper) => self.paper.push(byte)?,
            Some(_) => {}
        }
        Ok(WriteByte::Wrote)
    }

    fn put_into_pipe(&mut self, pipe: PipeId, byte: u8) -> Result<WriteByte, AllocError> {
        let Some(bytes) = self.pipes.get_mut(pipe.0) else {
            return Ok(WriteByte::NoReader);
        };
        if bytes.len() >= PIPE_SIZE {
            return Ok(WriteByte::PipeFull);
        }
        bytes.push_back(byte)?;
        Ok(WriteByte::Wrote)
    }
}
