//! Files by name.

use std::alloc::{AllocError, Global};

#[derive(Drop)]
pub struct NamedFile {
    pub name: Vec<u8>,
    pub bytes: Vec<u8>,
}

/// The files, the oldest first. They are few: a name is compared with those there are.
#[derive(Drop)]
pub struct Files {
    heap: Global,
    files: Vec<NamedFile>,
}

impl Files {
    pub fn new(heap: Global) -> Files {
        Files {
            heap,
            files: Vec::new(heap),
        }
    }

    /// As * gives their names.
    pub fn oldest_first(&self) -> &[NamedFile] {
        &self.files
    }

    fn place(&self, name: &[u8]) -> Option<usize> {
        self.files
            .iter()
            .position(|file| file.name.as_slice() == name)
    }

    pub fn contains(&self, name: &[u8]) -> bool {
        self.place(name).is_some()
    }

    /// What is in a file.
    pub fn get(&self, name: &[u8]) -> Option<&[u8]> {
        let place = self.place(name)?;
        let file = self.files.get(place)?;
        Some(&file.bytes)
    }

    fn get_mut(&mut self, name: &[u8]) -> Option<&mut Vec<u8>> {
        let place = self.place(name)?;
        let file = self.files.get_mut(place)?;
        Some(&mut file.bytes)
    }

    /// A file that isn't there yet is the newest.
    fn add(&mut self, name: &[u8], bytes: Vec<u8>) -> Result<(), AllocError> {
        let name = name.to_vec(self.heap)?;
        self.files.push(NamedFile { name, bytes })?;
        Ok(())
    }

    /// A file is there from now on, and empty. One that was there keeps its place and its room.
    pub fn create(&mut self, name: &[u8]) -> Result<(), AllocError> {
        match self.get_mut(name) {
            Some(bytes) => {
                bytes.clear();
                Ok(())
            }
            None => self.add(name, Vec::new(self.heap)),
        }
    }

    /// Puts a byte behind what is in a file. One that isn't there is made.
    pub fn append(&mut self, name: &[u8], byte: u8) -> Result<(), AllocError> {
        match self.get_mut(name) {
            Some(bytes) => {
                bytes.push(byte)?;
                Ok(())
            }
            None => self.add(name, vec![in self.heap; byte]?),
        }
    }

    /// A file that isn't there is no error.
    pub fn remove(&mut self, name: &[u8]) {
        self.files.retain(|file| file.name.as_slice() != name);
    }
}
