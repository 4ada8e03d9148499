//! Words while they are put together from their parts.

use crate::text::{QuotedByte, bytes_of};
use std::alloc::{AllocError, Global};

/// Whether values outside quotes are split at blanks.
#[derive(Clone, Copy, PartialEq, Eq)]
pub enum Values {
    Split,
    Whole,
}

/// What there is of the word at work, if anything is; the words that are complete; and what becomes of values.
#[derive(Drop)]
pub struct WordBuilder {
    heap: Global,
    current: Option<Vec<QuotedByte>>,
    complete: Vec<Vec<QuotedByte>>,
    values: Values,
}

impl WordBuilder {
    pub fn new(heap: Global, values: Values) -> WordBuilder {
        WordBuilder {
            heap,
            current: None,
            complete: Vec::new(heap),
            values,
        }
    }

    /// The words that are complete.
    pub fn complete(&self) -> &[Vec<QuotedByte>] {
        &self.complete
    }

    /// The bytes of the first word.
    pub fn first_bytes(&self) -> Result<Vec<u8>, AllocError> {
        match self.complete.first() {
            Some(word) => bytes_of(self.heap, word),
            None => Ok(Vec::new(self.heap)),
        }
    }

    /// The word at work, which is there from now on, if only as an empty one.
    fn open_word(&mut self) -> &mut Vec<QuotedByte> {
        let heap = self.heap;
        self.current.get_or_insert(Vec::new(heap))
    }

    /// The word that is open, if one is, is complete.
    pub fn close_word(&mut self) -> Result<(), AllocError> {
        if let Some(word) = self.current.take() {
            self.complete.push(word)?;
        }
        Ok(())
    }

    /// A blank closes the word; where there is nothing there is no word.
    fn insert_split(&mut self, value: &[u8]) -> Result<(), AllocError> {
        for &byte in value {
            match byte {
                b' ' | b'\n' | b'\t' => self.close_word()?,
                _ => {
                    let quoted = false;
                    self.open_word().push(QuotedByte { byte, quoted })?;
                }
            }
        }
        Ok(())
    }

    /// Bytes come into a word, and make it be there, also if there are none.
    pub fn insert_bytes(&mut self, quoted: bool, bytes: &[u8]) -> Result<(), AllocError> {
        let word = self.open_word();
        for &byte in bytes {
            word.push(QuotedByte { byte, quoted })?;
        }
        Ok(())
    }

    /// A value comes into a word: outside quotes it is split where values are split; in quotes, also empty ones, it makes
    /// a word be there.
    pub fn insert_value(&mut self, quoted: bool, value: &[u8]) -> Result<(), AllocError> {
        if self.values == Values::Split && !quoted {
            self.insert_split(value)
        } else {
            self.insert_bytes(quoted, value)
        }
    }
}
