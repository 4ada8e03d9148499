//! The texts that are kept as data, each with what it gives: all of them bytes, as not every text is UTF-8.

use dice::run::Outcome;
use std::alloc::{AllocError, Global};

/// What a text is expected to come to.
/// No Result: a text that is none is what is expected here, and no error.
#[derive(Drop)]
pub enum Expectation {
    Runs(Outcome),
    /// It is no text: the place and what was expected there, as it is printed.
    NoText(Vec<u8>),
}

#[derive(Drop)]
pub struct Record {
    pub name: Vec<u8>,
    pub text: Vec<u8>,
    pub input: Vec<u8>,
    /// Missing where it is not compared.
    pub paper: Option<Vec<u8>>,
    pub stage: u32,
    pub calm: bool,
    pub expectation: Expectation,
}

/// Which part of a record the lines belong to.
#[derive(Clone, Copy)]
enum Section {
    Text,
    Input,
    Paper,
}

/// A line of a file of records, without the signs at its beginning.
#[derive(Clone, Copy)]
enum Line<'a> {
    /// The beginning of a record, with its name.
    Name(&'a [u8]),
    /// So many times a piece.
    Times(u32, &'a [u8]),
    /// A piece of a line, and a whole one.
    Piece(&'a [u8]),
    Whole(&'a [u8]),
    Section(Section),
    Stage { stage: u32, calm: bool },
    /// The end of a record: the status, or the place and what was expected there.
    Ended(u32),
    Spent,
    NoText(&'a [u8]),
    /// A comment, or nothing.
    Other,
}

/// The number in decimal digits with which a line begins, and what stands behind it: 0 if there are none, and the
/// largest there is if it is larger.
fn leading_number(line: &[u8]) -> (u32, &[u8]) {
    let mut number: u32 = 0;
    for (i, c) in line.iter().enumerate() {
        match *c {
            b'0'..=b'9' => {
                number = number
                    .saturating_mul(10)
                    .saturating_add(u32::from(*c - b'0'))
            }
            _ => return (number, line.get(i..).unwrap_or(&[])),
        }
    }
    (number, &[])
}

/// A line without the blank with which it may begin.
fn behind_blank(line: &[u8]) -> &[u8] {
    line.strip_prefix(b" ").unwrap_or(line)
}

impl<'a> Line<'a> {
    fn times(line: &'a [u8]) -> Line<'a> {
        let (times, rest) = leading_number(line);
        Line::Times(times, behind_blank(rest))
    }

    fn stage(line: &'a [u8]) -> Line<'a> {
        let (stage, rest) = leading_number(line);
        let calm = rest == b" calm".as_slice();
        Line::Stage { stage, calm }
    }

    /// What stands behind the status is no part of it.
    fn ended(line: &'a [u8]) -> Line<'a> {
        let (status, _) = leading_number(line);
        Line::Ended(status)
    }
}

impl<'a> From<&'a [u8]> for Line<'a> {
    fn from(line: &'a [u8]) -> Line<'a> {
        match line {
            b"input" => return Line::Section(Section::Input),
            b"paper" => return Line::Section(Section::Paper),
            b"spent" => return Line::Spent,
            _ => {}
        }
        if let Some(rest) = line.strip_prefix(b"|") {
            Line::Whole(behind_blank(rest))
        } else if let Some(rest) = line.strip_prefix(b": ") {
            Line::Piece(rest)
        } else if let Some(rest) = line.strip_prefix(b"* ") {
            Line::times(rest)
        } else if let Some(rest) = line.strip_prefix(b"text ") {
            Line::Name(rest)
        } else if let Some(rest) = line.strip_prefix(b"stage ") {
            Line::stage(rest)
        } else if let Some(rest) = line.strip_prefix(b"ended ") {
            Line::ended(rest)
        } else if let Some(rest) = line.strip_prefix(b"no text ") {
            Line::NoText(rest)
        } else {
            Line::Other
        }
    }
}

/// A record while its lines are read.
#[derive(Drop)]
struct Draft {
    heap: Global,
    name: Vec<u8>,
    text: Vec<u8>,
    input: Vec<u8>,
    paper: Option<Vec<u8>>,
    stage: u32,
    calm: bool,
    section: Section,
    /// Whether the text's last line has an end, which is no part of it.
    ended: bool,
}

impl Draft {
    fn new(heap: Global, name: Vec<u8>) -> Draft {
        Draft {
            heap,
            name,
            text: Vec::new(heap),
            input: Vec::new(heap),
            paper: None,
            stage: 0,
            calm: false,
            section: Section::Text,
            ended: false,
        }
    }

    /// A section may come again: its lines go behind those that are there.
    fn begin(&mut self, section: Section) {
        self.section = section;
        if matches!(section, Section::Paper) && self.paper.is_none() {
            self.paper = Some(Vec::new(self.heap));
        }
    }

    /// A piece of the text, the input or the paper. Also an empty one leaves the text's last line without an end.
    fn add(&mut self, piece: &[u8]) -> Result<(), AllocError> {
        match self.section {
            Section::Text => {
                self.ended = false;
                self.text.extend_from_slice(piece)
            }
            Section::Input => self.input.extend_from_slice(piece),
            Section::Paper => match &mut self.paper {
                Some(paper) => paper.extend_from_slice(piece),
                None => Ok(()),
            },
        }
    }

    /// A line of the text, the input or the paper, with its end.
    fn add_line(&mut self, line: &[u8]) -> Result<(), AllocError> {
        self.add(line)?;
        self.add(b"\n")?;
        if matches!(self.section, Section::Text) {
            self.ended = true;
        }
        Ok(())
    }

    /// The record is whole.
    fn finish(self, expectation: Expectation) -> Record {
        let Draft {
            name,
            mut text,
            input,
            paper,
            stage,
            calm,
            ended,
            ..
        } = self;
        if ended {
            let _ = text.pop();
        }
        Record {
            name,
            text,
            input,
            paper,
            stage,
            calm,
            expectation,
        }
    }

    /// Takes one line of a file of records; what the text comes to, if the line is the record's end.
    fn take(&mut self, line: Line<'_>) -> Result<Option<Expectation>, AllocError> {
        match line {
            Line::Name(name) => *self = Draft::new(self.heap, name.to_vec(self.heap)?),
            Line::Times(times, piece) => {
                // A count, and no index.
                for _ in 0..times {
                    self.add(piece)?;
                }
            }
            Line::Piece(piece) => self.add(piece)?,
            Line::Whole(line) => self.add_line(line)?,
            Line::Section(section) => self.begin(section),
            Line::Stage { stage, calm } => {
                self.stage = stage;
                self.calm = calm;
            }
            Line::Ended(status) => return Ok(Some(Expectation::Runs(Outcome::Ended(status)))),
            Line::Spent => return Ok(Some(Expectation::Runs(Outcome::Spent))),
            Line::NoText(expected) => {
                return Ok(Some(Expectation::NoText(expected.to_vec(self.heap)?)));
            }
            Line::Other => {}
        }
        Ok(None)
    }
}

/// Reads the records of a file behind those that are there.
pub fn read_records(
    heap: Global,
    file: &[u8],
    records: &mut Vec<Record>,
) -> Result<(), AllocError> {
    let mut draft = Draft::new(heap, Vec::new(heap));
    for line in file.split(|c| *c == b'\n') {
        if let Some(expectation) = draft.take(Line::from(line))? {
            let whole = std::mem::replace(&mut draft, Draft::new(heap, Vec::new(heap)));
            records.push(whole.finish(expectation))?;
        }
    }
    Ok(())
}
