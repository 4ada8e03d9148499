//! Places in a text.
ghost use Rattle.std.specs.Prelude.{◌≡◌, ◌+◌, ◌-◌, ◌^◌, ◌<◌, ◌≤◌, length, take};
ghost use Rattle.front.specs.Places.{after_byte, place_after};

use std::fmt;

/// A place in a text: line and column, both from 1.
#[derive(Clone, Copy, Debug, PartialEq, Eq)]
pub struct Place {
    pub line: usize,
    pub column: usize,
}

impl Place {
    /// Where a text begins.
    pub const START: Place = Place { line: 1, column: 1 };

    /// The place behind one byte more.
    pub fn after(self, byte: u8) -> Place
        requires { (self.line < 2 ^ 64 - 1) × (self.column < 2 ^ 64 - 1) }
        ensures { result ≡ after_byte byte self.line self.column }
    {
        if byte == b'\n' {
            Place {
                line: self.line + 1,
                column: 1,
            }
        } else {
            Place {
                column: self.column + 1,
                ..self
            }
        }
    }

    /// The place behind more bytes.
    pub fn behind(self, bytes: &[u8]) -> Place
        requires { (self.line + length bytes.now < 2 ^ 64) × (self.column + length bytes.now < 2 ^ 64) }
        ensures is { result ≡ place_after bytes.now self.line self.column }
        ensures line { result.line ≤ self.line + length bytes.now }
        ensures column { result.column ≤ self.column + length bytes.now }
    {
        let mut place = self;
        for byte in bytes {
            place = place.after(*byte);
        }
        place
    }
}

impl fmt::Display for Place {
    fn fmt<W: fmt::Write>(&self, f: &mut fmt::Formatter<W>) -> fmt::Result {
        let Place { line, column } = self;
        write!(f, "{line}:{column}")
    }
}

/// The place behind the first bytes of a text.
pub fn place_at(text: &[u8], at: usize) -> Place
    ensures { result ≡ place_after (take at text.now) 1 1 }
{
    Place::START.behind(&text[..at.min(text.len())])
}
