//! Bytes made visible.
use std::fmt;

/// Bytes as they are where they can be seen, \n, \t, \\ and \xNN otherwise.
/// Not `escape_ascii`, which also puts a sign before quotes.
#[derive(Clone, Copy)]
pub struct Visible<'a>(pub &'a [u8]);

impl fmt::Display for Visible<'_> {
    fn fmt<W: fmt::Write>(&self, f: &mut fmt::Formatter<W>) -> fmt::Result {
        for b in self.0 {
            let c = *b;
            match c {
                b'\n' => write!(f, "\\n")?,
                b'\t' => write!(f, "\\t")?,
                b'\\' => write!(f, "\\\\")?,
                32..=126 => {
                    let shown = c as char;
                    write!(f, "{shown}")?
                }
                _ => write!(f, "\\x{c:02x}")?,
            }
        }
        Ok(())
    }
}
