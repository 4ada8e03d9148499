//! Reads texts that are lists of commands and texts that are none, and prints what each is.
#![tactic(auto)]

use front::faults::{Fault, read_text};
use front::visible::Visible;
use std::fs;
use view::tree::show_program;

/// What stands between two texts of a file: a line with %%.
const BETWEEN: &[u8] = b"\n%%\n";

/// The first text of a file's bytes, and what stands behind the line with %% that ends it. The last text ends with the end of a line,
/// or with the file.
fn first(bytes: &[u8]) -> (&[u8], &[u8]) {
    match bytes
        .windows(BETWEEN.len())
        .position(|part| part == BETWEEN)
    {
        Some(len) => (&bytes[..len], &bytes[len..][BETWEEN.len()..]),
        None => (bytes.strip_suffix(b"\n").unwrap_or(bytes), &[]),
    }
}

/// What a text is: its tree and stage, or where reading it stopped.
fn show_text(rt: &HostRuntime, text: &[u8]) -> anyhow::Result<()> {
    let shown = Visible(text);
    println!(rt; "== {shown}")?;
    match read_text(rt.alloc(), text)? {
        Ok(reading) => show_program(rt, text, &reading)?,
        Err(error) => {
            let fault = Fault {
                name: "text",
                text,
                error,
            };
            println!(rt; "{fault}")?;
        }
    }
    Ok(())
}

/// The texts of a file, whatever bytes they are.
fn show_file(rt: &HostRuntime, name: &str) -> anyhow::Result<()> {
    let file = fs::read(rt, name)?;
    let mut rest = file.as_slice();
    // No more texts than bytes; how far a turn goes is known behind it.
    for _ in 0..file.len() {
        if rest.is_empty() {
            break;
        }
        let (text, behind) = first(rest);
        show_text(rt, text)?;
        rest = behind;
    }
    Ok(())
}

/// For each byte a word in single quotes that has it, and one in double quotes.
fn show_bytes(rt: &HostRuntime) -> anyhow::Result<()> {
    for byte in 0..=u8::MAX {
        let text = [b'a', b' ', b'\'', byte, b'\'', b' ', b'"', byte, b'"'];
        show_text(rt, &text)?;
    }
    Ok(())
}

fn main(rt: HostRuntime) -> anyhow::Result<()> {
    show_file(&rt, "lists.txt")?;
    show_file(&rt, "refused.txt")?;
    show_bytes(&rt)
}
