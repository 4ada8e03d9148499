//! Runs a text of commands: its paper goes to standard output, how it came out to standard error.
#![tactic(auto)]

use anyhow::anyhow;
use front::faults::{Fault, read_text};
use front::files::fill;
use front::options::{Options, Source, TEXT_BYTES};
use front::program::answer;
use pipes::{Ran, run};
use std::io::Write;
use std::process::ExitCode;

/// Buffers, 4 MiB in all with the text's: the input and a byte more, the paper, and words of four bytes.
const INPUT_BYTES: usize = 1048577;

const PAPER_BYTES: usize = 1048576;

const WORDS: usize = 520000;

const MOVES: u64 = 1000000000;

const HELP: &str = "usage: zibkora [-n] [--moves N] [--words N] (FILE | -c TEXT)

Runs a text of commands. Standard input is the text's input, at most 1048576 bytes of it;
with -n it has none. The paper goes to standard output, at most 1048576 bytes.

  -n         no input
  --moves N  stop after N moves (1000000000)
  --words N  lend the run N words of memory, of four bytes each, at most 520000 (520000)

The last line on standard error says how the run came out, and is one of
  ended K     with the status of the first process
  still       processes are left, and none can go on
  spent       the moves that were allowed are used up
  no room     more memory would be needed
  paper full  the next byte doesn't fit on the paper
  not yet N   the text has forms of stage N, which can't be run yet
  no text     it is no list of commands; a line before says where reading stopped
  few         the words lent are fewer than 65536 and 16 for each byte of the text
The exit status is 0 only for `ended 0`.
";

/// Where reading the text stopped, on standard error.
fn explain(rt: &HostRuntime, source: &Source, text: &[u8]) -> anyhow::Result<()> {
    if let Err(error) = read_text(rt.alloc(), text)? {
        let fault = Fault {
            name: source.name(),
            text,
            error,
        };
        eprintln!(rt; "{fault}")?;
    }
    Ok(())
}

fn run_text(rt: &HostRuntime, options: &Options) -> anyhow::Result<Ran> {
    let heap = rt.alloc();
    let mut text = vec![in heap; 0u8; TEXT_BYTES]?;
    // The words are the program's own, whatever the host says.
    let Ok(text) = options.source.read(rt, &mut text) else {
        return Err(anyhow!("the text cannot be read"));
    };
    let mut input = vec![in heap; 0u8; INPUT_BYTES]?;
    let input = if options.input {
        fill(&mut rt.stdin(), &mut input)?
    } else {
        &[]
    };
    if input.len() == INPUT_BYTES {
        return Err(anyhow!("the input has more than 1048576 bytes"));
    }
    let mut paper = vec![in heap; 0u8; PAPER_BYTES]?;
    let words = options.words.unwrap_or(WORDS);
    if words > WORDS {
        return Err(anyhow!("--words takes at most 520000"));
    }
    let mut work = vec![in heap; 0u32; words]?;
    let moves = options.moves.unwrap_or(MOVES);
    let ran = run(text, input, moves, &mut paper, &mut work);
    if ran == Ran::NoText {
        explain(rt, &options.source, text)?;
    }
    rt.stdout().write_all(&paper[..ran.on_paper()])?;
    Ok(ran)
}

/// Runs the text that the command line names. The last line on standard error is how the run came out.
fn run_named(rt: &HostRuntime, options: &Options) -> anyhow::Result<ExitCode> {
    let ran = match run_text(rt, options) {
        Ok(ran) => ran,
        Err(e) => {
            eprintln!(rt; "zibkora: {e}")?;
            return Ok(ExitCode::FAILURE);
        }
    };
    eprintln!(rt; "{ran}")?;
    Ok(match ran {
        Ran::Ended(_, 0) => ExitCode::SUCCESS,
        _ => ExitCode::FAILURE,
    })
}

/// An error is not printed behind that line.
fn main(rt: HostRuntime) -> ExitCode {
    answer(&rt, "zibkora", HELP, |options| run_named(&rt, &options)).unwrap_or(ExitCode::FAILURE)
}
