//! Shows what a text is: its tokens, its tree and its stage, or where reading it stopped.
#![tactic(auto)]

use front::faults::{Fault, read_text};
use front::options::{Options, TEXT_BYTES};
use front::program::answer;
use lexer::{MAX_TEXT, write_tokens};
use reader::{TOKENS_EXTRA, TOKENS_PER_BYTE};
use std::process::ExitCode;
use view::tokens::show_tokens;
use view::tree::show_program;

const HELP: &str = "usage: zibkora_view (FILE | -c TEXT)

Shows what a text of commands is: its tokens, one a line, with their places as line:column; its tree,
indented; its stage. For a text that is no list of commands it says where reading stopped and what was
expected there, and the exit status is 1.
";

/// The tokens of a text that is not too long.
fn show_all_tokens(rt: &HostRuntime, text: &[u8]) -> anyhow::Result<()> {
    if text.len() > MAX_TEXT {
        return Ok(());
    }
    let mut words = vec![in rt.alloc(); 0u32; TOKENS_PER_BYTE * text.len() + TOKENS_EXTRA]?;
    let n = write_tokens(text, &mut words);
    println!(rt; "tokens")?;
    show_tokens(rt, text, &words, n)?;
    Ok(())
}

fn show(rt: &HostRuntime, name: &str, text: &[u8]) -> anyhow::Result<ExitCode> {
    show_all_tokens(rt, text)?;
    match read_text(rt.alloc(), text)? {
        Ok(reading) => {
            println!(rt; "tree")?;
            show_program(rt, text, &reading)?;
            Ok(ExitCode::SUCCESS)
        }
        Err(error) => {
            let fault = Fault { name, text, error };
            eprintln!(rt; "{fault}")?;
            Ok(ExitCode::FAILURE)
        }
    }
}

/// Shows the text that the command line names.
fn show_named(rt: &HostRuntime, options: &Options) -> anyhow::Result<ExitCode> {
    let mut text = vec![in rt.alloc(); 0u8; TEXT_BYTES]?;
    // The words are the program's own, whatever the host says.
    let Ok(text) = options.source.read(rt, &mut text) else {
        eprintln!(rt; "zibkora_view: the text cannot be read")?;
        return Ok(ExitCode::FAILURE);
    };
    show(rt, options.source.name(), text)
}

fn main(rt: HostRuntime) -> ExitCode {
    answer(
        &rt,
        "zibkora_view",
        HELP,
        |options| show_named(&rt, &options),
    )
    .unwrap_or(ExitCode::FAILURE)
}
