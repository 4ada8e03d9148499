//! A program that takes a text.
ghost use Rattle.std.specs.Prelude.{◌≤◌, ◌⊎◌, IfOk};
ghost use Rattle.std.specs.Process.{exit_status};
ghost use Rattle.front.specs.declared.options.Options.{Options};

use crate::options::{Options, Usage};
use std::env;
use std::process::ExitCode;

/// Does what the command line asks of a program of this name: prints its help, or what is wrong, or acts.
pub fn answer<F: FnOnce(Options) -> anyhow::Result<ExitCode>>(
    rt: &HostRuntime,
    name: &str,
    help: &str,
    act: F,
) -> anyhow::Result<ExitCode>
    requires { F.IsAlwaysCallable act }
    ensures { ((options : Options) × F.post act options result) ⊎ IfOk result (λ code. exit_status code ≤ 1) }
{
    let mut words = env::args(rt)?;
    words.next();
    match Options::parse(words) {
        Ok(options) => act(options),
        Err(Usage::Help) => {
            print!(rt; "{help}")?;
            Ok(ExitCode::SUCCESS)
        }
        Err(Usage::Wrong(mistake)) => {
            eprintln!(rt; "{name}: {mistake}; --help says more")?;
            Ok(ExitCode::FAILURE)
        }
    }
}
