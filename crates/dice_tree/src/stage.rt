//! The stage of a text.

ghost use Rattle.std.specs.Prelude.{◌≡◌, ◌≢◌, ◌≤◌, length};

// The walks here and in `calm` are `for` loops: a closure that leads back into its walk owes at each turn that it may be called.
// They are two, since they carry other things down and stop at other places.

use crate::calm::has_wildcard;
use crate::tree::{
    AndOr, Arm, Assignment, Command, Compound, Item, Pipeline, Redirect, Word, WordPart,
};

/// The stages of a text's forms: the core, pipes, $( ), functions and their arguments, then for, case, and * and ?
/// outside quotes, and last ( ) and &.
#[derive(Clone, Copy, PartialEq, Eq, PartialOrd, Ord, Debug)]
pub enum Stage {
    Core,
    Pipes,
    Substitutions,
    Functions,
    Patterns,
    Processes,
}

impl Stage {
    /// The highest stage of a text's forms.
    pub fn of(text: &[Item]) -> Stage
        ensures empty { length text.now ≡ 0 → result ≡ Stage.Core }
    {
        list_stage(text)
    }

    /// From 0, the core's, to 5, which only ( ) and & have.
    pub fn number(self) -> u32
        ensures most { result ≤ 5 }
        ensures lower { self ≢ Stage.Processes → result ≤ 4 }
    {
        self as u32
    }
}

/// $1 to $9, $0 and $#
fn is_positional(name: &[u8]) -> bool {
    matches!(name.first(), Some(b'#' | b'0'..=b'9'))
}

/// The stage of a part, without what stands in its $( ).
fn part_stage(part: &WordPart) -> Stage
    ensures { result ≢ Stage.Processes }
{
    match part {
        WordPart::Literal {
            quoted: false,
            bytes,
        } if has_wildcard(bytes) => Stage::Patterns,
        WordPart::Literal { .. } => Stage::Core,
        WordPart::Parameter { name, .. } if is_positional(name) => Stage::Functions,
        WordPart::Parameter { .. } => Stage::Core,
        WordPart::Substitution { .. } => Stage::Substitutions,
    }
}

/// The highest stage of parts, without what stands in their $( ).
fn parts_stage(parts: &[WordPart]) -> Stage
    ensures { result ≢ Stage.Processes }
{
    let mut most = Stage::Core;
    for part in parts {
        most = most.max(part_stage(part));
    }
    most
}

#[cycle(stage)]
fn word_stage(word: &Word) -> Stage {
    let mut most = parts_stage(&word.parts);
    for part in &word.parts {
        if let WordPart::Substitution { list, .. } = part {
            most = most.max(list_stage(list));
        }
    }
    most
}

#[cycle(stage)]
fn words_stage(words: &[Word]) -> Stage {
    let mut most = Stage::Core;
    for word in words {
        most = most.max(word_stage(word));
    }
    most
}

#[cycle(stage)]
fn assignments_stage(assignments: &[Assignment]) -> Stage {
    let mut most = Stage::Core;
    for assignment in assignments {
        most = most.max(word_stage(&assignment.word));
    }
    most
}

#[cycle(stage)]
fn redirects_stage(redirects: &[Redirect]) -> Stage {
    let mut most = Stage::Core;
    for redirect in redirects {
        most = most.max(word_stage(&redirect.word));
    }
    most
}

#[cycle(stage)]
fn arms_stage(arms: &[Arm]) -> Stage {
    let mut most = Stage::Core;
    for arm in arms {
        most = most
            .max(word_stage(&arm.pattern))
            .max(list_stage(&arm.list));
    }
    most
}

// One arm for each form: each takes other data out of its variant, so no table of functions would do.
#[cycle(stage)]
fn compound_stage(compound: &Compound) -> Stage {
    match compound {
        Compound::Group(list) => list_stage(list),
        Compound::Subshell(_) => Stage::Processes,
        Compound::If {
            condition,
            then,
            otherwise,
        } => {
            let taken = list_stage(condition).max(list_stage(then));
            match otherwise {
                Some(list) => taken.max(list_stage(list)),
                None => taken,
            }
        }
        Compound::While { condition, body } => list_stage(condition).max(list_stage(body)),
        Compound::For { words, body, .. } => words_stage(words)
            .max(list_stage(body))
            .max(Stage::Patterns),
        Compound::Case { word, arms } => word_stage(word)
            .max(arms_stage(arms))
            .max(Stage::Patterns),
    }
}

#[cycle(stage)]
fn command_stage(command: &Command) -> Stage {
    match command {
        Command::Simple {
            assignments,
            words,
            redirects,
        } => assignments_stage(assignments)
            .max(words_stage(words))
            .max(redirects_stage(redirects)),
        Command::Compound {
            compound,
            redirects,
        } => compound_stage(compound).max(redirects_stage(redirects)),
        Command::Function { body, .. } => list_stage(body).max(Stage::Functions),
    }
}

#[cycle(stage)]
fn pipeline_stage(pipeline: &Pipeline) -> Stage {
    let mut most = if pipeline.commands.len() > 1 {
        Stage::Pipes
    } else {
        Stage::Core
    };
    for command in &pipeline.commands {
        most = most.max(command_stage(command));
    }
    most
}

#[cycle(stage)]
fn and_or_stage(and_or: &AndOr) -> Stage {
    let mut most = pipeline_stage(&and_or.first);
    for joined in &and_or.rest {
        most = most.max(pipeline_stage(&joined.pipeline));
    }
    most
}

#[cycle(stage)]
fn list_stage(list: &[Item]) -> Stage
    ensures { length list.now ≡ 0 → result ≡ Stage.Core }
{
    let mut most = Stage::Core;
    for item in list {
        if item.background {
            return Stage::Processes;
        }
        most = most.max(and_or_stage(&item.and_or));
    }
    most
}
