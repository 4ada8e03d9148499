//! Whether a text is calm: whether every order of its moves that ends gives the same paper.

ghost use Rattle.std.specs.Prelude.{◌≡◌};
ghost use Rattle.std.specs.List.{list_any};
ghost use Rattle.dice_tree.specs.Wildcards.{is_wildcard};

// The walks are `for` loops, and apart from those of `stage`: see there.

use crate::tree::{
    AndOr, Arm, Assignment, Command, Compound, Item, Pipeline, Redirect, RedirectKind, Word,
    WordPart,
};

/// Whether there is a * or a ? among the bytes.
pub fn has_wildcard(bytes: &[u8]) -> bool
    ensures { result ≡ list_any is_wildcard bytes.now }
{
    bytes.iter().any(|c| matches!(c, b'*' | b'?'))
}

fn reads(kind: RedirectKind) -> bool {
    matches!(kind, RedirectKind::Input | RedirectKind::Here)
}

/// The bytes of a part that is written out: literal, with no * or ? outside quotes.
fn written_out(part: &WordPart) -> Option<&[u8]> {
    match part {
        WordPart::Literal { quoted, bytes } if *quoted || !has_wildcard(bytes) => Some(bytes),
        _ => None,
    }
}

/// A word that is written out is this name.
fn spells(word: &Word, name: &[u8]) -> bool {
    let mut rest = name;
    for part in &word.parts {
        match written_out(part).and_then(|bytes| rest.strip_prefix(bytes)) {
            Some(behind) => rest = behind,
            None => return false,
        }
    }
    rest.is_empty()
}

/// The first word is written out, and isn't rm or read.
fn harmless(words: &[Word]) -> bool {
    match words.first() {
        Some(word) => word.parts.iter().all(|part| written_out(part).is_some())
            && !spells(word, b"rm")
            && !spells(word, b"read"),
        None => true,
    }
}

/// Where `strict`, no $( ) may stand in the word.
#[cycle(calm)]
fn calm_word(word: &Word, strict: bool) -> bool {
    for part in &word.parts {
        if let WordPart::Substitution { list, .. } = part {
            if strict || !calm_list(list, strict) {
                return false;
            }
        }
    }
    true
}

#[cycle(calm)]
fn calm_words(words: &[Word], strict: bool) -> bool {
    for word in words {
        if !calm_word(word, strict) {
            return false;
        }
    }
    true
}

#[cycle(calm)]
fn calm_assignments(assignments: &[Assignment], strict: bool) -> bool {
    for assignment in assignments {
        if !calm_word(&assignment.word, strict) {
            return false;
        }
    }
    true
}

/// Behind a redirection that reads no later one's word has a $( ).
#[cycle(calm)]
fn calm_redirects(redirects: &[Redirect], mut strict: bool) -> bool {
    for redirect in redirects {
        if !calm_word(&redirect.word, strict) {
            return false;
        }
        strict = strict || reads(redirect.kind);
    }
    true
}

#[cycle(calm)]
fn calm_arms(arms: &[Arm], strict: bool) -> bool {
    for arm in arms {
        if !calm_word(&arm.pattern, strict) || !calm_list(&arm.list, strict) {
            return false;
        }
    }
    true
}

// One arm for each form: each takes other data out of its variant, so no table of functions would do.
#[cycle(calm)]
fn calm_compound(compound: &Compound, strict: bool) -> bool {
    match compound {
        Compound::Group(list) | Compound::Subshell(list) => calm_list(list, strict),
        Compound::If {
            condition,
            then,
            otherwise,
        } => {
            let calm = calm_list(condition, strict) && calm_list(then, strict);
            match otherwise {
                Some(list) => calm && calm_list(list, strict),
                None => calm,
            }
        }
        Compound::While { condition, body } => {
            calm_list(condition, strict) && calm_list(body, strict)
        }
        Compound::For { words, body, .. } => calm_words(words, strict) && calm_list(body, strict),
        Compound::Case { word, arms } => calm_word(word, strict) && calm_arms(arms, strict),
    }
}

/// A command that isn't simple has no redirections. Where `strict`, a simple command has none that writes, and is
/// harmless.
#[cycle(calm)]
fn calm_command(command: &Command, strict: bool) -> bool {
    match command {
        Command::Simple {
            assignments,
            words,
            redirects,
        } => {
            (!strict || redirects.iter().all(|redirect| reads(redirect.kind)) && harmless(words))
                && calm_assignments(assignments, strict)
                && calm_words(words, strict)
                && calm_redirects(redirects, strict)
        }
        Command::Compound {
            compound,
            redirects,
        } => redirects.is_empty() && calm_compound(compound, strict),
        Command::Function { .. } => false,
    }
}

/// In a pipeline of several commands there is no further one.
#[cycle(calm)]
fn calm_pipeline(pipeline: &Pipeline, strict: bool) -> bool {
    let piped = pipeline.commands.len() > 1;
    if piped && strict {
        return false;
    }
    for command in &pipeline.commands {
        if !calm_command(command, strict || piped) {
            return false;
        }
    }
    true
}

#[cycle(calm)]
fn calm_and_or(and_or: &AndOr, strict: bool) -> bool {
    for joined in &and_or.rest {
        if !calm_pipeline(&joined.pipeline, strict) {
            return false;
        }
    }
    calm_pipeline(&and_or.first, strict)
}

#[cycle(calm)]
fn calm_list(list: &[Item], strict: bool) -> bool {
    for item in list {
        if item.background || !calm_and_or(&item.and_or, strict) {
            return false;
        }
    }
    true
}

/// A text is calm if it has no & behind a command and no functions; commands that aren't simple have no redirections;
/// behind a redirection that reads no later redirection's word of the same command has a $( ); and inside a pipeline
/// there is no further pipe, no $( ), no redirection that writes, and each simple command's first word is written out
/// as literal bytes, with no * or ? outside quotes, and isn't rm or read.
pub fn calm(list: &[Item]) -> bool {
    calm_list(list, false)
}
