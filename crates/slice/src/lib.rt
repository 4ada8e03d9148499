//! Which texts are run: a look at the code before the first move.
#![tactic(auto)]

ghost use Rattle.std.specs.Prelude.{◌≡◌, ◌≤◌, ◌+◌, true, slice_index};
ghost use Rattle.syntax.specs.Base.{same};
ghost use Rattle.syntax.specs.Tree.{CommandList};
ghost use Rattle.syntax.specs.Depth.{list_depth};
ghost use Rattle.code.specs.Chains.{ends_at};
ghost use Rattle.code.specs.Code.{ListCode};
ghost use Rattle.slice.specs.Slice.{covers_list, left_out};
ghost use Rattle.slice.specs.Says.{all_literals_at, is_literal, literals_at, spelled_at, WordsSays, ListSays, ElseSays, CommandSays, PipelineSays, AndOrSays};

use code::{AndOr, Code, Command, LEVELS, Part};

/// Builtins that are not run.
const LEFT_OUT: [&[u8]; 10] = [
    b"cat", b"head", b"wc", b"grep", b"rm", b"test", b"read", b"return", b"shift", b"wait",
];

/// Whether a part of a word is a literal.
fn is_literal(code: Code<'_>, at: u32) -> bool
    ensures { result ≡ is_literal code.entry.words.now at }
{
    matches!(code.part(at), Some(Part::Literal { .. }))
}

/// Whether the parts of a word are literals, and come to an end.
fn literals(code: Code<'_>, parts: u32) -> bool
    ensures { result ≡ literals_at code.entry.words.now parts }
{
    let mut cells = code.chain(parts);
    cells.all(|at| is_literal(code, at)) && cells.ended()
}

// One word of a cell is read by its place, where `Code` has no call for it alone; so below.
/// Whether these words are of literals, and come to an end.
fn all_literals(code: Code<'_>, words: u32) -> bool
    ensures { result ≡ all_literals_at code.entry.words.now words }
{
    let mut cells = code.chain(words);
    cells.all(|at| literals(code, code.word(at as usize + 1))) && cells.ended()
}

/// Whether the bytes of a word's parts are this name.
fn is_word(code: Code<'_>, parts: u32, name: &[u8]) -> bool
    ensures { result ≡ same (spelled_at code.entry.text.now code.entry.words.now parts) name.now }
{
    // What is left of the name goes along.
    let mut rest = name;
    for at in code.chain(parts) {
        let Some(after) = rest.strip_prefix(code.bytes_at(at as usize + 2)) else {
            return false;
        };
        rest = after;
    }
    rest.is_empty()
}

/// Whether the bytes of a word's parts name a builtin that is not run.
fn is_left_out(code: Code<'_>, parts: u32) -> bool
    ensures { result ≡ left_out (spelled_at code.entry.text.now code.entry.words.now parts) }
{
    LEFT_OUT.iter().any(|name| is_word(code, parts, name))
}

/// Whether these words are of literals, and the first, which has parts in every text, is run.
fn covers_words(code: Code<'_>, words: u32) -> bool
    ensures { WordsSays code.entry.text.now code.entry.words.now words result }
{
    if words == 0 {
        return true;
    }
    if !all_literals(code, words) {
        return false;
    }
    let first = code.word(words as usize + 1);
    if first == 0 {
        return false;
    }
    !is_left_out(code, first)
}

// `code` and `left` stay two parameters: five short functions have them.
/// Whether a command is run. Lists may stand fewer than `left` deep in it.
#[cycle(parsing)]
fn covers_command(code: Code<'_>, at: u32, left: u32) -> bool
    ensures { CommandSays code.entry.text.now code.entry.words.now at left result }
{
    let Some(left) = left.checked_sub(1) else {
        return false;
    };
    let Some(command) = code.command(at) else {
        return false;
    };
    match command {
        Command::Simple {
            assignments,
            words,
            redirects,
        } => assignments == 0 && redirects == 0 && covers_words(code, words),
        Command::Group { list, redirects } => redirects == 0 && covers_commands(code, list, left),
        Command::If {
            condition,
            then,
            otherwise,
            redirects,
        } => {
            redirects == 0
                && covers_commands(code, condition, left)
                && covers_commands(code, then, left)
                && covers_else(code, otherwise, left)
        }
        Command::While {
            condition,
            body,
            redirects,
        } => {
            redirects == 0
                && covers_commands(code, condition, left)
                && covers_commands(code, body, left)
        }
        _ => false,
    }
}

/// Whether the list of an else is run; an address of 0 says that there is none.
#[cycle(parsing)]
fn covers_else(code: Code<'_>, at: u32, left: u32) -> bool
    ensures { ElseSays code.entry.text.now code.entry.words.now at left result }
{
    at == 0 || covers_commands(code, code.word(at as usize), left)
}

/// Whether a pipeline is run: it is its one command.
#[cycle(parsing)]
fn covers_pipeline(code: Code<'_>, at: u32, left: u32) -> bool
    ensures coded { PipelineSays code.entry.text.now code.entry.words.now at left result }
    ensures alone { result ≡ true → slice_index code.entry.words.now at ≡ 0 }
{
    code.word(at as usize) == 0 && covers_command(code, at, left)
}

/// Whether the pipelines of a chain of && and || are run, from the last to the first.
#[cycle(parsing)]
fn covers_and_or(code: Code<'_>, last: u32, left: u32) -> bool
    ensures coded { AndOrSays code.entry.text.now code.entry.words.now last left result }
    ensures alone { result ≡ true → slice_index code.entry.words.now (slice_index code.entry.words.now (last + 3)) ≡ 0 }
    ensures end { result ≡ true → ends_at code.entry.words.now (slice_index code.entry.words.now last) ≡ true }
{
    // Such a chain has one pipeline at least, so the cell at `last` is looked at in any case.
    let AndOr {
        before,
        pipeline,
        ..
    } = code.and_or(last);
    if !covers_pipeline(code, pipeline, left) {
        return false;
    }
    // No `all` here and below: a closure that leads back into the walk owes at each turn that it may be called.
    let mut earlier = code.chain(before);
    while let Some(at) = earlier.next() {
        if !covers_pipeline(code, code.and_or(at).pipeline, left) {
            return false;
        }
    }
    earlier.ended()
}

/// Whether the commands of a list are run. Lists may stand fewer than `left` deep in it.
#[cycle(parsing)]
fn covers_commands(code: Code<'_>, root: u32, left: u32) -> bool
    ensures coded { ListSays code.entry.text.now code.entry.words.now root left result }
    ensures end { result ≡ true → ends_at code.entry.words.now root ≡ true }
{
    let mut items = code.chain(root);
    while let Some(at) = items.next() {
        let item = code.item(at);
        if item.background || !covers_and_or(code, item.and_or, left) {
            return false;
        }
    }
    items.ended()
}

/// Whether all commands of the list whose code begins at `root` are run.
pub fn covers(code: Code<'_>, root: u32) -> bool
    ensures coded { (l : CommandList) → ListCode code.entry.text.now code.entry.words.now root l → list_depth l ≤ 32 → result ≡ covers_list l }
    ensures end { result ≡ true → ends_at code.entry.words.now root ≡ true }
{
    covers_commands(code, root, LEVELS)
}
