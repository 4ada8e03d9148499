//! Pipelines, what && and || join, lists, and the else of an if.
ghost use Rattle.std.specs.Prelude.{◌≡◌, ℕ, ◌+◌, ◌<◌, ◌≤◌, length, ◌==◌, ◌&&◌, nat_le, OnOk, OnErr};
ghost use Rattle.std.proofs.Math.Option.{none};
ghost use Rattle.grammar.specs.Parser.{level, parse_and_or, parse_negatable, parse_pipeline};
ghost use Rattle.lexer.specs.Codes.{next_code};
ghost use Rattle.reader.specs.Stages.{stage_number};
ghost use Rattle.reader.specs.Reading.{IsJoint, IsTerminator, Nest};
ghost use Rattle.syntax.specs.Base.{pick};

use super::{Cursor, NIL, Parser};
use crate::error::{Expected, Stop};
use crate::stage::Stage;
use code::CommandTag;
use lexer::{Keyword, Sign, Token};

/// Whether a token joins two pipelines, and then whether it is &&, as the flag in the code says.
fn joint(token: Option<Token>) -> Option<bool>
    ensures { IsJoint (next_code token) result }
{
    match token {
        Some(Token::Sign(Sign::And)) => Some(true),
        Some(Token::Sign(Sign::Or)) => Some(false),
        _ => None,
    }
}

/// Whether a token ends a command, and then whether that is done in the background, as the flag in the code says.
fn terminator(token: Option<Token>) -> Option<bool>
    ensures { IsTerminator (next_code token) result }
{
    match token {
        Some(Token::Sign(Sign::Semicolon | Sign::Newline)) => Some(false),
        Some(Token::Sign(Sign::Ampersand)) => Some(true),
        _ => None,
    }
}

/// The stage of a command's end.
fn end_stage(background: bool) -> Stage
    ensures { stage_number result ≡ pick background 5 0 }
{
    if background {
        Stage::Processes
    } else {
        Stage::Core
    }
}

/// Writes an else cell at `top`, a list of one command and its pipeline behind it, and behind those the command, an if
/// whose links stay open.
fn nest(code: &mut [u32], top: usize)
    requires fits { top + 14 ≤ length code.old }
    requires short { length code.old < 4294967296 }
    ensures { Nest code.old code.new top (top + 1) (top + 1 + 3) (top + 1 + 3 + 4) }
{
    let cell = top + 1;
    let node = cell + 3;
    let command = node + 4;
    code[top] = cell as u32;
    code[cell] = NIL;
    code[cell + 1] = u32::from(false);
    code[cell + 2] = node as u32;
    code[node] = NIL;
    code[node + 2] = u32::from(false);
    code[node + 3] = command as u32;
    code[command] = NIL;
    code[command + 1] = CommandTag::If as u32;
    code[command + 5] = NIL;
}

impl Parser<'_> {
    ghost use Rattle.reader.specs.Parsing.{ReadAndOr, ReadElse, ReadList, ReadNegatable, ReadPipeline, Room, SameWords, ahead};

    /// Commands with | between them.
    #[cycle(parsing)]
    fn pipeline(&self, cursor: &mut Cursor<'_>, link: usize) -> Result<(), Stop>
        requires room { Room self.now cursor.old 15 }
        requires link { link < cursor.old.free }
        ensures same_words { SameWords cursor.old cursor.new }
        ensures read { OnOk result (ReadPipeline self.now link cursor.old cursor.new) }
        ensures no_pipeline { OnErr result (parse_pipeline (level self.now.left) (ahead self.now cursor.old) ≡ none) }
    {
        let mut open = link;
        // The test stands in the middle.
        'commands: loop {
            let cell = cursor.free;
            cursor.code[open] = cell as u32;
            self.command(cursor)?;
            if !self.next_is(cursor, Token::Sign(Sign::Pipe)) {
                cursor.code[cell] = NIL;
                return Ok(());
            }
            cursor.at += 1;
            cursor.stage = cursor.stage.raised(Stage::Pipes);
            open = cell;
        }
    }

    /// A pipeline with or without ! before it, as the last of a chain of && and ||: the one before it and what joins them
    /// stay open; then whether it is negated, and its link.
    #[cycle(parsing)]
    fn negatable(&self, cursor: &mut Cursor<'_>) -> Result<(), Stop>
        requires { Room self.now cursor.old 21 }
        ensures same_words { SameWords cursor.old cursor.new }
        ensures read { OnOk result (ReadNegatable self.now cursor.old cursor.new) }
        ensures no_pipeline { OnErr result (parse_negatable (level self.now.left) (ahead self.now cursor.old) ≡ none) }
    {
        let top = cursor.free;
        // Two ends, as the grammar has two forms.
        if self.look(cursor).is_not() {
            cursor.code[top + 2] = u32::from(true);
            cursor.at += 1;
            cursor.free += 4;
            return self.pipeline(cursor, top + 3);
        }
        cursor.code[top + 2] = u32::from(false);
        cursor.free += 4;
        self.pipeline(cursor, top + 3)
    }

    /// Pipelines joined by && and ||; the link leads to the last, and each to the one before.
    #[cycle(parsing)]
    fn and_or(&self, cursor: &mut Cursor<'_>, link: usize) -> Result<(), Stop>
        requires room { Room self.now cursor.old 21 }
        requires link { link < cursor.old.free }
        ensures same_words { SameWords cursor.old cursor.new }
        ensures read { OnOk result (ReadAndOr self.now link cursor.old cursor.new) }
        ensures no_pipelines { OnErr result (parse_and_or (level self.now.left) (ahead self.now cursor.old) ≡ none) }
    {
        let mut node = cursor.free;
        self.negatable(cursor)?;
        cursor.code[node] = NIL;
        'pipelines: while let Some(both) = joint(self.peek(cursor)) {
            let last = cursor.free;
            cursor.at += 1;
            self.negatable(cursor)?;
            cursor.code[last] = node as u32;
            cursor.code[last + 1] = u32::from(both);
            node = last;
        }
        cursor.code[link] = node as u32;
        Ok(())
    }

    /// Commands one after the other, with lists less than `left` deep; whether the last need not be ended. A command's
    /// cell: next, whether it is done in the background, the last of its chain of && and ||. `last` is a bool, as the grammar's
    /// lists take it.
    #[cycle(parsing)]
    pub fn list(&self, cursor: &mut Cursor<'_>, link: usize, last: bool) -> Result<(), Stop>
        requires room { Room self.now cursor.old 20 }
        requires link { link < cursor.old.free }
        ensures same_words { SameWords cursor.old cursor.new }
        ensures read { OnOk result (ReadList self.now link last cursor.old cursor.new) }
        ensures no_list { OnErr result ((level self.now.left).lists last (ahead self.now cursor.old) ≡ none) }
    {
        if self.left == 0 {
            return Err(cursor.stop(Expected::LessDepth));
        }
        let inner = Parser {
            left: self.left - 1,
            ..*self
        };
        let mut open = link;
        // Two ways to go on.
        'commands: loop {
            let ahead = self.look(cursor);
            if ahead.ends_list() {
                cursor.code[open] = NIL;
                return Ok(());
            }
            if ahead.is_newline() {
                cursor.at += 1;
                continue 'commands;
            }
            let cell = cursor.free;
            cursor.code[open] = cell as u32;
            cursor.free += 3;
            inner.and_or(cursor, cell + 2)?;
            let Some(background) = terminator(self.peek(cursor)) else {
                if !last {
                    return Err(cursor.stop(Expected::Terminator));
                }
                cursor.code[cell + 1] = u32::from(false);
                cursor.code[cell] = NIL;
                return Ok(());
            };
            cursor.code[cell + 1] = u32::from(background);
            cursor.at += 1;
            cursor.stage = cursor.stage.raised(end_stage(background));
            open = cell;
        }
    }

    /// What stands behind a then's list, up to its fi. An else has a cell: its list. An elif is an else whose list is one if.
    #[cycle(parsing)]
    pub fn else_part(&self, cursor: &mut Cursor<'_>, link: usize) -> Result<(), Stop>
        requires room { Room self.now cursor.old 20 }
        requires link { link < cursor.old.free }
        ensures same_words { SameWords cursor.old cursor.new }
        ensures read { OnOk result (ReadElse self.now link cursor.old cursor.new) }
        ensures no_else { OnErr result ((level self.now.left).elses (ahead self.now cursor.old) ≡ none) }
    {
        if self.left == 0 {
            return Err(cursor.stop(Expected::LessDepth));
        }
        if self.next_is(cursor, Token::Keyword(Keyword::Fi)) {
            cursor.code[link] = NIL;
            cursor.at += 1;
            return Ok(());
        }
        let top = cursor.free;
        cursor.code[link] = top as u32;
        if self.next_is(cursor, Token::Keyword(Keyword::Else)) {
            cursor.at += 1;
            cursor.free += 1;
            self.list(cursor, top, false)?;
            self.keyword(cursor, Keyword::Fi, Expected::Fi)?;
            cursor.at += 1;
            return Ok(());
        }
        self.keyword(cursor, Keyword::Elif, Expected::Fi)?;
        nest(cursor.code, top);
        let command = top + 1 + 3 + 4;
        cursor.at += 1;
        cursor.free = command + 6;
        let inner = Parser {
            left: self.left - 1,
            ..*self
        };
        inner.list(cursor, command + 2, false)?;
        self.keyword(cursor, Keyword::Then, Expected::Then)?;
        cursor.at += 1;
        inner.list(cursor, command + 3, false)?;
        inner.else_part(cursor, command + 4)
    }
}
