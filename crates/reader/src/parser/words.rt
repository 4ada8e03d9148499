//! Words, and the simple commands that are made of them.
ghost use Rattle.std.specs.Prelude.{◌≡◌, ◌+◌, ◌<◌, ◌≤◌, ◌&&◌, ◌||◌, ◌==◌, false, nat_le, length, OnOk, OnErr};
ghost use Rattle.std.proofs.Math.Option.{none};
ghost use Rattle.grammar.specs.Parser.{level, parse_assignments, parse_more, parse_part, parse_redirects, parse_simple, parse_word, parse_words};
ghost use Rattle.lexer.specs.Codes.{is_substitution, next_code, part_code};
ghost use Rattle.lexer.specs.Stored.{code_at};
ghost use Rattle.reader.specs.Stages.{stage_number};
ghost use Rattle.reader.specs.Reading.{IsAssignment, IsRedirect, ends_words, may_be_first, part_tag, tag_of, tag_stage, value_of};
ghost use Rattle.syntax.specs.Base.{pick};
ghost use Rattle.syntax.specs.Stage.{has_wildcard, positional};

use super::{Cursor, NIL, Parser};
use crate::error::{Expected, Stop};
use crate::stage::Stage;
use code::CommandTag;
use lexer::{PartKind, PartTag, RedirectTag, Sign, Span, Token};

/// The number of a part that is a literal and stands in no quotes.
const LITERAL: u32 = 0;

/// The number of a part in the code; $( is one more among the grammar's tokens.
fn part_number(part: PartTag) -> u32
    ensures { result + pick (is_substitution part.kind) 1 0 ≡ part_code part }
{
    u32::from(part)
}

fn is_substitution(part: PartTag) -> bool
    ensures { result ≡ is_substitution part.kind }
{
    matches!(part.kind, PartKind::Substitution)
}

/// What redirection begins with a token.
fn redirect(token: Option<Token>) -> Option<RedirectTag>
    ensures { IsRedirect (next_code token) result }
{
    match token {
        Some(Token::Sign(Sign::Redirect(tag))) => Some(tag),
        _ => None,
    }
}

/// The length of the name that an assignment begins with.
fn assignment(token: Option<Token>) -> Option<u8>
    ensures { IsAssignment (next_code token) result }
{
    match token {
        Some(Token::Assignment { name }) => Some(name),
        _ => None,
    }
}

fn ends_words(token: Option<Token>) -> bool
    ensures { result ≡ ends_words (next_code token) }
{
    matches!(token, None | Some(Token::Sign(_)))
}

/// Whether a word whose first token is this one may be a command's first word; whether the next token is joined to it.
fn may_be_first(token: Option<Token>, joined: bool) -> bool
    ensures { result ≡ may_be_first (next_code token) joined }
{
    match token {
        Some(Token::Assignment { .. }) => false,
        Some(Token::Keyword(_)) => joined,
        _ => true,
    }
}

/// Whether there is a * or a ? among the bytes.
fn has_wildcard(bytes: &[u8]) -> bool
    ensures { result ≡ has_wildcard bytes.now }
{
    bytes.contains(&b'*') || bytes.contains(&b'?')
}

/// Whether the bytes are the number of an argument or #.
fn is_positional(bytes: &[u8]) -> bool
    ensures { result ≡ positional bytes.now }
{
    matches!(bytes.first(), Some(b'#' | b'0'..=b'9'))
}

/// The stage of a literal or a parameter with these bytes.
fn part_stage(part: PartTag, bytes: &[u8]) -> Stage
    requires { is_substitution part.kind ≡ false }
    ensures { stage_number result ≡ tag_stage (part_code part) bytes.now }
{
    match part.kind {
        PartKind::Literal if !part.quoted && has_wildcard(bytes) => Stage::Patterns,
        PartKind::Parameter if is_positional(bytes) => Stage::Functions,
        _ => Stage::Core,
    }
}

impl Parser<'_> {
    ghost use Rattle.reader.specs.Parsing.{ReadAssignments, ReadCommand, ReadMore, ReadPart, ReadRedirects, ReadValue, ReadWord, ReadWords, Room, SameWords, ahead};

    /// The part of a word that begins ahead.
    fn part_ahead(&self, cursor: &Cursor<'_>) -> Option<PartTag>
        ensures { tag_of result ≡ part_tag (code_at (ahead self.now cursor.now)) }
    {
        self.peek(cursor)?.part()
    }

    /// A part of a word. Its cell stands at the first free word: next, tag, and start and length of its bytes or the link of
    /// its list.
    #[cycle(parsing)]
    fn part(&self, cursor: &mut Cursor<'_>) -> Result<(), Stop>
        requires { Room self.now cursor.old 8 }
        ensures same_words { SameWords cursor.old cursor.new }
        ensures read { OnOk result (ReadPart self.now cursor.old cursor.new) }
        ensures no_part { OnErr result (parse_part (level self.now.left) (ahead self.now cursor.old) ≡ none) }
    {
        let Some(part) = self.part_ahead(cursor) else {
            return Err(cursor.stop(Expected::Word));
        };
        let top = cursor.free;
        cursor.code[top + 1] = part_number(part);
        cursor.free += 4;
        if is_substitution(part) {
            cursor.at += 1;
            cursor.stage = cursor.stage.raised(Stage::Substitutions);
            self.list(cursor, top + 2, true)?;
            self.sign(cursor, Sign::CloseParen, Expected::CloseParen)?;
            cursor.at += 1;
            return Ok(());
        }
        let span = self.tokens.span(cursor.at);
        cursor.code[top + 2] = span.start as u32;
        cursor.code[top + 3] = span.len as u32;
        cursor.at += 1;
        cursor.stage = cursor.stage.raised(part_stage(part, self.bytes(span)));
        Ok(())
    }

    // The four loops over chains differ in what a turn reads; a closure for it would lead back into the cycle.
    /// The parts that are joined to a word, linked from `link` on.
    #[cycle(parsing)]
    fn more(&self, cursor: &mut Cursor<'_>, link: usize) -> Result<(), Stop>
        requires room { Room self.now cursor.old 8 }
        requires link { link < cursor.old.free }
        ensures same_words { SameWords cursor.old cursor.new }
        ensures read { OnOk result (ReadMore self.now link cursor.old cursor.new) }
        ensures no_word { OnErr result (parse_more (level self.now.left) (ahead self.now cursor.old) ≡ none) }
    {
        let mut open = link;
        'parts: while self.is_joined(cursor.at) {
            let cell = cursor.free;
            cursor.code[open] = cell as u32;
            self.part(cursor)?;
            open = cell;
        }
        cursor.code[open] = NIL;
        Ok(())
    }

    /// A word: its parts, linked from `link` on.
    #[cycle(parsing)]
    pub fn word(&self, cursor: &mut Cursor<'_>, link: usize) -> Result<(), Stop>
        requires room { Room self.now cursor.old 8 }
        requires link { link < cursor.old.free }
        ensures same_words { SameWords cursor.old cursor.new }
        ensures read { OnOk result (ReadWord self.now link cursor.old cursor.new) }
        ensures no_word { OnErr result (parse_word (level self.now.left) (ahead self.now cursor.old) ≡ none) }
    {
        if self.is_joined(cursor.at) {
            return Err(cursor.stop(Expected::Word));
        }
        let cell = cursor.free;
        cursor.code[link] = cell as u32;
        self.part(cursor)?;
        self.more(cursor, cell)
    }

    /// Words up to a sign. A word's cell: next, parts.
    #[cycle(parsing)]
    pub fn words(&self, cursor: &mut Cursor<'_>, link: usize) -> Result<(), Stop>
        requires room { Room self.now cursor.old 10 }
        requires link { link < cursor.old.free }
        ensures same_words { SameWords cursor.old cursor.new }
        ensures read { OnOk result (ReadWords self.now link cursor.old cursor.new) }
        ensures no_words { OnErr result (parse_words (level self.now.left) (ahead self.now cursor.old) ≡ none) }
    {
        let mut open = link;
        'words: while !ends_words(self.peek(cursor)) {
            let cell = cursor.free;
            cursor.code[open] = cell as u32;
            cursor.free += 2;
            self.word(cursor, cell + 1)?;
            open = cell;
        }
        cursor.code[open] = NIL;
        Ok(())
    }

    /// Redirections. A redirection's cell: next, kind, parts of its word.
    #[cycle(parsing)]
    pub fn redirects(&self, cursor: &mut Cursor<'_>, link: usize) -> Result<(), Stop>
        requires room { Room self.now cursor.old 10 }
        requires link { link < cursor.old.free }
        ensures same_words { SameWords cursor.old cursor.new }
        ensures read { OnOk result (ReadRedirects self.now link cursor.old cursor.new) }
        ensures no_redirects { OnErr result (parse_redirects (level self.now.left) (ahead self.now cursor.old) ≡ none) }
    {
        let mut open = link;
        'redirects: while let Some(tag) = redirect(self.peek(cursor)) {
            let cell = cursor.free;
            cursor.code[open] = cell as u32;
            cursor.code[cell + 1] = tag as u32;
            cursor.at += 1;
            cursor.free += 3;
            self.word(cursor, cell + 2)?;
            open = cell;
        }
        cursor.code[open] = NIL;
        Ok(())
    }

    /// The value of an assignment: bytes of the text, and the parts that are joined to them.
    #[cycle(parsing)]
    fn value(&self, cursor: &mut Cursor<'_>, span: Span, link: usize) -> Result<(), Stop>
        requires room { Room self.now cursor.old 12 }
        requires link { link < cursor.old.free }
        requires cell { cursor.old.free + 4 ≤ length cursor.old.code.now }
        requires within { span.start + span.len ≤ length self.now.tokens.text.now }
        ensures same_words { SameWords cursor.old cursor.new }
        ensures read { OnOk result (ReadValue self.now span link cursor.old cursor.new) }
        ensures no_value { OnErr result (value_of self.now.tokens.text.now self.now.left cursor.old.at span.start span.len ≡ none) }
    {
        if span.len == 0 {
            return self.more(cursor, link);
        }
        let cell = cursor.free;
        cursor.code[link] = cell as u32;
        cursor.code[cell + 1] = LITERAL;
        cursor.code[cell + 2] = span.start as u32;
        cursor.code[cell + 3] = span.len as u32;
        cursor.free += 4;
        cursor.stage = cursor
            .stage
            .raised(part_stage(PartTag::LITERAL, self.bytes(span)));
        self.more(cursor, cell)
    }

    /// Assignments. An assignment's cell: next, start and length of the name, parts of the value.
    #[cycle(parsing)]
    fn assignments(&self, cursor: &mut Cursor<'_>, link: usize) -> Result<(), Stop>
        requires room { Room self.now cursor.old 10 }
        requires link { link < cursor.old.free }
        ensures same_words { SameWords cursor.old cursor.new }
        ensures read { OnOk result (ReadAssignments self.now link cursor.old cursor.new) }
        ensures no_assignments { OnErr result (parse_assignments (level self.now.left) (ahead self.now cursor.old) ≡ none) }
    {
        let mut open = link;
        'assignments: while let Some(name) = assignment(self.peek(cursor)) {
            let span = self.tokens.span(cursor.at);
            let behind = name as usize + 1;
            let value = Span {
                start: span.start + behind,
                len: span.len - behind,
            };
            let cell = cursor.free;
            cursor.code[open] = cell as u32;
            cursor.code[cell + 1] = span.start as u32;
            cursor.code[cell + 2] = name as u32;
            cursor.at += 1;
            cursor.free += 4;
            self.value(cursor, value, cell + 3)?;
            open = cell;
        }
        cursor.code[open] = NIL;
        Ok(())
    }

    /// A simple command: next, tag, assignments, words, redirections.
    #[cycle(parsing)]
    pub fn simple(&self, cursor: &mut Cursor<'_>) -> Result<(), Stop>
        requires room { Room self.now cursor.old 15 }
        requires some { cursor.old.at < self.now.tokens.count }
        ensures same_words { SameWords cursor.old cursor.new }
        ensures read { OnOk result (ReadCommand (parse_simple (level self.now.left) (ahead self.now cursor.old)) self.now cursor.old cursor.new) }
        ensures no_command { OnErr result (parse_simple (level self.now.left) (ahead self.now cursor.old) ≡ none) }
    {
        let top = cursor.free;
        cursor.code[top + 1] = CommandTag::Simple as u32;
        cursor.free += 5;
        self.assignments(cursor, top + 2)?;
        let token = self.peek(cursor);
        if ends_words(token) {
            if cursor.code[top + 2] == NIL {
                return Err(cursor.stop(Expected::Command));
            }
            cursor.code[top + 3] = NIL;
            cursor.code[top + 4] = NIL;
            return Ok(());
        }
        if self.is_joined(cursor.at) {
            return Err(cursor.stop(Expected::Word));
        }
        if !may_be_first(token, self.is_joined(cursor.at + 1)) {
            return Err(cursor.stop(Expected::Command));
        }
        let cell = cursor.free;
        cursor.code[top + 3] = cell as u32;
        cursor.free += 2;
        self.word(cursor, cell + 1)?;
        self.words(cursor, cell)?;
        self.redirects(cursor, top + 4)
    }
}
