//! Commands.
ghost use Rattle.std.specs.Prelude.{◌≡◌, ℕ, ◌+◌, ◌<◌, ◌≤◌, ◌||◌, ◌&&◌, nat_le, ◌==◌, ◌≢◌, ◌⊎◌, OnOk, OnErr};
ghost use Rattle.std.proofs.Math.Option.{none};
ghost use Rattle.grammar.specs.Parser.{function_at, la_paren, level, open_brace, open_case, open_for, open_if, open_while, parse_arms, parse_command, parse_command_by, parse_function, parse_opener};
ghost use Rattle.lexer.specs.Codes.{next_code};
ghost use Rattle.lexer.specs.Stored.{code_at};
ghost use Rattle.reader.specs.Reading.{bare, names};

use super::{Cursor, NIL, Parser};
use crate::ahead::Ahead;
use crate::error::{Expected, Stop};
use crate::stage::Stage;
use code::CommandTag;
use lexer::{Keyword, PartTag, Sign, Token};

/// Whether a token may name a variable.
// Three cases each, here and in `is_bare` and `may_be_first`: one pattern with guards is no plainer.
fn is_name(token: Option<Token>) -> bool
    ensures { result ≡ names (next_code token) }
{
    match token {
        Some(Token::Name) => true,
        Some(Token::Keyword(keyword)) => !matches!(
            keyword,
            Keyword::OpenBrace | Keyword::CloseBrace | Keyword::Not
        ),
        _ => false,
    }
}

/// Whether a token is bare.
fn is_bare(token: Option<Token>) -> bool
    ensures { result ≡ bare (next_code token) }
{
    match token {
        Some(Token::Part { part, .. }) => part == PartTag::LITERAL,
        Some(Token::Keyword(_) | Token::Name | Token::Assignment { .. }) => true,
        _ => false,
    }
}

impl Parser<'_> {
    ghost use Rattle.reader.specs.Parsing.{ReadArms, ReadCommand, Room, SameWords, ahead};

    /// Whether a bare token stands ahead, with a ( behind it.
    fn names_function(&self, cursor: &Cursor<'_>) -> bool
        requires { cursor.now.at < self.now.tokens.count }
        ensures { result ≡ function_at (ahead self.now cursor.now) }
    {
        is_bare(self.peek(cursor)) && self.token_is(cursor.at + 1, Token::Sign(Sign::OpenParen))
    }

    /// The next token is a ; or the end of a line, or reading stops.
    fn separator(&self, cursor: &Cursor<'_>) -> Result<(), Stop>
        ensures found { OnOk result ((cursor.now.at < self.now.tokens.count) × ((code_at (ahead self.now cursor.now) ≡ 32) ⊎ (code_at (ahead self.now cursor.now) ≡ 33))) }
        ensures another { OnErr result ((code_at (ahead self.now cursor.now) ≢ 32) × (code_at (ahead self.now cursor.now) ≢ 33)) }
    {
        match self.peek(cursor) {
            Some(Token::Sign(Sign::Semicolon | Sign::Newline)) => Ok(()),
            _ => Err(cursor.stop(Expected::Separator)),
        }
    }

    // Each form is written out, as its comment has it: a table of steps would hide the words of its cell.
    /// A command, by what stands ahead.
    /// One arm for each form of command, as the grammar has it.
    #[cycle(parsing)]
    pub fn command(&self, cursor: &mut Cursor<'_>) -> Result<(), Stop>
        requires { Room self.now cursor.old 15 }
        ensures same_words { SameWords cursor.old cursor.new }
        ensures read { OnOk result (ReadCommand (parse_command (level self.now.left) (ahead self.now cursor.old)) self.now cursor.old cursor.new) }
        ensures no_command { OnErr result (parse_command (level self.now.left) (ahead self.now cursor.old) ≡ none) }
    {
        if cursor.at >= self.tokens.len() {
            return Err(cursor.stop(Expected::Command));
        }
        match self.look(cursor) {
            Ahead::Part => {
                if self.names_function(cursor) {
                    return self.function(cursor);
                }
                self.simple(cursor)
            }
            Ahead::Sign(Sign::OpenParen) => self.subshell(cursor),
            Ahead::Keyword(Keyword::If) => self.if_command(cursor),
            Ahead::Keyword(Keyword::While) => self.while_loop(cursor),
            Ahead::Keyword(Keyword::For) => self.for_loop(cursor),
            Ahead::Keyword(Keyword::Case) => self.case_command(cursor),
            Ahead::Keyword(Keyword::OpenBrace) => self.group(cursor),
            _ => Err(cursor.stop(Expected::Command)),
        }
    }

    /// { list }: next, tag, list, redirections.
    #[cycle(parsing)]
    fn group(&self, cursor: &mut Cursor<'_>) -> Result<(), Stop>
        requires { Room self.now cursor.old 15 }
        ensures same_words { SameWords cursor.old cursor.new }
        ensures read { OnOk result (ReadCommand (parse_opener (level self.now.left) open_brace (ahead self.now cursor.old)) self.now cursor.old cursor.new) }
        ensures no_command { OnErr result (parse_opener (level self.now.left) open_brace (ahead self.now cursor.old) ≡ none) }
    {
        self.keyword(cursor, Keyword::OpenBrace, Expected::OpenBrace)?;
        let top = cursor.free;
        cursor.code[top + 1] = CommandTag::Group as u32;
        cursor.at += 1;
        cursor.free += 4;
        self.list(cursor, top + 2, false)?;
        self.keyword(cursor, Keyword::CloseBrace, Expected::CloseBrace)?;
        cursor.at += 1;
        self.redirects(cursor, top + 3)
    }

    /// ( list ): next, tag, list, redirections.
    #[cycle(parsing)]
    fn subshell(&self, cursor: &mut Cursor<'_>) -> Result<(), Stop>
        requires { Room self.now cursor.old 15 }
        ensures same_words { SameWords cursor.old cursor.new }
        ensures read { OnOk result (ReadCommand (parse_command_by (level self.now.left) la_paren (ahead self.now cursor.old)) self.now cursor.old cursor.new) }
        ensures no_command { OnErr result (parse_command_by (level self.now.left) la_paren (ahead self.now cursor.old) ≡ none) }
    {
        self.sign(cursor, Sign::OpenParen, Expected::Command)?;
        let top = cursor.free;
        cursor.code[top + 1] = CommandTag::Subshell as u32;
        cursor.at += 1;
        cursor.free += 4;
        cursor.stage = cursor.stage.raised(Stage::Processes);
        self.list(cursor, top + 2, true)?;
        self.sign(cursor, Sign::CloseParen, Expected::CloseParen)?;
        cursor.at += 1;
        self.redirects(cursor, top + 3)
    }

    /// while list do list done: next, tag, condition, body, redirections.
    #[cycle(parsing)]
    fn while_loop(&self, cursor: &mut Cursor<'_>) -> Result<(), Stop>
        requires { Room self.now cursor.old 15 }
        ensures same_words { SameWords cursor.old cursor.new }
        ensures read { OnOk result (ReadCommand (parse_opener (level self.now.left) open_while (ahead self.now cursor.old)) self.now cursor.old cursor.new) }
        ensures no_command { OnErr result (parse_opener (level self.now.left) open_while (ahead self.now cursor.old) ≡ none) }
    {
        self.keyword(cursor, Keyword::While, Expected::Command)?;
        let top = cursor.free;
        cursor.code[top + 1] = CommandTag::While as u32;
        cursor.at += 1;
        cursor.free += 5;
        self.list(cursor, top + 2, false)?;
        self.keyword(cursor, Keyword::Do, Expected::Do)?;
        cursor.at += 1;
        self.list(cursor, top + 3, false)?;
        self.keyword(cursor, Keyword::Done, Expected::Done)?;
        cursor.at += 1;
        self.redirects(cursor, top + 4)
    }

    /// if list then list else-part: next, tag, condition, then, else, redirections.
    #[cycle(parsing)]
    fn if_command(&self, cursor: &mut Cursor<'_>) -> Result<(), Stop>
        requires { Room self.now cursor.old 15 }
        ensures same_words { SameWords cursor.old cursor.new }
        ensures read { OnOk result (ReadCommand (parse_opener (level self.now.left) open_if (ahead self.now cursor.old)) self.now cursor.old cursor.new) }
        ensures no_command { OnErr result (parse_opener (level self.now.left) open_if (ahead self.now cursor.old) ≡ none) }
    {
        self.keyword(cursor, Keyword::If, Expected::Command)?;
        let top = cursor.free;
        cursor.code[top + 1] = CommandTag::If as u32;
        cursor.at += 1;
        cursor.free += 6;
        self.list(cursor, top + 2, false)?;
        self.keyword(cursor, Keyword::Then, Expected::Then)?;
        cursor.at += 1;
        self.list(cursor, top + 3, false)?;
        self.else_part(cursor, top + 4)?;
        self.redirects(cursor, top + 5)
    }

    /// case word in arms esac: next, tag, word, arms, redirections.
    #[cycle(parsing)]
    fn case_command(&self, cursor: &mut Cursor<'_>) -> Result<(), Stop>
        requires { Room self.now cursor.old 15 }
        ensures same_words { SameWords cursor.old cursor.new }
        ensures read { OnOk result (ReadCommand (parse_opener (level self.now.left) open_case (ahead self.now cursor.old)) self.now cursor.old cursor.new) }
        ensures no_command { OnErr result (parse_opener (level self.now.left) open_case (ahead self.now cursor.old) ≡ none) }
    {
        self.keyword(cursor, Keyword::Case, Expected::Command)?;
        let top = cursor.free;
        cursor.code[top + 1] = CommandTag::Case as u32;
        cursor.at += 1;
        cursor.free += 5;
        cursor.stage = cursor.stage.raised(Stage::Patterns);
        self.word(cursor, top + 2)?;
        self.keyword(cursor, Keyword::In, Expected::In)?;
        cursor.at += 1;
        self.arms(cursor, top + 3)?;
        self.keyword(cursor, Keyword::Esac, Expected::Esac)?;
        cursor.at += 1;
        self.redirects(cursor, top + 4)
    }

    /// for name in words do list done: next, tag, start and length of the name, words, body, redirections.
    #[cycle(parsing)]
    fn for_loop(&self, cursor: &mut Cursor<'_>) -> Result<(), Stop>
        requires { Room self.now cursor.old 15 }
        ensures same_words { SameWords cursor.old cursor.new }
        ensures read { OnOk result (ReadCommand (parse_opener (level self.now.left) open_for (ahead self.now cursor.old)) self.now cursor.old cursor.new) }
        ensures no_command { OnErr result (parse_opener (level self.now.left) open_for (ahead self.now cursor.old) ≡ none) }
    {
        self.keyword(cursor, Keyword::For, Expected::Command)?;
        cursor.at += 1;
        if !is_name(self.peek(cursor)) {
            return Err(cursor.stop(Expected::Name));
        }
        let name = self.tokens.span(cursor.at);
        let top = cursor.free;
        cursor.code[top + 1] = CommandTag::For as u32;
        cursor.code[top + 2] = name.start as u32;
        cursor.code[top + 3] = name.len as u32;
        cursor.at += 1;
        self.keyword(cursor, Keyword::In, Expected::In)?;
        cursor.at += 1;
        cursor.free += 7;
        cursor.stage = cursor.stage.raised(Stage::Patterns);
        self.words(cursor, top + 4)?;
        self.separator(cursor)?;
        cursor.at += 1;
        self.keyword(cursor, Keyword::Do, Expected::Do)?;
        cursor.at += 1;
        self.list(cursor, top + 5, false)?;
        self.keyword(cursor, Keyword::Done, Expected::Done)?;
        cursor.at += 1;
        self.redirects(cursor, top + 6)
    }

    /// name() { list }: next, tag, start and length of the name, list.
    #[cycle(parsing)]
    fn function(&self, cursor: &mut Cursor<'_>) -> Result<(), Stop>
        requires room { Room self.now cursor.old 15 }
        requires some { cursor.old.at < self.now.tokens.count }
        ensures same_words { SameWords cursor.old cursor.new }
        ensures read { OnOk result (ReadCommand (parse_function (level self.now.left) (ahead self.now cursor.old)) self.now cursor.old cursor.new) }
        ensures no_command { OnErr result (parse_function (level self.now.left) (ahead self.now cursor.old) ≡ none) }
    {
        if !self.next_is(cursor, Token::Name) {
            return Err(cursor.stop(Expected::Name));
        }
        let name = self.tokens.span(cursor.at);
        let top = cursor.free;
        cursor.code[top + 1] = CommandTag::Function as u32;
        cursor.code[top + 2] = name.start as u32;
        cursor.code[top + 3] = name.len as u32;
        cursor.at += 1;
        self.sign(cursor, Sign::OpenParen, Expected::Command)?;
        cursor.at += 1;
        self.sign(cursor, Sign::CloseParen, Expected::CloseParen)?;
        cursor.at += 1;
        self.keyword(cursor, Keyword::OpenBrace, Expected::OpenBrace)?;
        cursor.at += 1;
        cursor.free += 5;
        cursor.stage = cursor.stage.raised(Stage::Functions);
        self.list(cursor, top + 4, false)?;
        self.keyword(cursor, Keyword::CloseBrace, Expected::CloseBrace)?;
        cursor.at += 1;
        Ok(())
    }

    /// The arms of a case, with ends of lines between them. An arm's cell: next, parts of its word, list.
    #[cycle(parsing)]
    fn arms(&self, cursor: &mut Cursor<'_>, link: usize) -> Result<(), Stop>
        requires room { Room self.now cursor.old 10 }
        requires link { link < cursor.old.free }
        ensures same_words { SameWords cursor.old cursor.new }
        ensures read { OnOk result (ReadArms self.now link cursor.old cursor.new) }
        ensures no_arms { OnErr result (parse_arms (level self.now.left) (ahead self.now cursor.old) ≡ none) }
    {
        let mut open = link;
        // Two ways to go on.
        'arms: loop {
            if self.next_is(cursor, Token::Sign(Sign::Newline)) {
                cursor.at += 1;
                continue 'arms;
            }
            if !self.next_is(cursor, Token::Keyword(Keyword::When)) {
                break 'arms;
            }
            let cell = cursor.free;
            cursor.code[open] = cell as u32;
            cursor.at += 1;
            cursor.free += 3;
            self.word(cursor, cell + 1)?;
            self.separator(cursor)?;
            cursor.at += 1;
            self.list(cursor, cell + 2, true)?;
            self.sign(cursor, Sign::DoubleSemicolon, Expected::DoubleSemicolon)?;
            cursor.at += 1;
            open = cell;
        }
        cursor.code[open] = NIL;
        Ok(())
    }
}
