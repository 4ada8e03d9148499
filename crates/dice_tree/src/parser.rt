//! From tokens to trees, by recursive descent. Only lists in lists recurse, and `left` says how many levels of them may
//! still come.

ghost use Rattle.std.specs.Prelude.{ℕ, ◌≡◌, ◌-◌, ◌≤◌, ◌<◌, T, length, OnOk, IsSome};

use crate::lexer;
use crate::lexer::{Token, TokenKind, begins_name, in_name};
use crate::signs::{Keyword, Quote, Sign};
use crate::tree::{
    AndOr, Arm, Assignment, Command, CommandList, Compound, Expected, Fault, Item, Joined, Joiner,
    NoText, Pipeline, Redirect, RedirectKind, Word, WordPart,
};
use std::alloc::Global;
use std::marker::Model;

/// A text has at most so many bytes.
pub const MOST_BYTES: usize = 16384;

/// Lists stand at most so deep in lists, the text's own counted.
const LEVELS: u32 = 33;

/// What stands at the next token, where a command may begin.
#[derive(Clone, Copy, PartialEq, Eq, Debug)]
enum Lookahead {
    End,
    /// No command can begin here.
    Odd,
    /// A part of a word, which is not reserved.
    Part,
    Keyword(Keyword),
    Sign(Sign),
}

/// What ends a command of a list: ; or the end of a line, or &, which puts it into the background.
#[derive(Clone, Copy, PartialEq, Eq, Debug)]
enum Terminator {
    Plain,
    Background,
}

/// Whether the last command of a list needs a terminator.
#[derive(Clone, Copy, PartialEq, Eq, Debug)]
enum Last {
    Ended,
    Open,
}

/// Names of variables and functions: letters, digits and _, no digit first, at most 32 bytes.
pub fn valid_name(name: &[u8]) -> bool
    ensures { T result → length name.now ≤ 32 }
{
    match name.first() {
        Some(first) => begins_name(*first) && name.iter().all(|c| in_name(*c)) && name.len() <= 32,
        None => false,
    }
}

/// A sign that begins a redirection.
// An Option, and no TryFrom: it is asked at each sign, and that most begin no redirection is no error.
fn redirect_kind(sign: Sign) -> Option<RedirectKind> {
    match sign {
        Sign::Less => Some(RedirectKind::Input),
        Sign::Greater => Some(RedirectKind::Output),
        Sign::DoubleGreater => Some(RedirectKind::Append),
        Sign::DoubleLess => Some(RedirectKind::Here),
        _ => None,
    }
}

/// The list of one command.
fn list_of(heap: Global, command: Command) -> Result<CommandList, Fault> {
    let first = Pipeline {
        negated: false,
        commands: vec![in heap; command]?,
    };
    let and_or = AndOr {
        first,
        rest: Vec::new(heap),
    };
    let item = Item {
        and_or,
        background: false,
    };
    Ok(vec![in heap; item]?)
}

/// The tokens that are left, and where the text ends.
#[derive(Drop)]
struct Parser<'t> {
    heap: Global,
    rest: &'t [Token<'t>],
    end: usize,
}

/// How many tokens are left.
impl<'t> Model for Parser<'t> {
    ghost Value = { ℕ };

    ghost view = { λ p. length p.rest.now };
}

impl<'t> Parser<'t> {
    /// Goes on over the next token, if there is one.
    fn advance(&mut self)
        ensures { self.new ≡ self.old - 1 }
    {
        self.rest = self.rest.get(1..).unwrap_or(&[]);
    }

    /// The refusal of the next token. At a quote that is not closed its end is what was expected.
    fn refuse(&self, expected: Expected) -> Fault {
        match self.rest.first() {
            None => Fault::NoText(NoText {
                place: self.end,
                expected,
            }),
            Some(
                Token {
                    kind: TokenKind::Unclosed(quote),
                    place,
                    ..
                },
            ) => Fault::NoText(NoText {
                place: *place,
                expected: Expected::ClosingQuote(*quote),
            }),
            Some(token) => Fault::NoText(NoText {
                place: token.place,
                expected,
            }),
        }
    }

    fn next_is_joined(&self) -> bool {
        matches!(self.rest.first(), Some(Token { joined: true, .. }))
    }

    fn lookahead(&self) -> Lookahead {
        match self.rest {
            [] => Lookahead::End,
            [Token { joined: true, .. }, ..] => Lookahead::Odd,
            [
                Token {
                    kind: TokenKind::Bare { .. },
                    ..
                },
                Token { joined: true, .. },
                ..
            ] => Lookahead::Part,
            [token, ..] => match token.kind {
                TokenKind::Bare {
                    keyword: Some(keyword),
                    ..
                } => Lookahead::Keyword(keyword),
                TokenKind::Bare { keyword: None, .. } => Lookahead::Part,
                TokenKind::Sign(sign) => Lookahead::Sign(sign),
                TokenKind::Unclosed(_) => Lookahead::Odd,
                TokenKind::Quoted(_) | TokenKind::Parameter { .. } | TokenKind::Open { .. } =>
                    Lookahead::Part,
            },
        }
    }

    /// The bytes of the next token, if it is bare and begins a word.
    fn bare(&self) -> Option<&'t [u8]>
        ensures { IsSome result → 0 < self.now }
    {
        match self.rest.first()? {
            Token {
                joined: false,
                kind: TokenKind::Bare { bytes, .. },
                ..
            } => Some(bytes),
            _ => None,
        }
    }

    /// The reserved word that the next token is, if it begins a word.
    fn keyword(&self) -> Option<Keyword>
        ensures { IsSome result → 0 < self.now }
    {
        match self.rest.first()? {
            Token {
                joined: false,
                kind: TokenKind::Bare { keyword, .. },
                ..
            } => *keyword,
            _ => None,
        }
    }

    /// Goes on over a bare token that is this word, if it is next.
    /// A bool: nobody asks why it is not next. So for signs.
    fn take_keyword(&mut self, keyword: Keyword) -> bool
        ensures taken { T result → self.new < self.old }
        ensures kept { self.new ≤ self.old }
    {
        let found = self.keyword() == Some(keyword);
        if found {
            self.advance();
        }
        found
    }

    fn expect_keyword(&mut self, keyword: Keyword) -> Result<(), Fault>
        ensures { OnOk result (self.new < self.old) }
    {
        if self.take_keyword(keyword) {
            Ok(())
        } else {
            Err(self.refuse(Expected::Keyword(keyword)))
        }
    }

    /// The next token, if it is a sign.
    fn sign(&self) -> Option<Sign>
        ensures { IsSome result → 0 < self.now }
    {
        match self.rest.first()?.kind {
            TokenKind::Sign(sign) => Some(sign),
            _ => None,
        }
    }

    /// Goes on over this sign, if it is next.
    fn take_sign(&mut self, sign: Sign) -> bool
        ensures taken { T result → self.new < self.old }
        ensures kept { self.new ≤ self.old }
    {
        let found = self.sign() == Some(sign);
        if found {
            self.advance();
        }
        found
    }

    fn expect_sign(&mut self, sign: Sign) -> Result<(), Fault>
        ensures { OnOk result (self.new < self.old) }
    {
        if self.take_sign(sign) {
            Ok(())
        } else {
            Err(self.refuse(Expected::Sign(sign)))
        }
    }

    /// One ; or one end of a line.
    fn expect_separator(&mut self) -> Result<(), Fault>
        ensures { OnOk result (self.new < self.old) }
    {
        if self.take_sign(Sign::Semicolon) || self.take_sign(Sign::EndOfLine) {
            Ok(())
        } else {
            Err(self.refuse(Expected::Separator))
        }
    }

    fn take_terminator(&mut self) -> Option<Terminator>
        ensures taken { IsSome result → self.new < self.old }
        ensures kept { self.new ≤ self.old }
    {
        if self.take_sign(Sign::Semicolon) || self.take_sign(Sign::EndOfLine) {
            Some(Terminator::Plain)
        } else if self.take_sign(Sign::Ampersand) {
            Some(Terminator::Background)
        } else {
            None
        }
    }

    fn take_redirect(&mut self) -> Option<RedirectKind>
        ensures taken { IsSome result → self.new < self.old }
        ensures kept { self.new ≤ self.old }
    {
        let kind = redirect_kind(self.sign()?)?;
        self.advance();
        Some(kind)
    }

    fn take_joiner(&mut self) -> Option<Joiner>
        ensures taken { IsSome result → self.new < self.old }
        ensures kept { self.new ≤ self.old }
    {
        if self.take_sign(Sign::DoubleAmpersand) {
            Some(Joiner::And)
        } else if self.take_sign(Sign::DoubleBar) {
            Some(Joiner::Or)
        } else {
            None
        }
    }

    /// Words go on until a sign.
    fn no_word(&self) -> bool {
        match self.rest.first() {
            Some(token) => !token.joined && matches!(token.kind, TokenKind::Sign(_)),
            None => true,
        }
    }

    fn ends_list(&self) -> bool {
        match self.lookahead() {
            Lookahead::End => true,
            Lookahead::Sign(sign) => matches!(sign, Sign::CloseParenthesis | Sign::DoubleSemicolon),
            Lookahead::Keyword(keyword) => !keyword.begins_command(),
            Lookahead::Odd | Lookahead::Part => false,
        }
    }

    /// The bytes of the next token before and behind its first =, if it is bare, begins a word, and has a name there.
    fn assignment(&self) -> Option<(&'t [u8], &'t [u8])>
        ensures { IsSome result → 0 < self.now }
    {
        let mut halves = self.bare()?.splitn(2, |c| *c == b'=');
        let name = halves.next()?;
        let value = halves.next()?;
        if valid_name(name) {
            Some((name, value))
        } else {
            None
        }
    }

    fn take_name(&mut self) -> Result<Vec<u8>, Fault>
        ensures { OnOk result (self.new < self.old) }
    {
        match self.bare() {
            Some(name) if valid_name(name) => {
                self.advance();
                Ok(name.to_vec(self.heap)?)
            }
            _ => Err(self.refuse(Expected::Name)),
        }
    }

    /// name ( begins a function.
    fn function_at(&self) -> bool {
        matches!(
            self.rest,
            [
                Token {
                    kind: TokenKind::Bare { .. },
                    ..
                },
                Token {
                    kind: TokenKind::Sign(Sign::OpenParenthesis),
                    ..
                },
                ..
            ]
        )
    }

    /// A part of a word.
    #[cycle(parsing)]
    fn part(&mut self, left: u32) -> Result<WordPart, Fault>
        ensures { OnOk result (self.new < self.old) }
    {
        let Some(token) = self.rest.first() else {
            return Err(self.refuse(Expected::Word));
        };
        let part = match token.kind {
            TokenKind::Bare { bytes, .. } => WordPart::Literal {
                quoted: false,
                bytes: bytes.to_vec(self.heap)?,
            },
            TokenKind::Quoted(bytes) => WordPart::Literal {
                quoted: true,
                bytes: bytes.to_vec(self.heap)?,
            },
            TokenKind::Parameter { quoted, name } => WordPart::Parameter {
                quoted,
                name: name.to_vec(self.heap)?,
            },
            TokenKind::Open { quoted } => {
                self.advance();
                let list = self.list(left, Last::Open)?;
                self.expect_sign(Sign::CloseParenthesis)?;
                return Ok(WordPart::Substitution { quoted, list });
            }
            TokenKind::Sign(_) | TokenKind::Unclosed(_) => return Err(self.refuse(Expected::Word)),
        };
        self.advance();
        Ok(part)
    }

    /// What is joined to what stands before it, behind the parts that were read before.
    #[cycle(parsing)]
    fn joined_parts(&mut self, left: u32, mut parts: Vec<WordPart>) -> Result<Word, Fault>
        ensures { OnOk result (self.new ≤ self.old) }
    {
        while self.next_is_joined() {
            parts.push(self.part(left)?)?;
        }
        Ok(Word { parts })
    }

    /// A word is what is joined together.
    #[cycle(parsing)]
    fn word(&mut self, left: u32) -> Result<Word, Fault>
        ensures { OnOk result (self.new < self.old) }
    {
        if self.next_is_joined() {
            return Err(self.refuse(Expected::Word));
        }
        let first = self.part(left)?;
        let parts = vec![in self.heap; first]?;
        self.joined_parts(left, parts)
    }

    /// Words up to a sign, behind those that were read before.
    #[cycle(parsing)]
    fn more_words(&mut self, left: u32, mut words: Vec<Word>) -> Result<Vec<Word>, Fault>
        ensures { OnOk result (self.new ≤ self.old) }
    {
        while !self.no_word() {
            words.push(self.word(left)?)?;
        }
        Ok(words)
    }

    /// name=word, each: the name and the = stand in one bare token, and what stands behind the = there is the value's
    /// first part, if there is any of it.
    #[cycle(parsing)]
    fn assignments(&mut self, left: u32) -> Result<Vec<Assignment>, Fault>
        ensures { OnOk result (self.new ≤ self.old) }
    {
        let mut assignments = Vec::new(self.heap);
        while let Some((name, behind)) = self.assignment() {
            self.advance();
            let mut parts = Vec::new(self.heap);
            if !behind.is_empty() {
                parts.push(WordPart::Literal {
                    quoted: false,
                    bytes: behind.to_vec(self.heap)?,
                })?;
            }
            assignments.push(Assignment {
                name: name.to_vec(self.heap)?,
                word: self.joined_parts(left, parts)?,
            })?;
        }
        Ok(assignments)
    }

    #[cycle(parsing)]
    fn redirects(&mut self, left: u32) -> Result<Vec<Redirect>, Fault>
        ensures { OnOk result (self.new ≤ self.old) }
    {
        let mut redirects = Vec::new(self.heap);
        while let Some(kind) = self.take_redirect() {
            redirects.push(Redirect {
                kind,
                word: self.word(left)?,
            })?;
        }
        Ok(redirects)
    }

    /// Assignments, words, redirections; words may only be missing where there are no redirections.
    #[cycle(parsing)]
    fn simple(&mut self, left: u32) -> Result<Command, Fault>
        ensures { OnOk result (self.new ≤ self.old) }
    {
        let assignments = self.assignments(left)?;
        if self.no_word() {
            if assignments.is_empty() {
                return Err(self.refuse(Expected::Command));
            }
            return Ok(Command::Simple {
                assignments,
                words: Vec::new(self.heap),
                redirects: Vec::new(self.heap),
            });
        }
        // The first word is no reserved word.
        if matches!(self.lookahead(), Lookahead::Keyword(_)) {
            return Err(self.refuse(Expected::Command));
        }
        let first = self.word(left)?;
        let words = self.more_words(left, vec![in self.heap; first]?)?;
        let redirects = self.redirects(left)?;
        Ok(Command::Simple {
            assignments,
            words,
            redirects,
        })
    }

    /// name() { list }
    #[cycle(parsing)]
    fn function(&mut self, left: u32) -> Result<Command, Fault>
        ensures { OnOk result (self.new ≤ self.old) }
    {
        let name = self.take_name()?;
        self.expect_sign(Sign::OpenParenthesis)?;
        self.expect_sign(Sign::CloseParenthesis)?;
        self.expect_keyword(Keyword::OpenBrace)?;
        let body = self.list(left, Last::Ended)?;
        self.expect_keyword(Keyword::CloseBrace)?;
        Ok(Command::Function { name, body })
    }

    /// if list then list, and what stands behind it
    #[cycle(parsing)]
    fn if_command(&mut self, left: u32) -> Result<Compound, Fault>
        ensures { OnOk result (self.new ≤ self.old) }
    {
        self.expect_keyword(Keyword::If)?;
        let condition = self.list(left, Last::Ended)?;
        self.expect_keyword(Keyword::Then)?;
        let then = self.list(left, Last::Ended)?;
        let otherwise = self.else_part(left)?;
        Ok(Compound::If {
            condition,
            then,
            otherwise,
        })
    }

    /// fi, else list fi, or elif list then list and again an else part, one level deeper. An elif is an else whose list
    /// is one if.
    #[cycle(parsing)]
    fn else_part(&mut self, left: u32) -> Result<Option<CommandList>, Fault>
        ensures { OnOk result (self.new ≤ self.old) }
    {
        if left == 0 {
            return Err(self.refuse(Expected::LessDepth));
        }
        if self.take_keyword(Keyword::Fi) {
            return Ok(None);
        }
        if self.take_keyword(Keyword::Else) {
            let otherwise = self.list(left, Last::Ended)?;
            self.expect_keyword(Keyword::Fi)?;
            return Ok(Some(otherwise));
        }
        if !self.take_keyword(Keyword::Elif) {
            return Err(self.refuse(Expected::ElseOrFi));
        }
        let condition = self.list(left - 1, Last::Ended)?;
        self.expect_keyword(Keyword::Then)?;
        let then = self.list(left - 1, Last::Ended)?;
        let otherwise = self.else_part(left - 1)?;
        let compound = Compound::If {
            condition,
            then,
            otherwise,
        };
        let inner = Command::Compound {
            compound,
            redirects: Vec::new(self.heap),
        };
        Ok(Some(list_of(self.heap, inner)?))
    }

    /// while list do list done
    #[cycle(parsing)]
    fn while_command(&mut self, left: u32) -> Result<Compound, Fault>
        ensures { OnOk result (self.new ≤ self.old) }
    {
        self.expect_keyword(Keyword::While)?;
        let condition = self.list(left, Last::Ended)?;
        let body = self.do_part(left)?;
        Ok(Compound::While { condition, body })
    }

    /// do list done
    #[cycle(parsing)]
    fn do_part(&mut self, left: u32) -> Result<CommandList, Fault>
        ensures { OnOk result (self.new ≤ self.old) }
    {
        self.expect_keyword(Keyword::Do)?;
        let body = self.list(left, Last::Ended)?;
        self.expect_keyword(Keyword::Done)?;
        Ok(body)
    }

    /// for name in words, one ; or one end of a line, do list done
    #[cycle(parsing)]
    fn for_command(&mut self, left: u32) -> Result<Compound, Fault>
        ensures { OnOk result (self.new ≤ self.old) }
    {
        self.expect_keyword(Keyword::For)?;
        let name = self.take_name()?;
        self.expect_keyword(Keyword::In)?;
        let words = self.more_words(left, Vec::new(self.heap))?;
        self.expect_separator()?;
        let body = self.do_part(left)?;
        Ok(Compound::For { name, words, body })
    }

    /// when word, one ; or one end of a line, a list, ;; and ends of lines between them
    #[cycle(parsing)]
    fn arms(&mut self, left: u32) -> Result<Vec<Arm>, Fault>
        ensures { OnOk result (self.new ≤ self.old) }
    {
        let mut arms = Vec::new(self.heap);
        loop {
            if self.take_sign(Sign::EndOfLine) {
                continue;
            }
            if !self.take_keyword(Keyword::When) {
                return Ok(arms);
            }
            let pattern = self.word(left)?;
            self.expect_separator()?;
            let list = self.list(left, Last::Open)?;
            self.expect_sign(Sign::DoubleSemicolon)?;
            arms.push(Arm { pattern, list })?;
        }
    }

    /// case word in arms esac
    #[cycle(parsing)]
    fn case_command(&mut self, left: u32) -> Result<Compound, Fault>
        ensures { OnOk result (self.new ≤ self.old) }
    {
        self.expect_keyword(Keyword::Case)?;
        let word = self.word(left)?;
        self.expect_keyword(Keyword::In)?;
        let arms = self.arms(left)?;
        self.expect_keyword(Keyword::Esac)?;
        Ok(Compound::Case { word, arms })
    }

    /// { list }
    #[cycle(parsing)]
    fn group(&mut self, left: u32) -> Result<Compound, Fault>
        ensures { OnOk result (self.new ≤ self.old) }
    {
        self.expect_keyword(Keyword::OpenBrace)?;
        let list = self.list(left, Last::Ended)?;
        self.expect_keyword(Keyword::CloseBrace)?;
        Ok(Compound::Group(list))
    }

    /// ( list )
    #[cycle(parsing)]
    fn subshell(&mut self, left: u32) -> Result<Compound, Fault>
        ensures { OnOk result (self.new ≤ self.old) }
    {
        self.expect_sign(Sign::OpenParenthesis)?;
        let list = self.list(left, Last::Open)?;
        self.expect_sign(Sign::CloseParenthesis)?;
        Ok(Compound::Subshell(list))
    }

    /// A command that begins with a reserved word or (.
    // One arm for each word that begins one. `left` is a parameter here as everywhere: as a field, each way out of `list` would have to set it back.
    #[cycle(parsing)]
    fn compound(&mut self, left: u32) -> Result<Compound, Fault>
        ensures { OnOk result (self.new ≤ self.old) }
    {
        match self.lookahead() {
            Lookahead::Keyword(Keyword::If) => self.if_command(left),
            Lookahead::Keyword(Keyword::While) => self.while_command(left),
            Lookahead::Keyword(Keyword::For) => self.for_command(left),
            Lookahead::Keyword(Keyword::Case) => self.case_command(left),
            Lookahead::Keyword(Keyword::OpenBrace) => self.group(left),
            Lookahead::Sign(Sign::OpenParenthesis) => self.subshell(left),
            _ => Err(self.refuse(Expected::Command)),
        }
    }

    #[cycle(parsing)]
    fn command(&mut self, left: u32) -> Result<Command, Fault>
        ensures { OnOk result (self.new ≤ self.old) }
    {
        if self.lookahead() != Lookahead::Part {
            let compound = self.compound(left)?;
            let redirects = self.redirects(left)?;
            return Ok(Command::Compound {
                compound,
                redirects,
            });
        }
        if self.function_at() {
            self.function(left)
        } else {
            self.simple(left)
        }
    }

    /// Commands with | between them, with or without ! before the first.
    #[cycle(parsing)]
    fn pipeline(&mut self, left: u32) -> Result<Pipeline, Fault>
        ensures { OnOk result (self.new ≤ self.old) }
    {
        let negated = self.lookahead() == Lookahead::Keyword(Keyword::Not);
        if negated {
            self.advance();
        }
        let first = self.command(left)?;
        let mut commands = vec![in self.heap; first]?;
        while self.take_sign(Sign::Bar) {
            commands.push(self.command(left)?)?;
        }
        Ok(Pipeline { negated, commands })
    }

    /// Pipelines joined by && and ||.
    #[cycle(parsing)]
    fn and_or(&mut self, left: u32) -> Result<AndOr, Fault>
        ensures { OnOk result (self.new ≤ self.old) }
    {
        let first = self.pipeline(left)?;
        let mut rest = Vec::new(self.heap);
        while let Some(joiner) = self.take_joiner() {
            rest.push(Joined {
                joiner,
                pipeline: self.pipeline(left)?,
            })?;
        }
        Ok(AndOr { first, rest })
    }

    /// Commands, each with ; & or the end of a line behind it.
    #[cycle(parsing)]
    fn list(&mut self, left: u32, last: Last) -> Result<CommandList, Fault>
        ensures { OnOk result (self.new ≤ self.old) }
    {
        if left == 0 {
            return Err(self.refuse(Expected::LessDepth));
        }
        let mut list = Vec::new(self.heap);
        while !self.ends_list() {
            if self.take_sign(Sign::EndOfLine) {
                continue;
            }
            let and_or = self.and_or(left - 1)?;
            let terminator = self.take_terminator();
            if terminator.is_none() && last == Last::Ended {
                return Err(self.refuse(Expected::Terminator));
            }
            list.push(Item {
                and_or,
                background: terminator == Some(Terminator::Background),
            })?;
            if terminator.is_none() {
                break;
            }
        }
        Ok(list)
    }
}

/// The tree of a text, which has at most so many bytes.
pub fn parse(heap: Global, text: &[u8]) -> Result<CommandList, Fault>
    ensures { OnOk result (length text.now ≤ 16384) }
{
    if text.len() > MOST_BYTES {
        return Err(Fault::NoText(NoText {
            place: MOST_BYTES,
            expected: Expected::EndOfText,
        }));
    }
    let tokens = lexer::tokens(heap, text)?;
    let mut parser = Parser {
        heap,
        rest: &tokens,
        end: text.len(),
    };
    let list = parser.list(LEVELS, Last::Open)?;
    if parser.rest.is_empty() {
        Ok(list)
    } else {
        Err(parser.refuse(Expected::EndOfText))
    }
}
