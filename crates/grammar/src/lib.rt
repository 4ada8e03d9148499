//! Which texts are lists of commands: tokens, the grammar, the parser, and that they agree.
#![tactic(auto)]

ghost use Rattle.grammar.specs.Statements.{Unambiguous, ParserAgrees};

/// A text is at most one list of commands.
pub fn unambiguous()
    ensures { Unambiguous }
{}

/// The parser agrees with the grammar, both ways.
pub fn parser_agrees()
    ensures { ParserAgrees }
{}
