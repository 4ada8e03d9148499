//! That all orders of a calm text end alike.
#![tactic(auto)]

ghost use Rattle.std.specs.Prelude.{ℕ};
ghost use Rattle.meaning.specs.Statements.{Confluent};

/// All orders of a calm text without ( ) that end put the same on the paper, with the same status.
pub fn confluent()
    ensures { Confluent 4 }
{}
