//! Trees of commands, their stages and the names in them: definitions, and what holds of every tree.
#![tactic(auto)]

ghost use Rattle.syntax.specs.Statements.{SixStages};

/// Every tree is of one of the stages 0 to 5.
pub fn six_stages()
    ensures { SixStages }
{}
