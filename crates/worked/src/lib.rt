//! Examples worked out from the bytes of a text to what is on the paper.
#![tactic(auto)]

ghost use Rattle.worked.specs.Examples.{Examples};

/// Each text of the examples is the list of commands that it looks like, and gives what stands beside it.
pub fn worked_examples()
    ensures { Examples }
{}
