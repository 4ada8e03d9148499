//! What is proved of the runs of texts that the machine has all for.
#![tactic(auto)]

ghost use Rattle.within.specs.Statements.{NeverBeyond};

/// In every run of a covered text of the core, what comes next is a form that the machine has, and the output is the paper.
pub fn never_beyond()
    ensures { NeverBeyond }
{}
