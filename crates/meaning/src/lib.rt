//! What a list of commands means: a system of processes, its moves, fair orders, and what holds of them.
#![tactic(auto)]

ghost use Rattle.std.specs.Prelude.{ℕ};
ghost use Rattle.meaning.specs.Statements.{Isolated, Confluent, CoreFair, WithoutTheRule};
ghost use Rattle.meaning.specs.Queue.{QueueFair};

/// A move of one process leaves every other process as it was.
pub fn isolated()
    ensures { Isolated }
{}

/// All orders of a calm text of the core that end put the same on the paper, with the same status.
pub fn confluent()
    ensures { Confluent 0 }
{}

/// Every order of a text of the core is fair.
pub fn core_fair()
    ensures { CoreFair }
{}

/// An order taken from a queue of those who are able, in slices of at most 4,096 moves, is fair.
pub fn queue_fair()
    ensures { QueueFair }
{}

/// Without the rule about redirections that read, orders of calm texts differ from stage 2 on.
pub fn without_the_rule()
    ensures { WithoutTheRule }
{}
