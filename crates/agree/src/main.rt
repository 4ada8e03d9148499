//! Runs the texts that are kept as data, and random ones, and compares what they give. For now with one runner, whose
//! moves are drawn by dice; another one is to be compared where `check_run` and `check_dice` say so.

#![tactic(auto)]

mod compare;
mod counts;
mod random;
mod records;
#[cfg(test)]
mod tests;

use crate::counts::Counts;
use crate::random::Tally;
use std::fs;
use std::rt::Files;

/// The files of texts.
const FILES: [&str; 8] = [
    "core.txt",
    "pipes.txt",
    "substitution.txt",
    "functions.txt",
    "patterns.txt",
    "processes.txt",
    "long.txt",
    "refused.txt",
];

fn check_records(rt: &(impl Print + AllocGlobal + Files)) -> anyhow::Result<()> {
    let mut all = Vec::new(rt.alloc());
    for file in FILES {
        let bytes = fs::read(rt, file)?;
        records::read_records(rt.alloc(), &bytes, &mut all)?;
    }
    let mut counts = Counts::default();
    for record in all.iter() {
        counts.check_record(rt, record)?;
    }
    compare::print_counts(rt, &counts)
}

fn check_random(rt: &(impl Print + AllocGlobal)) -> anyhow::Result<()> {
    let mut tally = Tally::default();
    for seed in 0..random::TEXTS {
        tally.check_text(rt, seed)?;
    }
    for seed in 0..random::MUTATED {
        tally.check_mutated(rt, seed)?;
    }
    random::print_tally(rt, &tally)
}

fn main(rt: HostRuntime) -> anyhow::Result<()> {
    check_records(&rt)?;
    check_random(&rt)
}
