//! Random texts: that calm ones give the same with all dice.

use crate::compare::SEEDS;
use crate::counts::{Counts, Outcomes};
use dice::run::{Outcome, Report, run};
use dice_tree::calm::calm;
use dice_tree::parser::parse;
use dice_tree::stage::Stage;
use dice_tree::tree::Item;
use random_texts::{mutated_text, random_text};

/// So many random texts, and mutated ones.
pub const TEXTS: u64 = 2400;

pub const MUTATED: u64 = 1200;
/// So many moves a random text may take.
const MOVES: u64 = 20_000;

/// How many random texts came out in which way.
#[derive(Clone, Copy, Default)]
pub struct Tally {
    counts: Counts,
    calm: u32,
    mutated_refused: u32,
}

/// Two runs of a calm text, if both ended, have the same paper and outcome.
fn agrees(a: &Report, b: &Report) -> bool {
    match (a.outcome, b.outcome) {
        (Outcome::Ended(m), Outcome::Ended(n)) => m == n && a.paper == b.paper,
        _ => true,
    }
}

impl Tally {
    /// The other dice beside the first run of a calm text. What another runner gives is to be compared here too.
    fn check_dice(
        &mut self,
        rt: &(impl Print + AllocGlobal),
        seed: u64,
        list: &[Item],
        first: &Report,
    ) -> anyhow::Result<()> {
        self.calm = self.calm.saturating_add(1);
        for dice in SEEDS {
            let other = run(rt.alloc(), list, &[], dice, MOVES)?;
            let agrees = agrees(first, &other);
            self.counts.agreements.count(agrees);
            if !agrees {
                println!(rt; "DIFFERS: random text {seed}, dice {dice}")?;
            }
        }
        Ok(())
    }

    pub fn check_text(&mut self, rt: &(impl Print + AllocGlobal), seed: u64) -> anyhow::Result<()> {
        let text = random_text(rt.alloc(), seed)?;
        let Ok(list) = parse(rt.alloc(), &text) else {
            self.counts.outcomes.refuse();
            return Ok(());
        };
        let first = run(rt.alloc(), &list, &[], 0, MOVES)?;
        self.counts.stages.count(Stage::of(&list).number());
        self.counts.outcomes.count(first.outcome);
        if calm(&list) {
            self.check_dice(rt, seed, &list, &first)?;
        }
        Ok(())
    }

    pub fn check_mutated(&mut self, rt: &impl AllocGlobal, seed: u64) -> anyhow::Result<()> {
        let text = mutated_text(rt.alloc(), seed)?;
        if parse(rt.alloc(), &text).is_err() {
            self.mutated_refused = self.mutated_refused.saturating_add(1);
        }
        Ok(())
    }
}

pub fn print_tally(rt: &impl Print, tally: &Tally) -> anyhow::Result<()> {
    let Tally {
        counts,
        calm,
        mutated_refused,
    } = *tally;
    let Counts {
        stages,
        outcomes,
        agreements,
    } = counts;
    let Outcomes {
        ended,
        still,
        spent,
        refused,
    } = outcomes;
    println!(rt; "random texts by stage: {stages}; calm {calm}")?;
    println!(rt; "ended {ended}, still {still}, spent {spent}, no text {refused}")?;
    println!(rt; "{agreements}")?;
    println!(rt; "mutated texts {MUTATED}, no text {mutated_refused}")?;
    Ok(())
}
