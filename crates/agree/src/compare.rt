//! What the texts give, beside what they should give.

use crate::counts::{Counts, Outcomes};
use crate::records::{Expectation, Record};
use anyhow::anyhow;
use dice::run::{Report, run};
use dice_tree::calm::calm;
use dice_tree::parser::parse;
use dice_tree::stage::Stage;
use dice_tree::tree::{Fault, Item, line_and_column};
use std::fmt;

/// So many moves a text of the files may take.
const MOVES: u64 = 500_000;
/// The dice with which each is run.
pub const SEEDS: [u64; 5] = [1, 2, 3, 4, 5];

fn as_text(bytes: &[u8]) -> &str {
    std::str::from_utf8(bytes).unwrap_or("(bytes that are no text)")
}

impl Record {
    fn fits(&self, report: &Report) -> bool {
        let paper = match &self.paper {
            Some(paper) => paper.as_slice() == report.paper.as_slice(),
            None => true,
        };
        let outcome = match &self.expectation {
            Expectation::Runs(outcome) => *outcome == report.outcome,
            Expectation::NoText(_) => false,
        };
        paper && outcome
    }
}

impl Counts {
    /// One more that fits, or a line that says which does not, and what it gives.
    fn note<D: fmt::Display + Drop>(
        &mut self,
        rt: &impl Print,
        record: &Record,
        fits: bool,
        found: D,
    ) -> anyhow::Result<()> {
        self.agreements.count(fits);
        if !fits {
            let name = as_text(&record.name);
            println!(rt; "DIFFERS: {name}: {found}")?;
        }
        Ok(())
    }

    /// A text that is none: where reading stops, and what was expected there.
    fn check_refusal(
        &mut self,
        rt: &(impl Print + AllocGlobal),
        record: &Record,
        fault: &Fault,
    ) -> anyhow::Result<()> {
        let Fault::NoText(refusal) = fault else {
            return Err(anyhow!("no memory"));
        };
        self.outcomes.refuse();
        let (line, column) = line_and_column(&record.text, refusal.place);
        let expected = refusal.expected;
        let found = format!(in rt.alloc(); "{line}:{column} {expected}")?;
        let fits = match &record.expectation {
            Expectation::NoText(words) => words.as_slice() == found.as_bytes(),
            Expectation::Runs(_) => false,
        };
        self.note(rt, record, fits, found)
    }

    /// One run with these dice. What another runner gives is to be compared here too.
    fn check_run(
        &mut self,
        rt: &(impl Print + AllocGlobal),
        record: &Record,
        list: &[Item],
        seed: u64,
    ) -> anyhow::Result<()> {
        let report = run(rt.alloc(), list, &record.input, seed, MOVES)?;
        let outcome = report.outcome;
        let paper = as_text(&report.paper);
        let found = format_args!("dice {seed}: {outcome:?}, paper:\n{paper}");
        self.note(rt, record, record.fits(&report), found)
    }

    fn check_forms(
        &mut self,
        rt: &impl Print,
        record: &Record,
        list: &[Item],
    ) -> anyhow::Result<()> {
        let stage = Stage::of(list).number();
        let is_calm = calm(list);
        let fits = stage == record.stage && is_calm == record.calm;
        let found = format_args!("stage {stage}, calm: {is_calm}");
        self.note(rt, record, fits, found)
    }

    /// A text that is one: its forms, and what it gives with several dice.
    fn check_text(
        &mut self,
        rt: &(impl Print + AllocGlobal),
        record: &Record,
        list: &[Item],
    ) -> anyhow::Result<()> {
        self.stages.count(record.stage);
        if let Expectation::Runs(outcome) = &record.expectation {
            self.outcomes.count(*outcome);
        }
        self.check_forms(rt, record, list)?;
        for seed in SEEDS {
            self.check_run(rt, record, list, seed)?;
        }
        Ok(())
    }

    /// Reads and runs one text with several dice.
    pub fn check_record(
        &mut self,
        rt: &(impl Print + AllocGlobal),
        record: &Record,
    ) -> anyhow::Result<()> {
        match parse(rt.alloc(), &record.text) {
            Err(fault) => self.check_refusal(rt, record, &fault),
            Ok(list) => self.check_text(rt, record, &list),
        }
    }
}

pub fn print_counts(rt: &impl Print, counts: &Counts) -> anyhow::Result<()> {
    let Counts {
        stages,
        outcomes,
        agreements,
    } = *counts;
    let Outcomes {
        ended,
        spent,
        refused,
        ..
    } = outcomes;
    println!(rt; "texts by stage: {stages}")?;
    println!(rt; "ended {ended}, spent {spent}, no text {refused}")?;
    println!(rt; "{agreements}")?;
    Ok(())
}
