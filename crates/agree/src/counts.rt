//! How many texts came out in which way.

use dice::run::Outcome;
use std::fmt;

/// How many texts are of which stage.
#[derive(Clone, Copy, Default)]
pub struct Stages([u32; 6]);

impl Stages {
    pub fn count(&mut self, stage: u32) {
        if let Some(n) = self.0.get_mut(stage as usize) {
            *n = n.saturating_add(1);
        }
    }
}

impl fmt::Display for Stages {
    fn fmt<W: fmt::Write>(&self, f: &mut fmt::Formatter<W>) -> fmt::Result {
        let [s0, s1, s2, s3, s4, s5] = self.0;
        write!(f, "{s0} {s1} {s2} {s3} {s4} {s5}")
    }
}

/// How many runs ended in which way, and how many texts were none.
#[derive(Clone, Copy, Default)]
pub struct Outcomes {
    pub ended: u32,
    pub still: u32,
    pub spent: u32,
    pub refused: u32,
}

impl Outcomes {
    pub fn count(&mut self, outcome: Outcome) {
        let n = match outcome {
            Outcome::Ended(_) => &mut self.ended,
            Outcome::Still => &mut self.still,
            Outcome::Spent => &mut self.spent,
        };
        *n = n.saturating_add(1);
    }

    pub fn refuse(&mut self) {
        self.refused = self.refused.saturating_add(1);
    }
}

/// How many comparisons came out in which way.
#[derive(Clone, Copy, Default)]
pub struct Agreements {
    agreed: u32,
    differing: u32,
}

impl Agreements {
    pub fn count(&mut self, agrees: bool) {
        if agrees {
            self.agreed = self.agreed.saturating_add(1);
        } else {
            self.differing = self.differing.saturating_add(1);
        }
    }
}

impl fmt::Display for Agreements {
    fn fmt<W: fmt::Write>(&self, f: &mut fmt::Formatter<W>) -> fmt::Result {
        let Agreements { agreed, differing } = *self;
        write!(f, "agreements {agreed}, disagreements {differing}")
    }
}

/// How many texts came out in which way.
#[derive(Clone, Copy, Default)]
pub struct Counts {
    pub stages: Stages,
    pub outcomes: Outcomes,
    pub agreements: Agreements,
}
