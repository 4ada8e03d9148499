//! The stages of the language.
ghost use Rattle.std.specs.Prelude.{◌≡◌, max};
ghost use Rattle.reader.specs.Stages.{stage_number};

/// How much of the language a text needs.
#[derive(Clone, Copy, Debug, PartialEq, Eq, PartialOrd, Ord)]
pub enum Stage {
    Core,
    Pipes,
    Substitutions,
    Functions,
    Patterns,
    Processes,
}

impl Stage {
    pub fn raised(self, by: Stage) -> Stage
        ensures { stage_number result ≡ max (stage_number self) (stage_number by) }
    {
        self.max(by)
    }

    /// The stage as `Program` gives it.
    pub fn number(self) -> u32
        ensures { result ≡ stage_number self }
    {
        self as u32
    }
}
