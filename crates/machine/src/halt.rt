//! Why a process cannot go on.
ghost use Rattle.std.specs.Prelude.{◌≡◌};
ghost use Rattle.machine.specs.declared.halt.Halt.TheVariants.{NoRoom};

use store::Refusal;

#[derive(Clone, Copy, Debug, PartialEq, Eq)]
pub enum Halt {
    /// the store has no room for what is to come
    NoRoom,
    /// the next byte doesn't fit behind what is printed
    PaperFull,
    /// the code has a form that the machine does not have
    Unsupported,
}

impl From<Refusal> for Halt {
    ghost from_gives = { λ _ halt. halt ≡ NoRoom };

    fn from(_refusal: Refusal) -> Halt {
        Halt::NoRoom
    }
}
