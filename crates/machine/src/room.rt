//! How much room a process takes in the store.
ghost use Rattle.machine.specs.Room.{OwnRoom, RefusalBound};

/// The words in the lists of a process are no more than what its control and frames take; so with the bound of a refusal,
/// memory runs out only when so much is needed.
pub fn own_room_stands()
    ensures { OwnRoom }
{}

/// How many words are lent at most where room is refused.
pub fn refusal_bound_stands()
    ensures { RefusalBound }
{}
