//! Laws of footprints and of owners.
ghost use Rattle.tx_reserve.specs.Laws.{FootprintIsWithin, OwnersAreExtensional, WithinIsSmall};

/// In a well-formed state the footprint of a step has only objects of numbers in range: processes 1
/// to the width, descriptions 0 to 63, pipes 0 to 31. The step is of a process that runs and
/// chooses no bad number. A set may have each such object.
pub fn footprints_are_within()
    ensures within { FootprintIsWithin }
    ensures small { WithinIsSmall }
{}

/// Two tables of owners are the same if each object has the same owner in both.
pub fn owners_are_extensional()
    ensures { OwnersAreExtensional }
{}
