//! What the definitions come to, as the contract of a function that does nothing.
ghost use Rattle.tx_expect.specs.Laws.{StepsAreReported};

/// Of the step of a line nothing is reported exactly where the line expects nothing of it, or its
/// reply is the expected one; and it counts as met only in the second case.
pub fn steps_are_reported_unless_they_agree()
    ensures { StepsAreReported }
{}
