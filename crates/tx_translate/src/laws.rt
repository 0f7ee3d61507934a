//! What texts of version 2 mean, as the contract of a function that does nothing.
ghost use Rattle.tx_translate.specs.Laws.{ProgramStays, ScheduleStays, StepsStay, WalkStays};

/// Every text of version 2 is one of version 3, but for its header, and means itself: a schedule
/// of steps that fit, one with commands, and a program. So version 3 reads no line of version 2
/// otherwise. The line of a step means itself by itself too, and is one line.
pub fn second_stays_itself()
    ensures step { StepsStay }
    ensures schedule { ScheduleStays }
    ensures walk { WalkStays }
    ensures program { ProgramStays }
{}
