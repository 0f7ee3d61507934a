//! Reads the schedule that a text of any version means.
ghost use Rattle.tx_translate.specs.MeantSchedules.{MeansScheduleOf};

use crate::meant::Meant;
use crate::plain::is_third;
use crate::texts::{Text, read_text};
use std::alloc::Global;
use tx_lines::{Fault, Schedule, read_schedule as read_second};

/// The schedule that a text means, or the fault of the text. A text of version 3 is read line by
/// line; where it is at fault, what it means is made as a text, in which the fault is found.
pub fn read_schedule(alloc: Global, text: &[u8]) -> Result<Schedule, Fault>
    ensures { MeansScheduleOf text.now result }
{
    if is_third(text)
        && let Some(Text::Schedule(schedule)) = read_text(alloc, text)?
    {
        return Ok(schedule);
    }
    let meant = Meant::by(alloc, text)?;
    match read_second(alloc, meant.as_bytes()) {
        Ok(schedule) => Ok(schedule),
        Err(fault) => Err(meant.own_fault(fault)),
    }
}
