//! Since which step a transaction has reserved an object.
ghost use Rattle.std.specs.Prelude.{◌≡◌, ◌<◌, ◌≤◌, Some, length, option_map, reverse, slice_get, take};
ghost use Rattle.tx_content.specs.Crossings.{inverse_at};
ghost use Rattle.tx_journal.specs.Entries.{history_of};
ghost use Rattle.tx_journal.specs.Sessions.{made_of, start_of};
ghost use Rattle.tx_journal.specs.Since.{comes_first, first_touch, is_first, newest_first, numbered};
ghost use Rattle.tx_content.specs.declared.inverse.Inverse.{Inverse as TheInverse};
ghost use Rattle.tx_reserve.specs.Objects.{object_of};

use crate::crossings::Crossings;
use crate::entry::Entry;
use crate::laws::laws;
use crate::session::Session;
use tx_base::{Pid, Step};
use tx_content::{Crossing, Inverse, MemberStep, Turn};
use tx_reserve::{Object, owners_are_extensional};

/// A step since which a transaction has reserved an object, and the step's number, from 1.
#[derive(Clone, Copy)]
pub struct Touch<'a> {
    pub number: usize,
    pub step: &'a Step,
}

impl Session {
    /// The first step since which the live transaction of a starter has reserved an object, without
    /// a break up to the position. None if it has not reserved it. It goes over what takes back the
    /// entries that are made, and takes no memory.
    pub fn first_touch(&self, starter: Pid, object: Object) -> Option<Touch<'_>>
        ensures { option_map numbered result
            ≡ first_touch (start_of self.now) (history_of (made_of self.now)) starter.0
            (object_of object) }
    {
        owners_are_extensional();
        self.machine.is_kept();
        if !self.machine.has_reserved(starter, object) {
            return None;
        }
        newest_first(
            &self.journal.crossings,
            self.journal.entries.as_slice(),
            starter,
            object,
        )
    }
}

/// The newest entry that is made, is a step of the starter's transaction, and before which that had
/// not reserved the object.
fn newest_first<'a>(
    crossings: &Crossings,
    entries: &'a [Entry],
    starter: Pid,
    object: Object,
) -> Option<Touch<'a>>
    requires { length crossings.now.inverses ≤ length entries.now }
    ensures { option_map numbered result
        ≡ newest_first starter.0 (object_of object) (reverse crossings.now.inverses)
        (history_of (take (length crossings.now.inverses) entries.now)) }
{
    let mut newest = None;
    for place in 0..crossings.made() {
        if comes_first_at(crossings, place, starter, object) {
            newest = Some(Touch {
                number: place + 1,
                step: &entries[place].step,
            });
        }
    }
    newest
}

/// Whether the entry of a place that is made is such a step.
fn comes_first_at(crossings: &Crossings, place: usize, starter: Pid, object: Object) -> bool
    ensures { (inverse : TheInverse) →
        slice_get crossings.now.inverses place ≡ Some inverse →
        result ≡ comes_first starter.0 (object_of object) inverse }
{
    let crossing = crossings.back_over(place);
    crossing.is_some_and(|crossing| comes_first(crossing, starter, object))
}

/// Whether it leads back over a step of the starter's transaction before which that had not
/// reserved the object.
fn comes_first(crossing: &Crossing, starter: Pid, object: Object) -> bool
    ensures { (inverse : TheInverse) → inverse_at crossing.now ≡ Some inverse →
        result ≡ comes_first starter.0 (object_of object) inverse }
{
    match crossing {
        Crossing::Turn(Turn::Inside(step)) => is_first(step, starter, object),
        Crossing::Back(Inverse::Inside { step, .. }) => is_first(step, starter, object),
        Crossing::Back(Inverse::Begun { starter: own }) => *own == starter,
        _ => false,
    }
}

/// Whether it is a step inside the starter's transaction before which that had not reserved the
/// object.
fn is_first(step: &MemberStep, starter: Pid, object: Object) -> bool
    ensures { result ≡ is_first starter.0 (object_of object) step.now }
{
    step.starter == starter && !step.objects.has(object)
}
