//! Growths that are refused. Each test passes also where one growth of memory is refused to it,
//! whichever it is: it looks at what holds after the refusal, and goes on. Where the growth is one
//! of its own texts, it ends.
ghost use Rattle.tx_journal.specs.Sessions.{IsAtEnd};

use crate::runs::{go, kept, ran};
use crate::schedules::{NUMBERS_AGAIN, SIDE_BY_SIDE, numbers_again, side_by_side};
use crate::sessions::make_steps;
use crate::texts::{report, session_report};
use std::alloc::Global;
use std::process::Abort;
use tx_base::{Accepted, NoMemory, Step};
use tx_core::{Kept, Ran};
use tx_journal::{GotoFault, Session, print_state};
use tx_pages::{PageError, Space};

/// Whether the text is what is wanted. One that was refused memory is.
fn is_text(text: Result<String, NoMemory>, wanted: &str) -> bool {
    match text {
        Ok(text) => text.as_str() == wanted,
        Err(NoMemory) => true,
    }
}

/// Whether two texts are the same. One that was refused memory is the same as any.
fn are_same(one: Result<String, NoMemory>, other: Result<String, NoMemory>) -> bool {
    match (one, other) {
        (Ok(one), Ok(other)) => one.as_str() == other.as_str(),
        _ => true,
    }
}

/// The whole run, made again where it was refused.
fn whole_run(rt: &impl Abort, alloc: Global, steps: &[Step]) -> Ran {
    match ran(alloc, 3, steps) {
        Ok(first) => first,
        Err(NoMemory) => match ran(alloc, 3, steps) {
            Ok(second) => second,
            Err(NoMemory) => panic!(rt; "one growth alone is refused"),
        },
    }
}

#[test]
fn a_run_is_made_whole_the_second_time(rt: HostRuntime) {
    let steps = side_by_side();
    let made = whole_run(&rt, rt.alloc(), &steps);
    assert!(rt; is_text(report(rt.alloc(), &made), SIDE_BY_SIDE));
}

/// The run up to where it stopped.
fn partial_run(rt: &impl Abort, alloc: Global, steps: &[Step]) -> Kept {
    match kept(alloc, steps) {
        Ok(first) => first,
        Err(NoMemory) => match kept(alloc, steps) {
            Ok(second) => second,
            Err(NoMemory) => panic!(rt; "one growth alone is refused"),
        },
    }
}

/// Whether a run says what that of these steps from two processes says. It does where memory is
/// refused.
fn is_run_of(alloc: Global, run: &Ran, steps: &[Step]) -> bool {
    match ran(alloc, 2, steps) {
        Ok(whole) => are_same(report(alloc, &whole), report(alloc, run)),
        Err(NoMemory) => true,
    }
}

/// Makes the steps that are left of a run. Whether all were made.
fn go_on(alloc: Global, ran: &mut Ran, left: &[Step]) -> bool {
    for step in left {
        let (reply, _inverse) = ran.machine.step(alloc, step);
        let step = step.copy();
        if reply.wants_memory() || ran.history.push(Accepted { step, reply }).is_err() {
            return false;
        }
    }
    true
}

/// Whether the steps that are left are made, and the run is then the whole one.
fn is_whole_after(alloc: Global, run: &mut Ran, left: &[Step]) -> bool {
    go_on(alloc, run, left) && is_text(report(alloc, run), NUMBERS_AGAIN)
}

#[test]
fn a_partial_run_goes_on_where_it_stopped(rt: HostRuntime) {
    let steps = numbers_again();
    let first = partial_run(&rt, rt.alloc(), &steps);
    let stopped = first.stopped.unwrap_or(steps.len()).min(steps.len());
    let (made, left) = steps.split_at(stopped);
    let mut run = first.ran;
    assert!(rt; is_run_of(rt.alloc(), &run, made), "stopped at {stopped}");
    assert!(rt;
        is_whole_after(rt.alloc(), &mut run, left),
        "stopped at {stopped}"
    );
}

/// A session before its first step.
fn booted(rt: &impl Abort, alloc: Global) -> Session
    ensures { IsAtEnd result }
{
    match Session::boot(alloc, 3) {
        Ok(session) => session,
        Err(NoMemory) => match Session::boot(alloc, 3) {
            Ok(session) => session,
            Err(NoMemory) => panic!(rt; "one growth alone is refused"),
        },
    }
}

/// The steps but for that of a place. Nothing where they were refused memory.
fn without(alloc: Global, steps: &[Step], place: Option<usize>) -> Option<Vec<Step>> {
    let mut others = Vec::new(alloc);
    for (i, step) in steps.iter().enumerate() {
        if place != Some(i) {
            others.push(step.copy()).ok()?;
        }
    }
    Some(others)
}

/// Whether a session says what the run of these steps says. It does where memory is refused.
fn says_steps(alloc: Global, session: &Session, steps: &[Step]) -> bool {
    match ran(alloc, 3, steps) {
        Ok(whole) => are_same(report(alloc, &whole), session_report(alloc, session)),
        Err(NoMemory) => true,
    }
}

/// Whether a session says all the steps but that of a place, if there is one. It does where memory
/// is refused.
fn says_all_but(alloc: Global, session: &Session, steps: &[Step], refused: Option<usize>) -> bool {
    match without(alloc, steps, refused) {
        Some(others) => says_steps(alloc, session, others.as_slice()),
        None => true,
    }
}

#[test]
fn a_refused_step_has_not_come(rt: HostRuntime) {
    let steps = side_by_side();
    let mut session = booted(&rt, rt.alloc());
    let refused = make_steps(rt.alloc(), &mut session, &steps);
    let same = says_all_but(rt.alloc(), &session, &steps, refused);
    assert!(rt; same, "without {refused:?}");
    assert!(rt; refused.is_some() || is_text(session_report(rt.alloc(), &session), SIDE_BY_SIDE));
}

/// Whether a session is where so many of the steps are made. It does where memory is refused.
fn is_after(alloc: Global, session: &Session, steps: &[Step]) -> bool {
    match ran(alloc, 3, steps) {
        Ok(whole) => are_same(
            print_state(alloc, &whole.machine),
            session.state_text(alloc),
        ),
        Err(NoMemory) => true,
    }
}

/// Goes on to the end. Answers whether it is there, or memory was refused between.
fn goes_on_to(alloc: Global, session: &mut Session, end: usize) -> bool {
    match go(alloc, session, end) {
        Ok(()) => session.position() == end,
        Err(fault) => fault == GotoFault::NoMemory && (1..end).contains(&session.position()),
    }
}

/// Whether a session is where the steps up to its position are made.
fn is_at_its_position(alloc: Global, session: &Session, steps: &[Step]) -> bool {
    let (made, _left) = steps.split_at(session.position().min(steps.len()));
    is_after(alloc, session, made)
}

/// Walks from the end to the first entry and to the end again, and looks at where it is.
fn walk_and_look(rt: &impl Abort, alloc: Global, session: &mut Session, steps: &[Step]) {
    let end = session.len();
    assert!(rt; end == 12 && go(alloc, session, 1) == Ok(()));
    assert!(rt; goes_on_to(alloc, session, end));
    assert!(rt; is_at_its_position(alloc, session, steps));
    assert!(rt; session.position() == end || go(alloc, session, end) == Ok(()));
    assert!(rt; is_text(session_report(alloc, session), SIDE_BY_SIDE));
}

#[test]
fn a_walk_stops_between(rt: HostRuntime) {
    let steps = side_by_side();
    let mut session = booted(&rt, rt.alloc());
    if make_steps(rt.alloc(), &mut session, &steps).is_none() {
        walk_and_look(&rt, rt.alloc(), &mut session, &steps);
    }
}

#[test]
fn a_walk_by_exchange_stops_between(rt: HostRuntime) {
    let steps = side_by_side();
    let mut session = booted(&rt, rt.alloc());
    if make_steps(rt.alloc(), &mut session, &steps).is_none() {
        let _room = session.reserve_forward(0);
        walk_and_look(&rt, rt.alloc(), &mut session, &steps);
    }
}

/// A space of two pages, of which each holds a byte, and its copy.
fn two_spaces(alloc: Global) -> Result<(Space, Space), PageError> {
    let mut space = Space::new();
    space.map(alloc, 0)?;
    space.map(alloc, 1)?;
    space.store(alloc, 63, &[7, 8])?;
    let copy = space.copy()?;
    Ok((space, copy))
}

/// The first two pages of a space.
fn bytes_of(space: &Space) -> [u8; 128] {
    let mut bytes = [0; 128];
    let _taken = space.take(0, &mut bytes);
    bytes
}

/// Whether the first store into a page that was copied is made, or wants memory and changes
/// nothing.
fn is_stored_or_not(alloc: Global, copy: &mut Space) -> bool {
    let before = bytes_of(copy);
    match copy.store(alloc, 63, &[9]) {
        Ok(()) => matches!(copy.load(63), Ok(9)),
        Err(PageError::NoMemory) => bytes_of(copy) == before,
        Err(_) => false,
    }
}

/// Whether a store into the other page of the space is made, or changes nothing.
fn is_stored_beside(alloc: Global, space: &mut Space) -> bool {
    let before = bytes_of(space);
    space.store(alloc, 64, &[6]).is_ok() || bytes_of(space) == before
}

#[test]
fn a_first_store_after_a_copy_is_made_or_not(rt: HostRuntime) {
    let Ok((mut space, mut copy)) = two_spaces(rt.alloc()) else {
        return;
    };
    let before = bytes_of(&space);
    assert!(rt; is_stored_or_not(rt.alloc(), &mut copy));
    assert!(rt; bytes_of(&space) == before);
    assert!(rt; is_stored_beside(rt.alloc(), &mut space));
    assert!(rt; matches!(copy.load(64), Ok(8)));
}
