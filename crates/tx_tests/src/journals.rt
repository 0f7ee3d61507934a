//! What no text asks of a session.
use crate::sessions::session_after;
use std::alloc::Global;
use std::test::Fail;
use tx_base::{NoMemory, Pid};
use tx_core::NoTransaction;
use tx_journal::Session;

/// Process 2 began a transaction and mapped a page.
const BEGUN: &str = "txos 1 schedule 2\n2 sys_xbegin\n2 map 0\n";

/// Makes room for three steps. Whether the session still has its two.
fn makes_room(session: &mut Session) -> bool {
    session.reserve(3).is_ok() && session.len() == 2 && session.position() == 2
}

#[test]
fn room_is_made_for_steps(rt: HostRuntime) -> Result<(), Fail> {
    let mut session = session_after(rt.alloc(), BEGUN)?;
    assert!(rt; makes_room(&mut session));
    Ok(())
}

/// Whether the third entry is the kernel's abort, by worker 3.
fn has_the_abort(alloc: Global, session: &Session) -> Result<bool, NoMemory> {
    let by_it = session.entry(3).is_some_and(|entry| entry.worker == 3);
    let text = session.state_text(alloc)?;
    Ok(
        by_it
            && text
                .as_str()
                .ends_with("proc 2 parent 1 run point 1 ret -202\n"),
    )
}

#[test]
fn the_kernels_abort_has_its_entry(rt: HostRuntime) -> Result<(), Fail> {
    let mut session = session_after(rt.alloc(), BEGUN)?;
    assert!(rt; matches!(session.kernel_abort(3, Pid(1)), Err(NoTransaction)));
    assert!(rt; session.kernel_abort(3, Pid(2)).is_ok());
    assert!(rt; matches!(has_the_abort(rt.alloc(), &session), Ok(true)));
    Ok(())
}
