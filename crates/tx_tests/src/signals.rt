//! Calls on pending signals and actions that no call of a process makes.
use tx_base::SIGCHLD;
use tx_signal::{Action, Actions, Pending, Signo};

#[test]
fn a_signal_is_discarded(rt: HostRuntime) {
    let mut pending = Pending::new();
    for (number, value) in [(33, 1), (32, 2), (33, 3)] {
        assert!(rt; pending.has_room() && pending.post(Signo(number), value).is_ok());
    }
    pending.discard(Signo(33));
    assert!(rt; pending.queued().len() == 1 && pending.value(Signo(32)) == Some(2));
}

#[test]
fn a_signal_is_ignored_or_ends(rt: HostRuntime) {
    let mut actions = Actions::new();
    let term = Signo(15);
    assert!(rt; actions.ignores(SIGCHLD) && !actions.is_fatal(SIGCHLD));
    assert!(rt; !actions.ignores(term) && actions.is_fatal(term));
    actions.set(term, Action::Ignore);
    assert!(rt; actions.ignores(term) && !actions.is_fatal(term));
}
