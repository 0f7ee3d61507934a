//! The calls at every relation of the ids, and who may signal whom.
use tx_base::Errno;
use tx_base::Errno::{InvalidArgument, NotPermitted};
use tx_cred::{Cred, may_signal};

/// Real, effective and saved user, and the same of the group.
type Six = [u16; 6];

/// The ids before, the id that is asked for, the result, and the ids after a call that may set all
/// three and after one that sets the effective id alone. Where one is refused, so is the other.
type Row = (Six, i64, Result<(), Errno>, Six, Six);

/// Privileged: its effective user is 0.
const ROOT: Six = [1, 0, 3, 4, 5, 6];

/// Not privileged.
const PLAIN: Six = [1, 2, 3, 4, 5, 6];

/// Not privileged, with effective group 0.
const GROUP_ZERO: Six = [1, 2, 3, 4, 0, 6];

static USERS: [Row; 18] = [
    (ROOT, 1, Ok(()), [1, 1, 1, 4, 5, 6], [1, 1, 3, 4, 5, 6]),
    (ROOT, 3, Ok(()), [3, 3, 3, 4, 5, 6], [1, 3, 3, 4, 5, 6]),
    (ROOT, 7, Ok(()), [7, 7, 7, 4, 5, 6], [1, 7, 3, 4, 5, 6]),
    (ROOT, 0, Ok(()), [0, 0, 0, 4, 5, 6], [1, 0, 3, 4, 5, 6]),
    (
        ROOT,
        65_535,
        Ok(()),
        [65_535, 65_535, 65_535, 4, 5, 6],
        [1, 65_535, 3, 4, 5, 6],
    ),
    (ROOT, -1, Err(InvalidArgument), ROOT, ROOT),
    (ROOT, 65_536, Err(InvalidArgument), ROOT, ROOT),
    (PLAIN, 1, Ok(()), [1, 1, 3, 4, 5, 6], [1, 1, 3, 4, 5, 6]),
    (PLAIN, 3, Ok(()), [1, 3, 3, 4, 5, 6], [1, 3, 3, 4, 5, 6]),
    (
        [1, 2, 0, 4, 5, 6],
        0,
        Ok(()),
        [1, 0, 0, 4, 5, 6],
        [1, 0, 0, 4, 5, 6],
    ),
    (PLAIN, 2, Err(NotPermitted), PLAIN, PLAIN),
    (PLAIN, 7, Err(NotPermitted), PLAIN, PLAIN),
    (PLAIN, 4, Err(NotPermitted), PLAIN, PLAIN),
    (PLAIN, 0, Err(NotPermitted), PLAIN, PLAIN),
    (PLAIN, 65_535, Err(NotPermitted), PLAIN, PLAIN),
    (PLAIN, -1, Err(InvalidArgument), PLAIN, PLAIN),
    (PLAIN, 65_536, Err(InvalidArgument), PLAIN, PLAIN),
    (PLAIN, 65_537, Err(InvalidArgument), PLAIN, PLAIN),
];

static GROUPS: [Row; 18] = [
    (ROOT, 4, Ok(()), [1, 0, 3, 4, 4, 4], [1, 0, 3, 4, 4, 6]),
    (ROOT, 6, Ok(()), [1, 0, 3, 6, 6, 6], [1, 0, 3, 4, 6, 6]),
    (ROOT, 7, Ok(()), [1, 0, 3, 7, 7, 7], [1, 0, 3, 4, 7, 6]),
    (ROOT, 0, Ok(()), [1, 0, 3, 0, 0, 0], [1, 0, 3, 4, 0, 6]),
    (
        ROOT,
        65_535,
        Ok(()),
        [1, 0, 3, 65_535, 65_535, 65_535],
        [1, 0, 3, 4, 65_535, 6],
    ),
    (ROOT, -1, Err(InvalidArgument), ROOT, ROOT),
    (ROOT, 65_536, Err(InvalidArgument), ROOT, ROOT),
    (PLAIN, 4, Ok(()), [1, 2, 3, 4, 4, 6], [1, 2, 3, 4, 4, 6]),
    (PLAIN, 6, Ok(()), [1, 2, 3, 4, 6, 6], [1, 2, 3, 4, 6, 6]),
    (GROUP_ZERO, 7, Err(NotPermitted), GROUP_ZERO, GROUP_ZERO),
    (PLAIN, 5, Err(NotPermitted), PLAIN, PLAIN),
    (PLAIN, 7, Err(NotPermitted), PLAIN, PLAIN),
    (PLAIN, 1, Err(NotPermitted), PLAIN, PLAIN),
    (PLAIN, 0, Err(NotPermitted), PLAIN, PLAIN),
    (PLAIN, 65_535, Err(NotPermitted), PLAIN, PLAIN),
    (PLAIN, -1, Err(InvalidArgument), PLAIN, PLAIN),
    (PLAIN, 65_536, Err(InvalidArgument), PLAIN, PLAIN),
    (PLAIN, 65_540, Err(InvalidArgument), PLAIN, PLAIN),
];

/// A process's ids.
fn cred(ids: Six) -> Cred {
    Cred {
        real_user: ids[0],
        effective_user: ids[1],
        saved_user: ids[2],
        real_group: ids[3],
        effective_group: ids[4],
        saved_group: ids[5],
    }
}

/// The six of a process.
fn six(ids: &Cred) -> Six {
    [
        ids.real_user,
        ids.effective_user,
        ids.saved_user,
        ids.real_group,
        ids.effective_group,
        ids.saved_group,
    ]
}

/// Whether the calls on users answer and do what a row has.
fn users_are_set(row: &Row) -> bool {
    let (before, id, answer, all, one) = *row;
    let mut ids = cred(before);
    let mut effective = cred(before);
    let answers = ids.setuid(id) == answer && effective.seteuid(id) == answer;
    answers && six(&ids) == all && six(&effective) == one
}

/// Whether the calls on groups answer and do what a row has.
fn groups_are_set(row: &Row) -> bool {
    let (before, id, answer, all, one) = *row;
    let mut ids = cred(before);
    let mut effective = cred(before);
    let answers = ids.setgid(id) == answer && effective.setegid(id) == answer;
    answers && six(&ids) == all && six(&effective) == one
}

#[test]
fn ids_are_set_at_every_relation(rt: HostRuntime) {
    for row in &USERS {
        assert!(rt; users_are_set(row), "user {} at {:?}", row.1, row.0);
    }
    for row in &GROUPS {
        assert!(rt; groups_are_set(row), "group {} at {:?}", row.1, row.0);
    }
}

/// The ids of a sender, those of its target, and whether it may signal that.
static SENDERS: [(u16, u16, Six, bool); 13] = [
    (9, 0, PLAIN, true),
    (1, 9, PLAIN, true),
    (3, 9, PLAIN, true),
    (9, 1, PLAIN, true),
    (9, 3, PLAIN, true),
    (2, 9, PLAIN, false),
    (9, 2, PLAIN, false),
    (4, 6, PLAIN, false),
    (0, 9, PLAIN, false),
    (8, 9, PLAIN, false),
    (8, 9, [0, 0, 0, 0, 0, 0], false),
    (0, 9, [0, 0, 0, 0, 0, 0], true),
    (9, 9, [9, 9, 9, 4, 5, 6], true),
];

#[test]
fn may_signal_at_every_relation(rt: HostRuntime) {
    for row in &SENDERS {
        let (real, effective, target, may) = *row;
        let answer = may_signal(real, effective, &cred(target));
        assert!(rt; answer == may, "{real} and {effective} to {target:?}");
    }
}
