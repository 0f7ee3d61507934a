//! The schedules that the tests make, and what comes of them, by hand from the rules.
use arrayvec::ArrayVec;
use tx_base::{Call, Pid, Step};

/// The call of a process.
pub(crate) fn call(number: u16, call: Call) -> Step {
    Step::Call(Pid(number), call)
}

/// A store of these bytes.
fn store(address: i64, given: &[u8]) -> Call {
    let mut bytes = ArrayVec::new();
    let _fits = bytes.try_extend_from_slice(given);
    Call::Store(address, bytes)
}

/// Two transactions side by side: the kernel aborts one, and the other commits.
pub(crate) fn side_by_side() -> [Step; 12] {
    [
        call(2, Call::SysXbegin),
        call(3, Call::SysXbegin),
        call(2, Call::Map(0)),
        call(3, Call::Map(0)),
        call(2, Call::SysXbegin),
        call(3, store(0, &[10])),
        Step::KernelAbort(Pid(3)),
        call(2, store(1, &[255, 0])),
        call(2, Call::Load(1)),
        call(2, Call::SysXend),
        call(3, Call::SysXend),
        call(2, Call::Getpid),
    ]
}

/// What three processes say of it.
pub(crate) const SIDE_BY_SIDE: &str = "2 sys_xbegin : ok 0
3 sys_xbegin : ok 0
2 map 0 : ok 0
3 map 0 : ok 0
2 sys_xbegin : ok -22
3 store 0 0a : ok 0
kernel 3 : aborted 202
2 store 1 ff00 : ok 0
2 load 1 : ok 255
2 sys_xend : committed
3 sys_xend : ok -22
2 getpid : ok 2
state
proc 1 parent 0 run point 0 ret 0
proc 2 parent 1 run point 7 ret 2
page 0 rw 1=ff
proc 3 parent 1 run point 2 ret -22
";

/// Process 2 lets a tree of processes grow in a transaction, in which number 4 is used twice, and
/// takes it back; then number 3 is used again.
pub(crate) fn numbers_again() -> [Step; 12] {
    [
        call(2, Call::SysXbegin),
        call(2, Call::Fork(Pid(3))),
        call(3, Call::Fork(Pid(4))),
        call(4, Call::Setuid(7)),
        call(4, Call::Exit(9)),
        call(3, Call::Waitpid(4, false)),
        call(3, Call::Fork(Pid(4))),
        call(3, Call::Exit(0)),
        call(2, Call::Waitpid(3, false)),
        call(4, Call::Getppid),
        call(2, Call::SysXabort),
        call(2, Call::Fork(Pid(3))),
    ]
}

/// What two processes say of it.
pub(crate) const NUMBERS_AGAIN: &str = "2 sys_xbegin : ok 0
2 fork 3 : ok 3
3 fork 4 : ok 4
4 setuid 7 : ok 0
4 exit 9 : ended
3 waitpid 4 wait : ok 4
3 fork 4 : ok 4
3 exit 0 : ended
2 waitpid 3 wait : ok 3
4 getppid : ok 1
2 sys_xabort : aborted 201
2 fork 3 : ok 3
state
proc 1 parent 0 run point 0 ret 0
proc 2 parent 1 run point 2 ret 3
proc 3 parent 2 run point 2 ret 0
";
