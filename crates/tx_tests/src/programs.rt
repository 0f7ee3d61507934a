//! Programs that the tests run.
use std::alloc::Global;
use tx_lines::{Fault, OverRead, Program, read_program};

/// A child takes back the transaction of process 1, which finds so.
pub(crate) const PROGRAM: &str = "txos 1 program 1
sys_xbegin
jump @back if -201
fork
sys_xabort
label back
keep 0
";

/// What one worker writes of it.
pub(crate) const RUN: &str = "1 w1 1 sys_xbegin : ok 0
2 w1 1 jump 4 if -201 : ok 0
3 w1 1 fork 2 : ok 2
4 w1 2 sys_xabort : aborted 201
5 w1 1 jump 4 if -201 : ok -201
6 w1 1 keep 0 : ok -201
state
proc 1 parent 0 run point 5 ret -201
slots -201 0 0 0 0 0 0 0
";

/// What is read of a text.
pub(crate) fn read(alloc: Global, text: &str) -> Result<Program, Fault> {
    read_program(alloc, &mut OverRead::new(text.as_bytes()))
}
