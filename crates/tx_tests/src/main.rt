//! The tests of all libraries: what no contract says and no text shows that the program answers.
//! They are in no library's own crate, since a crate with tests is proved once more for them, and
//! all in one, since a program of tests is proved as a whole.
//!
//! The tests of `refused` pass whichever growth of memory is refused to them, and are run so, too.
//!
//! The program itself does nothing. A library here would be reckoned by `rt ci` once for each way
//! that leads down from it, which takes minutes; a program is not.
#![tactic(auto)]

#[cfg(test)]
mod descriptors;
#[cfg(test)]
mod ids;
#[cfg(test)]
mod journals;
#[cfg(test)]
mod kernel;
#[cfg(test)]
mod machine;
#[cfg(test)]
mod memory;
#[cfg(test)]
mod numbers;
#[cfg(test)]
mod pipes;
#[cfg(test)]
mod programs;
#[cfg(test)]
mod queues;
#[cfg(test)]
mod refused;
#[cfg(test)]
mod runs;
#[cfg(test)]
mod schedules;
#[cfg(test)]
mod sessions;
#[cfg(test)]
mod signals;
#[cfg(test)]
mod texts;
#[cfg(test)]
mod turns;
#[cfg(test)]
mod workers;

fn main() {}
