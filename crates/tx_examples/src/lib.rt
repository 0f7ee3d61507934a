//! Schedules worked out to the end by hand, from the definitions of the kernel: what each step is
//! answered, and the state that they leave. A proof can't refuse a definition; these schedules show
//! an error in one. `./check rules` prints the errors that were tried.
#![tactic(auto)]

mod schedules;

pub use schedules::{
    worked_children, worked_commits, worked_conflicts, worked_descriptors, worked_footprints,
    worked_identities, worked_kills, worked_memory, worked_moments, worked_numbers, worked_pipes,
    worked_refusals, worked_schedules, worked_scripts, worked_sends, worked_signals, worked_trees,
};
