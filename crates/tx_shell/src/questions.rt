//! What is asked about the state and about steps: which step changed a piece (`changes.rt`), what a
//! step would do (`trials.rt`), how two positions differ (`comparing.rt`) and by which lines two
//! states do (`differences.rt`), what live transactions have reserved (`owners.rt`), who has a pipe
//! open (`held.rt`), why a step would be refused (`reasons.rt`), and the last refused step of the
//! child that it waits for (`attempts.rt`).
pub mod attempts;
pub mod blockers;
pub mod changes;
pub mod comparing;
pub mod differences;
pub mod held;
pub mod holders;
pub mod owners;
pub mod reasons;
pub mod signals;
pub mod trials;
pub mod waits;
