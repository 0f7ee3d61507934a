//! The rules that the kernel is held to, as definitions in `specs/`. `docs/DEFINITIONS.md` is their
//! map. Every crate cites these; none has a second version of one.
//!
//! `StateLaws` has a few lemmas on states, and `BookLaws` one for each page, for the proofs of all
//! crates: what holds of each line of a page, where that line decides, holds of what the page comes
//! to. So a law over calls asks one thing of each line. A plan of tx_kernel and a call of tx_cred,
//! tx_pages or tx_desc cite the page itself (`effect_by`, `.._outcome`).
#![tactic(auto)]
