//! The texts that are printed, of the parts of a state and of a reply. It knows no machine, so it
//! is proved beside the crates that make one.
//!
//! `put_procs`, `put_descs` and `put_pipes` append the parts of a state, `put_txn_lines` a live
//! transaction, and `put_reply` a reply. Each kind of line has its function, and each list of
//! lines one that goes over it. `Links` finds the members of all live transactions in one pass
//! over the marks.
#![tactic(auto)]

mod descriptors;
mod links;
mod pieces;
mod processes;
mod registers;
mod replies;
mod signals;
mod txns;

pub use descriptors::{put_desc_line, put_descs, put_pipe_line, put_pipes};
pub use links::Links;
pub use pieces::{put_fd_of, put_ids_of, put_page_of, put_pending_of, put_queue_of};
pub use processes::{put_procs, put_slot_lines};
pub use replies::{error_name, put_named_reply, put_reply};
pub use txns::{is_listed, put_txn_lines};
