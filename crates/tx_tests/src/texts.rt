//! What tests read, and what runs and sessions say: their accepted steps with replies, and the
//! state.
use std::alloc::{AllocError, Global};
use tx_base::{NoMemory, Reply, Step};
use tx_core::Ran;
use tx_journal::{Session, put_state};
use tx_lines::{put, put_step};
use tx_state_text::put_reply;

/// What a run says.
pub(crate) fn report(alloc: Global, ran: &Ran) -> Result<String, NoMemory> {
    let mut text = String::new(alloc);
    for accepted in ran.history.as_slice() {
        put_line(&mut text, &accepted.step, &accepted.reply)?;
    }
    put_state(&mut text, &ran.machine)?;
    Ok(text)
}

/// What a session says: all its entries, and the state at its position.
pub(crate) fn session_report(alloc: Global, session: &Session) -> Result<String, NoMemory> {
    let mut text = String::new(alloc);
    for entry in session.entries() {
        put_line(&mut text, &entry.step, &entry.reply)?;
    }
    put_state(&mut text, session.machine())?;
    Ok(text)
}

/// Appends the line of a step.
fn put_line(text: &mut String, step: &Step, reply: &Reply) -> Result<(), AllocError> {
    put_step(text, step)?;
    put(text, " : ")?;
    put_reply(text, reply)?;
    put(text, "\n")
}
