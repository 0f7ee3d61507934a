//! Reads a schedule: a header, and a step on each further line.

use crate::read::header::Header;
use tx_base::Step;

/// A schedule: how many processes there are at the start, and the steps in order.
#[derive(Drop)]
pub struct Schedule {
    pub header: Header,
    pub steps: Vec<Step>,
}
