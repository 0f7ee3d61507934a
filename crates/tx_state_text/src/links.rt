//! Finds the members of all live transactions in one pass.
ghost use Rattle.std.specs.Prelude.{IfOk};
ghost use Rattle.tx_base.specs.Slots.{slot_at};

use std::alloc::{AllocError, Global};
use tx_base::{Mark, Pid, Slots};

/// Where the members of each live transaction are, by rising number.
#[derive(Drop)]
pub struct Links {
    /// For each starter its first member, or a number past the width.
    pub firsts: Vec<usize>,
    /// For each member the next one, or a number past the width.
    pub nexts: Vec<usize>,
}

impl Links {
    ghost use Rattle.tx_state_text.specs.Links.{AreLinkedAbove};

    /// The links of the marks of the numbers up to a width.
    pub fn new(alloc: Global, marks: &Slots<Mark>, width: u16) -> Result<Links, AllocError>
        ensures { IfOk result (λ links.
            AreLinkedAbove 0 width (slot_at marks.now) links.firsts.items links.nexts.items) }
    {
        let count = width as usize + 1;
        let mut firsts = vec![in alloc; count; count]?;
        let mut nexts = vec![in alloc; count; count]?;
        for done in (0..width).rev() {
            if let Some(mark) = marks.get(Pid(done + 1)) {
                let starter = mark.starter.0 as usize;
                if starter < count {
                    nexts[done as usize + 1] = firsts[starter];
                    firsts[starter] = done as usize + 1;
                }
            }
        }
        Ok(Links { firsts, nexts })
    }
}
