//! The content at the start.
ghost use Rattle.std.specs.Prelude.{◌≡◌, ◌≤◌, ℕ, [], length, IfOk, Option};
ghost use Rattle.tx_kernel.specs.Actors.{IsWhole};
ghost use Rattle.tx_content.specs.Begins.{IsAlone};
ghost use Rattle.tx_content.specs.Content.{content_of, view_of, IsShaped};
ghost use Rattle.tx_content.specs.Made.{IsUnowned};
ghost use Rattle.tx_model.specs.Events.{Event};
ghost use Rattle.tx_model.specs.State.{boot_state};
ghost use Rattle.tx_model.specs.View.{view};
ghost use Rattle.tx_txn.specs.Content.{IsKept};

use crate::content::Content;
use crate::laws::laws;
use crate::table::TxnTable;
use std::alloc::Global;
use tx_base::{NoMemory, Slots};
use tx_change::Parts;
use tx_kernel::booted_are_whole;
use tx_reserve::Reservations;
use tx_txn::start_is_kept;

impl Content {
    /// This many process numbers, of which the first few run at point 0 with nothing else, and no
    /// transaction. All tables get their room here.
    ///
    /// NoMemory where a growth is refused.
    pub fn boot(alloc: Global, width: u16, count: u16) -> Result<Content, NoMemory>
        requires low { 1 ≤ count }
        requires high { count ≤ width }
        requires width { width ≤ 256 }
        ensures shaped { IfOk result IsShaped }
        ensures whole { IfOk result (λ content. IsWhole content.parts) }
        ensures alone { IfOk result (λ content. (s : ℕ) → IsAlone content s) }
        ensures unowned { IfOk result (λ content.
            (own : Option ℕ) (event : Event) → IsUnowned content own event) }
        ensures kept { IfOk result (λ content. IsKept (content_of content)) }
        ensures view { IfOk result (λ content. view_of content ≡ view (boot_state width count) []) }
        ensures processes { IfOk result (λ content. length content.parts.procs ≡ width) }
    {
        laws();
        booted_are_whole();
        start_is_kept();
        let parts = Parts::boot(alloc, width, count)?;
        let marks = Slots::new(alloc, width)?;
        let owners = Reservations::new(alloc)?;
        owners.sized();
        let txns = TxnTable::new(alloc, width)?;
        Ok(Content {
            parts,
            marks,
            owners,
            txns,
        })
    }
}
