//! What the machine keeps.
use crate::table::TxnTable;
use tx_base::{Mark, Slots};
use tx_change::Parts;
use tx_reserve::Reservations;
use tx_txn::Txn;

/// A live transaction in a box, so that no table and no inverse moves one.
#[derive(Drop)]
pub struct BoxedTxn {
    pub txn: Box<Txn>,
}

/// The parts; for each process number its mark, if it is a member of a live transaction; the owner
/// of each object; and the live transactions by the numbers of their starters.
pub struct Content {
    pub parts: Parts,
    pub marks: Slots<Mark>,
    pub owners: Reservations,
    pub txns: TxnTable,
}

// Not derived: that would be proved again wherever one is dropped.
impl Drop for Content {
    fn drop(self) {
        let Content {
            parts: _parts,
            marks: _marks,
            owners: _owners,
            txns: _txns,
        } = self;
    }
}
