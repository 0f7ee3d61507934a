//! What holds of texts and their faults, as the contract of a function that does nothing.
ghost use Rattle.std.specs.Prelude.{◌≡◌, ℕ, List};
ghost use Rattle.tx_check.specs.Reads.{IsAtFault, IsRead};
ghost use Rattle.tx_check.specs.declared.kinds.Kind.{Kind};
ghost use Rattle.tx_lines.specs.declared.faults.Fault.{Fault};

/// By the definitions of the readers no text of a kind is both read and at fault, and none has two
/// faults.
pub fn a_text_is_read_or_has_one_fault()
    ensures never_both { (kind : Kind) (text : List ℕ) (fault : Fault) →
        IsRead kind text → IsAtFault kind text fault → ⊥ }
    ensures one_fault { (kind : Kind) (text : List ℕ) (one other : Fault) →
        IsAtFault kind text one → IsAtFault kind text other → one ≡ other }
{}
