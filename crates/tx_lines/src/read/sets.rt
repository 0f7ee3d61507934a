//! The sets of signals of a text.
ghost use Rattle.std.specs.Prelude.{◌≡◌, ◌<◌, ◌^◌, ◌∷◌, ◌↔◌, ℕ, true, List, codes, IfSome, IsTrue, Some};
ghost use Rattle.std.specs.Fmt.{decimal};
ghost use Rattle.tx_base.specs.Signals.{bits_of, set_of_bits};
ghost use Rattle.tx_base.specs.declared.names.Signo.{Signo};
ghost use Rattle.tx_base.specs.declared.signals.SigSet.{SigSet};
ghost use Rattle.tx_model.specs.SignalSets.{is_known, set_of};
ghost use Rattle.tx_lines.specs.ListedSets.{AreListed, FitsSet};
ghost use Rattle.tx_lines.specs.Sets.{set_text};

use crate::read::small::read_byte;
use crate::read::split::split_at;
use bitflags::Flags;
use tx_base::{SigSet, Signo};
use tx_signal::{is_known, with};

/// The set that a word spells: `-`, or known signals by rising number, joined by commas. Nothing
/// where it is another word.
pub fn read_set(word: &[u8]) -> Option<SigSet>
    ensures found { IfSome result (λ set. word.now ≡ set_text set) }
    ensures fits { IfSome result FitsSet }
    ensures only { (set : SigSet) → FitsSet set → word.now ≡ set_text set → result ≡ Some set }
{
    if is_dash(word) {
        return Some(SigSet::from_bits_retain(0));
    }
    read_members(0, word)
}

/// Whether the word is that of the empty set.
fn is_dash(word: &[u8]) -> bool
    ensures { IsTrue result ↔ (word.now ≡ codes "-") }
{
    word == b"-".as_slice()
}

/// The set of the signals that a list spells, each above a number and below the next.
fn read_members(above: u8, list: &[u8]) -> Option<SigSet>
    ensures found { IfSome result (λ set.
        (n : ℕ) × (ns : List ℕ) × AreListed above list.now n ns × (bits_of set ≡ set_of (n ∷ ns))) }
    ensures only { (n : ℕ) (ns : List ℕ) → AreListed above list.now n ns →
        result ≡ Some (set_of_bits (set_of (n ∷ ns))) }
{
    match split_at(b',', list) {
        Some((word, rest)) => {
            let signo = read_above(above, word)?;
            let others = read_members(signo.0, rest)?;
            Some(with(others, signo))
        }
        None => {
            let last = read_above(above, list)?;
            Some(with(SigSet::from_bits_retain(0), last))
        }
    }
}

/// The known signal above a number that a word spells.
fn read_above(above: u8, word: &[u8]) -> Option<Signo>
    ensures found { IfSome result (λ signo. word.now ≡ decimal signo.0) }
    ensures known { IfSome result (λ signo. is_known signo.0 ≡ true) }
    ensures above { IfSome result (λ signo. above < signo.0) }
    ensures small { IfSome result (λ signo. signo.0 < 64) }
    ensures only { (signo : Signo) → signo.0 < 2 ^ 8 → is_known signo.0 ≡ true → above < signo.0 →
        word.now ≡ decimal signo.0 → result ≡ Some signo }
{
    let signo = Signo(read_byte(word)?);
    if !is_known(signo) {
        return None;
    }
    if signo.0 <= above {
        return None;
    }
    Some(signo)
}
