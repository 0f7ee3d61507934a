//! Reads names and numbers of signals.
ghost use Rattle.std.specs.Prelude.{◌≡◌, ◌<◌, IfSome, option_map};
ghost use Rattle.tx_translate.specs.SignalNames.{bare_name, named_signal, number_of_name, numbered_signal, signal_of};

use crate::spellings::is;
use tx_base::Signo;
use tx_lines::read_byte;
use tx_signal::is_known;

/// The signal that a word names or whose number it spells. Nothing where it is another word.
pub fn signal(word: &[u8]) -> Option<Signo>
    ensures number { option_map (λ r. r.0) result ≡ signal_of word.now }
    ensures small { IfSome result (λ r. r.0 < 64) }
{
    match named(word) {
        Some(signo) => Some(Signo(signo)),
        None => numbered(word),
    }
}

/// The number of the signal that a word names, with `SIG` before the name or without.
pub fn named(word: &[u8]) -> Option<u8>
    ensures number { result ≡ named_signal word.now }
    ensures small { IfSome result (λ r. r < 64) }
{
    number_of_name(bare_name(word))
}

/// The known signal whose number a word spells.
fn numbered(word: &[u8]) -> Option<Signo>
    ensures number { option_map (λ r. r.0) result ≡ numbered_signal word.now }
    ensures small { IfSome result (λ r. r.0 < 64) }
{
    let signo = Signo(read_byte(word)?);
    is_known(signo).then_some(signo)
}

/// A word without `SIG` before it, where it begins so.
fn bare_name(word: &[u8]) -> &[u8]
    ensures { result.now ≡ bare_name word.now }
{
    if word.len() >= 3 && is(&word[..3], b"SIG") {
        &word[3..]
    } else {
        word
    }
}

/// The number of the signal of that name.
fn number_of_name(name: &[u8]) -> Option<u8>
    ensures number { result ≡ number_of_name name.now }
    ensures small { IfSome result (λ r. r < 64) }
{
    match name {
        b"HUP" => Some(1),
        b"INT" => Some(2),
        b"QUIT" => Some(3),
        b"ABRT" => Some(6),
        b"KILL" => Some(9),
        b"USR1" => Some(10),
        b"USR2" => Some(12),
        b"PIPE" => Some(13),
        b"ALRM" => Some(14),
        b"TERM" => Some(15),
        b"CHLD" => Some(17),
        _ => None,
    }
}
