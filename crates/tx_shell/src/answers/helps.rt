//! Says what a word means.
ghost use Rattle.std.specs.Prelude.{◌≡◌, IfOk, IfSome, IsTrue, None, string_bytes};
ghost use Rattle.tx_explain.specs.Topics.{asked, is_page, opens};
ghost use Rattle.tx_shell.specs.Reasons.{HelpsOn};

use std::alloc::Global;
use std::str;
use tx_base::NoMemory;
use tx_explain::explain;

/// The answer to a word that is not explained.
const UNKNOWN: &str = "? not explained; help lists the commands, txos explain all other words\n";

/// The answer to a word.
pub fn meaning(word: &[u8]) -> &'static str
    ensures { HelpsOn word.now result.now }
{
    match str::from_utf8(word) {
        Ok(word) => meaning_of(word),
        Err(_error) => UNKNOWN,
    }
}

/// The answer to a word that is text.
fn meaning_of(word: &str) -> &'static str
    ensures page { IsTrue (is_page result.now) }
    ensures opens { IfSome (asked word.now) (λ name. IsTrue (opens name result.now)) }
    ensures unknown { asked word.now ≡ None → result.now ≡ UNKNOWN.now }
{
    match explain(word) {
        Some(text) => text,
        None => UNKNOWN,
    }
}

/// A text of its own.
pub fn text_as(alloc: Global, words: &str) -> Result<String, NoMemory>
    ensures { IfOk result (λ text. string_bytes text ≡ words.now) }
{
    Ok(words.to_string(alloc)?)
}
