//! Finds what a word means.
ghost use Rattle.std.specs.Prelude.{◌≡◌, ◌∷◌, IfSome, IsTrue, Some, find, is_some, true};
ghost use Rattle.std.specs.Fmt.{decimal};
ghost use Rattle.std.specs.Option.{option_copied};
ghost use Rattle.tx_base.specs.Errors.{error_number};
ghost use Rattle.tx_base.specs.declared.errors.Errno.{Errno};
ghost use Rattle.tx_base.specs.declared.steps.Call.{Call};
ghost use Rattle.tx_base.specs.declared.steps.Refusal.{Refusal};
ghost use Rattle.tx_explain.specs.Calls.{call_word, error_name, refusal_word};
ghost use Rattle.tx_explain.specs.Topics.{asked, first_line, is_page, is_page_of, line_asked, opens, spells, topics_in};

use crate::topic::{Group, Topic};
use crate::topics::groups;

/// What a word of the program, of its texts or of its reports means: lines of at most 79 printable
/// characters, each with its end, of which the first begins with the word and `: `. Letters count
/// as the same in either case, and a number is found with `-` before it too. Nothing where the word
/// is not in [`listing`](crate::listing), and not another name of one there. The contract says what
/// is in the first line (`Table.antt`), and nothing of what is in the lines after it.
pub fn explain(word: &str) -> Option<&'static str>
    ensures known { is_some result ≡ is_some (asked word.now) }
    ensures opens { IfSome result (λ text. IfSome (asked word.now) (λ name.
        IsTrue (opens name text.now))) }
    ensures first { IfSome result (λ text. Some (first_line text.now) ≡ line_asked word.now) }
    ensures lines { IfSome result (λ text. IsTrue (is_page text.now)) }
    ensures calls { (call : Call) → word.now ≡ call_word call →
        is_page_of (call_word call) result ≡ true }
    ensures refusals { (why : Refusal) → word.now ≡ refusal_word why →
        is_page_of (refusal_word why) result ≡ true }
    ensures errors { (error : Errno) → word.now ≡ 45 ∷ decimal (error_number error) →
        is_page_of (error_name error) result ≡ true }
    ensures numbers { (error : Errno) → word.now ≡ decimal (error_number error) →
        is_some result ≡ true }
{
    let groups = groups();
    let topic = topic_asked(groups.as_slice(), word)?;
    Some(topic.text)
}

/// The first topic of the groups that is asked for by a word.
fn topic_asked(groups: &[Group], word: &str) -> Option<&'static Topic>
    ensures { option_copied result ≡ find (spells word.now) (topics_in groups.now) }
{
    groups
        .iter()
        .flat_map(|group| group.topics.iter())
        .find(|topic| topic.is_asked(word))
}
