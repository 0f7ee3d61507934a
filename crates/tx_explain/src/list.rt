//! The list of all words.
ghost use Rattle.std.specs.Prelude.{◌≡◌, ◌++◌, IfOk, IsTrue, OnOk, map, string_bytes};
ghost use Rattle.tx_explain.specs.Table.{all_rows};
ghost use Rattle.tx_explain.specs.Topics.{group_lines, is_page, listed, row_of, rows_of_group, words_listed};

use crate::topic::{Group, Topic};
use crate::topics::groups;
use std::alloc::{AllocError, Global};
use std::fmt::Write;

/// The words that [`explain`](crate::explain) knows, in groups: for each group its title, and a
/// line with its words. A word that is found by another one too, as `EINVAL` by `-22`, is listed
/// once. The only error is that a growth of memory was refused.
pub fn listing(alloc: Global) -> Result<String, AllocError>
    ensures words { IfOk result (λ text. string_bytes text ≡ listed all_rows) }
    ensures lines { IfOk result (λ text. IsTrue (is_page (string_bytes text))) }
{
    let mut text = String::new(alloc);
    put_groups(&mut text, groups().as_slice())?;
    Ok(text)
}

/// Appends the title and the words of each group.
fn put_groups(text: &mut String, groups: &[Group]) -> Result<(), AllocError>
    ensures { OnOk result (string_bytes text.new
        ≡ string_bytes text.old ++ listed (map rows_of_group groups.now)) }
{
    for group in groups {
        put_group(text, group)?;
    }
    Ok(())
}

/// Appends the title of a group, and a line with its words.
fn put_group(text: &mut String, group: &Group) -> Result<(), AllocError>
    ensures { OnOk result (string_bytes text.new
        ≡ string_bytes text.old ++ group_lines (rows_of_group group.now)) }
{
    write!(text, "{}\n ", group.title)?;
    put_words(text, group.topics)?;
    text.push('\n')
}

/// Appends the word of each topic, after a space.
fn put_words(text: &mut String, topics: &[Topic]) -> Result<(), AllocError>
    ensures { OnOk result (string_bytes text.new
        ≡ string_bytes text.old ++ words_listed (map row_of topics.now)) }
{
    for topic in topics {
        write!(text, " {}", topic.word)?;
    }
    Ok(())
}
