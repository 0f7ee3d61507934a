//! Finds the word that one was meant for.
ghost use Rattle.std.specs.Prelude.{◌≡◌, IfOk, find};
ghost use Rattle.std.specs.Option.{option_copied};
ghost use Rattle.tx_explain.specs.Edits.{edits, is_near_topic, nearest_word};
ghost use Rattle.tx_explain.specs.Topics.{topics_in};

use crate::topic::{Group, Topic};
use crate::topics::groups;
use std::alloc::{AllocError, Global};
use strsim::levenshtein;
use tx_base::NoMemory;

/// The word of [`listing`](crate::listing) that is the fewest edits away from a word, at most two,
/// and of those the first. An edit puts in, takes out or changes a character; letters count as the
/// same in either case. The word needs two bytes for each edit. Nothing where no word is as near. The
/// only error is that a growth of memory was refused.
pub fn nearest(alloc: Global, word: &str) -> Result<Option<&'static str>, NoMemory>
    ensures { IfOk result (λ near. option_copied near ≡ nearest_word word.now) }
{
    let groups = groups();
    let most = (word.len() / 2).min(2);
    for edits in 0..most + 1 {
        if let Some(topic) = topic_near(alloc, groups.as_slice(), word, edits)? {
            return Ok(Some(topic.word));
        }
    }
    Ok(None)
}

/// The first topic of the groups whose word is so many edits away, or fewer.
fn topic_near(
    alloc: Global,
    groups: &[Group],
    word: &str,
    most: usize,
) -> Result<Option<&'static Topic>, AllocError>
    ensures { IfOk result (λ near.
        option_copied near ≡ find (is_near_topic most word.now) (topics_in groups.now)) }
{
    for group in groups {
        if let Some(topic) = topic_near_among(alloc, group.topics, word, most)? {
            return Ok(Some(topic));
        }
    }
    Ok(None)
}

/// The first of the topics whose word is so many edits away, or fewer.
fn topic_near_among(
    alloc: Global,
    topics: &'static [Topic],
    word: &str,
    most: usize,
) -> Result<Option<&'static Topic>, AllocError>
    ensures { IfOk result (λ near.
        option_copied near ≡ find (is_near_topic most word.now) topics.now) }
{
    for topic in topics {
        if distance(alloc, topic.word, word)? <= most {
            return Ok(Some(topic));
        }
    }
    Ok(None)
}

/// How many edits lead from one word to another, in small letters.
#[tactic(auto, unfolding(crate::specs::Edits::edits))]
fn distance(alloc: Global, one: &str, other: &str) -> Result<usize, AllocError>
    ensures { IfOk result (λ distance. distance ≡ edits one.now other.now) }
{
    let one = one.to_ascii_lowercase(alloc)?;
    let other = other.to_ascii_lowercase(alloc)?;
    levenshtein(alloc, one.as_str(), other.as_str())
}
