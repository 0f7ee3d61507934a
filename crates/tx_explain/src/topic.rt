//! A word of the program with what it means, and words that go together.
ghost use Rattle.std.specs.Prelude.{◌≡◌};
ghost use Rattle.std.specs.List.{list_any};
ghost use Rattle.tx_explain.specs.Topics.{is_same_word, spells};

/// A word, and what it means.
#[derive(Clone, Copy)]
pub struct Topic {
    pub word: &'static str,
    /// What else it is called.
    pub also: &'static [&'static str],
    /// Lines, of which the first begins with the word and `: `.
    pub text: &'static str,
}

/// Topics that go together.
#[derive(Clone, Copy)]
pub struct Group {
    pub title: &'static str,
    pub topics: &'static [Topic],
}

impl Topic {
    /// Whether it is asked for by a word, in either case of letters.
    #[tactic(auto, using(crate::proofs::Asked::spelled_by))]
    pub fn is_asked(&self, word: &str) -> bool
        ensures { result ≡ spells word.now self.now }
    {
        is_same(self.word, word) || is_one_of(self.also, word)
    }
}

/// Whether one of the words has the letters of that word, in either case.
fn is_one_of(words: &[&str], word: &str) -> bool
    ensures { result ≡ list_any (λ one. is_same_word one.now word.now) words.now }
{
    words.iter().any(|one| is_same(one, word))
}

/// Whether two words have the same letters, in either case.
fn is_same(one: &str, other: &str) -> bool
    ensures { result ≡ is_same_word one.now other.now }
{
    one.eq_ignore_ascii_case(other)
}
