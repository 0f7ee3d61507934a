//! The words of an instruction, and those among them that name a slot or a label.
ghost use Rattle.std.specs.Prelude.{◌≡◌, ◌+◌, ◌<◌, ◌≤◌, ◌++◌, ◌∷◌, [], IfNone, IfSome, IsTrue, false, true, length, map, nat_le};
ghost use Rattle.std.specs.List.{list_all};
ghost use Rattle.tx_lines.specs.Instructions as spec;
ghost use Rattle.tx_lines.specs.Instructions.{plain_word, words_of};
ghost use Rattle.tx_lines.specs.Words.{joined};

use crate::instructions::{Name, Spelling};
use crate::read::split::split_word;
use arrayvec::ArrayVec;

/// How many bytes a name may have.
const NAME_BYTES: usize = 16;

/// Puts a line, with `0` for each argument that is spelled by a slot or a label, and how each
/// argument is spelled. Returns whether there are at most four arguments: if not, neither is of
/// use.
pub fn put_plain(
    line: &[u8],
    plain: &mut ArrayVec<u8, 512>,
    spellings: &mut ArrayVec<Spelling, 4>,
) -> bool
    requires short { length line.now ≤ 512 }
    requires no_text { plain.old.items ≡ [] }
    requires no_spelling { spellings.old.items ≡ [] }
    ensures few { result ≡ nat_le (length (words_of line.now).1) 4 }
    ensures plain { IsTrue result →
        plain.new.items ≡ joined (words_of line.now).0 (map plain_word (words_of line.now).1) }
    ensures spellings { IsTrue result →
        spellings.new.items ≡ map spec.spelling_of (words_of line.now).1 }
{
    match split_word(line) {
        Some((name, arguments)) => {
            put_bytes(name, plain);
            put_arguments(arguments, plain, spellings)
        }
        None => {
            put_bytes(line, plain);
            true
        }
    }
}

/// Appends the words of a text, each after a space, as `put_plain` does.
fn put_arguments(
    text: &[u8],
    plain: &mut ArrayVec<u8, 512>,
    spellings: &mut ArrayVec<Spelling, 4>,
) -> bool
    requires room { length plain.old.items + 1 + length text.now ≤ 512 }
    requires few { length spellings.old.items ≤ 4 }
    ensures few { result
        ≡ nat_le (length spellings.old.items + 1 + length (words_of text.now).1) 4 }
    ensures plain { IsTrue result →
        plain.new.items ≡ plain.old.items ++ 32
        ∷ joined (plain_word (words_of text.now).0) (map plain_word (words_of text.now).1) }
    ensures spellings { IsTrue result →
        spellings.new.items ≡ spellings.old.items ++ spec.spelling_of (words_of text.now).0
        ∷ map spec.spelling_of (words_of text.now).1 }
{
    if spellings.is_full() {
        return false;
    }
    match split_word(text) {
        Some((word, rest)) => {
            put_argument(word, plain, spellings);
            put_arguments(rest, plain, spellings)
        }
        None => {
            put_argument(text, plain, spellings);
            true
        }
    }
}

/// Appends a word, after a space, as `put_plain` does.
fn put_argument(word: &[u8], plain: &mut ArrayVec<u8, 512>, spellings: &mut ArrayVec<Spelling, 4>)
    requires room { length plain.old.items + 1 + length word.now ≤ 512 }
    requires few { length spellings.old.items < 4 }
    ensures plain { plain.new.items ≡ plain.old.items ++ 32 ∷ plain_word word.now }
    ensures spellings { spellings.new.items ≡ spellings.old.items ++ spec.spelling_of word.now
        ∷ [] }
{
    let spelling = spelling_of(word);
    plain.push(b' ');
    match spelling {
        Spelling::Plain => put_bytes(word, plain),
        Spelling::Slot(_) => plain.push(b'0'),
        Spelling::Label(_) => plain.push(b'0'),
    }
    spellings.push(spelling);
}

/// Appends bytes.
fn put_bytes(bytes: &[u8], plain: &mut ArrayVec<u8, 512>)
    requires { length plain.old.items + length bytes.now ≤ 512 }
    ensures { plain.new.items ≡ plain.old.items ++ bytes.now }
{
    let _fits = plain.try_extend_from_slice(bytes);
}

/// How a word of an instruction is read.
fn spelling_of(word: &[u8]) -> Spelling
    ensures { result ≡ spec.spelling_of word.now }
{
    if word.is_empty() {
        return Spelling::Plain;
    }
    if word[0] == b'$' && word.len() == 2 {
        return slot_spelling(word[1]);
    }
    if word[0] == b'@' {
        return label_spelling(&word[1..]);
    }
    Spelling::Plain
}

/// How a word with that byte after a dollar is read.
fn slot_spelling(byte: u8) -> Spelling
    ensures { result ≡ spec.slot_spelling byte }
{
    match byte {
        b'0'..=b'7' => Spelling::Slot(byte - b'0'),
        _ => Spelling::Plain,
    }
}

/// How a word with those bytes after an at sign is read.
fn label_spelling(bytes: &[u8]) -> Spelling
    ensures { result ≡ spec.label_spelling bytes.now }
{
    match read_name(bytes) {
        Some(name) => Spelling::Label(name),
        None => Spelling::Plain,
    }
}

/// The name that a word is. Nothing where it is none.
pub fn read_name(word: &[u8]) -> Option<Name>
    ensures found { IfSome result (λ name. name.bytes.items ≡ word.now) }
    ensures name { IfSome result (λ name. spec.is_name word.now ≡ true) }
    ensures none { IfNone result (spec.is_name word.now ≡ false) }
{
    if !is_name(word) {
        return None;
    }
    let mut bytes = ArrayVec::new();
    let _fits = bytes.try_extend_from_slice(word);
    Some(Name { bytes })
}

/// Whether a word is a name.
fn is_name(word: &[u8]) -> bool
    ensures { result ≡ spec.is_name word.now }
{
    if word.is_empty() {
        return false;
    }
    is_letter(word[0]) && are_name_bytes(&word[1..]) && word.len() <= NAME_BYTES
}

/// Whether all bytes may be in a name.
fn are_name_bytes(bytes: &[u8]) -> bool
    ensures { result ≡ list_all spec.is_name_byte bytes.now }
{
    bytes.iter().all(|byte| is_name_byte(*byte))
}

/// Whether a byte may be in a name.
fn is_name_byte(byte: u8) -> bool
    ensures { result ≡ spec.is_name_byte byte }
{
    is_letter(byte) || byte.is_ascii_digit() || byte == b'_'
}

/// Whether a byte is a lower-case letter.
fn is_letter(byte: u8) -> bool
    ensures { result ≡ spec.is_letter byte }
{
    byte.is_ascii_lowercase()
}
