//! Puts an argument as version 2 spells it, by its role.
ghost use Rattle.std.specs.Prelude.{◌≡◌, ◌++◌, OnErr, OnOk};
ghost use Rattle.tx_translate.specs.Roles.{plain_word};
ghost use Rattle.tx_translate.specs.Rooms.{IsOver};
ghost use Rattle.tx_translate.specs.Sets.{plain_set};
ghost use Rattle.tx_translate.specs.SignalNames.{plain_signal};

use crate::byte_words::put_bytes;
use crate::roles::Role;
use crate::room::{Full, Room, put, put_number};
use crate::sets::{put_set, set_in};
use crate::signals::named;

/// Appends a word as version 2 spells what it means in that role. After an error the room may have
/// a part of it.
pub fn put_argument(room: &mut Room, role: Role, word: &[u8]) -> Result<(), Full>
    ensures put { OnOk result (room.new.items ≡ room.old.items ++ plain_word role word.now) }
    ensures full { OnErr result (IsOver (room.old.items ++ plain_word role word.now)) }
{
    match role {
        Role::Other => put(room, word),
        Role::Bytes => put_bytes(room, word),
        Role::Signal => put_signal(room, word),
        Role::Set => put_numbers(room, word),
    }
}

/// Appends the number of the signal that a word names, or the word where it names none.
fn put_signal(room: &mut Room, word: &[u8]) -> Result<(), Full>
    ensures put { OnOk result (room.new.items ≡ room.old.items ++ plain_signal word.now) }
    ensures full { OnErr result (IsOver (room.old.items ++ plain_signal word.now)) }
{
    match named(word) {
        Some(signo) => put_number(room, signo),
        None => put(room, word),
    }
}

/// Appends the numbers of the set that a word spells, rising, or the word where it spells none.
fn put_numbers(room: &mut Room, word: &[u8]) -> Result<(), Full>
    ensures put { OnOk result (room.new.items ≡ room.old.items ++ plain_set word.now) }
    ensures full { OnErr result (IsOver (room.old.items ++ plain_set word.now)) }
{
    match set_in(word) {
        Some(set) => put_set(room, set),
        None => put(room, word),
    }
}
