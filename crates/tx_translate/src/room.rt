//! Room for one line, of a fixed size.
ghost use Rattle.std.specs.Prelude.{◌≡◌, ◌++◌, ◌∷◌, [], OnErr, OnOk};
ghost use Rattle.std.specs.Fmt.{decimal};
ghost use Rattle.tx_translate.specs.Rooms.{IsOver};

use arrayvec::ArrayVec;
use itoa::Buffer;

/// Room for the bytes of the line that a line means.
pub type Room = ArrayVec<u8, 512>;

/// What a line means has more bytes than there is room for.
#[derive(Clone, Copy)]
pub struct Full;

/// Appends bytes. `Full` where they have no room: none is appended then.
pub fn put(room: &mut Room, bytes: &[u8]) -> Result<(), Full>
    ensures put { OnOk result (room.new.items ≡ room.old.items ++ bytes.now) }
    ensures full { OnErr result (IsOver (room.old.items ++ bytes.now)) }
{
    if let [byte] = bytes {
        return put_byte(room, *byte); // many words are one digit
    }
    room.try_extend_from_slice(bytes).map_err(|_over| Full)
}

/// Appends a byte. `Full` where it has no room.
pub fn put_byte(room: &mut Room, byte: u8) -> Result<(), Full>
    ensures put { OnOk result (room.new.items ≡ room.old.items ++ byte ∷ []) }
    ensures full { OnErr result (IsOver (room.old.items ++ byte ∷ [])) }
{
    room.try_push(byte).map_err(|_byte| Full)
}

/// Appends a number in decimal digits. `Full` where they have no room: none is appended then.
pub fn put_number(room: &mut Room, number: u8) -> Result<(), Full>
    ensures put { OnOk result (room.new.items ≡ room.old.items ++ decimal number) }
    ensures full { OnErr result (IsOver (room.old.items ++ decimal number)) }
{
    let mut buffer = Buffer::new();
    put(room, buffer.format(number).as_bytes())
}
