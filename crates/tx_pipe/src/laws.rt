//! What undoes a read, a write and an exchange, as the contracts of functions that do nothing.
ghost use Rattle.std.specs.Prelude.{◌≡◌, ◌-◌, ◌+◌, ◌≤◌, ℕ, List, ◌++◌, length, min, take, drop};
ghost use Rattle.tx_pipe.specs.Laws.{BackTwice, FrontTwice};
ghost use Rattle.tx_base.specs.declared.limits.TheConstants.{PIPE_BYTES};

/// Putting back the bytes that a read took gives the pipe from before it: the bytes at the front
/// and what is left are the whole, also where the room of the read was longer than what it took.
/// They always fit.
pub fn put_back_undoes_read()
    ensures whole { (held : List ℕ) (count : ℕ) → take count held ++ drop count held ≡ held }
    ensures in_room { (held into : List ℕ) →
        let count = min (length into) (length held) in
        take count (take count held ++ drop count into) ++ drop count held ≡ held }
    ensures fits { (held : List ℕ) (count : ℕ) → length held ≤ PIPE_BYTES →
        length (take count held) + length (drop count held) ≤ PIPE_BYTES }
{}

/// Taking back as many bytes as a write appended gives the pipe from before it. There always are
/// so many.
pub fn take_back_undoes_write()
    ensures whole { (held bytes : List ℕ) →
        take (length (held ++ bytes) - length bytes) (held ++ bytes) ≡ held }
    ensures enough { (held bytes : List ℕ) → length bytes ≤ length (held ++ bytes) }
{}

/// Two exchanges of bytes at the front are nothing: the pipe, the other bytes and the number come
/// back.
pub fn front_twice()
    ensures { FrontTwice }
{}

/// Two exchanges of bytes at the back are nothing: the pipe, the other bytes and the number come
/// back.
pub fn back_twice()
    ensures { BackTwice }
{}
