//! Calls on memory.
ghost use Rattle.std.specs.Prelude.{◌≡◌, map, IsTrue};
ghost use Rattle.std.specs.List.{list_all};
ghost use Rattle.tx_explain.specs.Table.{memory_rows};
ghost use Rattle.tx_explain.specs.Topics.{is_formed, row_of};

use crate::topic::Topic;

/// Calls on memory.
pub fn topics() -> &'static [Topic]
    ensures rows { map row_of result.now ≡ memory_rows }
    ensures formed { IsTrue (list_all is_formed result.now) }
{
    &TOPICS
}

const TOPICS: [Topic; 5] = [
    Topic {
        word: "map",
        also: &[],
        text: "\
map: maps page A, of zeros, which may be read and written.
  form     P map A
  A        the page, 0 to 15
  EINVAL   the page is not 0 to 15, or is mapped
  else     0
  example  2 map 0
",
    },
    Topic {
        word: "unmap",
        also: &[],
        text: "\
unmap: unmaps page A and discards its bytes.
  form     P unmap A
  A        the page, 0 to 15
  EINVAL   it is not 0 to 15, or not mapped
  else     0
  example  2 unmap 0
",
    },
    Topic {
        word: "protect",
        also: &["r", "rw"],
        text: "\
protect: makes page A read-only or writable; its bytes stay.
  form     P protect A r, P protect A rw
  A        the page, 0 to 15
  EINVAL   it is not 0 to 15, or not mapped
  else     0
  example  2 protect 0 r
",
    },
    Topic {
        word: "store",
        also: &[],
        text: "\
store: stores bytes from address A on: all of them, or none.
  form     P store A HEX
  A        the address of the first, 0 to 1023
  HEX      1 to 64 bytes of two lower-case hex digits each
  EFAULT   the range is not good for writing: a byte of it is not in 0 to 1023,
           or on a page that is not mapped or may only be read
  else     0
  example  2 store 5 41
",
    },
    Topic {
        word: "load",
        also: &[],
        text: "\
load: reads the byte at A.
  form     P load A
  A        the address, 0 to 1023
  EFAULT   the one byte is not good for reading: it is not in 0 to 1023, or its
           page is not mapped
  else     the byte, 0 to 255
  example  2 load 5
",
    },
];
