//! Calls on descriptors and pipes.
ghost use Rattle.std.specs.Prelude.{◌≡◌, map, IsTrue};
ghost use Rattle.std.specs.List.{list_all};
ghost use Rattle.tx_explain.specs.Table.{descriptor_rows};
ghost use Rattle.tx_explain.specs.Topics.{is_formed, row_of};

use crate::topic::Topic;

/// Calls on descriptors and pipes.
pub fn topics() -> &'static [Topic]
    ensures rows { map row_of result.now ≡ descriptor_rows }
    ensures formed { IsTrue (list_all is_formed result.now) }
{
    &TOPICS
}

const TOPICS: [Topic; 7] = [
    Topic {
        word: "pipe",
        also: &[],
        text: "\
pipe: makes pipe Q; description R reads it, W writes it.
  form     P pipe Q R W; in a program pipe alone, of the least free numbers
  Q        the pipe, 0 to 31
  R, W     the two descriptions, 0 to 63, of different numbers
  N3       one is out of range, or R is W
  N4       one is in use
  EMFILE   fewer than two free descriptors
  else     0; the lowest free descriptor names R and the next free one W, and
           slots 0 and 1 become the two descriptors
  example  2 pipe 0 0 1
  In a state pipe Q HEX is a pipe with all its bytes, pipe Q - one with none.
",
    },
    Topic {
        word: "dup",
        also: &[],
        text: "\
dup: makes the lowest free descriptor name F's description too.
  form     P dup F
  F        the descriptor, 0 to 15
  EBADF    F is not open
  EMFILE   none is free
  else     the lowest free descriptor
  example  2 dup 0
",
    },
    Topic {
        word: "dup2",
        also: &[],
        text: "\
dup2: makes descriptor G name F's description too.
  form     P dup2 F G
  F, G     two descriptors, 0 to 15
  EBADF    F is not open, or G is not 0 to 15
  else     G; if it is open and not F, it is closed first
  example  2 dup2 0 1
",
    },
    Topic {
        word: "close",
        also: &[],
        text: "\
close: closes descriptor F.
  form     P close F
  F        the descriptor, 0 to 15
  EBADF    F is not open
  else     0; descriptions and pipes that nobody names any more are gone
  example  2 close 0
",
    },
    Topic {
        word: "set_nonblock",
        also: &["on", "off", "O_NONBLOCK"],
        text: "\
set_nonblock: makes F's description non-blocking or blocking.
  form     P set_nonblock F on, P set_nonblock F off
  F        the descriptor, 0 to 15
  EBADF    F is not open
  else     0; with on, a read or write that would wait is EAGAIN
  example  2 set_nonblock 0 on
",
    },
    Topic {
        word: "read",
        also: &[],
        text: "\
read: reads V bytes from descriptor F to address A.
  form     P read F A V
  F        the descriptor of a read side, 0 to 15
  A        an address, 0 to 1023
  V        how many bytes at most, 0 to 512
  EBADF    F is not open, or names the wrong side
  EINVAL   V is not 0 to 512
  0        V is 0
  EFAULT   the range is not good for writing: a byte of it is not in 0 to 1023,
           or on a page that is not mapped or may only be read
  0        the pipe is empty, and no writer is left
  EAGAIN   the pipe is empty, and the description does not block
  N9       the pipe is empty
  else     how many bytes moved: V, or all that there are
  example  2 read 0 16 5
",
    },
    Topic {
        word: "write",
        also: &[],
        text: "\
write: writes V bytes from address A to descriptor F: all of them, or none.
  form     P write F A V
  F        the descriptor of a write side, 0 to 15
  A        an address, 0 to 1023
  V        how many bytes, 0 to 512; a pipe holds 512
  EBADF    F is not open, or names the wrong side
  EINVAL   V is not 0 to 512
  0        V is 0
  EFAULT   the range is not good for reading: a byte of it is not in 0 to 1023,
           or on a page that is not mapped
  EPIPE    no reader is left; SIGPIPE is sent to the caller too
  EAGAIN   less room than V, and the description does not block
  N9       less room than V
  else     V
  example  2 write 1 0 5
",
    },
];
