//! What a call answers, and how that is handed out.
ghost use Rattle.std.specs.Prelude.{◌≡◌};
ghost use Rattle.tx_answers.specs.Handed.{bytes_of, status_of, HandsOut};

/// The status of an answer to a text that could be read.
const READ: i32 = 0;

/// The status of an answer to one that could not.
const UNREAD: i32 = 1;

/// The status where a growth of memory was refused.
const NO_MEMORY: i32 = 2;

/// The status where the buffer has no room for the answer.
const TOO_SMALL: i32 = 3;

/// What a call answers.
#[derive(Drop)]
pub enum Answer {
    /// The text could be read, and this answers it.
    Read(String),
    /// The text can't be read, and this says why.
    Unread(String),
    /// A growth of memory was refused.
    NoMemory,
}

impl Answer {
    /// Puts the answer at the front of a buffer that has room for all of it, and its size in place
    /// of what the size was. Answers its status; a buffer without the room is left as it was.
    pub fn hand_out(&self, buffer: &mut [u8], size: &mut usize) -> i32
        ensures { HandsOut self.now buffer.old result buffer.new size.new }
    {
        let bytes = self.bytes();
        *size = bytes.len();
        if bytes.len() > buffer.len() {
            return TOO_SMALL;
        }
        buffer[..bytes.len()].copy_from_slice(bytes);
        self.status()
    }

    /// The bytes that are handed out.
    fn bytes(&self) -> &[u8]
        ensures { result.now ≡ bytes_of self.now }
    {
        match self {
            Answer::Read(text) | Answer::Unread(text) => text.as_bytes(),
            Answer::NoMemory => &[],
        }
    }

    /// The status of an answer that is handed out.
    fn status(&self) -> i32
        ensures { result ≡ status_of self.now }
    {
        match self {
            Answer::Read(_) => READ,
            Answer::Unread(_) => UNREAD,
            Answer::NoMemory => NO_MEMORY,
        }
    }
}
