//! The limits of the kernel.

/// How many processes a narrow machine may have: numbers 1 to 64.
pub const PROCESSES: u16 = 64;

/// How many processes a wide machine may have: numbers 1 to 256.
pub const WIDE_PROCESSES: u16 = 256;

/// How many pages a process may have: numbers 0 to 15.
pub const PAGES: usize = 16;

/// How many bytes a page has.
pub const PAGE_BYTES: usize = 64;

/// How many addresses a process has: 0 to 1,023.
pub const ADDRESSES: usize = 1024;

/// How many bytes one store may write.
pub const STORE_BYTES: usize = 64;

/// How many descriptions there may be: numbers 0 to 63.
pub const DESCRIPTIONS: usize = 64;

/// How many pipes there may be: numbers 0 to 31.
pub const PIPES: usize = 32;

/// How many descriptors a process may have: numbers 0 to 15.
pub const DESCRIPTORS: usize = 16;

/// How many bytes a pipe may hold, and how many one read or write may move (PIPE_BUF).
pub const PIPE_BYTES: usize = 512;

/// How many bytes one console write may show.
pub const CONSOLE_BYTES: usize = 64;

/// How many slots a process has beside its answer: numbers 0 to 7.
pub const SLOTS: usize = 8;

/// How many signal numbers there are: 0 to 39. Not each of them is a signal.
pub const SIGNALS: usize = 40;

/// How many caught signals of a process may be unfinished.
pub const FRAMES: usize = 4;

/// How many realtime signals may be queued at a process.
pub const QUEUED: usize = 16;

/// How many sends to others a transaction may hold; its starter's SIGCHLD has a place of its own.
pub const HELD_SENDS: usize = 32;

/// The last user or group id.
pub const LAST_ID: u16 = 65_535;

/// The last point of a script. Adding one there leaves it.
pub const LAST_POINT: u32 = 65_535;

/// How many sends of one commit may fail: 32 held sends, and the starter's SIGCHLD.
pub const UNDELIVERED: usize = 33;

/// The answer of a call that is not open inside a transaction, as a positive number (own rule).
pub const CLOSED_INSIDE: u16 = 200;

/// The status of a transaction that a member aborted (own rule).
pub const ABORTED_BY_CALL: u16 = 201;

/// The status of a transaction that the kernel aborted (own rule).
pub const ABORTED_BY_KERNEL: u16 = 202;

/// The status of a doomed transaction that the kernel aborted (own rule).
pub const ABORTED_DOOMED: u16 = 203;
