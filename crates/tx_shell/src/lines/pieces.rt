//! Reads which piece of a state is meant.
ghost use Rattle.std.specs.Fmt.{decimal};
ghost use Rattle.std.specs.Prelude.{◌≡◌, ◌≢◌, ◌<◌, ◌^◌, ◌++◌, ℕ, IfSome, None, Some};
ghost use Rattle.tx_base.specs.declared.names.Pid.{Pid as ThePid};
ghost use Rattle.tx_shell.specs.Pieces.{piece_name, two_text, FitsPiece, IsNoPiece, IsOfProcess};
ghost use Rattle.tx_journal.specs.declared.pieces.Piece.{Piece as ThePiece};

use crate::lines::asks::rest_after;
use tx_base::{DescNo, Pid, PipeNo};
use tx_journal::Piece;
use tx_lines::{read_byte, read_pid, split_word};

/// The piece that some words name. Nothing where they name none.
pub fn read_piece(words: &[u8]) -> Option<Piece>
    ensures found { IfSome result (λ piece. words.now ≡ piece_name piece) }
    ensures fits { IfSome result FitsPiece }
    ensures none { result ≡ None → IsNoPiece words.now }
{
    if let Some(piece) = read_of_process(words) {
        return Some(piece);
    }
    if let Some(starter) = pid_after(b"txn ", words) {
        return Some(Piece::Txn(starter));
    }
    if let Some(number) = byte_after(b"desc ", words) {
        return Some(Piece::Desc(DescNo(number)));
    }
    Some(Piece::Pipe(PipeNo(byte_after(b"pipe ", words)?)))
}

/// The process that some words name, or what it has.
fn read_of_process(words: &[u8]) -> Option<Piece>
    ensures found { IfSome result (λ piece. words.now ≡ piece_name piece) }
    ensures fits { IfSome result FitsPiece }
    ensures none { result ≡ None → (piece : ThePiece) →
        IsOfProcess piece → FitsPiece piece → words.now ≢ piece_name piece }
{
    if let Some(pid) = pid_after(b"proc ", words) {
        return Some(Piece::Proc(pid));
    }
    if let Some((pid, number)) = pid_byte_after(b"page ", words) {
        return Some(Piece::Page(pid, number));
    }
    if let Some((pid, fd)) = pid_byte_after(b"fd ", words) {
        return Some(Piece::Fd(pid, fd));
    }
    if let Some(pid) = pid_after(b"pending ", words) {
        return Some(Piece::Pending(pid));
    }
    if let Some(pid) = pid_after(b"queue ", words) {
        return Some(Piece::Queue(pid));
    }
    pid_after(b"ids ", words).map(Piece::Ids)
}

/// The process number after that front. Nothing where something else is there.
fn pid_after(front: &[u8], words: &[u8]) -> Option<Pid>
    ensures found { IfSome result (λ pid. words.now ≡ front.now ++ decimal pid.0) }
    ensures fits { IfSome result (λ pid. pid.0 < 2 ^ 16) }
    ensures only { (pid : ThePid) → pid.0 < 2 ^ 16 → words.now ≡ front.now ++ decimal pid.0 →
        result ≡ Some pid }
{
    read_pid(rest_after(front, words)?)
}

/// The number below 256 after that front. Nothing where something else is there.
pub fn byte_after(front: &[u8], words: &[u8]) -> Option<u8>
    ensures found { IfSome result (λ byte. words.now ≡ front.now ++ decimal byte) }
    ensures fits { IfSome result (λ byte. byte < 2 ^ 8) }
    ensures only { (byte : ℕ) → byte < 2 ^ 8 → words.now ≡ front.now ++ decimal byte →
        result ≡ Some byte }
{
    read_byte(rest_after(front, words)?)
}

/// The process number and the number below 256 after that front. Nothing where something else is
/// there.
fn pid_byte_after(front: &[u8], words: &[u8]) -> Option<(Pid, u8)>
    ensures found { IfSome result (λ r. words.now ≡ front.now ++ two_text r.0.0 r.1) }
    ensures fits { IfSome result (λ r. (r.0.0 < 2 ^ 16) × (r.1 < 2 ^ 8)) }
    ensures only { (pid : ThePid) (byte : ℕ) → pid.0 < 2 ^ 16 → byte < 2 ^ 8 →
        words.now ≡ front.now ++ two_text pid.0 byte → result ≡ Some (pid, byte) }
{
    read_pid_byte(rest_after(front, words)?)
}

/// The process number and the number below 256 that a text spells with a space between them.
/// Nothing where it is another text.
fn read_pid_byte(words: &[u8]) -> Option<(Pid, u8)>
    ensures found { IfSome result (λ r. words.now ≡ two_text r.0.0 r.1) }
    ensures fits { IfSome result (λ r. (r.0.0 < 2 ^ 16) × (r.1 < 2 ^ 8)) }
    ensures only { (pid : ThePid) (byte : ℕ) → pid.0 < 2 ^ 16 → byte < 2 ^ 8 →
        words.now ≡ two_text pid.0 byte → result ≡ Some (pid, byte) }
{
    let (first, last) = split_word(words)?;
    let pid = read_pid(first)?;
    let byte = read_byte(last)?;
    Some((pid, byte))
}
