//! How sends to the starter of a live transaction are answered, now and after its abort.
ghost use Rattle.std.specs.Option.{option_or};
ghost use Rattle.std.specs.Prelude.{◌≡◌, ◌∷◌, [], ◌++◌, List, length, map, option_map};
ghost use Rattle.tx_base.specs.Slots.{slot_at};
ghost use Rattle.tx_step.specs.Faces.{both_posted_to, difference, face_as, posted_to, queued_at, sent, starter_difference};
ghost use Rattle.tx_kernel.specs.Plans.{sending_of};
ghost use Rattle.tx_model.specs.State.{Sending as TheSending};
ghost use Rattle.tx_proc.specs.Parts.{process_in};
ghost use Rattle.tx_signal.specs.Parts.{answer_of};
ghost use Rattle.tx_txn.specs.Faces.{answer_at, face_of, pending_in};

use crate::differing::TwoAnswers;
use tx_base::{Errno, Pid, QUEUED, Sending};
use tx_change::Parts;
use tx_kernel::{Face, Sends};
use tx_signal::is_realtime;
use tx_txn::Kept;

/// What decides how posts to the starter of a live transaction are answered.
#[derive(Clone, Copy)]
pub(crate) struct Faces {
    /// As it is now; none if there is no such process.
    pub present: Option<Face>,
    /// As it would be after an abort.
    pub kept: Face,
}

impl Faces {
    /// The faces of the process of a number, with what is kept of it.
    pub fn of(parts: &Parts, pid: Pid, kept: &Kept) -> Faces
        ensures { (ms : List TheSending) →
            difference pid.0 ms result
            ≡ starter_difference pid.0 ms (process_in (slot_at parts.now.procs pid.0)) kept.now }
    {
        Faces {
            present: face_of(parts, pid),
            kept: kept.face(),
        }
    }

    /// The first of these sends to the process that is answered differently now than after an
    /// abort, each posted in turn: first what is sent at once, then what is held, and last what is
    /// handed out.
    #[inline(always)] // it has few callers, and most ask only whether there is one
    pub fn difference(self, pid: Pid, first: &Sends, held: &[Sending]) -> Option<TwoAnswers>
        ensures { result ≡ difference pid.0 (sent first.now held.now) self }
    {
        let mut faces = self;
        match first {
            Sends::Nothing => faces.post_all(pid, held),
            Sends::AtOnce(sending) => match faces.post(pid, sending) {
                Some(answers) => Some(answers),
                None => faces.post_all(pid, held),
            },
            Sends::AtCommit(sending) => match faces.post_all(pid, held) {
                Some(answers) => Some(answers),
                None => faces.post(pid, sending),
            },
        }
    }

    /// Posts these held sends to both. Answers the first that is answered differently at the two;
    /// none after it is posted.
    fn post_all(&mut self, pid: Pid, held: &[Sending]) -> Option<TwoAnswers>
        ensures { (ms : List TheSending) →
            difference pid.0 (map sending_of held.now ++ ms) self.old
            ≡ option_or result (difference pid.0 ms self.new) }
    {
        for place in 0..held.len() {
            // Most go to others, and are not worth a call.
            if held[place].target == pid {
                let answers = self.post(pid, &held[place]);
                if answers.is_some() {
                    return answers;
                }
            }
        }
        None
    }

    /// Posts a signal to both, if it is for the process. Its answers, if they differ.
    fn post(&mut self, pid: Pid, sending: &Sending) -> Option<TwoAnswers>
        ensures { (ms : List TheSending) →
            difference pid.0 (sending_of sending.now ∷ ms) self.old
            ≡ option_or result (difference pid.0 ms self.new) }
    {
        if sending.target != pid {
            return None;
        }
        let answers = self.answers(sending);
        *self = Faces {
            present: after_if(self.present, sending),
            kept: after(self.kept, sending),
        };
        answers
    }

    /// The answers to a signal for the process, if they differ. Nothing is posted.
    pub fn answers(&self, sending: &Sending) -> Option<TwoAnswers>
        ensures first { (ms : List TheSending) →
            difference sending.now.target.0 (sending_of sending.now ∷ ms) self.now
            ≡ option_or result (difference sending.now.target.0 ms
            (both_posted_to (sending_of sending.now) self.now)) }
        ensures alone { difference sending.now.target.0 (sending_of sending.now ∷ []) self.now ≡ result }
    {
        let present = number(answer(self.present, sending));
        let after_abort = number(self.kept.answer(sending));
        if present == after_abort {
            return None;
        }
        Some(TwoAnswers {
            signo: sending.signo,
            present,
            after_abort,
        })
    }
}

/// The face of the process of a number, if there is one.
fn face_of(parts: &Parts, pid: Pid) -> Option<Face>
    ensures face { option_map face_as result
        ≡ face_of (process_in (slot_at parts.now.procs pid.0)) }
    ensures queued { queued_at result
        ≡ length (pending_in (process_in (slot_at parts.now.procs pid.0))).queued }
{
    match parts.proc(pid) {
        Some(proc) => Some(Face::of(proc)),
        None => None,
    }
}

/// How a post to a process is answered, by its face if there is such a process.
fn answer(face: Option<Face>, sending: &Sending) -> Result<(), Errno>
    ensures { answer_of result
        ≡ answer_at (sending_of sending.now) (option_map face_as face) (queued_at face) }
{
    match face {
        Some(face) => face.answer(sending),
        None => Err(Errno::NoSuchProcess),
    }
}

/// The result of a post, as an answer.
fn number(posted: Result<(), Errno>) -> i64
    ensures { result ≡ answer_of posted }
{
    match posted {
        Ok(()) => 0,
        Err(errno) => errno.answer(),
    }
}

/// The face after a post, if there is such a process.
fn after_if(face: Option<Face>, sending: &Sending) -> Option<Face>
    ensures { result ≡ option_map (posted_to (sending_of sending.now)) face }
{
    match face {
        Some(face) => Some(after(face, sending)),
        None => None,
    }
}

/// The face after a post.
fn after(face: Face, sending: &Sending) -> Face
    ensures { result ≡ posted_to (sending_of sending.now) face }
{
    let mut face = face;
    if is_realtime(sending.signo) && face.queued < QUEUED && face.reaches(sending) {
        face.queued += 1;
    }
    face
}
