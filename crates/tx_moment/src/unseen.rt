//! Signals pending at a process that does not look at them, as the contract of a function that does
//! nothing.
ghost use Rattle.tx_moment.specs.Unseen.{UnseenObjectsStay, UnseenRepliesStay, UnseenSignalsStay};

/// A step that looks at no signals of a process, and sends it none, does the same whatever is pending
/// there: it leaves that pending, names the same objects, sends the same and has the same reply.
pub fn unseen_signals()
    ensures state { UnseenSignalsStay }
    ensures objects { UnseenObjectsStay }
    ensures reply { UnseenRepliesStay }
{}
