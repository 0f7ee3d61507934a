//! Old parts of the kernel, the oldest first.
ghost use Rattle.std.specs.Prelude.{◌≡◌, ◌≤◌, ◌+◌, ◌-◌, ◌++◌, ◌∷◌, [], None, length, take, drop, reverse, vec_capacity, IfOk, OnOk, OnErr};
ghost use Rattle.tx_change.specs.Answered.{answered};
ghost use Rattle.tx_change.specs.Exchange.{applied, exchanged, undone, reverted, AreNamed};
ghost use Rattle.tx_change.specs.Stacks.{below_top, top_of};
ghost use Rattle.tx_change.specs.declared.change.Change.TheVariants.{Part as SetPart};
ghost use Rattle.tx_proc.specs.declared.proc.Part.TheVariants.{Answer as SetAnswer};

use crate::answered::Answered;
use crate::change::Change;
use crate::parts::Parts;
use crate::run::{apply, revert};
use std::alloc::Global;
use std::marker::Model;
use tx_base::{NoMemory, Pid};
use tx_proc::Answer;

/// How many places a list gets at first: few steps change more than two parts and their answer.
const FIRST_PLACES: usize = 2;

/// Old parts, the oldest first. Led back, it gives the parts before the oldest was kept.
pub struct Log {
    changes: Vec<Change>,
    /// The newest old part, if that is an answer which is apart.
    answer: Option<Answered>,
}

// Not derived: that would be proved again wherever one is dropped.
impl Drop for Log {
    fn drop(self) {
        let Log {
            changes: _changes,
            answer: _answer,
        } = self;
    }
}

impl Model for Log {
    ghost use Rattle.std.specs.Prelude.{List, ◌++◌};
    ghost use Rattle.tx_change.specs.Answered.{answered};
    ghost use Rattle.tx_change.specs.declared.change.Change.{Change};

    ghost Value = { List Change };

    ghost view = { λ log. log.changes.items ++ answered log.answer };
}

impl Log {
    /// An empty log. It takes no memory before it has more than an answer.
    pub fn new(alloc: Global) -> Log
        ensures { result ≡ [] }
    {
        Log {
            changes: Vec::new(alloc),
            answer: None,
        }
    }

    /// An empty log with room for so many. NoMemory where that is refused.
    pub fn with_room(alloc: Global, room: usize) -> Result<Log, NoMemory>
        ensures { IfOk result (λ log. log ≡ []) }
    {
        let changes = Vec::with_capacity(alloc, room)?;
        Ok(Log {
            changes,
            answer: None,
        })
    }

    /// How many old parts it has.
    pub fn len(&self) -> usize
        ensures { result ≡ length self.now }
    {
        self.changes.len() + self.answer.is_some() as usize
    }

    /// Makes room for so many more. The log is as it was; NoMemory where a growth is refused.
    pub fn reserve(&mut self, count: usize) -> Result<(), NoMemory>
        ensures { self.new ≡ self.old }
    {
        self.changes.reserve(count)?;
        Ok(())
    }

    /// Appends a new part, still to be exchanged. After want of memory the log is as it was.
    #[inline(always)] // a change is large, and would be copied once more
    pub fn push(&mut self, change: Change) -> Result<(), NoMemory>
        ensures ok { OnOk result (self.new ≡ self.old ++ change ∷ []) }
        ensures err { OnErr result (self.new ≡ self.old) }
    {
        if self.answer.is_none() && self.changes.len() < self.changes.capacity() {
            self.changes.push_reserved(change);
            return Ok(());
        }
        self.push_settled(change)
    }

    /// Appends a new answer of a process, still to be exchanged. After want of memory the log is as
    /// it was.
    pub fn push_answer(&mut self, pid: Pid, answer: Answer) -> Result<(), NoMemory>
        ensures ok { OnOk result (self.new ≡ self.old ++ SetPart pid (SetAnswer answer) ∷ []) }
        ensures err { OnErr result (self.new ≡ self.old) }
    {
        let answered = Answered { pid, answer };
        if self.answer.is_some() {
            return self.push_settled(answered.change());
        }
        self.answer = Some(answered);
        Ok(())
    }

    /// Appends a new part to the list, after the answer if that is apart. After want of memory the log
    /// is as it was.
    #[inline(never)] // inlined, each push would have all of this
    fn push_settled(&mut self, change: Change) -> Result<(), NoMemory>
        ensures ok { OnOk result (self.new ≡ self.old ++ change ∷ []) }
        ensures err { OnErr result (self.new ≡ self.old) }
    {
        settle(&mut self.changes, &mut self.answer)?;
        if self.changes.capacity() == 0 {
            let mut changes = Vec::with_capacity(*self.changes.allocator(), FIRST_PLACES)?;
            changes.push_reserved(change);
            self.changes = changes;
            return Ok(());
        }
        self.changes.push(change)?;
        Ok(())
    }

    /// Moves the answer that is apart to the list, so that a later step has room for its own. After
    /// want of memory all is as it was.
    pub fn settle(&mut self) -> Result<(), NoMemory>
        ensures { self.new ≡ self.old }
    {
        settle(&mut self.changes, &mut self.answer)
    }

    /// Forgets all but the first so many.
    pub fn truncate(&mut self, count: usize)
        ensures { self.new ≡ take count self.old }
    {
        if count <= self.changes.len() {
            self.answer = None;
            self.changes.truncate(count);
        }
    }

    /// Makes the exchanges from that place on, the first one first. The log then has what was there.
    pub fn make_from(&mut self, parts: &mut Parts, from: usize)
        requires { AreNamed parts.old (drop from self.old) }
        ensures parts { parts.new ≡ applied parts.old (drop from self.old) }
        ensures log { self.new ≡ take from self.old ++ exchanged parts.old (drop from self.old) }
    {
        let has_more = from <= self.changes.len();
        apply_from(&mut self.changes, parts, from);
        if has_more {
            swap_answer(&mut self.answer, parts);
        }
    }

    /// Leads the last few old parts back, and forgets them.
    pub fn give_back(&mut self, parts: &mut Parts, count: usize)
        requires few { count ≤ length self.old }
        requires named { AreNamed parts.old self.old }
        ensures parts { parts.new ≡ undone parts.old (drop (length self.old - count) self.old) }
        ensures log { self.new ≡ take (length self.old - count) self.old }
    {
        if count == 0 {
            return;
        }
        match self.answer.take() {
            Some(mut answered) => {
                answered.swap(parts);
                lead_back_last(&mut self.changes, parts, count - 1);
            }
            None => lead_back_last(&mut self.changes, parts, count),
        }
    }

    /// Leads the last few old parts back, and moves what was there onto a stack of changes, which must
    /// have room for it: the oldest is on top then. It takes no memory.
    pub fn move_back(&mut self, parts: &mut Parts, count: usize, stack: &mut Vec<Change>)
        requires few { count ≤ length self.old }
        requires named { AreNamed parts.old self.old }
        requires room { length stack.old.items + count ≤ vec_capacity stack.old }
        ensures parts { parts.new ≡ undone parts.old (drop (length self.old - count) self.old) }
        ensures log { self.new ≡ take (length self.old - count) self.old }
        ensures stack { stack.new.items ≡ stack.old.items
            ++ reverse (reverted parts.old (drop (length self.old - count) self.old)) }
        ensures capacity { vec_capacity stack.new ≡ vec_capacity stack.old }
    {
        if count == 0 {
            return;
        }
        match self.answer.take() {
            Some(mut answered) => {
                answered.swap(parts);
                stack.push_reserved(answered.change());
                move_last_back(&mut self.changes, parts, count - 1, stack);
            }
            None => move_last_back(&mut self.changes, parts, count, stack),
        }
    }

    /// Makes as many changes again as were moved onto the stack, the topmost first, and moves what was
    /// there to the end of the log.
    ///
    /// NoMemory where a growth of the log is refused; all is then as it was.
    pub fn move_forward(
        &mut self,
        parts: &mut Parts,
        count: usize,
        stack: &mut Vec<Change>,
    ) -> Result<(), NoMemory>
        requires few { count ≤ length stack.old.items }
        requires named { AreNamed parts.old (top_of count stack.old.items) }
        ensures parts { OnOk result (parts.new ≡ applied parts.old (top_of count stack.old.items)) }
        ensures log { OnOk result
            (self.new ≡ self.old ++ exchanged parts.old (top_of count stack.old.items)) }
        ensures stack { OnOk result (stack.new.items ≡ below_top count stack.old.items) }
        ensures capacity { vec_capacity stack.new ≡ vec_capacity stack.old }
        ensures err { OnErr result (self.new ≡ self.old) }
        ensures parts_err { OnErr result (parts.new ≡ parts.old) }
        ensures stack_err { OnErr result (stack.new ≡ stack.old) }
    {
        let log = &mut self.changes;
        settle(log, &mut self.answer)?;
        log.reserve(count)?;
        move_last_forward(log, parts, count, stack);
        Ok(())
    }

    /// Leads all back. The log then has what was there.
    pub fn lead_back(&mut self, parts: &mut Parts)
        requires { AreNamed parts.old self.old }
        ensures parts { parts.new ≡ undone parts.old self.old }
        ensures log { self.new ≡ reverted parts.old self.old }
    {
        swap_answer(&mut self.answer, parts);
        revert(parts, &mut self.changes);
    }

    /// Makes all exchanges again, the first one first. The log then has what was there.
    pub fn lead_forward(&mut self, parts: &mut Parts)
        requires { AreNamed parts.old self.old }
        ensures parts { parts.new ≡ applied parts.old self.old }
        ensures log { self.new ≡ exchanged parts.old self.old }
    {
        apply(parts, &mut self.changes);
        swap_answer(&mut self.answer, parts);
    }
}

/// Moves the answer to the end of the list, if there is one. After want of memory all is as it was.
fn settle(changes: &mut Vec<Change>, answer: &mut Option<Answered>) -> Result<(), NoMemory>
    ensures changes { OnOk result
        (changes.new.items ≡ changes.old.items ++ answered answer.old) }
    ensures answer { OnOk result (answer.new ≡ None) }
    ensures changes_err { OnErr result (changes.new.items ≡ changes.old.items) }
    ensures answer_err { OnErr result (answer.new ≡ answer.old) }
{
    if let Some(answered) = *answer {
        changes.push(answered.change())?;
        *answer = None;
    }
    Ok(())
}

/// Exchanges the answer, if there is one.
fn swap_answer(answer: &mut Option<Answered>, parts: &mut Parts)
    requires { AreNamed parts.old (answered answer.old) }
    ensures parts { parts.new ≡ applied parts.old (answered answer.old) }
    ensures answer { answered answer.new ≡ exchanged parts.old (answered answer.old) }
{
    if let Some(answered) = answer {
        answered.swap(parts);
    }
}

/// Makes the exchanges from that place on, the first one first.
fn apply_from(changes: &mut Vec<Change>, parts: &mut Parts, from: usize)
    requires { AreNamed parts.old (drop from changes.old.items) }
    ensures parts { parts.new ≡ applied parts.old (drop from changes.old.items) }
    ensures changes { changes.new.items ≡ take from changes.old.items
        ++ exchanged parts.old (drop from changes.old.items) }
{
    for i in from..changes.len() {
        changes[i].swap(parts);
    }
}

/// Leads the last few old parts back, the last one first, and forgets them.
fn lead_back_last(changes: &mut Vec<Change>, parts: &mut Parts, count: usize)
    requires few { count ≤ length changes.old.items }
    requires named { AreNamed parts.old changes.old.items }
    ensures parts { parts.new
        ≡ undone parts.old (drop (length changes.old.items - count) changes.old.items) }
    ensures log { changes.new.items ≡ take (length changes.old.items - count) changes.old.items }
{
    for _done in 0..count {
        if let Some(mut change) = changes.pop() {
            change.swap(parts);
        }
    }
}

/// Leads the last few old parts back, the last one first, and moves each onto the stack.
fn move_last_back(
    changes: &mut Vec<Change>,
    parts: &mut Parts,
    count: usize,
    stack: &mut Vec<Change>,
)
    requires few { count ≤ length changes.old.items }
    requires named { AreNamed parts.old changes.old.items }
    requires room { length stack.old.items + count ≤ vec_capacity stack.old }
    ensures parts { parts.new
        ≡ undone parts.old (drop (length changes.old.items - count) changes.old.items) }
    ensures log { changes.new.items ≡ take (length changes.old.items - count) changes.old.items }
    ensures stack { stack.new.items ≡ stack.old.items
        ++ reverse (reverted parts.old
        (drop (length changes.old.items - count) changes.old.items)) }
    ensures capacity { vec_capacity stack.new ≡ vec_capacity stack.old }
{
    for _done in 0..count {
        if let Some(mut change) = changes.pop() {
            change.swap(parts);
            stack.push_reserved(change);
        }
    }
}

/// Makes the topmost changes of the stack, and moves each to the end of the log, which has room.
fn move_last_forward(
    changes: &mut Vec<Change>,
    parts: &mut Parts,
    count: usize,
    stack: &mut Vec<Change>,
)
    requires few { count ≤ length stack.old.items }
    requires named { AreNamed parts.old (top_of count stack.old.items) }
    requires room { length changes.old.items + count ≤ vec_capacity changes.old }
    ensures parts { parts.new ≡ applied parts.old (top_of count stack.old.items) }
    ensures log { changes.new.items ≡ changes.old.items
        ++ exchanged parts.old (top_of count stack.old.items) }
    ensures stack { stack.new.items ≡ below_top count stack.old.items }
    ensures capacity { vec_capacity stack.new ≡ vec_capacity stack.old }
{
    for _done in 0..count {
        if let Some(mut change) = stack.pop() {
            change.swap(parts);
            changes.push_reserved(change);
        }
    }
}
