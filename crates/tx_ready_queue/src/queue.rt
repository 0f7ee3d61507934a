//! The ready queue, which the workers share.
ghost use Rattle.std.specs.Prelude.{◌≡◌, ℕ, ◌+◌, ◌-◌, ◌<◌, ◌≤◌, ◌^◌, [], length, IfNone, IfOk, IfSome, MatchOption};
ghost use Rattle.std.specs.List.{range_with_len};
ghost use Rattle.crossbeam_queue.specs.Passes.{view, IsPassOf};
ghost use Rattle.tx_ready_queue.specs.Numbers.{IsNumber};
ghost use Rattle.tx_ready_queue.specs.Hands.{hand, puts, takes, keeps, begins, both, GivesBack, HoldsEach};

use crate::counts::Counts;
use crate::rule::{Cut, Hand, Puts, Ring, Takes};
use crate::station::Station;
use crate::tally::Tally;
use crossbeam_queue::Pass;
use std::alloc::Global;
use std::sync::Wait;
use std::thread;
use tx_base::{NoMemory, Pid};

/// The numbers of the processes that may run. Workers share it by reference, each with a station of
/// its own.
#[derive(Drop)]
pub struct ReadyQueue {
    ring: Ring,
}

impl ReadyQueue {
    ghost use Rattle.tx_ready_queue.specs.Stations.{IsStationOf, HasDrained, IsTally, LeavesEach};

    /// A queue with so many places, 1 to 256, which holds the numbers 1 to count in order, and the
    /// station that has all parts and has put them. NoMemory where a growth is refused.
    pub fn open<R: Wait>(
        rt: &R,
        alloc: Global,
        count: u16,
    ) -> Result<(ReadyQueue, Station), NoMemory>
        requires count { IsNumber count }
        ensures queue { IfOk result (λ opened. IsStationOf opened.0 opened.1) }
        ensures numbers { IfOk result (λ opened.
            opened.1.hand ≡ hand 65536 (range_with_len 1 count) []) }
        ensures each { IfOk result (λ opened. HoldsEach count opened.1.hand) }
    {
        let (ring, pass) = Ring::ruled(alloc, usize::from(count))?;
        let queue = ReadyQueue { ring };
        let mut station = Station {
            pass,
            pushed: Counts::none(),
            popped: Counts::none(),
        };
        for number in 1..=count {
            queue.give(rt, &mut station, Pid(number));
        }
        Ok((queue, station))
    }

    /// A station of its own for one more worker, which has put and taken nothing. The other gives one
    /// of its parts to it.
    pub fn another(&self, station: &mut Station) -> Station
        requires queue { IsStationOf self.now station.old }
        requires parts { 1 < station.old.hand.parts }
        ensures queue { IsStationOf self.now station.new × IsStationOf self.now result }
        ensures other { station.new.hand ≡ keeps station.old.hand }
        ensures begins { result.hand ≡ begins }
        ensures back { GivesBack result.hand }
        ensures each { (count : ℕ) → HoldsEach count station.old.hand →
            HoldsEach count station.new.hand }
    {
        let pass = self.ring.another::<Cut>(&mut station.pass);
        Station {
            pass,
            pushed: Counts::none(),
            popped: Counts::none(),
        }
    }

    /// Puts a number into the queue. Tries again while the queue is full.
    pub fn give<R: Wait>(&self, rt: &R, station: &mut Station, pid: Pid)
        requires queue { IsStationOf self.now station.old }
        requires number { IsNumber pid.0 }
        requires room { length station.old.hand.put < 2 ^ 63 }
        ensures queue { IsStationOf self.now station.new }
        ensures put { station.new.hand ≡ puts station.old.hand pid.0 }
        ensures back { (held : Hand) → GivesBack held → station.old.hand ≡ takes held pid.0 →
            GivesBack station.new.hand }
    {
        self.push(rt, &mut station.pass, pid.0);
        station.pushed.count(pid.0);
    }

    /// Takes the oldest number from the queue. None where the queue was empty at a moment of the
    /// call: the station is then as it was, and if it has all parts, all that was put has been
    /// taken.
    pub fn take<R: Wait>(&self, rt: &R, station: &mut Station) -> Option<Pid>
        requires queue { IsStationOf self.now station.old }
        requires room { length station.old.hand.taken < 2 ^ 63 }
        ensures queue { IsStationOf self.now station.new }
        ensures taken { MatchOption result (station.new.hand ≡ station.old.hand) (λ pid.
            station.new.hand ≡ takes station.old.hand pid.0) }
        ensures number { IfSome result (λ pid. IsNumber pid.0) }
        ensures empty { IfNone result
            (station.old.hand.parts ≡ 65536 → GivesBack station.old.hand) }
    {
        let number = self.ring.pop_as::<Takes, R>(rt, &mut station.pass)?;
        station.popped.count(number);
        Some(Pid(number))
    }

    /// One station of two, with what both have put and taken, and the parts of both.
    pub fn merge(&self, station: &mut Station, other: Station)
        requires queue { IsStationOf self.now station.old × IsStationOf self.now other }
        requires put_room { length station.old.hand.put + length other.hand.put < 2 ^ 64 }
        requires taken_room { length station.old.hand.taken + length other.hand.taken < 2 ^ 64 }
        ensures queue { IsStationOf self.now station.new }
        ensures both { station.new.hand ≡ both station.old.hand other.hand }
        ensures each { (count : ℕ) → HoldsEach count station.old.hand → GivesBack other.hand →
            HoldsEach count station.new.hand }
    {
        station.pushed.add(&other.pushed);
        station.popped.add(&other.popped);
        self.ring.absorb::<Cut>(&mut station.pass, other.pass);
    }

    /// Closes the queue by the station that has all parts again. What is left in the queue is taken
    /// from it and counted.
    pub fn close<R: Wait>(self, rt: &R, station: Station) -> Tally
        requires queue { IsStationOf self station }
        requires whole { station.hand.parts ≡ 65536 }
        ensures tally { IsTally station.hand result }
        ensures each { (count : ℕ) → count ≤ 256 → HoldsEach count station.hand →
            LeavesEach count result }
    {
        let Station {
            mut pass,
            pushed,
            popped,
        } = station;
        let left = self.drain(rt, &mut pass).by_place;
        let pushed = pushed.by_place;
        let popped = popped.by_place;
        Tally {
            pushed,
            popped,
            left,
        }
    }

    /// Puts a number into the ring. Tries again where that is refused.
    fn push<R: Wait>(&self, rt: &R, pass: &mut Pass<u16, Hand>, number: u16)
        requires queue { IsPassOf self.now.ring pass.old }
        requires part { 0 < (view pass.old).parts }
        requires number { IsNumber number }
        ensures queue { IsPassOf self.now.ring pass.new }
        ensures put { view pass.new ≡ puts (view pass.old) number }
    {
        for _ in rt.forever() {
            match self.ring.try_push_as::<Puts>(pass, number) {
                Ok(()) => return,
                Err(_) => thread::yield_now(),
            }
        }
        unreachable!()
    }

    /// Takes all numbers that are left, and counts them.
    fn drain<R: Wait>(&self, rt: &R, pass: &mut Pass<u16, Hand>) -> Counts
        requires queue { IsPassOf self.now.ring pass.old }
        requires whole { (view pass.old).parts ≡ 65536 }
        requires room { length (view pass.old).put < 2 ^ 64 }
        ensures { HasDrained (view pass.old) result.by_place }
    {
        let mut left = Counts::none();
        for _ in rt.forever() {
            match self.ring.pop_as::<Takes, R>(rt, pass) {
                Some(number) => left.count(number),
                None => return left,
            }
        }
        unreachable!()
    }
}
