//! Drives each trial in which no node is held; called by `trials`. The other trials are in
//! `holding` and `filling`.
use crate::asks::chain;
use crate::caller::Caller;
use crate::course::Course;
use crate::fault::{Fact, Fault, expect};
use crate::gate::Tested;
use crate::trial::Trial;
use crate::waits::{LIMIT, rest};
use craq_audit::Audit;
use craq_names::{NodeId, Refusal};
use craq_workers::Named;
use std::sync::atomic::{AtomicU64, Ordering};
use std::sync::{Arc, Wait};
use std::thread;
use std::thread::{JoinHandle, Threads};

/// The number of concurrent clients.
pub const CLIENTS: u8 = 4;

/// The largest number of ticks that a call takes while messages are lost, and afterwards.
const MOST_TICKS: u64 = 300;

/// The number of polls for which clients send requests after messages were lost.
const CALM: u64 = 50;

/// The largest number of nodes that ever join.
const MOST_JOINS: u32 = 10_000;

/// The largest request number.
const MANY: u64 = 1_000_000;

/// A running store and its course.
pub struct Ground<N: Named> {
    pub host: HostRuntime,
    pub store: Tested<N>,
    pub course: Arc<Course>,
}

/// The threads of clients.
pub type Callers = Vec<JoinHandle<()>>;

impl<N: Named + Send + 'static> Ground<N> {
    /// Starts a client of this id with `numbers` request numbers.
    pub fn start_caller<R>(
        &self,
        rt: R,
        id: u8,
        numbers: u64,
        callers: &mut Callers,
    ) -> Result<(), Fault>
    where
        R: Threads + Wait + Copy + Send + 'static,
    {
        callers.reserve(1)?;
        let host = self.host;
        let course = Arc::try_clone(&self.course)?;
        let caller = Caller::new(&rt, host.alloc(), &self.store, id)?;
        match thread::spawn(&rt, move || caller.ask_on(&rt, host, &course, numbers)) {
            Ok(spawned) => {
                self.course.begun.fetch_add(1, Ordering::SeqCst);
                callers.push(spawned)?;
                Ok(())
            }
            Err(_) => Err(Fault::Refused(Refusal::Memory)),
        }
    }

    /// Starts all clients.
    fn start_all<R>(&self, rt: R, callers: &mut Callers) -> Result<(), Fault>
    where
        R: Threads + Wait + Copy + Send + 'static,
    {
        for id in 1..=CLIENTS {
            self.start_caller(rt, id, MANY, callers)?;
        }
        Ok(())
    }

    /// Ticks once per poll until a counter reaches a number, for at most `turns` polls. Returns
    /// true if it has.
    pub fn tick_until<R: Wait>(
        &self,
        rt: &R,
        counter: &AtomicU64,
        wanted: u64,
        turns: u64,
    ) -> bool {
        for _ in 0..turns {
            if counter.load(Ordering::SeqCst) >= wanted {
                return true;
            }
            self.store.tick(rt);
            self.course.ticks.fetch_add(1, Ordering::SeqCst);
            rest(self.host);
        }
        counter.load(Ordering::SeqCst) >= wanted
    }

    /// Drives a trial; `time` is the number of its repetition, from 0.
    pub fn drive<R>(
        &self,
        rt: R,
        trial: Trial,
        time: u64,
        callers: &mut Callers,
    ) -> Result<(), Fault>
    where
        R: Threads + Wait + Copy + Send + 'static,
    {
        match trial {
            Trial::Stop(_) => self.stop(rt, callers)?,
            Trial::Before | Trial::After => self.hold(rt, callers, false)?,
            Trial::Within => self.hold(rt, callers, true)?,
            Trial::Master => self.hold_master(rt)?,
            Trial::Filling(held) => self.fill(rt, held, callers)?,
            Trial::Losses(turns) => self.lose(rt, turns, callers)?,
            Trial::SlowJoin(calls) => self.join_slowly(rt, calls, callers)?,
            Trial::Changes(calls) => self.change(rt, calls, callers)?,
            Trial::Closes(_) => return self.ask_a_while(rt, time, callers),
        }
        self.end(&rt)
    }

    /// Runs clients while messages are lost, for `turns` polls, and then while none is lost.
    fn lose<R>(&self, rt: R, turns: u64, callers: &mut Callers) -> Result<(), Fault>
    where
        R: Threads + Wait + Copy + Send + 'static,
    {
        self.start_all(rt, callers)?;
        self.tick_until(&rt, &self.course.answered, u64::MAX, turns);
        self.course.calm.store(true, Ordering::SeqCst);
        self.tick_until(&rt, &self.course.answered, u64::MAX, CALM);
        self.end_asking(&rt)?;
        let refused = self.course.refused.load(Ordering::SeqCst);
        let longest = self.course.longest.load(Ordering::SeqCst);
        expect(refused == 0, Fact::IsAnswered)?;
        expect(longest <= MOST_TICKS, Fact::IsInTime)
    }

    /// Adds node 4, which receives messages slowly, while clients send requests.
    fn join_slowly<R>(&self, rt: R, calls: u64, callers: &mut Callers) -> Result<(), Fault>
    where
        R: Threads + Wait + Copy + Send + 'static,
    {
        self.start_all(rt, callers)?;
        expect(
            self.tick_until(&rt, &self.course.answered, calls, LIMIT),
            Fact::IsAnswered,
        )?;
        self.join(rt, 4)
    }

    /// Adds a node of this id, sends reads to it, and expects that it begins to answer them.
    fn join<R>(&self, rt: R, id: u32) -> Result<(), Fault>
    where
        R: Threads + Wait + Copy + Send + 'static,
    {
        self.store.join(rt, chain(), NodeId::new(id))?;
        self.course.tail.store(id, Ordering::SeqCst);
        let ready = self.tick_until(&rt, &self.course.ready, u64::from(id), LIMIT);
        expect(ready, Fact::IsReady)
    }

    /// Stops, removes and adds members while clients send requests, until `calls` calls are
    /// answered.
    fn change<R>(&self, rt: R, calls: u64, callers: &mut Callers) -> Result<(), Fault>
    where
        R: Threads + Wait + Copy + Send + 'static,
    {
        self.start_all(rt, callers)?;
        let mut members = [1, 2, 3];
        for next in 4..MOST_JOINS {
            if self.course.answered.load(Ordering::SeqCst) >= calls {
                return Ok(());
            }
            members = self.replace(rt, members, next)?;
        }
        expect(false, Fact::IsAnswered)
    }

    /// Stops and removes the head, the middle or the tail, depending on `next`, and adds node
    /// `next`. Returns the members afterwards.
    fn replace<R>(&self, rt: R, members: [u32; 3], next: u32) -> Result<[u32; 3], Fault>
    where
        R: Threads + Wait + Copy + Send + 'static,
    {
        let [first, second, third] = members;
        let (gone, others) = match next % 3 {
            0 => (first, [second, third, next]),
            1 => (second, [first, third, next]),
            _ => (third, [first, second, next]),
        };
        self.store.stop(&rt, chain(), NodeId::new(gone))?;
        self.store.remove(&rt, chain(), NodeId::new(gone))?;
        self.course.head.store(others[0], Ordering::SeqCst);
        self.join(rt, next)?;
        Ok(others)
    }

    /// Runs clients for zero to four polls.
    fn ask_a_while<R>(&self, rt: R, time: u64, callers: &mut Callers) -> Result<(), Fault>
    where
        R: Threads + Wait + Copy + Send + 'static,
    {
        self.start_all(rt, callers)?;
        self.tick_until(&rt, &self.course.answered, u64::MAX, time % 5);
        Ok(())
    }

    /// Ends the clients.
    pub fn end_asking<R: Wait>(&self, rt: &R) -> Result<(), Fault> {
        self.course.over.store(true, Ordering::SeqCst);
        let begun = self.course.begun.load(Ordering::SeqCst);
        let ended = self.tick_until(rt, &self.course.ended, begun, LIMIT);
        expect(ended, Fact::IsAnswered)
    }

    /// Ends the clients, and expects that all versions were right and that the audit finds a run
    /// with every receipt.
    fn end<R: Wait>(&self, rt: &R) -> Result<(), Fault> {
        self.end_asking(rt)?;
        let wrong = self.course.wrong.load(Ordering::SeqCst);
        expect(wrong == 0, Fact::HasItsVersion)?;
        self.audit(rt)
    }

    /// Expects that the audit finds a run with every receipt.
    pub fn audit<R: Wait>(&self, rt: &R) -> Result<(), Fault> {
        let receipts = self.course.receipts.lock(rt);
        let audited = self.store.audit(rt, chain(), receipts.as_slice());
        let is_merged = matches!(&audited, Ok(Audit::Merged(_)));
        drop(audited);
        expect(is_merged, Fact::IsMerged)
    }
}
