//! Provides a client of a store under trial, on a thread of its own: it puts, reads what it put,
//! and retries; for `driving`.
use crate::asks::{Reported, name_of, put_of, read_of, tells};
use crate::course::Course;
use crate::gate::{TestGate, Tested};
use crate::waits::rest;
use craq_commands::ReadMode;
use craq_compact_history::ListCore;
use craq_model::Ask;
use craq_names::{Pass, Refusal};
use craq_workers::{At, Client, Named};
use std::alloc::Global;
use std::sync::Wait;
use std::sync::atomic::Ordering;

/// The number of objects that each client writes, one after another.
const OBJECTS: u64 = 70;

/// The largest number of times that a call is made until it is answered.
const TRIES: u32 = 3000;

/// A client of one chain. No other client writes its objects.
#[derive(Drop)]
pub struct Caller<N: Named> {
    alloc: Global,
    client: Client<At<ListCore, N>, TestGate>,
    id: u8,
}

/// Returns the version that the put of this number writes.
fn version_after(number: u64) -> u64 {
    (number.saturating_sub(1) / OBJECTS).saturating_add(1)
}

impl<N: Named> Caller<N> {
    /// Creates a client of this id that has no pass yet.
    pub fn new<R: Wait>(rt: &R, alloc: Global, store: &Tested<N>, id: u8) -> Result<Self, Refusal> {
        let client = store.client(rt, Pass::start())?;
        Ok(Caller { alloc, client, id })
    }

    /// Returns the key of the object that its put of this number writes.
    fn key(&self, number: u64) -> [u8; 2] {
        [self.id, (number % OBJECTS) as u8]
    }

    /// Makes the put of this number.
    fn put(&self, number: u64) -> Result<Ask, Refusal> {
        put_of(self.alloc, u64::from(self.id), number, &self.key(number))
    }

    /// Makes a read of the object that the put of this number wrote.
    fn read(&self, number: u64, mode: ReadMode) -> Result<Ask, Refusal> {
        read_of(self.alloc, mode, &self.key(number))
    }

    /// Sends a request to a node and notes whether the reply is the expected one. Its receipt is
    /// added to the course's.
    fn ask<R: Wait>(
        &mut self,
        rt: &R,
        course: &Course,
        node: u32,
        ask: Ask,
        reported: Reported,
    ) -> Result<(), Refusal> {
        let asked = course.ticks.load(Ordering::SeqCst);
        let (answer, receipt) = self.client.call(rt, name_of(node), ask)?;
        let is_right = tells(&answer, reported);
        drop(answer);
        course.note(rt, receipt, asked, is_right);
        Ok(())
    }

    /// Sends an eventual read to a node. Its reply needs no tick.
    pub fn glance<R: Wait>(&mut self, rt: &R, course: &Course, node: u32) -> Result<(), Refusal> {
        let ask = self.read(1, ReadMode::Eventual)?;
        self.ask(rt, course, node, ask, Reported::Found(0))
    }

    /// Sends the put of this number to the head.
    fn try_put<R: Wait>(&mut self, rt: &R, course: &Course, number: u64) -> Result<(), Refusal> {
        let ask = self.put(number)?;
        let head = course.head.load(Ordering::SeqCst);
        self.ask(
            rt,
            course,
            head,
            ask,
            Reported::Written(version_after(number)),
        )
    }

    /// Sends a strong read of the object that the put of this number wrote to the tail.
    fn try_read<R: Wait>(&mut self, rt: &R, course: &Course, number: u64) -> Result<(), Refusal> {
        let ask = self.read(number, ReadMode::Strong)?;
        let tail = course.tail.load(Ordering::SeqCst);
        self.ask(
            rt,
            course,
            tail,
            ask,
            Reported::Found(version_after(number)),
        )?;
        course.ready.fetch_max(u64::from(tail), Ordering::SeqCst);
        Ok(())
    }

    /// Puts or reads until there is a reply, the store is closed, or the tries are used up. Returns
    /// true if there was a reply.
    fn insist<R: Wait>(
        &mut self,
        rt: &R,
        host: HostRuntime,
        course: &Course,
        number: u64,
        puts: bool,
    ) -> bool {
        for _ in 0..TRIES {
            let asked = if puts {
                self.try_put(rt, course, number)
            } else {
                self.try_read(rt, course, number)
            };
            match asked {
                Ok(()) => return true,
                Err(Refusal::Closed) => return false,
                Err(_) => {
                    course.refused.fetch_add(1, Ordering::SeqCst);
                    rest(host);
                }
            }
        }
        false
    }

    /// Puts with request numbers from 1 to `numbers`, until the course is over or the store is
    /// closed. Reads the object after each put, and sends the last put again.
    pub fn ask_on<R: Wait>(mut self, rt: &R, host: HostRuntime, course: &Course, numbers: u64) {
        for number in 1..=numbers {
            let is_last = number == numbers || course.over.load(Ordering::SeqCst);
            if !self.insist(rt, host, course, number, true)
                || !self.insist(rt, host, course, number, false)
            {
                break;
            }
            if is_last {
                let _ = self.insist(rt, host, course, number, true);
                break;
            }
        }
        course.ended.fetch_add(1, Ordering::SeqCst);
    }
}
