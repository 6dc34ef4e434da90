//! `BulkLimit`: the number of threads that take the steps of many requests at a time; for
//! `served_store`.
use std::sync::{Condvar, Mutex, Wait};
use std::thread;
use std::thread::Threads;

/// Lets few threads at a time take the steps of requests that their clients sent without waiting for
/// replies. So the thread of a client that waits for each reply finds a processor.
#[derive(Drop)]
pub(crate) struct BulkLimit {
    most: usize,
    /// The number of threads between `begin` and `end`.
    running: Mutex<usize>,
    /// Notified at each end.
    ended: Condvar,
}

impl BulkLimit {
    /// Makes a limit of half of the processors, and of one at least. Takes no memory.
    pub(crate) fn new<R: Threads>(rt: &R) -> Self {
        let processors = match thread::available_parallelism(rt) {
            Ok(count) => count.get(),
            Err(_) => 1,
        };
        BulkLimit {
            most: (processors / 2).max(1),
            running: Mutex::new(0),
            ended: Condvar::new(),
        }
    }

    /// Waits until fewer threads than the limit are between `begin` and `end`.
    pub(crate) fn begin<R: Wait>(&self, rt: &R) {
        let most = self.most;
        let running = self.running.lock(rt);
        let mut running = self.ended.wait_while(rt, running, |now| *now >= most);
        *running = running.saturating_add(1);
    }

    /// Ends what `begin` began, and lets one thread that waits go on.
    pub(crate) fn end<R: Wait>(&self, rt: &R) {
        let mut running = self.running.lock(rt);
        *running = running.saturating_sub(1);
        drop(running);
        self.ended.notify_one();
    }
}
