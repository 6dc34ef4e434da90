//! `Counters`: the number of connections, requests, refusals and bytes of a server. Each thread that
//! serves connections adds to a share of its own, and a reader adds the shares up; for `accepting`,
//! `io_threads` and `served_store`.
use craq_event_loop::Traffic;
use craq_model::Ask;
use craq_names::Refusal;
use std::alloc::{AllocError, Global};
use std::sync::Arc;
use std::sync::atomic::{AtomicU64, Ordering};

/// The number of shares. Threads beyond it share them.
const SHARES: usize = 16;

/// The number of refusals, which are numbered from 1.
pub const REFUSALS: usize = 28;

/// The counts of one thread.
#[derive(Drop)]
pub(crate) struct ThreadCounts {
    updates: AtomicU64,
    reads: AtomicU64,
    statuses: AtomicU64,
    /// Refused requests, and frames that are none, by the refusal's number, from 1.
    refused: Vec<AtomicU64>,
    pub(crate) traffic: Arc<Traffic>,
}

impl ThreadCounts {
    /// Makes counts of nothing. Fails only when out of memory.
    fn new(alloc: Global) -> Result<Self, AllocError> {
        let mut refused = Vec::new(alloc);
        for _ in 0..REFUSALS {
            refused.push(AtomicU64::new(0))?;
        }
        Ok(ThreadCounts {
            updates: AtomicU64::new(0),
            reads: AtomicU64::new(0),
            statuses: AtomicU64::new(0),
            refused,
            traffic: Arc::new(alloc, Traffic::new())?,
        })
    }

    /// Counts an update or a read.
    pub(crate) fn count_ask(&self, ask: &Ask) {
        match ask {
            Ask::Update(_) => self.updates.fetch_add(1, Ordering::SeqCst),
            Ask::Read { .. } => self.reads.fetch_add(1, Ordering::SeqCst),
        };
    }

    /// Counts a request for the status.
    pub(crate) fn count_status(&self) {
        self.statuses.fetch_add(1, Ordering::SeqCst);
    }

    /// Counts a refused update or read, or a refused frame that is none.
    pub(crate) fn count_refusal(&self, refusal: &Refusal) {
        let index = usize::from(refusal.number()).saturating_sub(1);
        if let Some(count) = self.refused.get(index) {
            count.fetch_add(1, Ordering::SeqCst);
        }
    }

    /// Adds the counts to these sums.
    fn add_to(&self, counts: &mut Counts) {
        add(&mut counts.updates, &self.updates);
        add(&mut counts.reads, &self.reads);
        add(&mut counts.statuses, &self.statuses);
        for (sum, count) in counts.refused.iter_mut().zip(self.refused.iter()) {
            add(sum, count);
        }
        let read = self.traffic.bytes_read();
        counts.read_bytes = counts.read_bytes.saturating_add(read);
        let written = self.traffic.bytes_written();
        counts.written_bytes = counts.written_bytes.saturating_add(written);
    }
}

/// Adds what an atomic number holds to a sum.
fn add(sum: &mut u64, count: &AtomicU64) {
    *sum = sum.saturating_add(count.load(Ordering::SeqCst));
}

/// The counts of a server since its start.
#[derive(Clone, Copy, Debug)]
pub struct Counts {
    /// The number of open connections.
    pub open_connections: u64,
    /// The number of connections that got a place.
    pub accepted: u64,
    /// The number of connections that were closed because no place was free.
    pub turned_away: u64,
    /// The number of updates.
    pub updates: u64,
    /// The number of reads.
    pub reads: u64,
    /// The number of requests for the status.
    pub statuses: u64,
    /// The number of refused updates and reads, and of refused frames that are none, by the
    /// refusal's number, from 1.
    pub refused: [u64; REFUSALS],
    /// The number of bytes that were read from clients.
    pub read_bytes: u64,
    /// The number of bytes that were written to clients.
    pub written_bytes: u64,
}

/// The counters of a server.
#[derive(Drop)]
pub(crate) struct Counters {
    shares: Vec<Arc<ThreadCounts>>,
    accepted: AtomicU64,
    ended: AtomicU64,
    turned_away: AtomicU64,
}

impl Counters {
    /// Makes counters of nothing. Fails only when out of memory.
    pub(crate) fn new(alloc: Global) -> Result<Self, AllocError> {
        let mut shares = Vec::new(alloc);
        for _ in 0..SHARES {
            shares.push(Arc::new(alloc, ThreadCounts::new(alloc)?)?)?;
        }
        Ok(Counters {
            shares,
            accepted: AtomicU64::new(0),
            ended: AtomicU64::new(0),
            turned_away: AtomicU64::new(0),
        })
    }

    /// Returns the share of the thread of this index. Fails only when out of memory.
    pub(crate) fn share(&self, index: usize) -> Result<Arc<ThreadCounts>, AllocError> {
        match self.shares.get(index % SHARES) {
            Some(share) => Arc::try_clone(share),
            None => Err(AllocError),
        }
    }

    /// Counts a connection that got a place.
    pub(crate) fn count_accepted(&self) {
        self.accepted.fetch_add(1, Ordering::SeqCst);
    }

    /// Counts the end of a connection that had a place.
    pub(crate) fn count_ended(&self) {
        self.ended.fetch_add(1, Ordering::SeqCst);
    }

    /// Counts a connection that was closed because no place was free. Returns the number of these
    /// so far.
    pub(crate) fn count_turned_away(&self) -> u64 {
        self.turned_away
            .fetch_add(1, Ordering::SeqCst)
            .saturating_add(1)
    }

    /// Returns the sums of all shares. Counts that go on meanwhile may be in some sums and not in
    /// others.
    pub(crate) fn counts(&self) -> Counts {
        let ended = self.ended.load(Ordering::SeqCst);
        let accepted = self.accepted.load(Ordering::SeqCst);
        let mut counts = Counts {
            open_connections: accepted.saturating_sub(ended),
            accepted,
            turned_away: self.turned_away.load(Ordering::SeqCst),
            updates: 0,
            reads: 0,
            statuses: 0,
            refused: [0; REFUSALS],
            read_bytes: 0,
            written_bytes: 0,
        };
        for share in self.shares.as_slice() {
            share.add_to(&mut counts);
        }
        counts
    }
}
