//! `Connections`: the open connections of a server, each at a place, and the server's progress.
//! Shared by `accept`, the threads that serve them, and those that wait for the server or end it.
use crate::connection_slots::ConnectionSlots;
use crate::counters::{Counters, Counts};
use std::alloc::{AllocError, Global};
use std::net::{Shutdown, TcpStream};
use std::sync::{Arc, Condvar, Mutex, Wait};

/// The progress of a server.
#[derive(Clone, Copy, Debug, Drop)]
struct ServerProgress {
    /// True where it has all that it needs and takes connections in.
    has_begun: bool,
    /// True where it is to end.
    is_ending: bool,
    /// True where requests that still wait are to be refused.
    has_timed_out: bool,
    /// True where it takes no more connections and all are over.
    is_over: bool,
}

/// The open connections of a server.
#[derive(Drop)]
pub struct Connections {
    /// The progress of the server.
    progress: Mutex<ServerProgress>,
    /// Notified at each progress.
    changed: Condvar,
    /// The open connections, each at its place.
    slots: Mutex<ConnectionSlots>,
    /// The most places; 0 for as many as connections come.
    most: u32,
    /// The counts of all connections.
    pub(crate) counters: Counters,
}

impl Connections {
    /// Makes the connections of a server that has at most `most` of them open, or with 0 as many as
    /// come: the system's limit of descriptors then bounds them. None is open yet. Fails only when
    /// out of memory.
    pub fn new(alloc: Global, most: u32) -> Result<Self, AllocError> {
        Ok(Connections {
            progress: Mutex::new(ServerProgress {
                has_begun: false,
                is_ending: false,
                has_timed_out: false,
                is_over: false,
            }),
            changed: Condvar::new(),
            slots: Mutex::new(ConnectionSlots::new(alloc)),
            most,
            counters: Counters::new(alloc)?,
        })
    }

    /// Returns the number of connections, requests, refusals and bytes so far.
    pub fn counts(&self) -> Counts {
        self.counters.counts()
    }

    /// Returns whether the server is to end.
    pub fn is_ending<R: Wait>(&self, rt: &R) -> bool {
        self.progress.lock(rt).is_ending
    }

    /// Returns whether requests that still wait are to be refused (`time_out`).
    pub fn has_timed_out<R: Wait>(&self, rt: &R) -> bool {
        self.progress.lock(rt).has_timed_out
    }

    /// Notes that the server has all that it needs and takes connections in from now on.
    pub(crate) fn begin<R: Wait>(&self, rt: &R) {
        self.progress.lock(rt).has_begun = true;
        self.changed.notify_all();
    }

    /// Notes that the server takes no more connections and all are over, or that it could not
    /// begin.
    pub(crate) fn finish<R: Wait>(&self, rt: &R) {
        self.progress.lock(rt).is_over = true;
        self.changed.notify_all();
    }

    /// Waits until the server takes connections in or could not begin. Returns whether it takes
    /// them.
    pub fn wait_for_begin<R: Wait>(&self, rt: &R) -> bool {
        let progress = self.progress.lock(rt);
        let progress = self
            .changed
            .wait_while(rt, progress, |now| !now.has_begun && !now.is_over);
        progress.has_begun
    }

    /// Waits until the server is to end or is over.
    pub fn wait_for_end<R: Wait>(&self, rt: &R) {
        let progress = self.progress.lock(rt);
        let progress = self
            .changed
            .wait_while(rt, progress, |now| !now.is_ending && !now.is_over);
        drop(progress);
    }

    /// Gives a connection a free place and returns it; `None` where no place is free and there are
    /// to be no more. Fails only when out of memory for one place more; no place is taken then.
    pub(crate) fn enter<R: Wait>(
        &self,
        rt: &R,
        stream: Arc<TcpStream>,
    ) -> Result<Option<usize>, AllocError> {
        let mut slots = self.slots.lock(rt);
        slots.make_room(self.most)?;
        Ok(slots.enter(stream))
    }

    /// Frees the place of a connection that is over.
    pub(crate) fn leave<R: Wait>(&self, rt: &R, slot: usize) {
        self.slots.lock(rt).leave(slot);
    }

    /// Returns whether no connection is open.
    pub(crate) fn is_idle<R: Wait>(&self, rt: &R) -> bool {
        self.slots.lock(rt).are_free()
    }

    /// Shuts each open connection down.
    fn shut_all<R: Wait>(&self, rt: &R, how: Shutdown) {
        let slots = self.slots.lock(rt);
        for stream in slots.as_slice().iter().flatten() {
            let _ = stream.shutdown(how);
        }
    }

    /// Ends the server in order: no connection is taken in from now on, and those that are open are
    /// shut for reading. What has come is still answered; a connection is over once a read finds
    /// nothing more. The accepting thread sees this within 100 milliseconds.
    pub fn end<R: Wait>(&self, rt: &R) {
        self.progress.lock(rt).is_ending = true;
        self.changed.notify_all();
        self.shut_all(rt, Shutdown::Read);
    }

    /// Notes that requests which still wait, as behind a stopped node, are to be refused. The owner
    /// of the store does that by stopping its nodes.
    pub fn time_out<R: Wait>(&self, rt: &R) {
        self.progress.lock(rt).has_timed_out = true;
    }

    /// Ends each connection that is still open, whatever is still to be written to it. One whose
    /// request is under way is over once the request has its reply.
    pub fn cut<R: Wait>(&self, rt: &R) {
        self.time_out(rt);
        self.shut_all(rt, Shutdown::Both);
    }
}
