//! `CompletionQueue`: the completion queue of one thread or one client. The clients of
//! `craq_workers` and the threads of `craq_server` that serve connections make one each.
use crate::queue_state::{Completion, Outcome, QueueState};
use crate::token::CallToken;
use mio::Waker;
use std::alloc::{AllocError, Global};
use std::sync::{Condvar, Mutex, Wait};

/// A completion queue. Any thread may put completions in; only the owner takes them.
#[derive(Drop)]
pub struct CompletionQueue<T: Drop = Outcome> {
    state: Mutex<QueueState<T>>,
    /// Wakes an owner that waits for completions only.
    arrived: Condvar,
    /// Wakes an owner that also waits for readiness of sockets.
    waker: Option<Waker>,
}

impl<T: Drop> CompletionQueue<T> {
    /// Makes an empty queue. Its owner is woken by `waker`, or, without one, only within `wait`.
    /// Takes no memory.
    pub fn new(alloc: Global, waker: Option<Waker>) -> Self {
        CompletionQueue {
            state: Mutex::new(QueueState::new(alloc)),
            arrived: Condvar::new(),
            waker,
        }
    }

    /// Reserves room for one more completion. Fails only when out of memory.
    pub(crate) fn expect<R: Wait>(&self, rt: &R) -> Result<(), AllocError> {
        self.state.lock(rt).expect()
    }

    /// Puts in a completion for which there is room. Drops one that is not expected.
    pub(crate) fn put<R: Wait>(&self, rt: &R, token: CallToken, reply: T) {
        let mut state = self.state.lock(rt);
        if !state.expects() {
            return;
        }
        let sleeps = state.put(Completion { token, reply });
        drop(state);
        if sleeps {
            self.wake();
        }
    }

    /// Gives back the room of a completion that will not come.
    pub(crate) fn forgo<R: Wait>(&self, rt: &R) {
        self.state.lock(rt).forgo();
    }

    fn wake(&self) {
        match &self.waker {
            Some(waker) => {
                let _ = waker.wake();
            }
            None => self.arrived.notify_one(),
        }
    }

    /// Moves all completions to the end of `into`. Out of memory, they stay until the next call.
    pub fn take<R: Wait>(&self, rt: &R, into: &mut Vec<Completion<T>>) {
        self.state.lock(rt).take(into);
    }

    /// Returns whether nothing came since the last look, so that the owner may sleep. From then on
    /// the next completion or `nudge` wakes it.
    pub fn may_sleep<R: Wait>(&self, rt: &R) -> bool {
        self.state.lock(rt).may_sleep()
    }

    /// Wakes the owner if it sleeps, and makes it look once more before it does.
    pub fn nudge<R: Wait>(&self, rt: &R) {
        let sleeps = self.state.lock(rt).tell();
        if sleeps {
            self.wake();
        }
    }

    /// Waits for a completion and takes it. Only for a queue without a waker.
    pub fn wait<R: Wait>(&self, rt: &R) -> Option<Completion<T>> {
        let mut state = self.state.lock(rt);
        for _ in rt.forever() {
            if let Some(completion) = state.pop() {
                return Some(completion);
            }
            if state.may_sleep() {
                state = self.arrived.wait(rt, state);
            }
        }
        None
    }
}
