//! A connection: its socket and its state (`ConnectionState`), and what goes between them; called by
//! `event_loop` and `own_thread`.
ghost use Rattle.std.specs.Prelude.{◌≡◌, ◌≤◌, ◌<◌, ◌-◌, ◌↔◌, ◌⊎◌, true, false, length, take, not, IsTrue};
ghost use Rattle.std.specs.declared.alloc.Global.{Global};
ghost use Rattle.std.specs.declared.collections.VecDeque.{VecDeque};
ghost use Rattle.craq_event_loop.specs.declared.connection_state.Phase.TheVariants.{Idle, Waits};
ghost use Rattle.craq_event_loop.specs.declared.connection_state.CallRequest.{CallRequest};
ghost use Rattle.craq_event_loop.specs.Starved.{IsStarved};

use crate::backend::{LoopBackend, NewConnection};
use crate::connection_state::{Stepped, UnsentCall};
use crate::socket::{Moved, Socket};
use crate::traffic::ClientStream;
use crate::{AsyncBackend, BlockingBackend, ConnectionState, ReceiptPolicy};
use craq_seat::{CallToken, Completion, Outcome, Reach};
use mio::event::Event;
use mio::unix::SourceFd;
use mio::{Interest, Registry};
use std::alloc::Global;
use std::io;
use std::os::fd::AsRawFd;
use std::sync::Wait;

/// The number of unsent bytes below which they wait for more replies, where a whole frame may be
/// there. This project's profile.
const FEW_BYTES: usize = 1_024;

/// The most steps of a connection in its share: those of one request, and one that looks for the
/// next. So a reply behind which nothing waits is written at once. This project's profile.
pub(crate) const MOST_STEPS: usize = 3;

/// The most requests that are asked ahead behind one: with it, as many as a payload has.
const MOST_AHEAD: usize = 7;

/// The share of each busy connection in a round of its event loop.
#[derive(Clone, Copy, Debug)]
pub(crate) struct Share {
    /// The most steps that it takes.
    pub(crate) steps: usize,
    /// The part of a chain that it may run for an update.
    pub(crate) reach: Reach,
}

/// The origin of a call: the key of its connection, and the part of a chain that it may run.
#[derive(Clone, Copy, Debug)]
struct CallOrigin {
    key: usize,
    reach: Reach,
}

impl CallOrigin {
    ghost use Rattle.craq_seat.specs.declared.token.CallToken.{CallToken};

    /// Returns the token of the call under this number.
    fn token(self, call: u64) -> CallToken
        ensures { result ≡ record { connection = self.key; call = call } }
    {
        CallToken {
            connection: self.key,
            call,
        }
    }
}

/// The readiness of a connection, as far as it is known.
#[derive(Clone, Copy)]
struct Readiness {
    /// A read may give bytes, or the end.
    readable: bool,
    /// Reads go on until one gives nothing: the peer writes no more, it sent urgent data, before
    /// which a read stops short, or the stream blocks.
    until_dry: bool,
    /// A write may be taken.
    writable: bool,
}

impl Readiness {
    ghost use Rattle.craq_event_loop.specs.Readiness.{noticed};

    /// Adds the readiness that an event reports. A socket that was ready stays so.
    fn notice(&mut self, event: &Event)
        ensures { self.new ≡ noticed self.old event.now }
    {
        if event.is_readable() || event.is_read_closed() || event.is_error() {
            self.readable = true;
        }
        if event.is_read_closed() || event.is_error() || event.is_priority() {
            self.until_dry = true;
        }
        if event.is_writable() || event.is_write_closed() || event.is_error() {
            self.writable = true;
        }
    }
}

/// A connection of an event loop, or of a thread of its own.
#[derive(Drop)]
pub(crate) struct Connection<S, T> {
    stream: S,
    state: ConnectionState<T>,
    /// The number of the call that was asked last: the first call has 1, each later one the next,
    /// and after 2^64 - 1 comes 0. So a number comes again only after 2^64 calls. 0 where none was
    /// asked.
    calls: u64,
    slot: usize,
    receipts: usize,
    readiness: Readiness,
    /// The backend's seconds when its last bytes came or were taken.
    heard: u64,
    /// True where it is on the busy list.
    busy: bool,
    /// There may be a whole frame in what was read; where this is false there is none.
    more: bool,
    /// Nothing is read or written any more.
    over: bool,
    ghost unread: { more ≡ false → ∥ IsStarved state.phase state.codec.buffers.input.items ∥₁ },
}

/// Makes a stream that came non-blocking and asks for reports of its readiness under this token.
/// Fails where the system refuses either.
pub(crate) fn register(
    stream: &ClientStream,
    registry: &Registry,
    token: mio::Token,
) -> io::Result<()> {
    stream.stream.set_nonblocking(true)?;
    let _ = stream.stream.set_nodelay(true);
    let all = Interest::READABLE | Interest::WRITABLE | Interest::PRIORITY;
    registry.register(&mut SourceFd(&stream.stream.as_raw_fd()), token, all)
}

impl<S: Drop, T> Connection<S, T> {
    /// Ends the connection and returns its last state.
    pub(crate) fn into_state(self) -> ConnectionState<T>
        ensures { result ≡ self.state }
    {
        let Connection {
            stream,
            state,
            calls: _,
            slot: _,
            receipts: _,
            readiness: _,
            heard: _,
            busy: _,
            more: _,
            over: _,
        } = self;
        drop(stream);
        state
    }
}

impl<T: Drop> Connection<ClientStream, T> {
    ghost use Rattle.craq_event_loop.specs.Belonging.{CameAs, IsNew};

    /// Makes the state of a connection that came at the second `now`, with the policy for its
    /// receipts. Nothing came on it, nothing is unsent, none of its calls was asked, and its socket
    /// is taken for ready.
    pub(crate) fn new(
        alloc: Global,
        arrival: NewConnection<T>,
        policy: ReceiptPolicy,
        now: u64,
    ) -> Self
        ensures is_new { IsNew result }
        ensures arrival { CameAs arrival.stream arrival.session arrival.slot arrival.receipts result }
        ensures policy { result.state.calls.policy ≡ policy }
        ensures now { result.heard ≡ now }
    {
        let NewConnection {
            stream,
            session,
            slot,
            receipts,
        } = arrival;
        Connection {
            stream,
            state: ConnectionState::new(alloc, session, policy),
            calls: 0,
            slot,
            receipts,
            readiness: Readiness {
                readable: true,
                until_dry: false,
                writable: true,
            },
            heard: now,
            busy: false,
            more: false,
            over: false,
        }
    }
}

impl<S: Socket + Drop, T: Drop> Connection<S, T> {
    ghost use Rattle.craq_event_loop.specs.SubmittedCalls.{called_by};
    ghost use Rattle.craq_event_loop.specs.Reaching.{IsReachable};

    /// Ends the connection and hands its last state to the backend.
    pub(crate) fn close<H: LoopBackend<Session = T>>(self, registry: &Registry, backend: &H)
        requires { IsReachable H.is_new (H.tells backend.now) (H.refuses backend.now) (called_by (H.submits backend.now) (H.finishes backend.now)) (H.finishes backend.now) self.state }
    {
        let Connection {
            stream,
            state,
            calls: _,
            slot,
            receipts,
            readiness: _,
            heard: _,
            busy: _,
            more: _,
            over: _,
        } = self;
        stream.leave(registry);
        drop(stream);
        backend.ended(slot, receipts, Some(state));
    }
}

impl<S: Socket, T> Connection<S, T> {
    ghost use Rattle.craq_event_loop.specs.Advancing.{AsksAll, AsksBackend, AsksMore, HasRound, next_call, under_key};
    ghost use Rattle.craq_event_loop.specs.Belonging.{GetsCompletion, GetsCompletions, GetsOutcome, IsFirst, SendsBytes, SendsNow, ReceivesBytes, ReceivesNow, ChangesSocket, ChangesState, Reads, TakesCompletion, Writes};
    ghost use Rattle.craq_event_loop.specs.Busy.{GoesOn, IsBehind, IsDone, IsIdle, is_waiting};
    ghost use Rattle.craq_event_loop.specs.SubmittedCalls.{IsReportable, called_by};
    ghost use Rattle.craq_event_loop.specs.Readiness.{noticed};
    ghost use Rattle.craq_event_loop.specs.Sockets.{EndsAsSocket, EndsInOrder, HasSaidAll, ReadsOn, WritesOn};

    /// Adds what an event reports of its readiness.
    pub(crate) fn notice(&mut self, event: &Event)
        ensures { self.new ≡ record self.old { readiness = noticed self.old.readiness event.now } }
    {
        self.readiness.notice(event);
    }

    /// Has reads go on until one gives nothing: its stream blocks.
    pub(crate) fn read_until_dry(&mut self)
        ensures { self.new ≡ record self.old { readiness = record self.old.readiness { until_dry = true } } }
    {
        self.readiness.until_dry = true;
    }

    /// Returns whether a whole frame may be there and no call is under way.
    pub(crate) fn has_more(&self) -> bool {
        self.more && !self.waits()
    }

    /// Returns whether a call is under way: a completion will come.
    #[tactic(auto, using(crate::proofs::Serving::found_waiting))]
    fn waits(&self) -> bool
        ensures { result ≡ is_waiting self.now.state.phase }
    {
        self.state.request().is_some()
    }

    /// Returns whether it has ended and no completion will come to it.
    pub(crate) fn is_done(&self) -> bool
        ensures { IsTrue result ↔ IsDone self.now }
    {
        self.over && !self.waits()
    }

    /// Ends the connection where no byte came or was taken for more than `idle` seconds and no call
    /// is under way. Returns whether it is over.
    pub(crate) fn is_idle(&mut self, now: u64, idle: u64) -> bool
        ensures left { IsTrue result ↔ IsIdle now idle self.old }
        ensures over { self.new ≡ record self.old { over = result } }
    {
        if !self.waits() && now.saturating_sub(self.heard) > idle {
            self.over = true;
        }
        self.over
    }

    /// Marks it as busy. Returns whether it was not busy before.
    pub(crate) fn is_newly_busy(&mut self) -> bool
        ensures marked { self.new ≡ record self.old { busy = true } }
        ensures was_not { result ≡ not self.old.busy }
    {
        let is_new = !self.busy;
        self.busy = true;
        is_new
    }

    /// Marks it after its share of a round: busy where it has work left of which no event and no
    /// completion will report. Returns the mark.
    pub(crate) fn stays_busy(&mut self) -> bool
        ensures marked { self.new ≡ record self.old { busy = result } }
        ensures behind { IsTrue result ↔ IsBehind self.old }
    {
        self.busy = self.is_behind();
        self.busy
    }

    /// Returns whether it has work left of which no event and no completion will report.
    pub(crate) fn is_behind(&self) -> bool
        ensures { IsTrue result ↔ IsBehind self.now }
    {
        if self.over {
            !self.waits()
        } else if !self.state.unsent().is_empty() {
            self.readiness.writable
        } else {
            !self.waits() && (self.more || self.readiness.readable)
        }
    }

    /// Returns whether a read is worth a try: no request is under way and nothing is unsent.
    fn may_read(&self) -> bool
        ensures { IsTrue result → self.now.state.phase ≡ Idle }
    {
        !self.over
            && !self.more
            && self.readiness.readable
            && self.state.unsent().is_empty()
            && self.state.listens()
    }

    /// Takes bytes that came.
    #[tactic(auto, using(crate::proofs::Belonging::heard_waits))]
    fn take_bytes(&mut self, alloc: Global, bytes: &[u8], now: u64)
        requires { self.old.state.phase ≡ Idle }
        ensures receives { ReceivesBytes bytes.now self.old.state self.new.state }
        ensures rest { ChangesState (record self.old { heard = now }) self.new }
    {
        self.more = true;
        self.heard = now;
        // Out of memory the state is over, as `give` sees.
        let _ = self.state.receive(alloc, bytes);
    }

    /// Returns whether no more bytes are there: a read gave `count` bytes where `room` was, so it
    /// came short, and reads need not go on until one gives nothing.
    fn is_drained(&self, count: usize, room: usize) -> bool
        ensures { IsTrue result ↔ ((count < room) × (self.now.readiness.until_dry ≡ false)) }
    {
        count < room && !self.readiness.until_dry
    }

    /// Reads once and takes the bytes that came.
    #[tactic(auto, using(crate::proofs::Belonging::nothing_came, crate::proofs::Ending::is_as_before, crate::proofs::Ending::ended, crate::proofs::Ending::reads_as_before, crate::proofs::Ending::dried, crate::proofs::Ending::reads_until_short, crate::proofs::Belonging::heard_now, crate::proofs::Belonging::not_heard))]
    fn take(&mut self, alloc: Global, chunk: &mut [u8], now: u64)
        requires { self.old.state.phase ≡ Idle }
        ensures reads { Reads (S.remaining self.old.stream) (S.remaining self.new.stream) self.old.state self.new.state }
        ensures contents { S.contents self.new.stream ≡ S.contents self.old.stream }
        ensures over { EndsAsSocket S.is_over self.old self.new }
        ensures ready { ReadsOn S.is_dry self.old self.new }
        ensures heard { ReceivesNow now self.old self.new }
        ensures rest { ChangesSocket self.old self.new }
    {
        match self.stream.take(chunk) {
            Moved::Bytes(count) => {
                self.readiness.readable = !self.is_drained(count, chunk.len());
                self.take_bytes(alloc, &chunk[..count], now);
            }
            Moved::NotReady => self.readiness.readable = false,
            Moved::Interrupted => {}
            Moved::Over => self.over = true,
        }
    }

    /// Reads once, where no request is under way and nothing is unsent. What its socket gave, and
    /// no other byte, goes to its state. Where its call is under way nothing is read, and its state
    /// is unchanged. It is over only if it was, or its socket is.
    #[tactic(auto, using(crate::proofs::Belonging::nothing_read, crate::proofs::Ending::is_as_before, crate::proofs::Ending::reads_as_before, crate::proofs::Belonging::not_heard))]
    pub(crate) fn read(&mut self, alloc: Global, chunk: &mut [u8], now: u64)
        ensures waits { (q : CallRequest) (later : VecDeque CallRequest Global) → self.old.state.phase ≡ Waits q later → self.new.state ≡ self.old.state }
        ensures reads { Reads (S.remaining self.old.stream) (S.remaining self.new.stream) self.old.state self.new.state }
        ensures contents { S.contents self.new.stream ≡ S.contents self.old.stream }
        ensures over { EndsAsSocket S.is_over self.old self.new }
        ensures ready { ReadsOn S.is_dry self.old self.new }
        ensures heard { ReceivesNow now self.old self.new }
        ensures rest { ChangesSocket self.old self.new }
    {
        if self.may_read() {
            self.take(alloc, chunk, now);
        }
    }

    /// Drops the first `count` unsent bytes, which were taken.
    fn given(&mut self, count: usize, now: u64)
        requires { count ≤ length self.old.state.codec.buffers.output.items }
        ensures sends { SendsBytes (take count self.old.state.codec.buffers.output.items) self.old.state self.new.state }
        ensures rest { ChangesState (record self.old { heard = now }) self.new }
    {
        self.heard = now;
        self.state.wrote(count);
    }

    /// Returns whether more replies will soon be written together with the few that are unsent: a
    /// whole frame may be there, and no call is under way.
    fn goes_on(&self) -> bool
        ensures { IsTrue result ↔ GoesOn self.now }
    {
        self.more
            && self.state.unsent().len() < FEW_BYTES
            && self.state.ending().is_none()
            && !self.waits()
    }

    /// Writes unsent bytes once, unless more replies follow them in the next rounds. Only the bytes
    /// that its socket took count as written.
    #[tactic(auto, using(crate::proofs::Belonging::nothing_written, crate::proofs::Belonging::nothing_went, crate::proofs::Ending::is_as_before, crate::proofs::Ending::ended, crate::proofs::Ending::writes_as_before, crate::proofs::Ending::filled, crate::proofs::Belonging::gave_now, crate::proofs::Belonging::not_gave))]
    fn write(&mut self, now: u64)
        ensures writes { Writes (S.contents self.old.stream) (S.contents self.new.stream) self.old.state self.new.state }
        ensures remaining { S.remaining self.new.stream ≡ S.remaining self.old.stream }
        ensures over { EndsAsSocket S.is_over self.old self.new }
        ensures ready { WritesOn S.is_full self.old self.new }
        ensures heard { SendsNow now self.old self.new }
        ensures rest { ChangesSocket self.old self.new }
    {
        if self.over || !self.readiness.writable || self.state.unsent().is_empty() {
            return;
        }
        if self.goes_on() {
            return;
        }
        match self.stream.put(self.state.unsent()) {
            Moved::Bytes(count) => self.given(count, now),
            Moved::NotReady => self.readiness.writable = false,
            Moved::Interrupted => {}
            Moved::Over => self.over = true,
        }
    }

    /// Takes the outcome of the first call that is under way.
    fn answer<H: AsyncBackend>(&mut self, alloc: Global, backend: &H, outcome: Outcome)
        requires { IsReportable outcome }
        ensures reported { GetsOutcome outcome self.old.state self.new.state }
        ensures session { self.new.state.session ≡ self.old.state.session }
        ensures rest { ChangesState self.old self.new }
    {
        if let Err(refusal) = &outcome {
            backend.refused(self.slot, *refusal);
        }
        self.state.answer(alloc, outcome);
    }

    /// Returns whether the first call that is under way was asked under this number.
    fn is_first(&self, call: u64) -> bool
        ensures { IsTrue result ↔ IsFirst call self.now }
    {
        call.wrapping_add(self.state.count_later() as u64) == self.calls
    }

    /// Has its session finish the first call that is under way by this reply.
    #[tactic(auto, using(crate::proofs::Advancing::came_by_completion))]
    fn finish<H: AsyncBackend<Session = T>>(&mut self, alloc: Global, backend: &H, reply: H::Reply)
        ensures completes { GetsCompletion (H.finishes backend.now) reply self.old.state self.new.state }
        ensures rest { ChangesState self.old self.new }
    {
        let outcome = self.state.finish(backend, reply);
        self.answer(alloc, backend, outcome);
    }

    /// Finishes the calls in front whose replies came before their turn.
    #[tactic(auto, using(crate::proofs::Advancing::none_completed, crate::proofs::Advancing::one_completed))]
    fn finish_kept<H: AsyncBackend<Session = T>>(&mut self, alloc: Global, backend: &H)
        ensures completes { GetsCompletions (H.finishes backend.now) self.old.state self.new.state }
        ensures rest { ChangesState self.old self.new }
    {
        for _kept in 0..self.state.count_later().saturating_add(1) {
            let first = self.calls.wrapping_sub(self.state.count_later() as u64);
            let Some(reply) = self.state.take_kept(backend, first) else {
                return;
            };
            self.finish(alloc, backend, reply);
        }
    }

    /// Takes a completion. Where it is of the first call that is under way, the session finishes
    /// that call by this reply, and then those behind it whose replies came before. A reply to a
    /// later call is kept until its turn. Another number is ignored: none comes.
    #[tactic(auto, using(crate::proofs::Advancing::takes_first, crate::proofs::Advancing::takes_another))]
    pub(crate) fn take_reply<H: AsyncBackend<Session = T>>(
        &mut self,
        alloc: Global,
        backend: &H,
        call: u64,
        reply: H::Reply,
    )
        ensures { TakesCompletion (H.finishes backend.now) call reply self.old self.new }
    {
        if self.is_first(call) {
            self.finish(alloc, backend, reply);
            self.finish_kept(alloc, backend);
        } else if self.calls.wrapping_sub(call) < self.state.count_later() as u64 {
            self.state.keep(backend, call, reply);
        } else {
            drop(reply);
        }
    }

    /// Waits for the completions of the calls that are under way, and takes them. None is under way
    /// afterwards.
    #[tactic(auto, using(crate::proofs::Advancing::none_completed, crate::proofs::Advancing::takes_completions, crate::proofs::Advancing::then_completed))]
    pub(crate) fn complete<R: Wait, B: BlockingBackend<Session = T>>(
        &mut self,
        rt: &R,
        alloc: Global,
        backend: &B,
    )
        ensures completes { GetsCompletions (B.finishes backend.now) self.old.state self.new.state }
        ensures rests { is_waiting self.new.state.phase ≡ false }
        ensures rest { ChangesState self.old self.new }
    {
        for _ in rt.forever() {
            if !self.waits() {
                return;
            }
            let Completion { token, reply } = backend.wait();
            self.take_reply(alloc, backend, token.call, reply);
        }
    }

    /// Makes the call of a step, under its connection's key and the number after that of the last
    /// call. An outcome at once goes to its state.
    #[tactic(auto, using(crate::proofs::Advancing::nothing_came, crate::proofs::Advancing::came_at_once))]
    fn submit<H: AsyncBackend<Session = T>>(
        &mut self,
        alloc: Global,
        backend: &H,
        unsent: UnsentCall,
        origin: CallOrigin,
    )
        ensures asked { AsksBackend (H.refuses backend.now) (under_key (called_by (H.submits backend.now) (H.finishes backend.now)) origin.key (next_call self.old.calls)) self.old.state.phase self.old.state self.new.state }
        ensures rest { ChangesState (record self.old { calls = next_call self.old.calls }) self.new }
    {
        self.calls = self.calls.wrapping_add(1);
        let token = origin.token(self.calls);
        if let Some(outcome) = self.state.ask(unsent, backend, token, origin.reach) {
            self.answer(alloc, backend, outcome);
        }
    }

    /// Asks the requests behind the one that is under way ahead, as many as go along with it, each
    /// under the next number.
    #[tactic(auto, using(crate::proofs::Advancing::none_ahead, crate::proofs::Advancing::one_ahead, crate::proofs::Advancing::no_more_ahead))]
    fn ask_ahead<H: AsyncBackend<Session = T>>(&mut self, backend: &H, origin: CallOrigin)
        ensures asked { AsksMore (H.refuses backend.now) (under_key (called_by (H.submits backend.now) (H.finishes backend.now)) origin.key) self.old.state self.old.calls self.new.state self.new.calls }
        ensures rest { ChangesState (record self.old { calls = self.new.calls }) self.new }
    {
        for _ahead in 0..MOST_AHEAD {
            let call = self.calls.wrapping_add(1);
            if !self
                .state
                .ask_ahead(backend, origin.token(call), origin.reach)
            {
                return;
            }
            self.calls = call;
        }
    }

    /// Makes the call of a step, and asks the requests behind it ahead.
    fn call<H: AsyncBackend<Session = T>>(
        &mut self,
        alloc: Global,
        backend: &H,
        unsent: UnsentCall,
        origin: CallOrigin,
    )
        ensures asked { AsksAll (H.refuses backend.now) (under_key (called_by (H.submits backend.now) (H.finishes backend.now)) origin.key) self.old.state self.old.calls self.new.state self.new.calls }
        ensures rest { ChangesState (record self.old { calls = self.new.calls }) self.new }
    {
        self.submit(alloc, backend, unsent, origin);
        self.ask_ahead(backend, origin);
    }

    /// Takes steps until one finds nothing to do, or as many as its share of the round has. Its
    /// calls are asked under this key, each under the next number. A connection that is over takes
    /// no step.
    #[tactic(auto, using(crate::proofs::Advancing::none_taken, crate::proofs::Advancing::went, crate::proofs::Advancing::called_all, crate::proofs::Advancing::calls_then, crate::proofs::Advancing::starved, crate::proofs::Advancing::stayed, crate::proofs::Starved::step_still, crate::proofs::Starved::step_starved))]
    pub(crate) fn advance<H: AsyncBackend<Session = T>>(
        &mut self,
        alloc: Global,
        backend: &H,
        key: usize,
        share: Share,
    )
        ensures round { HasRound share.steps (H.tells backend.now) (H.refuses backend.now) (under_key (called_by (H.submits backend.now) (H.finishes backend.now)) key) self.old.over self.old.state self.old.calls self.new.state self.new.calls }
        ensures rest { ChangesState (record self.old { calls = self.new.calls }) self.new }
    {
        if self.over {
            return;
        }
        let origin = CallOrigin {
            key,
            reach: share.reach,
        };
        for _step in 0..share.steps {
            match self.state.step(alloc, backend) {
                Stepped::Goes => {}
                Stepped::Calls(unsent) => self.call(alloc, backend, unsent, origin),
                Stepped::Starved => {
                    self.more = false;
                    return;
                }
                Stepped::Stays => return,
            }
        }
    }

    /// Returns whether its state is over and nothing is unsent.
    fn has_said_all(&self) -> bool
        ensures { IsTrue result ↔ HasSaidAll self.now.state }
    {
        self.state.ending().is_some() && self.state.unsent().is_empty()
    }

    /// Writes unsent bytes. It is over where its state is and these were the last.
    pub(crate) fn give(&mut self, now: u64)
        ensures writes { Writes (S.contents self.old.stream) (S.contents self.new.stream) self.old.state self.new.state }
        ensures remaining { S.remaining self.new.stream ≡ S.remaining self.old.stream }
        ensures over { EndsInOrder S.is_over self.old self.new }
        ensures ready { WritesOn S.is_full self.old self.new }
        ensures heard { SendsNow now self.old self.new }
        ensures rest { ChangesSocket self.old self.new }
    {
        self.write(now);
        if self.has_said_all() {
            self.over = true;
        }
    }
}
