//! `EventLoop`: an event loop. It takes what came, steps each connection that is busy, and sleeps
//! where none is.
ghost use Rattle.std.specs.Prelude.{◌≡◌, ◌≢◌, ◌⊎◌, ◌<◌, ◌≤◌, ◌↔◌, ◌++◌, ℕ, Bool, [], ◌∷◌, Some, None, IfOk, OnErr, OnOk, IsTrue, drop, false, filter, max, nat_lt, option_map, take, if◌then◌else◌};
ghost use Rattle.std.specs.Duration.{as_nanos};
ghost use Rattle.std.specs.VecDeque.{deque_capacity, deque_len};
ghost use Rattle.mio.specs.Events.{items};
ghost use Rattle.slab.specs.Slab.{get, slab_len};
ghost use Rattle.craq_event_loop.specs.SubmittedCalls.{called_by};
ghost use Rattle.craq_event_loop.specs.declared.connection.Connection.{Connection};
ghost use Rattle.craq_event_loop.specs.Advancing.{HasRoundAt, TakeRounds, most_steps};
ghost use Rattle.craq_event_loop.specs.Belonging.{Delivers, DeliversAll, DeliversBrought, OneByOne, OthersStay, StaysVacant, Wakes};
ghost use Rattle.craq_event_loop.specs.Busy.{HasNone, ListsMarked, LooksAgain, MarksJustBehind, NoneBehind, NoneForgotten, Rests, is_marked, longest_wait, with_key};
ghost use Rattle.craq_event_loop.specs.Coming.{AllReported, ChangesRoom, EndsIdle, ClosesIfIdle, LooksAt, NoticesAt, PresentStay, TakesIn, TellsOf};
ghost use Rattle.craq_event_loop.specs.Reaching.{AreReachable, StayReachable};
ghost use Rattle.craq_event_loop.specs.Rounds.{MoveUp, left_after};
ghost use Rattle.craq_event_loop.specs.Serving.{ReadsAt, Serves, WritesAt};

use crate::ReceiptPolicy;
use crate::backend::{LoopBackend, NewConnection};
use crate::connection::{Connection, MOST_STEPS, Share, register};
use crate::socket::Socket;
use crate::traffic::ClientStream;
use craq_seat::{Completion, Reach};
use mio::event::{Event, Events};
use mio::{Poll, Registry, Token, Waker};
use slab::Slab;
use std::alloc::{AllocError, Global};
use std::collections::VecDeque;
use std::net::Net;
use std::sync::Wait;
use std::time::Duration;

/// The token under which the event loop is woken.
const WAKER: Token = Token(usize::MAX);

/// The most bytes of one read of a connection.
const CHUNK_SIZE: usize = 65_536;

/// The most connections whose readiness is reported at once.
const MOST_EVENTS: usize = 256;

/// The most connections with which the event loop looks for work before it sleeps.
const MOST_POLLED: usize = 2;

/// The most busy connections whose updates the event loop takes through the chain itself.
const LIGHT_LOAD: usize = 4;

/// The number of looks for work of an event loop with few connections before it sleeps: some 60
/// microseconds.
const MOST_LOOKS: u32 = 200;

/// Returns the share of each connection, where this number of them have news or work left: 3 steps,
/// and a request takes 2. So a connection that sends many requests at once holds up the others
/// hardly longer than one that waits for each reply.
fn share_of(busy: usize) -> Share
    ensures { result.steps ≡ most_steps }
{
    let reach = match busy {
        0 | 1 => Reach::WholeChain,
        _ if busy <= LIGHT_LOAD => Reach::WholeChainLater,
        _ => Reach::OneNode,
    };
    Share {
        steps: MOST_STEPS,
        reach,
    }
}

/// Takes the share of the connection under a key in a round. Its calls are asked under this key,
/// each under the next number. No other connection changes; none does where none is under the key.
fn advance_at<S: Socket, H: LoopBackend>(
    alloc: Global,
    connections: &mut Slab<Connection<S, H::Session>>,
    backend: &H,
    key: usize,
    share: Share,
)
    ensures run_once { HasRoundAt share.steps (H.tells backend.now) (H.refuses backend.now) (called_by (H.submits backend.now) (H.finishes backend.now)) connections.old connections.new key }
    ensures vacant { StaysVacant connections.old connections.new key }
    ensures others { OthersStay connections.old connections.new key }
{
    let Some(connection) = connections.get_mut(key) else {
        return;
    };
    connection.advance(alloc, backend, key, share);
}

/// Adds what an event reports of the connection under a key. No other connection changes; none does
/// where none is under the key.
fn notice_at<S: Socket, T>(connections: &mut Slab<Connection<S, T>>, key: usize, event: &Event)
    ensures reported { NoticesAt event.now connections.old connections.new key }
    ensures vacant { StaysVacant connections.old connections.new key }
    ensures others { OthersStay connections.old connections.new key }
{
    if let Some(connection) = connections.get_mut(key) {
        connection.notice(event);
    }
}

/// Ends the connection under a key where it was left idle. Returns whether it is over. No other
/// connection changes; none does where none is under the key.
fn close_if_idle<S: Socket, T>(
    connections: &mut Slab<Connection<S, T>>,
    key: usize,
    now: u64,
    idle: u64,
) -> bool
    ensures ends { LooksAt now idle result connections.old connections.new key }
    ensures none { get connections.old key ≡ None → result ≡ false }
    ensures vacant { StaysVacant connections.old connections.new key }
    ensures others { OthersStay connections.old connections.new key }
{
    let Some(connection) = connections.get_mut(key) else {
        return false;
    };
    connection.is_idle(now, idle)
}

/// Reads for the connection under a key. No other connection changes; none does where none is under
/// the key.
fn read_at<S: Socket, T>(
    alloc: Global,
    connections: &mut Slab<Connection<S, T>>,
    key: usize,
    chunk: &mut [u8],
    now: u64,
)
    ensures reads { ReadsAt S.remaining S.contents S.is_over S.is_dry S.is_full connections.old connections.new key }
    ensures vacant { StaysVacant connections.old connections.new key }
    ensures others { OthersStay connections.old connections.new key }
{
    let Some(connection) = connections.get_mut(key) else {
        return;
    };
    connection.read(alloc, chunk, now);
}

/// Writes for the connection under a key, and removes it exactly where it is done. No other
/// connection changes; none does where none is under the key. Returns whether it is still there and
/// has work left of which no event and no completion will report.
fn give_at<S: Socket + Drop, H: LoopBackend>(
    connections: &mut Slab<Connection<S, H::Session>>,
    registry: &Registry,
    backend: &H,
    key: usize,
    now: u64,
) -> bool
    requires { AreReachable H.is_new (H.tells backend.now) (H.refuses backend.now) (called_by (H.submits backend.now) (H.finishes backend.now)) (H.finishes backend.now) connections.old }
    ensures writes { WritesAt S.remaining S.contents S.is_over S.is_dry S.is_full connections.old connections.new key }
    ensures vacant { StaysVacant connections.old connections.new key }
    ensures others { OthersStay connections.old connections.new key }
    ensures tells { result ≡ is_marked (get connections.new key) }
{
    let Some(connection) = connections.get_mut(key) else {
        return false;
    };
    connection.give(now);
    if !connection.is_done() {
        return connection.stays_busy();
    }
    if let Some(ended) = connections.try_remove(key) {
        ended.close(registry, backend);
    }
    false
}

/// The settings of an event loop.
#[derive(Clone, Copy, Debug)]
pub struct LoopSettings {
    /// The fate of the receipts of calls.
    pub receipts: ReceiptPolicy,
    /// The seconds without a byte after which a connection is over; 0 for never.
    pub idle: u32,
    /// The most connections with work left that are served between two looks for news; 0 counts
    /// as 1. With a larger number, clients that send many requests at once cost fewer looks. A
    /// client that waits for each reply then waits longer.
    pub shares: usize,
}

impl LoopSettings {
    /// Returns the most connections with work left that a round serves: at least 1.
    fn shares(&self) -> usize
        ensures { result ≡ max 1 self.now.shares }
    {
        self.shares.max(1)
    }
}

/// The connections of an event loop.
#[derive(Drop)]
struct LoopConnections<S, T, P: Drop> {
    alloc: Global,
    connections: Slab<Connection<S, T>>,
    /// The connections with news, each once. A round serves all of them.
    busy: Vec<usize>,
    /// Those that have work left after their share, each once: the first has waited longest. A
    /// round serves the first ones.
    behind: VecDeque<usize>,
    /// The completions that came.
    completions: Vec<Completion<P>>,
    /// The buffer of one read.
    chunk: Vec<u8>,
    /// The fate of the receipts of calls.
    policy: ReceiptPolicy,
    /// The seconds without a byte after which a connection is over; 0 for never.
    idle: u64,
    /// The backend's seconds as the turn began, where they matter.
    now: u64,
    /// The number of turns that began since a connection was last busy.
    looks: u32,
}

impl<S: Socket + Drop, T: Drop, P: Drop> LoopConnections<S, T, P> {
    /// Makes the list of an event loop, without connections, with this buffer for reads. Takes no
    /// memory.
    fn new(alloc: Global, chunk: Vec<u8>, settings: &LoopSettings) -> Self
        ensures kept { NoneForgotten result }
        ensures none { HasNone result }
        ensures policy { result.policy ≡ settings.now.receipts }
        ensures idle { result.idle ≡ settings.now.idle }
    {
        LoopConnections {
            alloc,
            connections: Slab::new(alloc),
            busy: Vec::new(alloc),
            behind: VecDeque::new(alloc),
            completions: Vec::new(alloc),
            chunk,
            policy: settings.receipts,
            idle: u64::from(settings.idle),
            now: 0,
            looks: 0,
        }
    }

    /// Marks a connection as busy: appends its key to the busy list where the list did not name it.
    /// The list is unchanged where none is under the key.
    fn wake(&mut self, key: usize)
        ensures listed { ListsMarked self.old.connections self.old.busy self.old.behind → ListsMarked self.new.connections self.new.busy self.new.behind }
        ensures busy { ListsMarked self.old.connections self.old.busy self.old.behind
            → self.new.busy.items ≡ with_key self.old.busy.items key (get self.old.connections key) }
        ensures behind { self.new.behind ≡ self.old.behind }
        ensures completions { self.new.completions.items ≡ self.old.completions.items }
        ensures idle { self.new.idle ≡ self.old.idle }
        ensures wakes { Wakes self.old.connections self.new.connections key }
        ensures vacant { StaysVacant self.old.connections self.new.connections key }
        ensures others { OthersStay self.old.connections self.new.connections key }
    {
        self.looks = 0;
        if let Some(connection) = self.connections.get_mut(key) {
            // There is room for the key of each connection.
            if connection.is_newly_busy() {
                let _ = self.busy.push(key);
            }
        }
    }

    /// Takes the completions that the backend brought, and delivers each, in their order.
    fn take_completions<H: LoopBackend<Session = T, Reply = P>>(&mut self, backend: &H)
        ensures kept { NoneForgotten self.old → NoneForgotten self.new }
        ensures delivered { DeliversBrought (H.finishes backend.now) (H.brings backend.now self.old.completions.items) self.old.connections self.new.connections }
        ensures behind { self.new.behind ≡ self.old.behind }
        ensures none_left { self.new.completions.items ≡ [] }
    {
        backend.take_completions(&mut self.completions);
        self.completions.reverse();
        self.deliver_all(backend);
    }

    /// Delivers each completion, the last one first. None is left.
    fn deliver_all<H: LoopBackend<Session = T, Reply = P>>(&mut self, backend: &H)
        ensures kept { NoneForgotten self.old → NoneForgotten self.new }
        ensures delivered { DeliversAll (H.finishes backend.now) self.old.completions.items self.old.connections self.new.connections }
        ensures behind { self.new.behind ≡ self.old.behind }
        ensures none_left { self.new.completions.items ≡ [] }
    {
        for _completion in 0..self.completions.len() {
            let Some(completion) = self.completions.pop() else {
                break;
            };
            self.deliver(backend, completion);
        }
    }

    /// Delivers a completion. Where it has the number of the call that its connection asked last,
    /// it is that call's outcome. No other connection changes; none does where it has gone.
    fn deliver<H: LoopBackend<Session = T, Reply = P>>(
        &mut self,
        backend: &H,
        completion: Completion<P>,
    )
        ensures kept { NoneForgotten self.old → NoneForgotten self.new }
        ensures behind { self.new.behind ≡ self.old.behind }
        ensures completions { self.new.completions.items ≡ self.old.completions.items }
        ensures reported { Delivers (H.finishes backend.now) self.old.connections self.new.connections completion.token completion.reply }
        ensures vacant { StaysVacant self.old.connections self.new.connections completion.token.connection }
        ensures others { OthersStay self.old.connections self.new.connections completion.token.connection }
    {
        let Completion { token, reply } = completion;
        let key = token.connection;
        let Some(addressee) = self.connections.get_mut(key) else {
            drop(reply);
            return;
        };
        addressee.take_reply(self.alloc, backend, token.call, reply);
        self.wake(key);
    }

    /// Adds what events report of readiness.
    fn notice(&mut self, events: &Events)
        ensures kept { NoneForgotten self.old → NoneForgotten self.new }
        ensures reported { AllReported (items events.now) self.old.connections self.new.connections }
    {
        for event in events.iter() {
            self.notice_event(event);
        }
    }

    /// Adds what an event reports of the connection under its token's key, which is then busy. No
    /// other connection changes; none does where it has gone.
    fn notice_event(&mut self, event: &Event)
        ensures kept { NoneForgotten self.old → NoneForgotten self.new }
        ensures reported { TellsOf event.now self.old.connections self.new.connections }
    {
        let Token(key) = event.token();
        notice_at(&mut self.connections, key, event);
        self.wake(key);
    }

    /// Reads for the busy connections: each under its own key, one after another, and no other
    /// connection changes.
    fn read_all(&mut self)
        ensures reads { OneByOne (ReadsAt S.remaining S.contents S.is_over S.is_dry S.is_full) self.old.busy.items self.old.connections self.new.connections }
        ensures busy { self.new.busy ≡ self.old.busy }
        ensures behind { self.new.behind ≡ self.old.behind }
    {
        for key in self.busy.iter() {
            read_at(
                self.alloc,
                &mut self.connections,
                *key,
                self.chunk.as_mut_slice(),
                self.now,
            );
        }
    }

    /// Takes the share of each busy connection, in which its calls are asked under its own key,
    /// each under the next of its numbers. No other connection changes.
    fn advance_all<H: LoopBackend<Session = T>>(&mut self, backend: &H)
        ensures rounds { TakeRounds (H.tells backend.now) (H.refuses backend.now) (called_by (H.submits backend.now) (H.finishes backend.now)) self.old.busy.items self.old.connections self.new.connections }
        ensures busy { self.new.busy ≡ self.old.busy }
        ensures behind { self.new.behind ≡ self.old.behind }
    {
        let share = share_of(self.busy.len().saturating_add(self.behind.len()));
        for key in self.busy.iter() {
            advance_at(self.alloc, &mut self.connections, backend, *key, share);
        }
    }

    /// Writes for the busy connections, one after another, and no other connection changes. Each is
    /// removed exactly where it is done. Those that are still there and have work left then wait
    /// behind those that waited before, and no connection is busy.
    fn give_all<H: LoopBackend<Session = T>>(&mut self, registry: &Registry, backend: &H)
        requires { AreReachable H.is_new (H.tells backend.now) (H.refuses backend.now) (called_by (H.submits backend.now) (H.finishes backend.now)) (H.finishes backend.now) self.old.connections }
        ensures writes { OneByOne (WritesAt S.remaining S.contents S.is_over S.is_dry S.is_full) self.old.busy.items self.old.connections self.new.connections }
        ensures listed { ListsMarked self.old.connections self.old.busy self.old.behind → ListsMarked self.new.connections self.new.busy self.new.behind }
        ensures behind { ListsMarked self.old.connections self.old.busy self.old.behind
            → self.new.behind.items ≡ self.old.behind.items ++ filter (λ key. is_marked (get self.new.connections key)) self.old.busy.items }
        ensures none_busy { self.new.busy.items ≡ [] }
    {
        for key in self.busy.iter() {
            if give_at(&mut self.connections, registry, backend, *key, self.now) {
                // There is room for the key of each connection.
                let _ = self.behind.push_back(*key);
            }
        }
        self.busy.clear();
    }

    /// Serves each busy connection once. All are read before the first takes its steps, and all
    /// have taken them before the first is written to: so a processor does one kind of work for a
    /// while, and the updates of few connections go through the chain together. Exactly those that
    /// are behind then wait, after those that waited before; and no connection is busy.
    fn step_all<H: LoopBackend<Session = T>>(&mut self, registry: &Registry, backend: &H)
        requires { AreReachable H.is_new (H.tells backend.now) (H.refuses backend.now) (called_by (H.submits backend.now) (H.finishes backend.now)) (H.finishes backend.now) self.old.connections }
        ensures kept { NoneForgotten self.old → NoneForgotten self.new }
        ensures marks { MarksJustBehind self.new.connections self.old.busy.items }
        ensures behind { NoneForgotten self.old → self.new.behind.items ≡ self.old.behind.items ++ filter (λ key. is_marked (get self.new.connections key)) self.old.busy.items }
        ensures none_busy { self.new.busy.items ≡ [] }
        ensures serves { Serves S.remaining S.contents S.is_over S.is_dry S.is_full (H.tells backend.now) (H.refuses backend.now) (called_by (H.submits backend.now) (H.finishes backend.now)) self.old.busy.items self.old.connections self.new.connections }
    {
        self.read_all();
        self.advance_all(backend);
        backend.run_queued();
        self.give_all(registry, backend);
    }

    /// Makes this number of connections busy, those that have waited longest for their next share.
    /// They wait no longer.
    fn resume(&mut self, shares: usize)
        ensures kept { NoneForgotten self.old → NoneForgotten self.new }
        ensures busy { NoneForgotten self.old → self.new.busy.items ≡ self.old.busy.items ++ take shares self.old.behind.items }
        ensures behind { self.new.behind.items ≡ drop shares self.old.behind.items }
        ensures connections { self.new.connections ≡ self.old.connections }
    {
        for _share in 0..shares {
            let Some(key) = self.behind.pop_front() else {
                break;
            };
            // There is room for the key of each connection.
            let _ = self.busy.push(key);
        }
    }

    /// Serves this number of connections once, those that have waited longest for their next share.
    /// Each waits again, after the others, exactly if it is behind.
    fn go_on<H: LoopBackend<Session = T>>(
        &mut self,
        registry: &Registry,
        backend: &H,
        shares: usize,
    )
        requires idle { self.old.busy.items ≡ [] }
        requires kept { NoneForgotten self.old }
        requires reachable { AreReachable H.is_new (H.tells backend.now) (H.refuses backend.now) (called_by (H.submits backend.now) (H.finishes backend.now)) (H.finishes backend.now) self.old.connections }
        ensures kept { NoneForgotten self.new }
        ensures marks { MarksJustBehind self.new.connections (take shares self.old.behind.items) }
        ensures behind { self.new.behind.items ≡ left_after shares (λ key. is_marked (get self.new.connections key)) self.old.behind.items }
        ensures none_busy { self.new.busy.items ≡ [] }
        ensures serves { Serves S.remaining S.contents S.is_over S.is_dry S.is_full (H.tells backend.now) (H.refuses backend.now) (called_by (H.submits backend.now) (H.finishes backend.now)) (take shares self.old.behind.items) self.old.connections self.new.connections }
    {
        self.resume(shares);
        self.step_all(registry, backend);
    }

    /// Ends the connections that were left idle, once a second; each is then busy, to be removed.
    /// No other one changes.
    fn look_for_idle(&mut self, now: u64)
        ensures kept { NoneForgotten self.old → NoneForgotten self.new }
        ensures behind { self.new.behind ≡ self.old.behind }
        ensures ends { now ≢ self.old.now → EndsIdle now self.old.idle self.old.connections self.new.connections }
        ensures else_stays { now ≡ self.old.now → self.new ≡ self.old }
    {
        if now == self.now {
            return;
        }
        self.now = now;
        for key in 0..self.connections.capacity() {
            self.end_idle(key, now);
        }
    }

    /// Ends the connection under a key where it was left idle; it is then busy, to be removed. No
    /// other connection changes.
    fn end_idle(&mut self, key: usize, now: u64)
        ensures kept { NoneForgotten self.old → NoneForgotten self.new }
        ensures behind { self.new.behind ≡ self.old.behind }
        ensures ends { ClosesIfIdle now self.old.idle (get self.old.connections key) (get self.new.connections key) }
        ensures others { OthersStay self.old.connections self.new.connections key }
        ensures idle { self.new.idle ≡ self.old.idle }
    {
        if close_if_idle(&mut self.connections, key, now, self.idle) {
            self.wake(key);
        }
    }

    /// Returns whether it looks again soon: a client alone asks again as soon as it was answered,
    /// and a thread that sleeps takes longer to wake than that.
    fn looks_again(&self) -> bool
        ensures { IsTrue result ↔ LooksAgain self.entry.now }
    {
        self.connections.len() <= MOST_POLLED && self.looks < MOST_LOOKS
    }

    /// Returns whether no connection has news or work left.
    fn rests(&self) -> bool
        ensures { IsTrue result ↔ Rests self.entry.now }
    {
        self.busy.is_empty() && self.behind.is_empty()
    }

    /// Returns how long to wait for readiness: not at all exactly where work is left, may come soon
    /// or came meanwhile, and else at most a second where idle connections are looked for. So where
    /// it waits at all, no connection has work left of which no event and no completion will
    /// report.
    fn pause<H: LoopBackend>(&self, backend: &H) -> Option<Duration>
        requires { NoneForgotten self.now }
        ensures behind { (option_map as_nanos result ≡ Some 0) ⊎ NoneBehind self.entry.now.connections }
        ensures busy { ¬ (Rests self.entry.now) → option_map as_nanos result ≡ Some 0 }
        ensures looks { LooksAgain self.entry.now → option_map as_nanos result ≡ Some 0 }
        ensures else_as_reported { Rests self.entry.now → ¬ (LooksAgain self.entry.now)
            → (may : Bool) × H.lets_sleep backend.now may × (option_map as_nanos result ≡ (if may then longest_wait self.entry.now.idle else Some 0)) }
    {
        if !self.rests() || self.looks_again() {
            return Some(Duration::from_millis(0));
        }
        if !backend.may_sleep() {
            Some(Duration::from_millis(0))
        } else if self.idle > 0 {
            Some(Duration::from_millis(1_000))
        } else {
            None
        }
    }
}

impl<T: Drop, P: Drop> LoopConnections<ClientStream, T, P> {
    /// Takes a connection in, with room for its key in both lists. It is busy, to be read. Fails
    /// when out of memory, or where the system refuses it; then nothing changes but room.
    fn take_in(&mut self, registry: &Registry, arrival: NewConnection<T>) -> Result<(), AllocError>
        ensures kept { NoneForgotten self.old → NoneForgotten self.new }
        ensures taken { OnOk result (NoneForgotten self.old → TakesIn arrival.stream arrival.session arrival.slot arrival.receipts self.old self.new) }
        ensures refused { OnErr result (ChangesRoom self.old self.new) }
    {
        let Some(count) = self.connections.len().checked_add(1) else {
            return Err(AllocError);
        };
        self.busy.reserve(count)?;
        self.behind.reserve(count)?;
        self.connections.reserve(1)?;
        let key = self.connections.vacant_key();
        if register(&arrival.stream, registry, Token(key)).is_err() {
            return Err(AllocError);
        }
        let connection = Connection::new(self.alloc, arrival, self.policy, self.now);
        let key = self.connections.insert_reserved(connection);
        self.wake(key);
        Ok(())
    }

    /// Takes in the connections that came; those that were there are unchanged. One for which there
    /// is no room ends at once.
    fn take_arrivals<H: LoopBackend<Session = T>>(&mut self, registry: &Registry, backend: &H)
        ensures kept { NoneForgotten self.old → NoneForgotten self.new }
        ensures stay { NoneForgotten self.old → PresentStay self.old.connections self.new.connections }
        ensures behind { NoneForgotten self.old → self.new.behind.items ≡ self.old.behind.items }
        ensures reachable { NoneForgotten self.old → StayReachable H.is_new (H.tells backend.now) (H.refuses backend.now) (called_by (H.submits backend.now) (H.finishes backend.now)) (H.finishes backend.now) self.old.connections self.new.connections }
    {
        for _ in 0..usize::MAX {
            let Some(arrival) = backend.arrival() else {
                break;
            };
            let slot = arrival.slot;
            let receipts = arrival.receipts;
            if self.take_in(registry, arrival).is_err() {
                backend.ended(slot, receipts, None);
            }
        }
    }

    /// Makes a round: takes what came, serves all connections with news, and then this number of
    /// those with work left (`go_on`). So news waits for this number of shares of those that sent
    /// many requests, and each of these is served once those that waited before it were. None is
    /// forgotten. Each connection's state stays one that a new connection reaches (`Reaches`).
    fn round<H: LoopBackend<Session = T, Reply = P>>(
        &mut self,
        registry: &Registry,
        backend: &H,
        shares: usize,
    )
        requires kept { NoneForgotten self.old }
        requires reachable { AreReachable H.is_new (H.tells backend.now) (H.refuses backend.now) (called_by (H.submits backend.now) (H.finishes backend.now)) (H.finishes backend.now) self.old.connections }
        ensures kept { NoneForgotten self.new }
        ensures none_busy { self.new.busy.items ≡ [] }
        ensures behind { MoveUp shares self.old.behind.items self.new.behind.items }
        ensures reachable { AreReachable H.is_new (H.tells backend.now) (H.refuses backend.now) (called_by (H.submits backend.now) (H.finishes backend.now)) (H.finishes backend.now) self.new.connections }
    {
        // Completions first: what comes from then on keeps the thread awake, so no arrival is left
        // behind.
        self.take_completions(backend);
        self.take_arrivals(registry, backend);
        self.step_all(registry, backend);
        self.go_on(registry, backend, shares);
    }

    /// Makes another round if no connection has work left. No connection with work left is
    /// forgotten.
    fn round_again<H: LoopBackend<Session = T, Reply = P>>(
        &mut self,
        registry: &Registry,
        backend: &H,
        shares: usize,
    )
        requires kept { NoneForgotten self.old }
        requires reachable { AreReachable H.is_new (H.tells backend.now) (H.refuses backend.now) (called_by (H.submits backend.now) (H.finishes backend.now)) (H.finishes backend.now) self.old.connections }
        ensures kept { NoneForgotten self.new }
        ensures none_busy { self.old.busy.items ≡ [] → self.new.busy.items ≡ [] }
        ensures behind { (self.new ≡ self.old) ⊎ (self.old.behind.items ≡ []) }
        ensures reachable { AreReachable H.is_new (H.tells backend.now) (H.refuses backend.now) (called_by (H.submits backend.now) (H.finishes backend.now)) (H.finishes backend.now) self.new.connections }
    {
        if self.rests() {
            self.round(registry, backend, shares);
        }
    }

    /// Makes a round that serves this number of connections with work left. Makes another one if no
    /// connection has work left, for the replies that came meanwhile to the calls of the first: they
    /// are written before the next look at readiness. No connection with work left is forgotten.
    /// Each connection's state stays one that a new connection reaches (`Reaches`).
    fn run_once<H: LoopBackend<Session = T, Reply = P>>(
        &mut self,
        registry: &Registry,
        backend: &H,
        shares: usize,
    )
        requires kept { NoneForgotten self.old }
        requires reachable { AreReachable H.is_new (H.tells backend.now) (H.refuses backend.now) (called_by (H.submits backend.now) (H.finishes backend.now)) (H.finishes backend.now) self.old.connections }
        ensures kept { NoneForgotten self.new }
        ensures none_busy { self.new.busy.items ≡ [] }
        ensures behind { MoveUp shares self.old.behind.items self.new.behind.items }
        ensures reachable { AreReachable H.is_new (H.tells backend.now) (H.refuses backend.now) (called_by (H.submits backend.now) (H.finishes backend.now)) (H.finishes backend.now) self.new.connections }
    {
        self.looks = self.looks.saturating_add(1);
        if self.idle > 0 {
            self.look_for_idle(backend.seconds());
        }
        self.round(registry, backend, shares);
        self.round_again(registry, backend, shares);
    }
}

/// An event loop before it begins: the reports of readiness, and the buffer of its reads.
#[derive(Drop)]
pub struct EventLoop {
    alloc: Global,
    poll: Poll,
    events: Events,
    chunk: Vec<u8>,
    settings: LoopSettings,
}

impl EventLoop {
    /// Makes an event loop with these settings. Fails when out of memory, or where the system gives
    /// no more descriptors.
    pub fn new(net: &impl Net, alloc: Global, settings: &LoopSettings) -> Result<Self, AllocError>
        ensures { IfOk result (λ event_loop. event_loop.settings ≡ settings.now) }
    {
        let Ok(poll) = Poll::new(net) else {
            return Err(AllocError);
        };
        let mut chunk = Vec::new(alloc);
        chunk.resize(CHUNK_SIZE, 0u8)?;
        Ok(EventLoop {
            alloc,
            poll,
            events: Events::with_capacity(alloc, MOST_EVENTS)?,
            chunk,
            settings: *settings,
        })
    }

    /// Returns what wakes the event loop. Fails where the system gives no more descriptors.
    pub fn waker(&self) -> Result<Waker, AllocError> {
        match Waker::new(self.poll.registry(), WAKER) {
            Ok(waker) => Ok(waker),
            Err(_) => Err(AllocError),
        }
    }

    /// Serves the connections that come, until no more come and all have ended.
    pub fn run<R: Wait, H: LoopBackend>(self, rt: &R, backend: &H) {
        let EventLoop {
            alloc,
            mut poll,
            mut events,
            chunk,
            settings,
        } = self;
        let mut members = LoopConnections::<ClientStream, H::Session, H::Reply>::new(
            alloc, chunk, &settings,
        );
        let shares = settings.shares();
        for _ in rt.forever() {
            members.run_once(poll.registry(), backend, shares);
            if members.connections.is_empty() && backend.is_over() {
                break;
            }
            let pause = members.pause(backend);
            if members.rests() && pause.is_some_and(|wait| wait.is_zero()) {
                // It only looks again: a thread that has work comes first on this processor.
                let _ = libc::sched_yield();
            }
            // A wait that fails reports no event, and the next turn waits again.
            let _ = poll.poll(&mut events, pause);
            members.notice(&events);
        }
    }
}
