//! `serve_one` serves one connection on the calling thread, over a stream that blocks. It drives a
//! `Connection`, as an event loop drives many.
ghost use Rattle.std.specs.Prelude.{◌≡◌, ◌⊎◌, IsTrue, false};
ghost use Rattle.craq_event_loop.specs.SubmittedCalls.{called_by};
ghost use Rattle.craq_event_loop.specs.Busy.{IsBehind, IsDone, is_waiting};
ghost use Rattle.craq_event_loop.specs.Reaching.{IsReachable, ReachesOn};

use crate::backend::NewConnection;
use crate::connection::{Connection, MOST_STEPS, Share};
use crate::socket::Socket;
use crate::{BlockingBackend, ConnectionState, ReceiptPolicy};
use craq_seat::Reach;
use std::alloc::Global;
use std::sync::Wait;

/// The most bytes of one read. This project's profile.
const READ_SIZE: usize = 8_192;

/// The key of the only connection.
const KEY: usize = 0;

/// The steps of one request, and one that looks for the next.
const FIRST: Share = Share {
    steps: MOST_STEPS,
    reach: Reach::WholeChain,
};

/// All steps that there are to take: at most those of the requests of one read.
const REST: Share = Share {
    steps: usize::MAX,
    reach: Reach::WholeChain,
};

impl<S: Socket, T> Connection<S, T> {
    /// Takes the steps of the requests behind the first one, if there may be any and no call is under
    /// way. The backend lets few threads do so at a time (`BlockingBackend::begin_bulk`).
    #[tactic(auto, using(crate::proofs::OwnThread::on_as_before, crate::proofs::OwnThread::on_round))]
    fn take_rest<B: BlockingBackend<Session = T>>(&mut self, alloc: Global, backend: &B)
        ensures reaches { ReachesOn S.remaining S.contents (B.tells backend.now) (B.refuses backend.now) (called_by (B.submits backend.now) (B.finishes backend.now)) (B.finishes backend.now) self.old self.new }
    {
        if !self.has_more() {
            return;
        }
        backend.begin_bulk();
        self.advance(alloc, backend, KEY, REST);
        backend.end_bulk();
    }

    /// Reads, takes all steps, waits for the calls that they made, and writes. No call is under way
    /// afterwards.
    #[tactic(auto, using(crate::proofs::OwnThread::on_turn, crate::proofs::OwnThread::written_rests))]
    fn turn<R: Wait, B: BlockingBackend<Session = T>>(
        &mut self,
        rt: &R,
        alloc: Global,
        backend: &B,
        chunk: &mut [u8],
    )
        ensures rests { is_waiting self.new.state.phase ≡ false }
        ensures reaches { ReachesOn S.remaining S.contents (B.tells backend.now) (B.refuses backend.now) (called_by (B.submits backend.now) (B.finishes backend.now)) (B.finishes backend.now) self.old self.new }
    {
        self.read(alloc, chunk, 0);
        self.advance(alloc, backend, KEY, FIRST);
        self.take_rest(alloc, backend);
        self.complete(rt, alloc, backend);
        self.give(0);
    }

    /// Returns whether nothing is left to do: it is done, or its stream gives or takes nothing.
    #[tactic(auto, using(crate::proofs::OwnThread::ended_done, crate::proofs::OwnThread::ended_still))]
    fn has_ended(&self) -> bool
        ensures { IsTrue result → IsDone self.now ⊎ (¬ IsBehind self.now) }
    {
        if self.is_done() {
            return true;
        }
        !self.is_behind()
    }

    /// Serves the connection until it is done, or its stream gives or takes nothing for longer than
    /// it waits. What it had reached before it reaches with the bytes that its socket gave and took.
    #[tactic(auto, using(crate::proofs::OwnThread::on_as_before, crate::proofs::OwnThread::on_then))]
    pub(crate) fn serve<R: Wait, B: BlockingBackend<Session = T>>(
        &mut self,
        rt: &R,
        alloc: Global,
        backend: &B,
    )
        ensures reaches { ReachesOn S.remaining S.contents (B.tells backend.now) (B.refuses backend.now) (called_by (B.submits backend.now) (B.finishes backend.now)) (B.finishes backend.now) self.old self.new }
        ensures rests { is_waiting self.new.state.phase ≡ false }
        ensures ended { IsDone self.new ⊎ (¬ IsBehind self.new) }
    {
        self.read_until_dry();
        let mut chunk = [0u8; READ_SIZE];
        for _ in rt.forever() {
            self.turn(rt, alloc, backend, &mut chunk);
            if self.has_ended() {
                return;
            }
        }
    }
}

/// Serves a connection on the calling thread to its end, with the policy for its receipts. Returns
/// its last state, which a new connection with its session reached (`Reaches`).
#[tactic(auto, using(crate::proofs::OwnThread::from_new))]
pub fn serve_one<R: Wait, B: BlockingBackend>(
    rt: &R,
    alloc: Global,
    backend: &B,
    arrival: NewConnection<B::Session>,
    policy: ReceiptPolicy,
) -> ConnectionState<B::Session>
    ensures { IsReachable (λ session. session ≡ arrival.session) (B.tells backend.now) (B.refuses backend.now) (called_by (B.submits backend.now) (B.finishes backend.now)) (B.finishes backend.now) result }
{
    let mut connection = Connection::new(alloc, arrival, policy, 0);
    connection.serve(rt, alloc, backend);
    connection.into_state()
}
