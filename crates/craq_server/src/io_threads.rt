//! `EventLoops`: the event loops of a server, made before serving starts. `IoContext`: the backend
//! of one of them. And serving by a few threads, an event loop each; called by `accepting`.
ghost use Rattle.std.specs.Prelude.{◌≡◌, ◌==◌, [], IfOk, IfSome, length, if◌then◌else◌};
ghost use Rattle.craq_server.specs.Sessions.{IsNewSession, IsReachableAt};

use crate::accepting::{Accepted, Next, Server, Serving};
use crate::incoming::Incoming;
use crate::runtime::ServerRuntime;
use crate::served_store::{ServedStore, StoreOutcome};
use crate::store_session::StoreSession;
use craq_event_loop::{
    AsyncBackend, Backend, CallRequest, ClientStream, ConnectionState, EventLoop, LoopBackend,
    LoopSettings, NewConnection, SubmitToken,
};
use craq_frames::Text;
use craq_names::Refusal;
use craq_node::Core;
use craq_seat::{CallReceipt, Completion, CompletionQueue};
use craq_workers::{Gate, Named};
use std::alloc::{AllocError, Global};
use std::net::{Net, TcpListener, TcpStream};
use std::sync::atomic::{AtomicBool, AtomicU64, Ordering};
use std::sync::{Arc, Mutex, Wait};
use std::thread;
use std::thread::Scope;

/// The backend of one event loop. It passes calls on to its `ServedStore`.
#[derive(Drop)]
struct IoContext<'s, 'a, R: Wait, C: Core + Named, G: Gate> {
    server: &'s Server<'a, R, C, G>,
    backend: ServedStore<'s, R, C, G>,
    /// The connections that were handed to the thread and are not taken in yet.
    inbox: Mutex<Vec<Incoming<C>>>,
    /// True where no more connections are handed to it.
    over: AtomicBool,
    /// The event loop, until the thread begins.
    event_loop: Mutex<Option<EventLoop>>,
    /// The largest number of seconds that the clock gave.
    latest: AtomicU64,
    /// True where the thread closed a connection at once, for which it had no memory.
    had_failures: AtomicBool,
}

impl<'s, 'a, R, C, G> Backend for IoContext<'s, 'a, R, C, G>
where
    R: ServerRuntime,
    C: Core + Named + Send + 'static,
    G: Gate + Send + Sync + 'static,
{
    ghost use Rattle.std.specs.Prelude.{length};
    ghost use Rattle.craq_server.specs.Refusing.{RefusesServed};
    ghost use Rattle.craq_server.specs.Status.{TellsStatus};

    ghost tells = { λ context text. TellsStatus context.backend.store.now text };

    ghost refuses = { λ context node pass ask refusal. RefusesServed (length context.backend.store.now.names) node ask refusal };

    fn status(&self) -> Result<Text, AllocError> {
        self.backend.status()
    }

    fn unasked(&self, refusal: &Refusal) {
        self.backend.unasked(refusal);
    }
}

impl<'s, 'a, R, C, G> AsyncBackend for IoContext<'s, 'a, R, C, G>
where
    R: ServerRuntime,
    C: Core + Named + Send + 'static,
    G: Gate + Send + Sync + 'static,
{
    ghost use Rattle.craq_server.specs.Sessions.{FinishesCall, Submits};

    type Session = StoreSession<C>;

    type Reply = StoreOutcome<C>;

    ghost submits = { λ context token. Submits context.backend.passes.now.leap };

    ghost finishes = { λ context. FinishesCall };

    /// Submits the call as the thread's `ServedStore` does.
    fn submit(
        &self,
        session: &mut StoreSession<C>,
        submit_token: SubmitToken,
        request: &CallRequest,
    ) -> Result<Option<StoreOutcome<C>>, Refusal> {
        self.backend.submit(session, submit_token, request)
    }

    fn submit_ahead(
        &self,
        session: &mut StoreSession<C>,
        submit_token: SubmitToken,
        request: &CallRequest,
    ) -> Result<(), Refusal> {
        self.backend.submit_ahead(session, submit_token, request)
    }

    fn keep(&self, session: &mut StoreSession<C>, call: u64, reply: StoreOutcome<C>) {
        self.backend.keep(session, call, reply);
    }

    fn take_kept(&self, session: &mut StoreSession<C>, call: u64) -> Option<StoreOutcome<C>> {
        self.backend.take_kept(session, call)
    }

    fn finish(
        &self,
        session: &mut StoreSession<C>,
        request: &CallRequest,
        reply: StoreOutcome<C>,
    ) -> Result<CallReceipt, Refusal> {
        self.backend.finish(session, request, reply)
    }

    fn refused(&self, slot: usize, refusal: Refusal) {
        self.backend.refused(slot, refusal);
    }
}

impl<'s, 'a, R, C, G> LoopBackend for IoContext<'s, 'a, R, C, G>
where
    R: ServerRuntime,
    C: Core + Named + Send + 'static,
    G: Gate + Send + Sync + 'static,
{
    ghost use Rattle.std.specs.Prelude.{⊤};
    ghost use Rattle.craq_server.specs.Sessions.{IsNewSession};

    ghost is_new = { IsNewSession };

    ghost brings = { λ context old new. ⊤ };

    ghost lets_sleep = { λ context may. ⊤ };

    fn take_completions(&self, into: &mut Vec<Completion<StoreOutcome<C>>>) {
        self.backend.completions.take(&self.server.rt, into);
    }

    fn run_queued(&self) {
        self.backend.store.run_queued(&self.server.rt);
    }

    fn arrival(&self) -> Option<NewConnection<StoreSession<C>>> {
        let incoming = self.inbox.lock(&self.server.rt).pop()?;
        Some(incoming.into_arrival())
    }

    fn is_over(&self) -> bool {
        self.over.load(Ordering::SeqCst) && self.inbox.lock(&self.server.rt).is_empty()
    }

    fn may_sleep(&self) -> bool {
        self.backend.completions.may_sleep(&self.server.rt)
    }

    fn seconds(&self) -> u64 {
        let reported = match self.server.rt.monotonic() {
            Ok(time) => time.as_secs(),
            Err(_) => 0,
        };
        self.latest
            .fetch_max(reported, Ordering::SeqCst)
            .max(reported)
    }

    fn ended(&self, slot: usize, receipts: usize, state: Option<ConnectionState<StoreSession<C>>>)
        requires { IfSome state (λ s. IsReachableAt self.now.backend.store.now self.now.backend.passes.now.leap s) }
    {
        let calls = match state {
            Some(state) => self.backend.end_connection(state),
            None => {
                self.had_failures.store(true, Ordering::SeqCst);
                Vec::new(self.server.alloc)
            }
        };
        self.server.ended(slot, receipts, calls);
    }
}

impl<'s, 'a, R, C, G> IoContext<'s, 'a, R, C, G>
where
    R: ServerRuntime,
    C: Core + Named + Send + 'static,
    G: Gate + Send + Sync + 'static,
{
    /// Makes the context of the thread of this index with this event loop. Fails when out of
    /// memory, or if the system refuses a wake-up.
    fn new(
        server: &'s Server<'a, R, C, G>,
        event_loop: EventLoop,
        index: usize,
    ) -> Result<Self, AllocError> {
        let completions = CompletionQueue::new(server.alloc, Some(event_loop.waker()?));
        let share = server.connections.counters.share(index)?;
        Ok(IoContext {
            server,
            backend: server.backend(completions, share)?,
            inbox: Mutex::new(Vec::new(server.alloc)),
            over: AtomicBool::new(false),
            event_loop: Mutex::new(Some(event_loop)),
            latest: AtomicU64::new(0),
            had_failures: AtomicBool::new(false),
        })
    }

    /// Hands a connection to the thread, with a new session, and wakes it. The event loop takes it
    /// out of `inbox` by `arrival`. Fails when out of memory, and if 2^64 - 1 sessions were opened.
    fn hand(&self, stream: Arc<TcpStream>, slot: usize) -> Result<(), AllocError> {
        let receipts = self.server.new_receipts()?;
        let traffic = Arc::try_clone(&self.backend.counts.traffic)?;
        let arrival = NewConnection {
            stream: ClientStream { stream, traffic },
            session: self.server.open_session()?,
            slot,
            receipts,
        };
        self.inbox
            .lock(&self.server.rt)
            .push(Incoming::new(arrival))?;
        self.backend.completions.nudge(&self.server.rt);
        Ok(())
    }

    /// Hands a connection to the thread where there is a place; else it is turned away. Fails only
    /// when out of memory; the connection is then closed.
    fn take_in(&self, stream: TcpStream) -> Result<(), AllocError> {
        let Some((stream, slot)) = self.server.admit(stream)? else {
            return Ok(());
        };
        let handed = self.hand(stream, slot);
        self.server.after_admission(slot, handed)
    }

    /// Has the thread end once its connections are over.
    fn end(&self) {
        self.over.store(true, Ordering::SeqCst);
        self.backend.completions.nudge(&self.server.rt);
    }
}

/// Hands connections to the threads in turn, as many as `Serving` says, until the server is to end
/// or its listener has failed.
fn deal<'s, 'a, R, C, G>(
    server: &'s Server<'a, R, C, G>,
    contexts: &[IoContext<'s, 'a, R, C, G>],
    listener: &TcpListener,
) -> Accepted
where
    R: ServerRuntime,
    C: Core + Named + Send + 'static,
    G: Gate + Send + Sync + 'static,
{
    let mut left = server.serving.connections;
    let mut had_failures = false;
    let mut turn = 0usize;
    for _ in server.rt.forever() {
        if turn >= contexts.len() {
            turn = 0;
        }
        match (server.next_connection(listener), contexts.get(turn)) {
            (Next::Connection(stream), Some(context)) => {
                had_failures = context.take_in(stream).is_err() || had_failures;
            }
            (Next::ListenerFailed, _) => {
                server.end_open();
                return Accepted {
                    had_failures,
                    listener_failed: true,
                };
            }
            _ => break,
        }
        turn = turn.saturating_add(1);
        if left == 1 {
            break;
        }
        left = left.saturating_sub(1);
    }
    Accepted {
        had_failures,
        listener_failed: false,
    }
}

/// The most connections with work left that an event loop serves between two looks for news, where
/// it is the only one. A look takes about a sixth of the time of a share. This project's profile.
const SHARES_ALONE: usize = 4;

/// The most such connections where there are more event loops. This project's profile.
const SHARES_AMONG_OTHERS: usize = 1;

/// Returns the settings of each event loop of a server that serves as `serving` says.
fn settings_of(serving: &Serving) -> LoopSettings
    ensures { result ≡ record { receipts = serving.now.receipts; idle = serving.now.idle; shares = if serving.now.threads == 1 then 4 else 1 } }
{
    let shares = if serving.threads == 1 {
        SHARES_ALONE
    } else {
        SHARES_AMONG_OTHERS
    };
    LoopSettings {
        receipts: serving.receipts,
        idle: serving.idle,
        shares,
    }
}

/// The way in which connections are served, and an event loop for each thread that serves many of
/// them: what `accept_with` needs before it begins.
#[derive(Drop)]
pub struct EventLoops {
    pub(crate) alloc: Global,
    pub(crate) serving: Serving,
    pub(crate) all: Vec<EventLoop>,
}

impl EventLoops {
    /// Makes an event loop for each thread that `serving` asks for: a descriptor of an epoll set
    /// and some memory each; none where each connection has a thread of its own. Fails when out of
    /// memory, or where the system gives no more descriptors.
    pub fn new(net: &impl Net, alloc: Global, serving: Serving) -> Result<Self, AllocError>
        ensures { IfOk result (λ event_loops. (event_loops.serving ≡ serving) × (length event_loops.all.items ≡ serving.threads)) }
    {
        let settings = settings_of(&serving);
        let mut all = Vec::new(alloc);
        for _ in 0..serving.threads {
            all.push(EventLoop::new(net, alloc, &settings)?)?;
        }
        Ok(EventLoops {
            alloc,
            serving,
            all,
        })
    }

    /// Makes the value for serving by a thread for each connection: no event loop.
    pub(crate) fn threadless(alloc: Global, serving: Serving) -> Self
        ensures serving { result.serving ≡ serving }
        ensures none { result.all.items ≡ [] }
    {
        EventLoops {
            alloc,
            serving,
            all: Vec::new(alloc),
        }
    }
}

/// The threads that serve a server's connections.
#[derive(Drop)]
struct IoContexts<'s, 'a, R: Wait, C: Core + Named, G: Gate> {
    server: &'s Server<'a, R, C, G>,
    all: Vec<IoContext<'s, 'a, R, C, G>>,
}

impl<'s, 'a, R, C, G> IoContext<'s, 'a, R, C, G>
where
    R: ServerRuntime,
    C: Core + Named + Send + 'static,
    G: Gate + Send + Sync + 'static,
{
    /// Runs the event loop until no more connections come and all have ended.
    fn run(&self) {
        let event_loop = self.event_loop.lock(&self.server.rt).take();
        if let Some(event_loop) = event_loop {
            event_loop.run(&self.server.rt, self);
        }
    }

    /// Begins the thread. Fails where there is no thread.
    fn begin<'e, E>(&'e self, scope: &Scope<'e, E>) -> Result<(), AllocError> {
        let thread = scope.spawn(move || self.run())?;
        drop(thread);
        Ok(())
    }
}

impl<'s, 'a, R, C, G> IoContexts<'s, 'a, R, C, G>
where
    R: ServerRuntime,
    C: Core + Named + Send + 'static,
    G: Gate + Send + Sync + 'static,
{
    /// Begins all threads, as far as the system gives them. Returns whether all began.
    fn begin_all<'e, E>(&'e self, scope: &Scope<'e, E>) -> bool {
        let mut begun = true;
        for context in self.all.as_slice() {
            begun = context.begin(scope).is_ok() && begun;
        }
        begun
    }

    /// Begins the threads, hands connections to them, and has them end. Fails where some thread did
    /// not begin; no connection was taken then.
    fn run_threads<'e, E>(
        &'e self,
        scope: &Scope<'e, E>,
        listener: &TcpListener,
    ) -> Result<Accepted, AllocError> {
        let mut taken = Err(AllocError);
        if self.begin_all(scope) {
            self.server.connections.begin(&self.server.rt);
            taken = Ok(deal(self.server, self.all.as_slice(), listener));
        }
        for context in self.all.as_slice() {
            context.end();
        }
        taken
    }

    /// Returns whether some thread closed a connection for which it had no memory.
    fn had_failures(&self) -> bool {
        self.all
            .iter()
            .any(|context| context.had_failures.load(Ordering::SeqCst))
    }

    /// Serves as `run_threads` does, and waits until all threads have ended.
    fn serve_all(&self, listener: &TcpListener) -> Result<Accepted, AllocError> {
        thread::scope(thread::scope_env(), &self.server.rt, |scope| {
            self.run_threads(scope, listener)
        })
    }
}

/// Serves the connections of a listener by a thread for each event loop. Fails if a thread, or its
/// context, cannot be made; no connection was taken then.
pub(crate) fn serve_by_threads<'a, R, C, G>(
    server: &Server<'a, R, C, G>,
    listener: &TcpListener,
    event_loops: Vec<EventLoop>,
) -> Result<Accepted, AllocError>
where
    R: ServerRuntime,
    C: Core + Named + Send + 'static,
    G: Gate + Send + Sync + 'static,
{
    let mut all = Vec::new(server.alloc);
    for (index, event_loop) in event_loops.into_iter().enumerate() {
        all.push(IoContext::new(server, event_loop, index)?)?;
    }
    let contexts = IoContexts { server, all };
    let Accepted {
        had_failures,
        listener_failed,
    } = contexts.serve_all(listener)?;
    Ok(Accepted {
        had_failures: had_failures || contexts.had_failures(),
        listener_failed,
    })
}
