//! `Server`: takes in the connections of a listener to a store. `accept` gives each a thread of its
//! own; `accept_with` serves them as a `Serving` says, also by a few threads (`io_threads`).
ghost use Rattle.std.specs.Prelude.{◌≡◌, ◌⊎◌, [], false, IfErr, IfOk};
ghost use Rattle.craq_server.specs.Sessions.{IsNewSession};

use crate::bulk_limit::BulkLimit;
use crate::connections::Connections;
use crate::counters::ThreadCounts;
use crate::incoming::Incoming;
use crate::io_threads::{EventLoops, serve_by_threads};
use crate::listening::{Attempt, try_accept, wait_for_connection};
use crate::logging::Log;
use crate::passes::Passes;
use crate::runtime::ServerRuntime;
use crate::served_store::{ServedStore, StoreOutcome};
use crate::socket_options::prepare;
use crate::store_session::StoreSession;
use craq_event_loop::{ClientStream, NewConnection, ReceiptPolicy, serve_one};
use craq_names::Refusal;
use craq_node::Core;
use craq_seat::{CallReceipt, CompletionQueue};
use craq_workers::{Gate, Named, Store};
use std::alloc::{AllocError, Global};
use std::net::{TcpListener, TcpStream};
use std::sync::{Arc, Mutex, Wait};
use std::thread;
use std::thread::Scope;
use std::time::Duration;

/// The pause after an error of the listener that may pass, and between two looks at connections
/// that are ending, in milliseconds.
const PAUSE_MILLISECONDS: u64 = 10;

/// The number of such pauses in which requests are answered once the listener has failed: 4.5
/// seconds.
const REPLY_PAUSES: u32 = 450;

/// The number of such pauses from then until open connections are cut: half a second.
const LAST_PAUSES: u32 = 50;

/// The way in which connections are served.
#[derive(Clone, Copy, Debug)]
pub struct Serving {
    /// The fate of the receipts of calls.
    pub receipts: ReceiptPolicy,
    /// The number of connections after which no more are taken, those included that were turned
    /// away; 0 for no end.
    pub connections: u32,
    /// The number of threads that serve all connections (`craqd` asks for 64 at most); 0 for a
    /// thread for each connection.
    pub threads: u32,
    /// The seconds without a byte after which a connection is ended; 0 for never.
    pub idle: u32,
    /// The most that a pass may lie above the largest pass that was returned (`Exhausted` above
    /// it); 0 for no such bound.
    pub most_leap: u32,
    /// The log.
    pub log: Log,
}

/// The outcome of serving.
#[derive(Drop)]
pub struct ServeReport {
    /// The receipts of all calls where they are kept, by order of connection and then of calls.
    pub receipts: Vec<Vec<CallReceipt>>,
    /// True where some connection was ended at once because the process was out of memory or
    /// threads.
    pub had_failures: bool,
    /// True where the listener failed for a reason that lasts, so that no more connections were
    /// taken.
    pub listener_failed: bool,
}

/// The outcome of taking connections.
#[derive(Clone, Copy, Debug)]
pub(crate) struct Accepted {
    /// True where some connection was ended at once because the process was out of memory or
    /// threads.
    pub(crate) had_failures: bool,
    /// True where the listener failed for a reason that lasts.
    pub(crate) listener_failed: bool,
}

/// The outcome of a look for the next connection.
#[derive(Drop)]
pub(crate) enum Next {
    /// A connection.
    Connection(TcpStream),
    /// None: the server is to end.
    End,
    /// None: the listener failed for a reason that lasts.
    ListenerFailed,
}

/// The connections of a listener to a store.
#[derive(Drop)]
pub(crate) struct Server<'a, R, C: Core + Named, G: Gate> {
    pub(crate) rt: R,
    pub(crate) alloc: Global,
    store: &'a Store<C, G>,
    pub(crate) serving: Serving,
    pub(crate) connections: &'a Connections,
    /// The passes that were returned on all connections.
    pub(crate) passes: Passes,
    /// The limit of the connections' own threads.
    bulk_limit: BulkLimit,
    /// The receipts of each connection that has ended, by order of connection; none of those that
    /// have not.
    receipts: Mutex<Vec<Vec<CallReceipt>>>,
}

/// Makes reads and writes of a stream fail after `seconds` without a byte; with 0 they wait.
fn set_patience(stream: &TcpStream, seconds: u32) {
    if seconds > 0 {
        let limit = Duration::from_secs(u64::from(seconds));
        let _ = stream.set_read_timeout(Some(limit));
        let _ = stream.set_write_timeout(Some(limit));
    }
}

impl<'a, R, C, G> Server<'a, R, C, G>
where
    R: Eprint + Wait,
    C: Core + Named,
    G: Gate,
{
    /// Logs that a connection is over, and frees its place.
    fn leave(&self, slot: usize) {
        self.serving.log.ended(&self.rt, slot);
        self.connections.counters.count_ended();
        self.connections.leave(&self.rt, slot);
    }

    /// Takes the receipts of a connection that has ended, where they are kept, and frees its place.
    pub(crate) fn ended(&self, slot: usize, receipts: usize, calls: Vec<CallReceipt>) {
        if let Some(kept) = self.receipts.lock(&self.rt).get_mut(receipts) {
            *kept = calls;
        }
        self.leave(slot);
    }
}

impl<'a, R, C, G> Server<'a, R, C, G>
where
    R: ServerRuntime,
    C: Core + Named + Send + 'static,
    G: Gate + Send + Sync + 'static,
{
    /// Makes the server of a store. Takes no memory.
    pub(crate) fn new(
        rt: R,
        alloc: Global,
        store: &'a Store<C, G>,
        serving: Serving,
        connections: &'a Connections,
    ) -> Self {
        Server {
            rt,
            alloc,
            store,
            serving,
            connections,
            passes: Passes::new(serving.most_leap),
            bulk_limit: BulkLimit::new(&rt),
            receipts: Mutex::new(Vec::new(alloc)),
        }
    }

    /// Returns the next connection, with its socket's options set (`prepare`). A connection whose
    /// options the system refuses is closed. The listener does not block. An error that may pass,
    /// as no free descriptor, is followed by a pause of 10 milliseconds and another try.
    pub(crate) fn next_connection(&self, listener: &TcpListener) -> Next {
        for _ in self.rt.forever() {
            let waited = wait_for_connection(listener);
            if self.connections.is_ending(&self.rt) {
                break;
            }
            match try_accept(listener) {
                Attempt::Connection(stream) if prepare(&stream) => return Next::Connection(stream),
                Attempt::Failed => return Next::ListenerFailed,
                Attempt::NoneYet if waited => (),
                _ => thread::sleep(&self.rt, Duration::from_millis(PAUSE_MILLISECONDS)),
            }
        }
        Next::End
    }

    /// Ends the connections that are open once the listener has failed: what they brought before is
    /// still answered, 4.5 seconds later what waits is refused, and those that are open half a
    /// second after that are cut.
    pub(crate) fn end_open(&self) {
        self.connections.end(&self.rt);
        self.wait_for_idle(REPLY_PAUSES);
        self.connections.time_out(&self.rt);
        self.wait_for_idle(LAST_PAUSES);
        self.connections.cut(&self.rt);
    }

    /// Waits until no connection is open, for at most this many pauses.
    fn wait_for_idle(&self, pauses: u32) {
        for _pause in 0..pauses {
            if self.connections.is_idle(&self.rt) {
                break;
            }
            thread::sleep(&self.rt, Duration::from_millis(PAUSE_MILLISECONDS));
        }
    }

    /// Makes room for a new connection's receipts, where they are kept, and returns its index.
    /// Fails only when out of memory.
    pub(crate) fn new_receipts(&self) -> Result<usize, AllocError> {
        if self.serving.receipts == ReceiptPolicy::KeepNone {
            return Ok(0);
        }
        let mut receipts = self.receipts.lock(&self.rt);
        receipts.push(Vec::new(self.alloc))?;
        Ok(receipts.len().saturating_sub(1))
    }

    /// Gives a new connection a place. Where none is free the connection is closed without a reply,
    /// counted and logged, and the result is `None`. Fails only when out of memory; the connection
    /// is then closed.
    pub(crate) fn admit(
        &self,
        stream: TcpStream,
    ) -> Result<Option<(Arc<TcpStream>, usize)>, AllocError> {
        let stream = Arc::new(self.alloc, stream)?;
        let shared = Arc::try_clone(&stream)?;
        let Some(slot) = self.connections.enter(&self.rt, shared)? else {
            let count = self.connections.counters.count_turned_away();
            self.serving.log.turned_away(&self.rt, &stream, count);
            return Ok(None);
        };
        self.connections.counters.count_accepted();
        self.serving.log.begun(&self.rt, slot, &stream);
        Ok(Some((stream, slot)))
    }

    /// Finishes the admission of a connection: frees its place where `begun` failed, and ends it
    /// where the server is to end by now.
    pub(crate) fn after_admission(
        &self,
        slot: usize,
        begun: Result<(), AllocError>,
    ) -> Result<(), AllocError> {
        if begun.is_err() {
            self.leave(slot);
        } else if self.connections.is_ending(&self.rt) {
            self.connections.end(&self.rt);
        }
        begun
    }

    /// Opens the session of a new connection, which has seen nothing of the store's history yet.
    /// Fails if 2^64 - 1 sessions were opened.
    pub(crate) fn open_session(&self) -> Result<StoreSession<C>, AllocError>
        ensures { IfOk result (λ s. IsNewSession s) }
    {
        let session = self.store.open_session(&self.rt)?;
        Ok(StoreSession::new(self.alloc, session))
    }

    /// Returns the store as the connections of one thread call it, with the thread's completion
    /// queue and its counts. Fails only when out of memory.
    pub(crate) fn backend(
        &self,
        completions: CompletionQueue<StoreOutcome<C>>,
        counts: Arc<ThreadCounts>,
    ) -> Result<ServedStore<'_, R, C, G>, AllocError> {
        Ok(ServedStore {
            rt: self.rt,
            alloc: self.alloc,
            store: self.store,
            passes: &self.passes,
            bulk_limit: &self.bulk_limit,
            log: self.serving.log,
            completions: Arc::new(self.alloc, completions)?,
            counts,
        })
    }

    /// Serves a connection to its end, hands its receipts over and frees its place.
    #[tactic(auto, using(crate::proofs::Reached::served_reachable))]
    fn serve(&self, backend: ServedStore<'_, R, C, G>, incoming: Incoming<C>) {
        let arrival = incoming.into_arrival();
        let slot = arrival.slot;
        let receipts = arrival.receipts;
        let _ = arrival.stream.stream.set_nodelay(true);
        set_patience(&arrival.stream.stream, self.serving.idle);
        let policy = self.serving.receipts;
        let state = serve_one(&self.rt, self.alloc, &backend, arrival, policy);
        let calls = backend.end_connection(state);
        self.ended(slot, receipts, calls);
    }

    /// Begins a thread that serves a connection. Fails where there is no thread or no memory.
    fn begin<'s, E>(
        &'s self,
        scope: &Scope<'s, E>,
        stream: Arc<TcpStream>,
        slot: usize,
    ) -> Result<(), AllocError> {
        let receipts = self.new_receipts()?;
        let share = self.connections.counters.share(slot)?;
        let traffic = Arc::try_clone(&share.traffic)?;
        let arrival = NewConnection {
            stream: ClientStream { stream, traffic },
            session: self.open_session()?,
            slot,
            receipts,
        };
        let completions = CompletionQueue::new(self.alloc, None);
        let backend = self.backend(completions, share)?;
        let incoming = Incoming::new(arrival);
        let thread = scope.spawn(move || self.serve(backend, incoming))?;
        drop(thread);
        Ok(())
    }

    /// Serves a connection on a thread of its own where there is a place; else it is turned away.
    /// Fails where there is no thread or no memory; the connection is then closed.
    fn take_in<'s, E>(&'s self, scope: &Scope<'s, E>, stream: TcpStream) -> Result<(), AllocError> {
        let Some((stream, slot)) = self.admit(stream)? else {
            return Ok(());
        };
        let begun = self.begin(scope, stream, slot);
        self.after_admission(slot, begun)
    }

    /// Takes in as many connections as `Serving` says, until the server is to end or its listener
    /// has failed.
    fn take_all<'s, E>(&'s self, scope: &Scope<'s, E>, listener: &TcpListener) -> Accepted {
        let mut left = self.serving.connections;
        let mut had_failures = false;
        for _ in self.rt.forever() {
            match self.next_connection(listener) {
                Next::Connection(stream) => {
                    had_failures = self.take_in(scope, stream).is_err() || had_failures;
                }
                Next::End => break,
                Next::ListenerFailed => {
                    self.end_open();
                    return Accepted {
                        had_failures,
                        listener_failed: true,
                    };
                }
            }
            if left == 1 {
                break;
            }
            left = left.saturating_sub(1);
        }
        Accepted {
            had_failures,
            listener_failed: false,
        }
    }

    /// Takes connections in and waits until all have ended.
    fn serve_all(&self, listener: &TcpListener) -> Accepted {
        self.connections.begin(&self.rt);
        thread::scope(thread::scope_env(), &self.rt, |scope| {
            self.take_all(scope, listener)
        })
    }

    /// Returns the receipts of all connections, by order of connection.
    pub(crate) fn into_receipts(self) -> Vec<Vec<CallReceipt>> {
        let Server {
            rt: _,
            alloc: _,
            store: _,
            serving: _,
            connections: _,
            passes: _,
            bulk_limit: _,
            receipts,
        } = self;
        receipts.into_inner()
    }
}

/// Serves the connections of a listener to a store, each until its client ends it, at most as many
/// at once as `connections` has places. One more is closed without a reply. Returns once as many
/// connections were made as the `Serving` of `event_loops` says, or `connections` are to end, or
/// the listener has failed, and all connections are over.
///
/// Where there are `event_loops`, they serve all connections in turn. Else each connection has a
/// thread of its own. Fails where one of those threads cannot be made; no connection was taken
/// then.
///
/// The listener is made non-blocking. An error of it that may pass, as no free descriptor or an
/// aborted connection, is followed by a pause of 10 milliseconds and another try. After an error
/// that lasts (`ServeReport::listener_failed`) what the open connections brought is still answered,
/// and those that are open 5 seconds later are cut. A connection for which there is no thread or no
/// memory is closed at once (`ServeReport::had_failures`). The system is asked to hold at most
/// 65,536 bytes in each direction of a connection and to probe silent peers (`prepare`); a
/// connection for which it refuses that is closed and not counted.
pub fn accept_with<'x, R, C, G>(
    rt: R,
    store: &'x Store<C, G>,
    listener: &TcpListener,
    connections: &'x Connections,
    event_loops: EventLoops,
) -> Result<ServeReport, AllocError>
where
    R: ServerRuntime,
    C: Core + Named + Send + 'static,
    G: Gate + Send + Sync + 'static,
{
    let EventLoops {
        alloc,
        serving,
        all,
    } = event_loops;
    let server = Server::new(rt, alloc, store, serving, connections);
    let taken = if listener.set_nonblocking(true).is_err() {
        Ok(Accepted {
            had_failures: false,
            listener_failed: true,
        })
    } else if all.is_empty() {
        Ok(server.serve_all(listener))
    } else {
        serve_by_threads(&server, listener, all)
    };
    connections.finish(&rt);
    let Accepted {
        had_failures,
        listener_failed,
    } = taken?;
    Ok(ServeReport {
        receipts: server.into_receipts(),
        had_failures,
        listener_failed,
    })
}

/// Appends the receipts of all connections, in order.
fn joined(alloc: Global, parts: Vec<Vec<CallReceipt>>) -> Result<Vec<CallReceipt>, AllocError> {
    let mut all = Vec::new(alloc);
    for mut part in parts {
        all.append(&mut part)?;
    }
    Ok(all)
}

/// Returns the receipts of serving, or why serving failed.
fn receipts_of(alloc: Global, served: ServeReport) -> Result<Vec<CallReceipt>, Refusal>
    ensures err { IfErr result (λ e. (e ≡ Refusal.Memory) ⊎ (e ≡ Refusal.Io)) }
{
    let ServeReport {
        receipts,
        had_failures,
        listener_failed,
    } = served;
    if listener_failed {
        return Err(Refusal::Io);
    }
    if had_failures {
        return Err(Refusal::Memory);
    }
    Ok(joined(alloc, receipts)?)
}

/// Serves the next `connections` connections of a listener to a store (0: without end), each on a
/// thread of its own and until its client ends it. Returns once all of them are over: with the
/// receipts of their calls, by connection and then by order, where the store keeps journals; with
/// none where it keeps none.
///
/// - `Memory` where the process was out of memory, or out of threads for a connection.
/// - `Io` where the listener failed for a reason that lasts. Errors that may pass, as no free
///   descriptor or an aborted connection, are waited out with pauses of 10 milliseconds.
///
/// After a refusal all connections are over, and their receipts are lost. The listener is
/// non-blocking from then on. `accept_with` has more options.
pub fn accept<R, C, G>(
    rt: R,
    alloc: Global,
    store: &Store<C, G>,
    listener: &TcpListener,
    connections: u32,
) -> Result<Vec<CallReceipt>, Refusal>
where
    R: ServerRuntime,
    C: Core + Named + Send + 'static,
    G: Gate + Send + Sync + 'static,
    ensures err { IfErr result (λ e. (e ≡ Refusal.Memory) ⊎ (e ≡ Refusal.Io)) }
    ensures none { store.now.journals ≡ false → IfOk result (λ receipts. receipts.items ≡ []) }
{
    let has_journals = store.has_journals();
    let receipts = if has_journals {
        ReceiptPolicy::KeepAll
    } else {
        ReceiptPolicy::KeepNone
    };
    let serving = Serving {
        receipts,
        connections,
        threads: 0,
        idle: 0,
        most_leap: 0,
        log: Log::Silent,
    };
    let event_loops = EventLoops::threadless(alloc, serving);
    let open = Connections::new(alloc, 0)?;
    let served = accept_with(rt, store, listener, &open, event_loops)?;
    let receipts = receipts_of(alloc, served)?;
    if has_journals {
        Ok(receipts)
    } else {
        drop(receipts);
        Ok(Vec::new(alloc))
    }
}
