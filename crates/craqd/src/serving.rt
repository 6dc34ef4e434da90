//! Starts a store, listens, ticks the store and serves it, as a command line asks for; called by
//! `main`.
ghost use Rattle.std.specs.Prelude.{◌≡◌, if◌then◌else◌, false, true, IfOk};

use crate::audits::print_audits;
use crate::closing::{watch_control, watch_input};
use crate::controlling::run_lines;
use crate::failure::StartFailure;
use crate::fault::Fault;
use crate::line_slot::LineSlot;
use crate::pages::Pages;
use crate::plans::plan_of;
use crate::telling::{Ports, tell_serving};
use crate::ticking::tick_chains;
use craq_cli::{ADDRESS_FORM, Line};
use craq_compact_history::ListCore;
use craq_server::{
    Connections, EventLoops, Log, ReceiptPolicy, ServeReport as Accepted, Serving, accept_with,
};
use craq_workers::{At, Named, OpenGate, OpenedHistory, Store, open_history};
use std::alloc::{AllocError, Global};
use std::io::{ErrorKind, Input, StdinLock};
use std::marker::Brand;
use std::net::{Net, TcpListener, TcpStream};
use std::rt::Files;
use std::sync::atomic::{AtomicBool, Ordering};
use std::sync::{Arc, Wait};
use std::thread::{Scope, Threads};
use std::time::Clock;
use std::{io, thread};

/// The stores that are served, with the name of their history.
pub type RunningStore<N> = Store<At<ListCore, N>, OpenGate>;

/// Returns the failure to listen on the address that the command line gives under this name.
fn listen_failure(alloc: Global, name: &str, address: &str, error: &io::Error) -> StartFailure {
    let reason = match error.kind() {
        ErrorKind::OutOfMemory => return StartFailure::from(Fault::Memory),
        ErrorKind::InvalidInput => format!(in alloc; "{name} {address}: {ADDRESS_FORM}"),
        _ => format!(in alloc; "{name} {address}: {error}"),
    };
    StartFailure::new(Fault::CannotListen, reason)
}

/// Listens on the address that the command line gives under this name.
fn listen<R>(rt: &R, name: &str, address: &str) -> Result<TcpListener, StartFailure>
where
    R: AllocGlobal + Net<Listener = TcpListener, Stream = TcpStream>,
{
    match TcpListener::bind(rt, address) {
        Ok(listener) => Ok(listener),
        Err(error) => Err(listen_failure(rt.alloc(), name, address, &error)),
    }
}

/// Listens for requests for metrics, if the command line asks for that.
fn listen_for_metrics<R>(rt: &R, line: &Line<'_>) -> Result<Option<TcpListener>, StartFailure>
where
    R: AllocGlobal + Net<Listener = TcpListener, Stream = TcpStream>,
{
    let Some(address) = line.metrics else {
        return Ok(None);
    };
    let listener = listen(rt, "--metrics", address)?;
    match listener.set_nonblocking(true) {
        Ok(()) => Ok(Some(listener)),
        Err(_) => Err(StartFailure::from(Fault::CannotListen)),
    }
}

/// Returns the port of a listener, if the system tells it.
fn port_of(listener: &TcpListener) -> Option<u16> {
    match listener.local_addr() {
        Ok(address) => Some(address.port()),
        Err(_) => None,
    }
}

/// Prints the port that clients can connect to.
fn print_port<R: Print>(rt: &R, port: u16) -> Result<(), Fault> {
    println!(rt; "listening {port}")?;
    Ok(())
}

/// The parts of a server that the thread shares that reads standard input.
#[derive(Clone, Copy)]
struct InputParts<'s> {
    connections: &'s Arc<Connections>,
    slot: &'s Arc<LineSlot>,
}

/// A store that is served, and its listener.
#[derive(Drop)]
struct Service<'s, R: Wait, N: Named> {
    rt: R,
    store: &'s RunningStore<N>,
    listener: &'s TcpListener,
    port: u16,
    connections: &'s Connections,
    /// The slot of its control lines, where it takes any.
    slot: Option<&'s LineSlot>,
    /// The pages of its metrics, where it serves them.
    pages: Option<&'s Pages<'s, R, N>>,
    /// True where the server is over.
    over: AtomicBool,
}

/// Returns the outcome of accepting connections, or the fault of following the server.
fn combine_results(
    followed: Result<(), Fault>,
    accepted: Result<Accepted, AllocError>,
) -> Result<Accepted, Fault> {
    match followed {
        Ok(()) => Ok(accepted?),
        Err(fault) => {
            drop(accepted);
            Err(fault)
        }
    }
}

impl<R, N> Service<'_, R, N>
where
    N: Named + Send + 'static,
    R: AllocGlobal + Eprint + Clock + Threads + Wait + Copy + Drop + Send + Sync + 'static,
{
    /// Serves the connections until the server is to end and all are over. Fails where a thread, or
    /// what it needs, cannot be made; no connection was taken then.
    fn accept(&self, event_loops: EventLoops) -> Result<Accepted, AllocError> {
        let (store, connections) = (self.store, self.connections);
        accept_with(self.rt, store, self.listener, connections, event_loops)
    }

    /// Prints the port that clients can connect to once all that the server needs has been made,
    /// and waits until it is to end. Ends the server at once where nothing can be printed.
    fn follow(&self) -> Result<(), Fault>
    where
        R: Print,
    {
        if !self.connections.wait_for_begin(&self.rt) {
            return Ok(());
        }
        let printed = print_port(&self.rt, self.port);
        if printed.is_err() {
            self.connections.end(&self.rt);
            self.connections.cut(&self.rt);
        }
        self.connections.wait_for_end(&self.rt);
        printed
    }

    /// Ticks the chains until the server is over.
    fn tick(&self) {
        tick_chains(&self.rt, self.store, self.connections, &self.over);
    }

    /// Runs the control lines that come, until the server is over.
    fn control(&self) {
        if let Some(slot) = self.slot {
            run_lines(self.rt, self.store, slot);
        }
    }

    /// Serves the pages of its metrics, until the server is over.
    fn show(&self) {
        if let Some(pages) = self.pages {
            pages.serve(&self.over);
        }
    }

    /// Starts the thread that ticks the store and, where the server takes control lines or serves
    /// metrics, the ones that do. Fails where there is no thread; those that were started end by
    /// `release`.
    fn start_threads<'e, E>(&'e self, scope: &Scope<'e, E>) -> Result<(), Fault> {
        if scope.spawn(move || self.tick()).is_err() {
            return Err(Fault::Memory);
        }
        if self.slot.is_some() && scope.spawn(move || self.control()).is_err() {
            return Err(Fault::Memory);
        }
        if self.pages.is_some() && scope.spawn(move || self.show()).is_err() {
            return Err(Fault::Memory);
        }
        Ok(())
    }

    /// Lets the threads end that tick the store and that run control lines.
    fn release(&self) {
        self.over.store(true, Ordering::SeqCst);
        if let Some(slot) = self.slot {
            slot.close(&self.rt);
        }
    }

    /// Serves the connections on one thread while others tick the store and run control lines,
    /// until all are over.
    fn run<'e, E>(
        &'e self,
        scope: &Scope<'e, E>,
        event_loops: EventLoops,
    ) -> Result<Accepted, Fault>
    where
        R: Print,
    {
        if self.start_threads(scope).is_err() {
            self.release();
            return Err(Fault::Memory);
        }
        let Ok(accepting) = scope.spawn(move || self.accept(event_loops)) else {
            self.release();
            return Err(Fault::Memory);
        };
        let followed = self.follow();
        let accepted = accepting.join(&self.rt);
        self.release();
        combine_results(followed, accepted)
    }
}

impl<R, N> Service<'_, R, N>
where
    N: Named + Send + 'static,
    R: AllocGlobal + Print + Eprint + Clock + Threads + Wait + Copy,
    R: Drop + Send + Sync + 'static,
{
    /// Serves the connections while the store is ticked, until all of them and both threads are
    /// over.
    fn run_service(&self, event_loops: EventLoops) -> Result<Accepted, Fault> {
        thread::scope(thread::scope_env(), &self.rt, |scope| {
            self.run(scope, event_loops)
        })
    }
}

/// Prints what the audits of a store with journals find. Then `CannotListen` where the listener
/// failed, or `Memory` where some connection was ended at once because the process was out of
/// memory or threads.
fn finish<R, N>(rt: &R, store: &RunningStore<N>, accepted: Accepted) -> Result<(), Fault>
where
    N: Named + Send + 'static,
    R: AllocGlobal + Print + Wait,
{
    let Accepted {
        receipts,
        had_failures,
        listener_failed,
    } = accepted;
    if store.has_journals() {
        print_audits(rt, store, receipts)?;
    } else {
        drop(receipts);
    }
    if listener_failed {
        return Err(Fault::CannotListen);
    }
    if had_failures {
        return Err(Fault::Memory);
    }
    Ok(())
}

/// Returns the log that a command line asks for.
const fn log_of(line: &Line<'_>) -> Log
    ensures { result ≡ (if line.now.log then Log.Lines else Log.Silent) }
{
    if line.log { Log::Lines } else { Log::Silent }
}

/// Returns the receipt policy of a command line: receipts are kept if the store keeps journals.
const fn policy_of(line: &Line<'_>) -> ReceiptPolicy
    ensures { result ≡ (if line.now.journal then ReceiptPolicy.KeepAll else ReceiptPolicy.KeepNone) }
{
    if line.journal {
        ReceiptPolicy::KeepAll
    } else {
        ReceiptPolicy::KeepNone
    }
}

/// Returns how connections are served as a command line asks for. Receipts are kept where journals
/// are.
const fn serving_of(line: &Line<'_>) -> Serving
    ensures { result ≡ record { receipts = if line.now.journal then ReceiptPolicy.KeepAll else ReceiptPolicy.KeepNone; connections = line.now.connections; threads = line.now.threads; idle = line.now.idle; most_leap = line.now.most_leap; log = if line.now.log then Log.Lines else Log.Silent } }
{
    Serving {
        receipts: policy_of(line),
        connections: line.connections,
        threads: line.threads,
        idle: line.idle,
        most_leap: line.most_leap,
        log: log_of(line),
    }
}

/// Begins to read standard input, where the command line asks for that.
fn watch<R>(rt: R, line: &Line<'_>, parts: InputParts<'_>) -> Result<(), Fault>
where
    R: AllocGlobal + Input<Reader = StdinLock<'static>> + Clock,
    R: Threads + Wait + Copy + Drop + Send + 'static,
{
    if line.control {
        watch_control(rt, parts.connections, parts.slot)
    } else if line.until_input_ends {
        watch_input(rt, parts.connections)
    } else {
        Ok(())
    }
}

/// Returns the slot of a server's control lines, where its command line asks for these.
fn slot_of<'s>(line: &Line<'_>, parts: InputParts<'s>) -> Option<&'s LineSlot> {
    if line.control { Some(parts.slot) } else { None }
}

/// The listeners of a server: that of clients, and that of metrics where it serves them.
#[derive(Clone, Copy)]
struct Listeners<'s> {
    clients: &'s TcpListener,
    metrics: Option<&'s TcpListener>,
}

impl Listeners<'_> {
    /// Returns the ports; `CannotListen` if the system does not tell one.
    fn ports(&self) -> Result<Ports, Fault> {
        let Some(clients) = port_of(self.clients) else {
            return Err(Fault::CannotListen);
        };
        let Some(listener) = self.metrics else {
            return Ok(Ports {
                clients,
                metrics: None,
            });
        };
        match port_of(listener) {
            None => Err(Fault::CannotListen),
            metrics => Ok(Ports { clients, metrics }),
        }
    }
}

/// Returns the pages of a server's metrics, where it serves them.
fn pages_of<'s, R, N>(
    rt: R,
    store: &'s RunningStore<N>,
    listeners: Listeners<'s>,
    connections: &'s Connections,
) -> Option<Pages<'s, R, N>>
where
    N: Named + Send + 'static,
    R: AllocGlobal + Clock + Threads + Wait + Copy + Drop + Send + Sync + 'static,
{
    let listener = listeners.metrics?;
    Some(Pages::new(rt, store, connections, listener))
}

/// Serves the connections of a listener to a store as a command line asks for.
fn serve_listeners<'s, R, N>(
    rt: R,
    store: &'s RunningStore<N>,
    line: &Line<'_>,
    listeners: Listeners<'s>,
    parts: InputParts<'s>,
) -> Result<(), Fault>
where
    N: Named + Send + 'static,
    R: AllocGlobal + Input<Reader = StdinLock<'static>> + Print + Eprint + Clock,
    R: Threads + Wait + Copy + Drop + Send + Sync + 'static,
    R: Net<Listener = TcpListener, Stream = TcpStream>,
{
    let ports = listeners.ports()?;
    watch(rt, line, parts)?;
    tell_serving(&rt, store, line, ports)?;
    let event_loops = EventLoops::new(&rt, rt.alloc(), serving_of(line))?;
    let pages = pages_of(rt, store, listeners, parts.connections);
    let service = Service {
        rt,
        store,
        listener: listeners.clients,
        port: ports.clients,
        connections: parts.connections,
        slot: slot_of(line, parts),
        pages: pages.as_ref(),
        over: AtomicBool::new(false),
    };
    let accepted = service.run_service(event_loops);
    drop(service);
    drop(pages);
    finish(&rt, store, accepted?)
}

/// Listens as a command line asks for and serves the connections to a store.
fn serve_store<R, N>(rt: R, store: &RunningStore<N>, line: &Line<'_>) -> Result<(), StartFailure>
where
    N: Named + Send + 'static,
    R: AllocGlobal + Input<Reader = StdinLock<'static>> + Print + Eprint + Clock,
    R: Threads + Wait + Copy + Drop + Send + Sync + 'static,
    R: Net<Listener = TcpListener, Stream = TcpStream>,
{
    let connections = Arc::new(rt.alloc(), Connections::new(rt.alloc(), line.most)?)?;
    let slot = Arc::new(rt.alloc(), LineSlot::new())?;
    let listener = listen(&rt, "ADDRESS", line.address)?;
    let metrics = listen_for_metrics(&rt, line)?;
    let listeners = Listeners {
        clients: &listener,
        metrics: metrics.as_ref(),
    };
    let parts = InputParts {
        connections: &connections,
        slot: &slot,
    };
    serve_listeners(rt, store, line, listeners, parts)?;
    Ok(())
}

/// Returns the hooks of the store: the two threads of each chain run it.
const fn gate() -> OpenGate
    ensures { result ≡ record { chain_threads = true } }
{
    OpenGate {
        chain_threads: true,
    }
}

/// Starts a store of the chains of a plan file, with journals exactly where the command line asks
/// for them.
fn store_of<R, N>(
    rt: R,
    line: &Line<'_>,
    opened: OpenedHistory,
) -> Result<RunningStore<N>, StartFailure>
where
    N: Named + Send + 'static,
    R: AllocGlobal + Files + Threads + Wait + Copy + Send + 'static,
    requires { opened ≡ N.history }
    ensures { IfOk result (λ store. store.journals ≡ line.now.journal) }
{
    let plan = plan_of(&rt, line.plan)?;
    match Store::start(rt, rt.alloc(), opened, &plan, gate(), line.journal) {
        Ok(store) => Ok(store),
        Err(_) => Err(StartFailure::from(Fault::Memory)),
    }
}

/// Serves as a command line asks for, with a store of this history.
fn serve_named<R, N>(rt: R, line: &Line<'_>, opened: OpenedHistory) -> Result<(), StartFailure>
where
    N: Named + Send + 'static,
    R: AllocGlobal + Files + Input<Reader = StdinLock<'static>> + Print + Eprint + Clock,
    R: Threads + Wait + Copy,
    R: Drop + Send + Sync + 'static + Net<Listener = TcpListener, Stream = TcpStream>,
    requires { opened ≡ N.history }
{
    let store = store_of::<R, N>(rt, line, opened)?;
    let served = serve_store(rt, &store, line);
    store.close(&rt);
    served
}

/// Serves as a command line asks for.
pub fn serve_line<R>(rt: R, line: &Line<'_>) -> Result<(), StartFailure>
where
    R: AllocGlobal + Files + Input<Reader = StdinLock<'static>> + Print + Eprint + Clock,
    R: Threads + Wait + Copy,
    R: Drop + Send + Sync + 'static + Net<Listener = TcpListener, Stream = TcpStream>,
{
    let opened = open_history(rt.alloc())?;
    serve_named::<R, Brand>(rt, line, opened)
}
