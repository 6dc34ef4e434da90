//! The store, its server and its ticks, each on a thread, beside the clients; in the end its audit.
//! It is served in each manner: by `accept`, and by `accept_with` and a few threads; called by
//! `main`.
ghost use Rattle.std.specs.Prelude.{◌≡◌};

use crate::asks::chain;
use crate::client::ask_all;
use crate::gate::{TestGate, Tested, start_store};
use craq_audit::Audit;
use craq_names::Refusal;
use craq_seat::CallReceipt;
use craq_server::{
    Connections, EventLoops, Log, ReceiptPolicy, ServeReport, Serving, accept, accept_with,
};
use craq_workers::{Named, OpenGate, OpenedHistory, open_history};
use std::alloc::{AllocError, Global};
use std::marker::Brand;
use std::net::{Net, SocketAddr, TcpListener, TcpStream};
use std::sync::Wait;
use std::sync::atomic::{AtomicBool, Ordering};
use std::thread;
use std::thread::{Scope, Threads};
use std::time::{Clock, Duration};

/// Milliseconds between the ticks at which nodes send again what others may lack.
const TICK_MILLISECONDS: u64 = 50;

/// Number of threads that serve all connections where each has none of its own.
const THREADS: u32 = 2;

/// Number of connections.
const CONNECTIONS: u32 = 3;

/// Ways in which the connections of a store are served.
#[derive(Clone, Copy)]
pub enum Manner {
    /// Each on a thread of its own.
    Each,
    /// All by a few threads.
    Together,
}

/// Both manners, in words.
pub const MANNERS: [(Manner, &str); 2] = [
    (
        Manner::Each,
        "three connections over the loopback, a thread for each",
    ),
    (
        Manner::Together,
        "three connections over the loopback, two threads for all",
    ),
];

/// Returns the gate of a store that is served: its threads run each chain, as in `craqd`.
fn served_gate() -> OpenGate {
    OpenGate {
        chain_threads: true,
    }
}

/// Ticks a store until that is over.
fn tick<R: Clock + Wait, N: Named>(rt: &R, store: &Tested<N>, over: &AtomicBool) {
    for _ in rt.forever() {
        if over.load(Ordering::SeqCst) {
            break;
        }
        store.tick(rt);
        thread::sleep(rt, Duration::from_millis(TICK_MILLISECONDS));
    }
}

/// Appends the receipts of all connections, in order.
fn joined(alloc: Global, parts: Vec<Vec<CallReceipt>>) -> Result<Vec<CallReceipt>, AllocError> {
    let mut all = Vec::new(alloc);
    for mut part in parts {
        all.append(&mut part)?;
    }
    Ok(all)
}

/// Serves the connections of a listener by a few threads. Returns the receipts of all calls, in
/// order. Refused as `accept` is.
fn serve_together<R, N>(
    rt: R,
    store: &Tested<N>,
    listener: &TcpListener,
) -> Result<Vec<CallReceipt>, Refusal>
where
    N: Named + Send + 'static,
    R: AllocGlobal + Eprint + Clock + Threads + Wait + Copy + Drop + Send + Sync + 'static,
    R: Net<Listener = TcpListener, Stream = TcpStream>,
{
    let serving = Serving {
        receipts: ReceiptPolicy::KeepAll,
        connections: CONNECTIONS,
        threads: THREADS,
        idle: 0,
        most_leap: 0,
        log: Log::Silent,
    };
    let connections = Connections::new(rt.alloc(), CONNECTIONS)?;
    let event_loops = EventLoops::new(&rt, rt.alloc(), serving)?;
    let served = accept_with(rt, store, listener, &connections, event_loops)?;
    let ServeReport {
        receipts,
        had_failures,
        listener_failed,
    } = served;
    if listener_failed {
        return Err(Refusal::Io);
    }
    if had_failures {
        return Err(Refusal::Memory);
    }
    Ok(joined(rt.alloc(), receipts)?)
}

/// Serves the connections of a listener in this manner. Returns the receipts of all calls, in
/// order.
fn serve_all<R, N>(
    rt: R,
    store: &Tested<N>,
    manner: Manner,
    listener: &TcpListener,
) -> Result<Vec<CallReceipt>, Refusal>
where
    N: Named + Send + 'static,
    R: AllocGlobal + Eprint + Clock + Threads + Wait + Copy + Drop + Send + Sync + 'static,
    R: Net<Listener = TcpListener, Stream = TcpStream>,
{
    match manner {
        Manner::Each => accept(rt, rt.alloc(), store, listener, CONNECTIONS),
        Manner::Together => serve_together(rt, store, listener),
    }
}

/// Returns the receipts, where the clients could ask.
fn served_and_asked(
    served: Result<Vec<CallReceipt>, Refusal>,
    asked: Result<(), Refusal>,
) -> Result<Vec<CallReceipt>, Refusal> {
    match asked {
        Ok(()) => served,
        Err(refusal) => {
            drop(served);
            Err(refusal)
        }
    }
}

/// Has the clients ask at the address of the listener, while the store is ticked and served, each
/// on a thread of its own. Returns the receipts of all calls, in order.
fn ask_served<R, N>(
    rt: R,
    store: &Tested<N>,
    manner: Manner,
    listener: &TcpListener,
    address: SocketAddr,
) -> Result<Vec<CallReceipt>, Refusal>
where
    N: Named + Send + 'static,
    R: AllocGlobal + Print + Eprint + Clock + Threads + Wait + Copy + Drop + Send + Sync + 'static,
    R: Net<Listener = TcpListener, Stream = TcpStream>,
{
    let over = AtomicBool::new(false);
    let ending = &over;
    thread::scope(thread::scope_env(), &rt, |scope| {
        if scope.spawn(move || tick(&rt, store, ending)).is_err() {
            return Err(Refusal::Memory);
        }
        let Ok(serving) = scope.spawn(move || serve_all(rt, store, manner, listener)) else {
            ending.store(true, Ordering::SeqCst);
            return Err(Refusal::Memory);
        };
        let asked = ask_all(&rt, address);
        let served = serving.join(&rt);
        ending.store(true, Ordering::SeqCst);
        served_and_asked(served, asked)
    })
}

/// Prints what an audit with the receipts of this many calls found.
fn print_found<R: Print>(rt: &R, audit: &Audit, count: usize) -> Result<(), Refusal> {
    let printed = match audit {
        Audit::Merged(_) => println!(rt; "audit: merged, {count} calls"),
        Audit::NoSender(..) => println!(rt; "audit: no sender"),
        Audit::NoReceipt(_) => println!(rt; "audit: no receipt"),
    };
    match printed {
        Ok(()) => Ok(()),
        Err(_) => Err(Refusal::Io),
    }
}

/// Prints what the audit of the chain finds with the receipts of all connections.
fn print_audit<R, N>(rt: &R, store: &Tested<N>, receipts: &[CallReceipt]) -> Result<(), Refusal>
where
    N: Named + Send + 'static,
    R: AllocGlobal + Print + Wait,
{
    let audit = store.audit(rt, chain(), receipts)?;
    print_found(rt, &audit, receipts.len())
}

/// Serves the clients at any free port of the loopback, and audits the store.
fn serve_store<R, N>(rt: R, store: &Tested<N>, manner: Manner) -> Result<(), Refusal>
where
    N: Named + Send + 'static,
    R: AllocGlobal + Print + Eprint + Clock + Threads + Wait + Copy + Drop + Send + Sync + 'static,
    R: Net<Listener = TcpListener, Stream = TcpStream>,
{
    let Ok(listener) = TcpListener::bind(&rt, "127.0.0.1:0") else {
        return Err(Refusal::Io);
    };
    let Ok(address) = listener.local_addr() else {
        return Err(Refusal::Io);
    };
    let receipts = ask_served(rt, store, manner, &listener, address)?;
    print_audit(&rt, store, receipts.as_slice())
}

/// Starts a store with this history, serves the clients in this manner, audits it and closes it.
fn serve_named<N, R>(rt: R, manner: Manner, opened: OpenedHistory) -> Result<(), Refusal>
where
    N: Named + Send + 'static,
    R: AllocGlobal + Print + Eprint + Clock + Threads + Wait + Copy + Drop + Send + Sync + 'static,
    R: Net<Listener = TcpListener, Stream = TcpStream>,
    requires { opened ≡ N.history }
{
    let gate = TestGate::Open(served_gate());
    let store: Tested<N> = start_store(rt, rt.alloc(), opened, gate, true)?;
    let served = serve_store(rt, &store, manner);
    store.close(&rt);
    served
}

/// Serves the clients in this manner from a store of its own.
pub fn serve_clients<R>(rt: R, manner: Manner) -> Result<(), Refusal>
where
    R: AllocGlobal + Print + Eprint + Clock + Threads + Wait + Copy + Drop + Send + Sync + 'static,
    R: Net<Listener = TcpListener, Stream = TcpStream>,
{
    let opened = open_history(rt.alloc())?;
    serve_named::<Brand, R>(rt, manner, opened)
}
