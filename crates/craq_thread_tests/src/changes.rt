//! Tests that nodes can stop, be removed and join while clients send requests and messages are
//! lost; called by `cases`.
use crate::asker::Asker;
use crate::asks::chain;
use crate::calls::confirm;
use crate::case_gate::Signs;
use crate::fault::{Fact, Fault, expect};
use crate::gate::Tested;
use crate::waits::rest;
use craq_names::{NodeId, Refusal};
use craq_seat::CallReceipt;
use craq_workers::Named;
use std::alloc::AllocError;
use std::sync::atomic::{AtomicU32, AtomicU64, Ordering};
use std::sync::{Arc, Wait};
use std::thread;
use std::thread::{JoinHandle, Threads};

/// The number of concurrent clients.
const CLIENTS: u64 = 4;

/// The number of calls that each of them makes, every second one a put.
const CALLS: u64 = 2500;

/// The number of calls that all of them make.
const TOTAL: u64 = CLIENTS * CALLS;

/// The largest number of polls of a wait for calls.
const MOST_TURNS: u32 = 3000;

/// The number of polls without a finished call after which all clients are taken to wait.
const A_WHILE: u32 = 10;

/// The values that the clients and the thread that changes the members share.
#[derive(Drop)]
struct Course {
    /// The node that puts go to.
    head: AtomicU32,
    /// The node that reads go to.
    tail: AtomicU32,
    /// The number of puts that wait for their replies.
    waiting: AtomicU64,
    /// The number of finished calls.
    made: AtomicU64,
    /// The number of finished calls that were puts.
    puts: AtomicU64,
    /// The number of finished calls that were refused.
    refused: AtomicU64,
}

impl Course {
    fn new() -> Course {
        Course {
            head: AtomicU32::new(1),
            tail: AtomicU32::new(3),
            waiting: AtomicU64::new(0),
            made: AtomicU64::new(0),
            puts: AtomicU64::new(0),
            refused: AtomicU64::new(0),
        }
    }

    /// Sends a put to the head.
    fn put<R: Wait, N: Named>(&self, rt: &R, asker: &mut Asker<N>) -> Result<(), Refusal> {
        self.waiting.fetch_add(1, Ordering::SeqCst);
        let put = asker.put(rt, self.head.load(Ordering::SeqCst));
        self.waiting.fetch_sub(1, Ordering::SeqCst);
        self.puts.fetch_add(1, Ordering::SeqCst);
        put
    }

    /// Sends a put for an even `turn`, a read for an odd one. After a refusal the client rests.
    fn call<R: Wait, N: Named>(&self, rt: &R, host: HostRuntime, asker: &mut Asker<N>, turn: u64) {
        let called = if turn % 2 == 0 {
            self.put(rt, asker)
        } else {
            asker.read(rt, self.tail.load(Ordering::SeqCst))
        };
        self.made.fetch_add(1, Ordering::SeqCst);
        if called.is_err() {
            self.refused.fetch_add(1, Ordering::SeqCst);
            rest(host);
        }
    }
}

/// Makes all calls of a client.
fn ask_on<R: Wait, N: Named>(
    rt: &R,
    host: HostRuntime,
    mut asker: Asker<N>,
    course: &Course,
) -> Asker<N> {
    for turn in 0..CALLS {
        course.call(rt, host, &mut asker, turn);
    }
    asker
}

/// Ticks until a counter reaches a number, or the polls are used up.
fn tick_until<R: Wait, N: Named>(
    rt: &R,
    host: HostRuntime,
    store: &Tested<N>,
    counter: &AtomicU64,
    wanted: u64,
) {
    for _ in 0..MOST_TURNS {
        if counter.load(Ordering::SeqCst) >= wanted {
            return;
        }
        store.tick(rt);
        rest(host);
    }
}

/// Ticks until no call finishes for a while, or the polls are used up.
fn tick_until_stuck<R: Wait, N: Named>(
    rt: &R,
    host: HostRuntime,
    store: &Tested<N>,
    made: &AtomicU64,
) {
    let mut before = TOTAL;
    for turn in 0..MOST_TURNS {
        store.tick(rt);
        rest(host);
        if turn % A_WHILE == 0 {
            let now = made.load(Ordering::SeqCst);
            if now == before {
                return;
            }
            before = now;
        }
    }
}

/// Stops the last node so that puts wait, adds another, and removes the stopped one. Returns the
/// number of puts that waited.
fn change_tail<R, N>(
    rt: R,
    host: HostRuntime,
    store: &Tested<N>,
    course: &Course,
) -> Result<u64, Refusal>
where
    N: Named + Send + 'static,
    R: Threads + Wait + Copy + Send + 'static,
{
    let chain = chain();
    store.stop(&rt, chain, NodeId::new(3))?;
    course.tail.store(2, Ordering::SeqCst);
    tick_until_stuck(&rt, host, store, &course.made);
    store.join(rt, chain, NodeId::new(4))?;
    let waiting = course.waiting.load(Ordering::SeqCst);
    store.remove(&rt, chain, NodeId::new(3))?;
    Ok(waiting)
}

/// Stops and removes the first node.
fn change_head<R: Wait, N: Named + Send + 'static>(
    rt: &R,
    store: &Tested<N>,
    course: &Course,
) -> Result<(), Refusal> {
    let chain = chain();
    store.stop(rt, chain, NodeId::new(1))?;
    store.remove(rt, chain, NodeId::new(1))?;
    course.head.store(2, Ordering::SeqCst);
    course.tail.store(4, Ordering::SeqCst);
    Ok(())
}

/// Changes the tail after a quarter of the calls, and the head after half of them. Returns the
/// number of puts that waited when the tail changed.
fn change_members<R, N>(
    rt: R,
    host: HostRuntime,
    store: &Tested<N>,
    course: &Course,
) -> Result<u64, Refusal>
where
    N: Named + Send + 'static,
    R: Threads + Wait + Copy + Send + 'static,
{
    tick_until(&rt, host, store, &course.made, TOTAL / 4);
    let waiting = change_tail(rt, host, store, course)?;
    tick_until(&rt, host, store, &course.made, TOTAL / 2);
    change_head(&rt, store, course)?;
    tick_until(&rt, host, store, &course.made, TOTAL);
    Ok(waiting)
}

/// Starts a client on a thread of its own.
fn start_asker<R, N>(
    rt: R,
    host: HostRuntime,
    store: &Tested<N>,
    course: &Arc<Course>,
    id: u64,
) -> Result<JoinHandle<Asker<N>>, Refusal>
where
    N: Named + Send + 'static,
    R: Threads + Wait + Copy + Send + 'static,
{
    let theirs = Arc::try_clone(course)?;
    let asker = Asker::new(&rt, host.alloc(), store, id)?;
    match thread::spawn(&rt, move || ask_on(&rt, host, asker, &theirs)) {
        Ok(caller) => Ok(caller),
        Err(_) => Err(Refusal::Memory),
    }
}

/// Starts all clients and changes the members. Returns the number of puts that waited when the tail
/// changed.
fn ask_and_change<R, N>(
    rt: R,
    host: HostRuntime,
    store: &Tested<N>,
    course: &Arc<Course>,
    callers: &mut Vec<JoinHandle<Asker<N>>>,
) -> Result<u64, Refusal>
where
    N: Named + Send + 'static,
    R: Threads + Wait + Copy + Send + 'static,
{
    for id in 1..=CLIENTS {
        callers.push(start_asker(rt, host, store, course, id)?)?;
    }
    change_members(rt, host, store, course)
}

/// Waits for the clients, and takes the receipts of all their calls.
fn join_all<R: Threads, N: Named>(
    rt: &R,
    callers: Vec<JoinHandle<Asker<N>>>,
    receipts: &mut Vec<CallReceipt>,
) -> Result<(), AllocError> {
    for caller in callers {
        let mut asker = caller.join(rt);
        let taken = receipts.append(&mut asker.receipts);
        drop(asker);
        taken?;
    }
    Ok(())
}

/// Prints the number of finished calls.
fn print_counts(host: HostRuntime, course: &Course) {
    let made = course.made.load(Ordering::SeqCst);
    let puts = course.puts.load(Ordering::SeqCst);
    let _ = println!(host; "{made} calls come back, {puts} of them puts");
}

/// Returns true if all calls finished, half of them puts.
fn came_back(course: &Course) -> bool {
    course.made.load(Ordering::SeqCst) == TOTAL && course.puts.load(Ordering::SeqCst) == TOTAL / 2
}

/// Returns true if at least nine of ten calls were answered and not refused.
fn were_answered(course: &Course) -> bool {
    course.refused.load(Ordering::SeqCst) <= TOTAL / 10
}

/// Runs all clients while members change, and collects the receipts of their calls. Returns the
/// number of puts that waited when the tail changed.
fn ask_all<R, N>(
    rt: R,
    host: HostRuntime,
    store: &Tested<N>,
    course: &Arc<Course>,
    receipts: &mut Vec<CallReceipt>,
) -> Result<u64, Refusal>
where
    N: Named + Send + 'static,
    R: Threads + Wait + Copy + Send + 'static,
{
    let mut callers = Vec::new(host.alloc());
    match ask_and_change(rt, host, store, course, &mut callers) {
        Ok(waiting) => {
            join_all(&rt, callers, receipts)?;
            Ok(waiting)
        }
        Err(refusal) => {
            drop(callers);
            Err(refusal)
        }
    }
}

/// Changes members while clients send requests. Every call must finish, few may be refused, and the
/// audit must find a run with their receipts.
fn go_on<R, N>(
    rt: R,
    host: HostRuntime,
    store: &Tested<N>,
    signs: &Signs,
    course: &Arc<Course>,
    receipts: &mut Vec<CallReceipt>,
) -> Result<(), Fault>
where
    N: Named + Send + 'static,
    R: Threads + Wait + Copy + Send + 'static,
{
    let waiting = ask_all(rt, host, store, course, receipts)?;
    print_counts(host, course);
    expect(came_back(course), Fact::ComesBack)?;
    expect(were_answered(course), Fact::NineOfTen)?;
    expect(waiting > 0, Fact::PutsWait)?;
    expect(signs.are_counted(), Fact::IsCounted)?;
    confirm(&rt, store, receipts.as_slice())
}

/// Stops, removes and adds nodes, and loses messages, while clients keep sending requests.
pub fn changes<R, N>(
    rt: R,
    host: HostRuntime,
    store: &Tested<N>,
    signs: &Signs,
) -> Result<(), Fault>
where
    N: Named + Send + 'static,
    R: Threads + Wait + Copy + Send + 'static,
{
    let course = Arc::new(host.alloc(), Course::new())?;
    let mut receipts = Vec::new(host.alloc());
    go_on(rt, host, store, signs, &course, &mut receipts)
}
