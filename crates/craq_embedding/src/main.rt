//! Embeds a store in a process: three nodes, a client, a node that stops, one that joins, and the
//! audit of the whole run. CI runs it, and the page on embedding explains it line by line.
#![tactic(auto)]

ghost use Rattle.std.specs.Prelude.{◌≡◌};

use craq_audit::Audit;
use craq_commands::{Command, ReadMode, Update};
use craq_compact_history::ListCore;
use craq_model::{Answer, Ask};
use craq_names::{
    ChainId, ClientId, Key, NodeId, NodeName, ObjectId, Pass, Refusal, RequestNo, Value,
};
use craq_place::Plan;
use craq_script::print_answer;
use craq_seat::CallReceipt;
use craq_workers::{At, Client, Named, OpenGate, OpenedHistory, Store, open_history};
use std::alloc::{AllocError, Global};
use std::marker::Brand;
use std::process::ExitCode;
use std::sync::Wait;
use std::sync::atomic::{AtomicBool, Ordering};
use std::thread::Threads;
use std::time::{Clock, Duration};
use std::{io, thread};
use thiserror::Error;

/// The type of this program's stores: the nodes keep compacted histories, and links lose nothing.
/// `N` names the store's history, which exists in the proofs alone.
type Embedded<N> = Store<At<ListCore, N>, OpenGate>;

/// A request: a put with its number and value, or a strong read.
#[derive(Clone, Copy)]
enum Wish<'a> {
    Put(u64, &'a str),
    Read,
}

/// A client of a store, and the receipts of its calls.
#[derive(Drop)]
struct Caller<N: Named> {
    client: Client<At<ListCore, N>, OpenGate>,
    receipts: Vec<CallReceipt>,
}

/// The reason that the program ends early.
#[derive(Debug, Drop, Error)]
enum Fault {
    #[error("{0}")]
    Refused(#[from] Refusal),
    #[error("{0}")]
    Print(#[from] io::Error),
    #[error("{0}")]
    Memory(#[from] AllocError),
}

/// The only chain, its head first.
const PLAN_TEXT: &str = "[[chain]]\nname = \"a\"\nnodes = [1, 2, 3]\n";

/// The chain's id: its index in the chain configuration.
const CHAIN: u16 = 0;

/// Returns the only object.
fn object(alloc: Global) -> Result<ObjectId, Refusal> {
    Ok(ObjectId {
        key: Key::new(alloc, b"colour")?,
        chain: ChainId::new(CHAIN),
    })
}

/// Makes put `number` of client 7.
fn put(alloc: Global, number: u64, value: &str) -> Result<Update, Refusal> {
    let number = RequestNo::new(number)?;
    let object = object(alloc)?;
    match Value::new(alloc, value.as_bytes()) {
        Ok(value) => Ok(Update {
            client: ClientId::new(7),
            number,
            command: Command::Put { object, value },
        }),
        Err(refusal) => Err(refusal),
    }
}

/// Makes the request that is sent to a node.
fn ask_of(alloc: Global, wish: Wish<'_>) -> Result<Ask, Refusal> {
    match wish {
        Wish::Put(number, value) => Ok(Ask::Update(put(alloc, number, value)?)),
        Wish::Read => Ok(Ask::Read {
            object: object(alloc)?,
            mode: ReadMode::Strong,
        }),
    }
}

/// Returns a reply as text.
fn text_of(alloc: Global, answer: &Answer) -> Result<String, Refusal> {
    let mut text = String::new(alloc);
    print_answer(&mut text, answer)?;
    Ok(text)
}

impl<N: Named + Send + 'static> Caller<N> {
    /// Sends one request to a node, keeps the receipt, and returns the reply as text.
    fn call<R>(&mut self, rt: &R, node: NodeName, wish: Wish<'_>) -> Result<String, Refusal>
    where
        R: AllocGlobal + Wait,
    {
        self.receipts.reserve(1)?;
        let ask = ask_of(rt.alloc(), wish)?;
        let (answer, receipt) = self.client.call(rt, node, ask)?;
        self.receipts.push_reserved(receipt);
        text_of(rt.alloc(), &answer)
    }

    /// Sends a request to a node and prints its reply. Retries every 10 ms while the node is not
    /// ready.
    fn ask<R>(&mut self, rt: &R, id: u32, wish: Wish<'_>) -> Result<(), Fault>
    where
        R: AllocGlobal + Print + Clock + Wait,
    {
        let node = NodeName {
            chain: ChainId::new(CHAIN),
            node: NodeId::new(id),
        };
        for _ in rt.forever() {
            match self.call(rt, node, wish) {
                Ok(text) => return Ok(println!(rt; "node {id}: {}", text.as_str())?),
                Err(Refusal::NotReady) => thread::sleep(rt, Duration::from_millis(10)),
                Err(refusal) => return Err(Fault::Refused(refusal)),
            }
        }
        Ok(())
    }

    /// Sends requests before and after the tail changes, and has the run audited.
    fn work<R>(&mut self, rt: R, store: &Embedded<N>) -> Result<(), Fault>
    where
        R: AllocGlobal + Print + Clock + Threads + Wait + Copy + Send + 'static,
    {
        self.ask(&rt, 1, Wish::Put(1, "blue"))?;
        self.ask(&rt, 3, Wish::Read)?;
        change_tail(rt, store)?;
        self.ask(&rt, 1, Wish::Put(2, "green"))?;
        self.ask(&rt, 4, Wish::Read)?;
        print_audit(&rt, store, self.receipts.as_slice())
    }
}

/// Stops and removes the tail, and adds another node.
fn change_tail<R, N>(rt: R, store: &Embedded<N>) -> Result<(), Fault>
where
    N: Named + Send + 'static,
    R: Print + Threads + Wait + Copy + Send + 'static,
{
    let chain = ChainId::new(CHAIN);
    store.stop(&rt, chain, NodeId::new(3))?;
    store.remove(&rt, chain, NodeId::new(3))?;
    store.join(rt, chain, NodeId::new(4))?;
    Ok(println!(rt; "node 3 stopped and went, node 4 joined")?)
}

/// Prints the audit's findings on the chain's journals and these receipts.
fn print_audit<R: Print + Wait, N: Named + Send + 'static>(
    rt: &R,
    store: &Embedded<N>,
    receipts: &[CallReceipt],
) -> Result<(), Fault> {
    let count = receipts.len();
    let printed = match store.audit(rt, ChainId::new(CHAIN), receipts)? {
        Audit::Merged(_) => println!(rt; "audit: one run, with all {count} calls"),
        Audit::NoSender(..) => println!(rt; "audit: a message was never sent"),
        Audit::NoReceipt(_) => println!(rt; "audit: a call is in no journal"),
    };
    Ok(printed?)
}

/// Works with a store as one of its clients.
fn work<R, N>(rt: R, store: &Embedded<N>) -> Result<(), Fault>
where
    N: Named + Send + 'static,
    R: AllocGlobal + Print + Clock + Threads + Wait + Copy + Send + 'static,
{
    let mut caller = Caller {
        client: store.client(&rt, Pass::start())?,
        receipts: Vec::new(rt.alloc()),
    };
    caller.work(rt, store)
}

/// Ticks every node until `over` is set, so that nodes resend what others may lack.
fn tick<R: Clock + Wait, N: Named>(rt: &R, store: &Embedded<N>, over: &AtomicBool) {
    for _ in rt.forever() {
        if over.load(Ordering::SeqCst) {
            break;
        }
        store.tick(rt);
        thread::sleep(rt, Duration::from_millis(20));
    }
}

/// Works with a store that another thread ticks meanwhile.
fn work_ticked<R, N>(rt: R, store: &Embedded<N>) -> Result<(), Fault>
where
    N: Named + Send + 'static,
    R: AllocGlobal + Print + Clock + Threads + Wait + Copy + Drop + Send + Sync + 'static,
{
    let over = AtomicBool::new(false);
    let ending = &over;
    thread::scope(thread::scope_env(), &rt, |scope| {
        if scope.spawn(move || tick(&rt, store, ending)).is_err() {
            return Err(Fault::Refused(Refusal::Memory));
        }
        let worked = work(rt, store);
        ending.store(true, Ordering::SeqCst);
        worked
    })
}

/// Starts the store with this history, works with it and closes it.
fn run<N, R>(rt: R, opened: OpenedHistory) -> Result<(), Fault>
where
    N: Named + Send + 'static,
    R: AllocGlobal + Print + Clock + Threads + Wait + Copy + Drop + Send + Sync + 'static,
    requires { opened ≡ N.history }
{
    let plan = Plan::read(rt.alloc(), PLAN_TEXT)?;
    let gate = OpenGate {
        chain_threads: true,
    };
    let store: Embedded<N> = Store::start(rt, rt.alloc(), opened, &plan, gate, true)?;
    let worked = work_ticked(rt, &store);
    store.close(&rt);
    worked
}

/// Opens the store's history, and runs the program with it.
fn begin<R>(rt: R) -> Result<(), Fault>
where
    R: AllocGlobal + Print + Clock + Threads + Wait + Copy + Drop + Send + Sync + 'static,
{
    let opened = open_history(rt.alloc())?;
    run::<Brand, R>(rt, opened)
}

/// Reports why the program ended early, and returns the exit status.
fn report<R: Eprint>(rt: &R, fault: &Fault) -> u8 {
    let _ = eprintln!(rt; "{fault}");
    1
}

fn main(rt: HostRuntime) -> ExitCode {
    match begin(rt) {
        Ok(()) => ExitCode::from(0),
        Err(fault) => ExitCode::from(report(&rt, &fault)),
    }
}
