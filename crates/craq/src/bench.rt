//! `craq bench`: a load of puts and strong reads over several connections, and its results as a
//! table and a histogram; called by `main`.
ghost use Rattle.std.specs.Prelude.{◌<◌};

use crate::calling::{Asker, connection, exchange_over};
use crate::deadline::{Deadline, MOST_SECONDS};
use crate::fault::Fault;
use crate::identity::nanoseconds;
use crate::tally::Tally;
use craq_cli::BenchLoad;
use craq_commands::{Command, ReadMode, Reply, Update};
use craq_frames::{ClientMessage, ClientReply};
use craq_names::{ChainId, ClientId, Key, ObjectId, RequestNo, Value};
use std::alloc::{AllocError, Global};
use std::net::{Net, TcpListener, TcpStream};
use std::sync::{Mutex, Wait};
use std::thread;
use std::thread::Threads;
use std::time::{Clock, Duration};

/// The client of the first connection; that of each later one is the next. Each run uses the same
/// clients, so that the store keeps replies to these alone: the bytes "craq" and zeros.
const FIRST_CLIENT: u64 = 0x6372_6171_0000_0000;

/// The digits of a put's value, again and again.
const DIGITS: &[u8; 16] = b"0123456789abcdef";

/// An odd number by which the numbers of requests are spread over the objects: 2^64 divided by the
/// golden ratio.
const SPREAD: u64 = 0x9e37_79b9_7f4a_7c15;

/// The bounds of the histogram, in microseconds.
const BOUNDS: [u64; 13] = [
    10, 20, 50, 100, 200, 500, 1_000, 2_000, 5_000, 10_000, 20_000, 50_000, 100_000,
];

/// The longest bar of the histogram.
const BAR: &str = "##################################################";

/// The headings of the table, over the columns of `print_tally`.
const HEADINGS: &str =
    "request        answered   a second  refused   50% us   95% us   99% us   all us";

/// The results of a load.
#[derive(Drop)]
struct LoadResults {
    reads: Tally,
    puts: Tally,
    /// The fault that ended a connection before the load was over.
    fault: Option<Fault>,
}

/// The display of a load's progress.
#[derive(Clone, Copy, Debug, PartialEq, Eq)]
pub enum ProgressDisplay {
    Shown,
    Hidden,
}

/// The end of a request.
#[derive(Clone, Copy, Debug, PartialEq, Eq)]
enum Ended {
    /// It was done.
    Done,
    /// It was refused, or wrote nothing.
    Refused,
}

/// A load on a node.
#[derive(Clone, Copy)]
struct NodeLoad<'a> {
    asker: Asker<'a>,
    load: BenchLoad,
    /// The value of each put.
    value: &'a [u8],
    progress: ProgressDisplay,
}

/// The client of one connection of a load.
#[derive(Clone, Copy)]
struct LoadClient<'a> {
    asker: Asker<'a>,
    load: BenchLoad,
    /// The value of each put.
    value: &'a [u8],
    /// The index of the connection, from 0.
    index: u64,
    /// The number of its first put is the next one.
    before: u64,
    /// The time at which the load is over, by the clock of the system.
    until: Duration,
}

/// Returns the time by the clock of the system. Fails with `System` if the clock does.
fn now<R: Clock>(rt: &R) -> Result<Duration, Fault> {
    match rt.monotonic() {
        Ok(now) => Ok(now),
        Err(_) => Err(Fault::System),
    }
}

/// Returns whether request `number` of a connection is a read: `reads` of 100 are, spread evenly.
fn is_read(number: u64, reads: u64) -> bool {
    let place = number % 100;
    place.saturating_mul(reads) % 100 < reads
}

/// Returns the object of request `number` of a connection, of `keys` ones. The requests of all
/// connections are spread over the objects.
fn key_of(index: u64, number: u64, keys: u64) -> u64
    requires { 0 < keys }
    ensures { result < keys }
{
    let place = number.wrapping_add(index.wrapping_mul(SPREAD));
    (place.wrapping_mul(SPREAD) >> 32) % keys
}

/// Makes the object that request `number` of a connection reads or writes, on chain 0. Fails only
/// when out of memory.
fn bench_object(alloc: Global, caller: &LoadClient<'_>, number: u64) -> Result<ObjectId, Fault> {
    let key = key_of(caller.index, number, caller.load.keys.max(1));
    let key = format!(in alloc; "bench-{key}")?;
    match Key::new(alloc, key.as_str().as_bytes()) {
        Ok(key) => Ok(ObjectId {
            chain: ChainId::new(0),
            key,
        }),
        Err(_) => Err(Fault::Memory),
    }
}

/// Makes the message of a read. Fails only when out of memory.
fn read_message(caller: &LoadClient<'_>, object: ObjectId) -> ClientMessage {
    ClientMessage::Read {
        node: caller.asker.node,
        pass: caller.asker.pass,
        mode: ReadMode::Strong,
        object,
    }
}

/// Makes the message of a put of this number. Fails only when out of memory.
fn put_message(
    alloc: Global,
    caller: &LoadClient<'_>,
    object: ObjectId,
    number: u64,
) -> Result<ClientMessage, Fault> {
    let (Ok(value), Ok(number)) = (Value::new(alloc, caller.value), RequestNo::new(number)) else {
        return Err(Fault::Memory);
    };
    Ok(ClientMessage::Update {
        node: caller.asker.node,
        pass: caller.asker.pass,
        update: Update {
            client: ClientId::new(FIRST_CLIENT.wrapping_add(caller.index)),
            number,
            command: Command::Put { object, value },
        },
    })
}

/// Returns the microseconds from one time to another; 0 if it is not later.
pub fn microseconds(from: Duration, to: Duration) -> u64 {
    let took = to.saturating_sub(from).as_micros();
    if took < u128::from(u64::MAX) {
        took as u64
    } else {
        u64::MAX
    }
}

/// Counts a reply with its time, or a refusal.
fn count(tally: &mut Tally, ended: Ended, microseconds: u64) {
    match ended {
        Ended::Done => tally.answer(microseconds),
        Ended::Refused => tally.refuse(),
    }
}

/// Makes the message of request `number` of a connection: a put of this number, or a read if there
/// is none. Fails only when out of memory.
fn message_of(
    alloc: Global,
    caller: &LoadClient<'_>,
    number: u64,
    put: Option<u64>,
) -> Result<ClientMessage, Fault> {
    let object = bench_object(alloc, caller, number)?;
    match put {
        Some(put) => put_message(alloc, caller, object, put),
        None => Ok(read_message(caller, object)),
    }
}

/// Returns the end of a request with this reply: it is not done if it is refused, or a put did not
/// write.
const fn end_of(reply: &ClientReply) -> Ended {
    match reply {
        ClientReply::Refused(_) => Ended::Refused,
        ClientReply::Update { reply, .. } => match reply {
            Reply::Written(_) => Ended::Done,
            _ => Ended::Refused,
        },
        _ => Ended::Done,
    }
}

/// Sends a message over a connection. Returns the end of the request, and the connection.
fn ask_over(
    alloc: Global,
    stream: TcpStream,
    message: ClientMessage,
) -> Result<(Ended, TcpStream), Fault> {
    let asked = exchange_over(alloc, stream, &message);
    drop(message);
    let (reply, stream) = asked?;
    let ended = end_of(&reply);
    drop(reply);
    Ok((ended, stream))
}

/// Connects to the server. Each read and each write of the connection may take 20 seconds.
fn patient_connection<R>(rt: &R, address: &str) -> Result<TcpStream, Fault>
where
    R: Clock + Net<Listener = TcpListener, Stream = TcpStream>,
{
    let stream = connection(rt, address, Deadline::begin(rt)?)?;
    let time = Some(Duration::from_secs(MOST_SECONDS));
    if stream.set_read_timeout(time).is_err() || stream.set_write_timeout(time).is_err() {
        return Err(Fault::Connection);
    }
    Ok(stream)
}

/// Sends one request after another over a connection, until the load is over. `Connection` if a part
/// of a reply takes longer than 20 seconds.
fn run_connection<R>(
    rt: &R,
    caller: &LoadClient<'_>,
    reads: &mut Tally,
    puts: &mut Tally,
) -> Result<(), Fault>
where
    R: AllocGlobal + Clock + Net<Listener = TcpListener, Stream = TcpStream>,
{
    let mut stream = patient_connection(rt, caller.asker.address)?;
    let mut began = now(rt)?;
    let mut put = caller.before;
    for number in 0..u64::MAX {
        if began >= caller.until {
            break;
        }
        let is_read = is_read(number, caller.load.reads);
        if !is_read {
            put = put.saturating_add(1);
        }
        let put = if is_read { None } else { Some(put) };
        let message = message_of(rt.alloc(), caller, number, put)?;
        let (ended, back) = ask_over(rt.alloc(), stream, message)?;
        stream = back;
        let after = now(rt)?;
        let tally = if is_read { &mut *reads } else { &mut *puts };
        count(tally, ended, microseconds(began, after));
        began = after;
    }
    Ok(())
}

/// Runs one connection of a load, and adds its results.
fn run_caller<R>(rt: &R, caller: &LoadClient<'_>, outcome: &Mutex<LoadResults>)
where
    R: AllocGlobal + Clock + Wait + Net<Listener = TcpListener, Stream = TcpStream>,
{
    let (Ok(mut reads), Ok(mut puts)) = (Tally::new(rt.alloc()), Tally::new(rt.alloc())) else {
        outcome.lock(rt).fault = Some(Fault::Memory);
        return;
    };
    let ran = run_connection(rt, caller, &mut reads, &mut puts);
    let mut whole = outcome.lock(rt);
    whole.reads.add(&reads);
    whole.puts.add(&puts);
    if let Err(fault) = ran {
        whole.fault = Some(fault);
    }
}

/// Prints on standard error, each second, how many of the seconds are over.
fn tell_progress<R: Eprint + Clock>(rt: &R, seconds: u64) {
    for second in 0..seconds {
        thread::sleep(rt, Duration::from_secs(1));
        let over = second + 1;
        let _ = eprint!(rt; "\r{over} of {seconds} seconds");
    }
    let _ = eprintln!(rt; "");
}

/// Prints a line of the table.
fn print_tally<R: Print>(rt: &R, name: &str, tally: &Tally, seconds: u64) -> Result<(), Fault> {
    let answered = tally.answered;
    let refused = tally.refused;
    let rate = answered.checked_div(seconds).unwrap_or(0);
    let (half, most, nearly_all) = (tally.within(50), tally.within(95), tally.within(99));
    let longest = tally.longest;
    match println!(rt;
        "{name:<12} {answered:>10} {rate:>10} {refused:>8} {half:>8} {most:>8} {nearly_all:>8} {longest:>8}"
    ) {
        Ok(()) => Ok(()),
        Err(error) => Err(Fault::CannotPrint(error)),
    }
}

/// Returns the bar of a count among all.
fn bar_of(count: u64, all: u64) -> &'static str {
    let longest = BAR.len() as u64;
    let length = count.saturating_mul(longest) / all.max(1);
    BAR.get(..length.min(longest) as usize).unwrap_or(BAR)
}

/// Prints a line of the histogram, if any answer belongs there.
fn print_bin<R: Print>(rt: &R, name: &str, reads: u64, puts: u64, all: u64) -> Result<(), Fault> {
    let both = reads.saturating_add(puts);
    if both == 0 {
        return Ok(());
    }
    let bar = bar_of(both, all);
    match println!(rt; "{name:<12} {reads:>10} {puts:>10} {bar}") {
        Ok(()) => Ok(()),
        Err(error) => Err(Fault::CannotPrint(error)),
    }
}

/// Prints how many answers took how long: a line for each bound, with the answers that took less
/// than that and no less than the bound before, and one for those that took longer.
fn print_histogram<R: AllocGlobal + Print>(
    rt: &R,
    reads: &Tally,
    puts: &Tally,
) -> Result<(), Fault> {
    if let Err(error) = println!(rt; "\nbelow us           reads       puts") {
        return Err(Fault::CannotPrint(error));
    }
    let all = reads.answered.saturating_add(puts.answered);
    let (mut fewer_reads, mut fewer_puts) = (0u64, 0u64);
    for bound in BOUNDS {
        let (some_reads, some_puts) = (reads.below(bound), puts.below(bound));
        let (more_reads, more_puts) = (
            some_reads.saturating_sub(fewer_reads),
            some_puts.saturating_sub(fewer_puts),
        );
        let name = format!(in rt.alloc(); "{bound}")?;
        print_bin(rt, name.as_str(), more_reads, more_puts, all)?;
        (fewer_reads, fewer_puts) = (some_reads, some_puts);
    }
    let (last_reads, last_puts) = (
        reads.answered.saturating_sub(fewer_reads),
        puts.answered.saturating_sub(fewer_puts),
    );
    print_bin(rt, "longer", last_reads, last_puts, all)
}

/// Prints the results of a load.
fn print_outcome<R: AllocGlobal + Print>(
    rt: &R,
    reads: &Tally,
    puts: &Tally,
    seconds: u64,
) -> Result<(), Fault> {
    if let Err(error) = println!(rt; "{HEADINGS}") {
        return Err(Fault::CannotPrint(error));
    }
    print_tally(rt, "strong read", reads, seconds)?;
    print_tally(rt, "put", puts, seconds)?;
    print_histogram(rt, reads, puts)
}

/// Makes the value of each put. Fails only when out of memory.
fn value_of(alloc: Global, size: u64) -> Result<Vec<u8>, AllocError> {
    let mut value = Vec::new(alloc);
    for place in 0..size {
        let digit = DIGITS[(place % 16) as usize];
        value.push(digit)?;
    }
    Ok(value)
}

/// Runs all connections of a load at once, and waits for them.
fn run_load<'a, R>(rt: R, load: &NodeLoad<'a>, outcome: &Mutex<LoadResults>) -> Result<(), Fault>
where
    R: AllocGlobal + Eprint + Clock + Threads + Wait,
    R: Net<Listener = TcpListener, Stream = TcpStream> + Copy + Drop + Send + Sync + 'static,
{
    let until = now(&rt)?.saturating_add(Duration::from_secs(load.load.seconds));
    // The numbers of a run's puts are above these, and so above those of earlier runs, since a put
    // takes longer than a nanosecond.
    let before = nanoseconds(&rt)?;
    thread::scope(thread::scope_env(), &rt, |scope| {
        for index in 0..load.load.connections {
            let caller = LoadClient {
                asker: load.asker.same(),
                load: load.load,
                value: load.value,
                index,
                before,
                until,
            };
            if scope
                .spawn(move || run_caller(&rt, &caller, outcome))
                .is_err()
            {
                return Err(Fault::Memory);
            }
        }
        if load.progress == ProgressDisplay::Shown {
            tell_progress(&rt, load.load.seconds);
        }
        Ok(())
    })
}

/// Puts a load on a node for a number of seconds, over a number of connections with one request
/// each under way. Prints the counts of answers and refusals, the times within which half, 95 and
/// 99 of 100 and all of the answers came, and a histogram of these times. Each connection puts as a
/// client of its own, the same one in each run.
pub fn bench<R>(
    rt: R,
    asker: &Asker<'_>,
    load: &BenchLoad,
    progress: ProgressDisplay,
) -> Result<u8, Fault>
where
    R: AllocGlobal + Print + Eprint + Clock + Threads + Wait,
    R: Net<Listener = TcpListener, Stream = TcpStream> + Copy + Drop + Send + Sync + 'static,
{
    let outcome = Mutex::new(LoadResults {
        reads: Tally::new(rt.alloc())?,
        puts: Tally::new(rt.alloc())?,
        fault: None,
    });
    let value = value_of(rt.alloc(), load.size)?;
    let node_load = NodeLoad {
        asker: asker.same(),
        load: *load,
        value: value.as_slice(),
        progress,
    };
    run_load(rt, &node_load, &outcome)?;
    let LoadResults { reads, puts, fault } = outcome.into_inner();
    print_outcome(&rt, &reads, &puts, load.seconds)?;
    match fault {
        None => Ok(0),
        Some(fault) => Err(fault),
    }
}
