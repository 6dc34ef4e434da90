//! Tests tables of kept replies; run by `main`.
use crate::say;
use craq_commands::{Reply, RequestStatus};
use craq_names::{ClientId, Copied, Refusal, RequestNo, Version};
use craq_replies::ReplyTable;
use std::alloc::Global;
use std::io;

/// A call on a table of replies.
#[derive(Drop)]
enum Ask {
    /// Looks up a client's number.
    Look(u64, u64),
    /// Keeps the reply to a client's number.
    Keep(u64, u64, Reply),
    /// Reserves room for a client.
    Reserve(u64),
}

fn look(table: &ReplyTable, client: u64, number: u64) -> Result<RequestStatus<'_>, Refusal> {
    Ok(table.look(ClientId::new(client), RequestNo::new(number)?))
}

fn keep(
    alloc: Global,
    table: &mut ReplyTable,
    client: u64,
    number: u64,
    reply: &Reply,
) -> Result<(), Refusal> {
    let number = RequestNo::new(number)?;
    table.keep(ClientId::new(client), number, reply.copied(alloc)?)?;
    Ok(())
}

fn print_look<R: Print>(rt: &R, table: &ReplyTable, client: u64, number: u64) -> io::Result<()> {
    let known = look(table, client, number);
    println!(rt; "look {client} {number}: {known:?}")
}

fn print_keep<R>(
    rt: &R,
    table: &mut ReplyTable,
    client: u64,
    number: u64,
    reply: &Reply,
) -> io::Result<()>
where
    R: AllocGlobal + Print,
{
    let kept = keep(rt.alloc(), table, client, number, reply);
    println!(rt; "keep {client} {number} {reply:?}: {kept:?}")
}

fn answer<R: AllocGlobal + Print>(rt: &R, table: &mut ReplyTable, ask: &Ask) -> io::Result<()> {
    match ask {
        Ask::Look(client, number) => print_look(rt, table, *client, *number),
        Ask::Keep(client, number, reply) => print_keep(rt, table, *client, *number, reply),
        Ask::Reserve(client) => say(rt, "reserve", table.reserve(ClientId::new(*client))),
    }
}

fn ask_all<R: AllocGlobal + Print>(rt: &R, asks: &[Ask]) -> io::Result<()> {
    let mut table = ReplyTable::new(rt.alloc());
    for ask in asks {
        answer(rt, &mut table, ask)?;
    }
    for (client, kept) in table.items() {
        println!(rt; "client {client}: {kept:?}")?;
    }
    Ok(())
}

/// Prints the results of calls on tables, which keep the replies to each client's newest numbers,
/// by ascending client and ascending number.
pub(crate) fn run<R: AllocGlobal + Print>(rt: &R) -> io::Result<()> {
    ask_all(
        rt,
        &[
            Ask::Look(5, 1),
            Ask::Keep(5, 3, Reply::TooLong),
            Ask::Look(5, 2),
            Ask::Look(5, 3),
            Ask::Look(5, 4),
            Ask::Look(6, 3),
            Ask::Keep(5, 2, Reply::Overflow),
            Ask::Look(5, 3),
            Ask::Look(5, 2),
        ],
    )?;
    ask_all(
        rt,
        &[
            Ask::Reserve(8),
            Ask::Keep(9, 1, Reply::TooLong),
            Ask::Keep(2, 7, Reply::Written(Version::new(4))),
        ],
    )?;
    ask_all(
        rt,
        &[
            Ask::Reserve(1),
            Ask::Reserve(1),
            Ask::Look(1, 1),
            Ask::Keep(1, 1, Reply::Underflow),
            Ask::Look(1, 1),
        ],
    )?;
    fill_window(rt)
}

/// Prints the results of keeping nine replies for one client: eight are kept, and a number below
/// them all is stale.
fn fill_window<R: AllocGlobal + Print>(rt: &R) -> io::Result<()> {
    ask_all(
        rt,
        &[
            Ask::Keep(4, 2, Reply::TooLong),
            Ask::Keep(4, 4, Reply::TooLong),
            Ask::Keep(4, 6, Reply::TooLong),
            Ask::Keep(4, 8, Reply::TooLong),
            Ask::Keep(4, 10, Reply::TooLong),
            Ask::Keep(4, 12, Reply::TooLong),
            Ask::Keep(4, 14, Reply::TooLong),
            Ask::Look(4, 1),
            Ask::Keep(4, 18, Reply::TooLong),
            Ask::Look(4, 1),
            Ask::Look(4, 2),
            Ask::Look(4, 3),
            Ask::Reserve(4),
            Ask::Keep(4, 16, Reply::Overflow),
            Ask::Look(4, 2),
            Ask::Look(4, 3),
            Ask::Look(4, 5),
            Ask::Look(4, 16),
            Ask::Look(4, 20),
        ],
    )
}
