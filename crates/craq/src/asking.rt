//! Asks one request of a verb until it is answered or its deadline comes: finds the head, and
//! retries after a lost connection or a passing refusal; for `people` and `health`.
use crate::calling::message_in;
use crate::chains::{ServedChain, chains, members_of};
use crate::deadline::Deadline;
use crate::link::{Failure, ServerLink};
use craq_cli::Request;
use craq_frames::ClientReply;
use craq_names::{ChainId, NodeId, Pass, Refusal};
use std::net::{Net, TcpListener, TcpStream};
use std::sync::Wait;
use std::time::{Clock, Duration};

/// The number of the last try of a request, from 0. Where each try fails at once it comes 8 to 9
/// seconds after the first, so that a person who stops a node has the time to remove it.
const LAST_TRY: u64 = 18;

/// The number of the last try where no server answers, which comes a second after the first.
const LAST_UNSENT_TRY: u64 = 5;

/// The wait before a retry grows by this many milliseconds with each retry.
const PAUSE_MILLISECONDS: u64 = 50;

/// The server of requests, the pass that they show, and their deadline.
#[derive(Clone, Copy, Debug)]
pub struct Target {
    /// The time at which they are given up.
    pub deadline: Deadline,
    /// The largest pass that was received so far.
    pub pass: Pass,
    /// The chain of the request's objects.
    pub chain: ChainId,
    /// The node that the command line names. It is asked once.
    pub pinned: Option<NodeId>,
    /// The head, if a refusal has named it.
    pub head: Option<NodeId>,
    /// Any number, by which a member is chosen for a read.
    pub seed: u64,
}

/// A request that was not answered.
#[derive(Clone, Copy, Debug)]
pub struct Unanswered {
    /// The last failure.
    pub failure: Failure,
    /// True if an update may have been done.
    pub is_open: bool,
}

/// Returns true if a request that failed so in this turn may be retried.
fn passes(failure: Failure, turn: u64) -> bool {
    match failure {
        Failure::Memory | Failure::NoReply | Failure::NoClock => false,
        Failure::Unsent => turn < LAST_UNSENT_TRY,
        Failure::Broken | Failure::Late => true,
        Failure::Refused(refusal) => matches!(refusal.number(), 9 | 10 | 11 | 12 | 14 | 27),
    }
}

/// Returns true if an update that was sent and failed so may have been done.
fn leaves_open(failure: &Failure) -> bool {
    match failure {
        Failure::Memory | Failure::Unsent | Failure::NoClock => false,
        Failure::Broken | Failure::Late | Failure::NoReply => true,
        Failure::Refused(refusal) => matches!(refusal.number(), 11 | 14 | 27),
    }
}

impl Target {
    /// Returns the member that is asked: the head for an update, else one by this turn.
    fn member(&self, members: &[NodeId], read_turn: Option<u64>) -> Result<NodeId, Failure> {
        let place = match read_turn {
            None => 0,
            Some(turn) => {
                let count = members.len() as u64;
                self.seed.wrapping_add(turn).checked_rem(count).unwrap_or(0)
            }
        };
        match members.get(place as usize) {
            Some(node) => Ok(*node),
            None => Err(Failure::NoReply),
        }
    }

    /// Returns the node that is asked in this turn. Asks for the members unless the node is known,
    /// and waits for them until this deadline.
    fn node<R>(
        &self,
        rt: &R,
        link: &mut ServerLink<'_>,
        read_turn: Option<u64>,
        deadline: Deadline,
    ) -> Result<NodeId, Failure>
    where
        R: AllocGlobal + Clock + Net<Listener = TcpListener, Stream = TcpStream>,
    {
        if let Some(node) = self.pinned {
            return Ok(node);
        }
        if let (Some(head), None) = (self.head, read_turn) {
            return Ok(head);
        }
        let chains = chains(rt, link, deadline)?;
        self.member(members_of(chains.as_slice(), self.chain)?, read_turn)
    }

    /// Prepares the next try: goes to the head that a refusal names, or waits. Returns false if there
    /// is no next try: the target names a node, the failure lasts, or no time is left.
    fn prepare<R: Clock>(&mut self, rt: &R, failure: Failure, turn: u64) -> bool {
        if self.pinned.is_some() || !passes(failure, turn) {
            return false;
        }
        self.head = head_in(&failure);
        if self.head.is_some() {
            self.deadline.left(rt).is_some()
        } else {
            self.deadline.pause(rt, pause_of(turn))
        }
    }
}

/// Returns the head that a refusal names.
fn head_in(failure: &Failure) -> Option<NodeId> {
    match failure {
        Failure::Refused(refusal) => match refusal {
            Refusal::NotHead(head) => Some(*head),
            _ => None,
        },
        _ => None,
    }
}

/// Returns the wait before the try after this one.
fn pause_of(turn: u64) -> Duration {
    Duration::from_millis(PAUSE_MILLISECONDS.saturating_mul(turn.saturating_add(1)))
}

/// Returns true for a read.
fn is_read(request: &Request) -> bool {
    matches!(request, Request::Read { .. })
}

impl Unanswered {
    /// Returns the state after a request that was not sent.
    fn unsent(failure: Failure) -> Self {
        Unanswered {
            failure,
            is_open: false,
        }
    }

    /// Returns the state after a request that was sent and not answered.
    fn sent(failure: Failure) -> Self {
        let is_open = leaves_open(&failure);
        Unanswered { failure, is_open }
    }
}

/// Sends a request to a node once, and waits for its reply until the deadline.
fn send<R>(
    rt: &R,
    link: &mut ServerLink<'_>,
    sender: (NodeId, Pass),
    request: &Request,
    deadline: Deadline,
) -> Result<ClientReply, Unanswered>
where
    R: AllocGlobal + Clock + Net<Listener = TcpListener, Stream = TcpStream>,
{
    let (node, pass) = sender;
    match message_in(rt.alloc(), node, pass, request) {
        Ok(message) => {
            let replied = link.ask(rt, &message, deadline);
            drop(message);
            match replied {
                Ok(ClientReply::Refused(refusal)) => {
                    Err(Unanswered::sent(Failure::Refused(refusal)))
                }
                Ok(reply) => Ok(reply),
                Err(failure) => Err(Unanswered::sent(failure)),
            }
        }
        Err(Refusal::Memory) => Err(Unanswered::unsent(Failure::Memory)),
        Err(refusal) => Err(Unanswered::unsent(Failure::Refused(refusal))),
    }
}

/// Asks a request once, within 10 seconds and before the target's deadline.
fn try_once<R>(
    rt: &R,
    link: &mut ServerLink<'_>,
    target: &Target,
    request: &Request,
    turn: u64,
) -> Result<ClientReply, Unanswered>
where
    R: AllocGlobal + Clock + Net<Listener = TcpListener, Stream = TcpStream>,
{
    let deadline = target.deadline.of_try(rt);
    let read_turn = if is_read(request) { Some(turn) } else { None };
    match target.node(rt, link, read_turn, deadline) {
        Ok(node) => send(rt, link, (node, target.pass), request, deadline),
        Err(failure) => Err(Unanswered::unsent(failure)),
    }
}

/// Asks a request until it is answered: 19 times at most, 6 times if no server answers, once if the
/// target names a node, and no longer than until the target's deadline. Returns the reply,
/// and true if an earlier try may have done the update.
pub fn answered<R>(
    rt: &R,
    link: &mut ServerLink<'_>,
    target: &mut Target,
    request: &Request,
) -> Result<(ClientReply, bool), Unanswered>
where
    R: AllocGlobal + Clock + Wait + Net<Listener = TcpListener, Stream = TcpStream>,
{
    let mut is_open = false;
    for turn in 0..LAST_TRY {
        match try_once(rt, link, target, request, turn) {
            Ok(reply) => return Ok((reply, is_open)),
            Err(tried) => {
                let failure = tried.failure;
                is_open = is_open || tried.is_open;
                if !target.prepare(rt, failure, turn) {
                    return Err(Unanswered { failure, is_open });
                }
            }
        }
    }
    match try_once(rt, link, target, request, LAST_TRY) {
        Ok(reply) => Ok((reply, is_open)),
        Err(tried) => Err(Unanswered {
            failure: tried.failure,
            is_open: is_open || tried.is_open,
        }),
    }
}

/// Returns true if the chains, which did not come in this turn, may come with a later try.
fn may_come_later(known: &Result<Vec<ServedChain>, Failure>, turn: u64) -> bool {
    match known {
        Ok(_) => false,
        Err(failure) => passes(*failure, turn),
    }
}

/// Asks for the chains until they come: 19 times at most, 6 times if no server answers, and no longer
/// than until the deadline.
pub fn known_chains<R>(
    rt: &R,
    link: &mut ServerLink<'_>,
    deadline: Deadline,
) -> Result<Vec<ServedChain>, Failure>
where
    R: AllocGlobal + Clock + Wait + Net<Listener = TcpListener, Stream = TcpStream>,
{
    for turn in 0..LAST_TRY {
        let known = chains(rt, link, deadline.of_try(rt));
        if !may_come_later(&known, turn) || !deadline.pause(rt, pause_of(turn)) {
            return known;
        }
        drop(known);
    }
    chains(rt, link, deadline.of_try(rt))
}
