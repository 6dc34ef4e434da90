//! The part of a run that clients see, borrowed from it; made by `verdict`, and read by its tests.
ghost use Rattle.std.specs.Prelude.{◌≡◌, ◌++◌, [], IfOk, OnOk};
ghost use Rattle.craq_runs.specs.Seen.{Asked, Answered, asks_from, answers_from, answers_in, receivers_in};

use craq_model::{Answer, Ask, Out};
use craq_names::{NodeId, Ticket};
use craq_runs::{Move, Taken};
use std::alloc::{AllocError, Global};
use std::marker::Model;

/// A request, with the number of its move, its node, and its ticket if it got one.
#[derive(Drop)]
pub struct AskSeen<'a> {
    number: u64,
    node: NodeId,
    ticket: Option<Ticket>,
    ask: &'a Ask,
}

impl<'a> Model for AskSeen<'a> {
    ghost Value = { Asked };

    ghost view = { λ a. record { move = a.number; node = a.node; ticket = a.ticket; ask = a.ask.now } };
}

impl<'a> AskSeen<'a> {
    /// Returns the number of the move, from 1.
    pub fn number(&self) -> u64
        ensures { result ≡ self.now.move }
    {
        self.number
    }

    /// Returns the node of the request.
    pub fn node(&self) -> NodeId
        ensures { result ≡ self.now.node }
    {
        self.node
    }

    /// Returns the ticket that the request got.
    pub fn ticket(&self) -> Option<Ticket>
        ensures { result ≡ self.now.ticket }
    {
        self.ticket
    }

    /// Returns the request.
    pub fn ask(&self) -> &'a Ask
        ensures { result.now ≡ self.now.ask }
    {
        self.ask
    }
}

/// A reply, with the number of its move, its node and its ticket.
#[derive(Drop)]
pub struct AnswerSeen<'a> {
    number: u64,
    node: NodeId,
    ticket: Ticket,
    answer: &'a Answer,
}

impl<'a> Model for AnswerSeen<'a> {
    ghost Value = { Answered };

    ghost view = { λ a. record { move = a.number; node = a.node; ticket = a.ticket; answer = a.answer.now } };
}

impl<'a> AnswerSeen<'a> {
    /// Returns the number of the move, from 1.
    pub fn number(&self) -> u64
        ensures { result ≡ self.now.move }
    {
        self.number
    }

    /// Returns the node that replied.
    pub fn node(&self) -> NodeId
        ensures { result ≡ self.now.node }
    {
        self.node
    }

    /// Returns the ticket of the request.
    pub fn ticket(&self) -> Ticket
        ensures { result ≡ self.now.ticket }
    {
        self.ticket
    }

    /// Returns the reply.
    pub fn answer(&self) -> &'a Answer
        ensures { result.now ≡ self.now.answer }
    {
        self.answer
    }
}

/// Returns the requests of these moves, numbered from 1.
#[tactic(auto, unfolding(craq_runs::specs::Seen::asks_from))]
pub fn asks_of<'a>(alloc: Global, moves: &'a [Taken]) -> Result<Vec<AskSeen<'a>>, AllocError>
    ensures { IfOk result (λ asks. asks.items ≡ asks_from 1 moves.now) }
{
    let mut asks = Vec::new(alloc);
    let mut number = 0;
    for taken in moves {
        number += 1;
        if let Move::Ask { node, ask } = &taken.chosen {
            asks.push(AskSeen {
                number,
                node: *node,
                ticket: taken.step.ticket,
                ask,
            })?;
        }
    }
    Ok(asks)
}

/// Appends the receivers of the messages among the outputs.
#[tactic(auto, unfolding(craq_runs::specs::Seen::receivers_in))]
fn push_receivers(receivers: &mut Vec<NodeId>, outs: &[Out]) -> Result<(), AllocError>
    ensures { OnOk result (receivers.new.items ≡ receivers.old.items ++ receivers_in outs.now) }
{
    for out in outs {
        if let Out::Send { to, .. } = out {
            receivers.push(*to)?;
        }
    }
    Ok(())
}

/// Appends the replies among the outputs.
#[tactic(auto, unfolding(craq_runs::specs::Seen::answers_in))]
fn push_answers<'a>(
    answers: &mut Vec<AnswerSeen<'a>>,
    number: u64,
    node: NodeId,
    outs: &'a [Out],
) -> Result<(), AllocError>
    ensures { OnOk result (answers.new.items ≡ answers.old.items ++ answers_in number node outs.now) }
{
    for out in outs {
        if let Out::Answer { ticket, answer } = out {
            answers.push(AnswerSeen {
                number,
                node,
                ticket: *ticket,
                answer,
            })?;
        }
    }
    Ok(())
}

/// Returns the replies of these moves, in order.
#[tactic(auto, unfolding(craq_runs::specs::Seen::answers_from))]
pub fn answers_of<'a>(alloc: Global, moves: &'a [Taken]) -> Result<Vec<AnswerSeen<'a>>, AllocError>
    ensures { IfOk result (λ answers. answers.items ≡ answers_from 1 [] moves.now) }
{
    let mut answers = Vec::new(alloc);
    let mut receivers = Vec::new(alloc);
    let mut number = 0;
    for taken in moves {
        number += 1;
        let node = taken.chosen.node(receivers.as_slice());
        let outs = taken.step.outs.as_slice();
        push_answers(&mut answers, number, node, outs)?;
        push_receivers(&mut receivers, outs)?;
    }
    Ok(answers)
}
