//! `Step`: the effects of an event at a node: its outs, or the reason why a message was ignored.
//! `craq_node` returns it.
use crate::{Answer, LinkMessage};
use craq_names::{Items, NodeId, Same, Ticket};

/// The reason why a message was ignored.
#[derive(Clone, Copy, Debug, PartialEq, Eq)]
pub enum Why {
    /// The message has another epoch than the node, or is a membership that is not newer.
    OtherEpoch,
    /// The message is not from the neighbour that sends this kind, or is a membership without the
    /// node.
    NotNeighbour,
    /// The entry is beyond the next position.
    OutOfOrder,
    /// The node already holds the content.
    AlreadyHave,
    /// A query or acknowledgement reached a node that is not ready, or not the tail.
    NotReadyHere,
    /// No read waits for this reply to a query.
    UnknownTicket,
    /// The message refers beyond the node's history, or conflicts with it.
    TooFar,
}

/// An output of a step: a message to send, or a reply.
#[derive(Debug, Drop)]
pub enum Out {
    Send { to: NodeId, message: LinkMessage },
    Answer { ticket: Ticket, answer: Answer },
}

impl Same for Out {
    fn is_same(&self, other: &Self) -> bool {
        match (self, other) {
            (
                Out::Send { to, message },
                Out::Send {
                    to: their_to,
                    message: their_message,
                },
            ) => { to == their_to && message.is_same(their_message) }
            (
                Out::Answer { ticket, answer },
                Out::Answer {
                    ticket: their_ticket,
                    answer: their_answer,
                },
            ) => ticket == their_ticket && answer.is_same(their_answer),
            _ => false,
        }
    }
}

/// The effects of an event: the ticket of an accepted request, the outs in order, and why a message
/// was ignored.
#[derive(Debug, Drop)]
pub struct Step {
    pub ticket: Option<Ticket>,
    pub outs: Items<Out>,
    pub ignored: Option<Why>,
}

impl Same for Step {
    fn is_same(&self, other: &Self) -> bool {
        self.ticket == other.ticket
            && self.outs.is_same(&other.outs)
            && self.ignored == other.ignored
    }
}
