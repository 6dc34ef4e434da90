//! `JoinedNode`: a node that joined, with a token of its join; and `open_joined`, which opens its
//! desk. For a store's join.
ghost use Rattle.std.specs.Prelude.{◌≡◌, []};
ghost use Rattle.craq_ghost_history.specs.declared.author.Author.TheVariants as Author;
ghost use Rattle.craq_store_parts.specs.Recorded.{HasLetJoin, IsUnjoined};

use crate::recorded_desk::RecordedDesk;
use craq_ghost_history::Named;
use craq_names::NodeName;
use craq_node::Core;
use craq_seat::Desk;
use craq_store_parts::{StoreHistory, StoreToken, StoreWriter};
use std::marker::Model;

/// A node that the master of its chain let join, with a token that has seen that step. A contract
/// sees its name.
#[derive(Drop)]
pub struct JoinedNode<N: Named> {
    name: NodeName,
    token: StoreToken<N>,
}

impl<N: Named> Model for JoinedNode<N> {
    ghost use Rattle.craq_names.specs.declared.name.NodeName.{NodeName};
    ghost use Rattle.craq_store_parts.specs.Recorded.{HasLetJoin};

    ghost Value = { NodeName };

    ghost view = { λ j. j.name };

    ghost invariant = { λ j. HasLetJoin j.token j.name };
}

impl<N: Named> JoinedNode<N> {
    /// Makes the value of a node that joined in the token's history.
    pub(crate) fn new(name: NodeName, token: StoreToken<N>) -> Self
        requires { HasLetJoin token name }
        ensures { result ≡ name }
    {
        JoinedNode { name, token }
    }
}

/// Opens the desk of a node that joined, before its first step. The writer has no entry yet.
pub fn open_joined<C: Core + Named>(
    history: &StoreHistory<C>,
    desk: Desk<C>,
    writer: StoreWriter<C>,
    joined: JoinedNode<C>,
) -> RecordedDesk<C>
    requires author { writer.author ≡ Author.Node joined.chain joined.node }
    requires none { writer.seen ≡ [] }
    requires cell { IsUnjoined C.represents joined desk.cell }
    ensures { result ≡ desk }
{
    let JoinedNode { name: _, token } = joined;
    let mut token = token;
    let seen = token.again(history);
    RecordedDesk::open(history, desk, writer, seen)
}
