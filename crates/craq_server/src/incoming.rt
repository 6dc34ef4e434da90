//! `Incoming`: a connection that was handed to a thread, which takes it in; for `accepting` and
//! `io_threads`.
ghost use Rattle.craq_server.specs.Sessions.{IsNewSession};

use crate::store_session::StoreSession;
use craq_event_loop::{ClientStream, NewConnection};
use craq_workers::Named;
use std::marker::Model;

/// A connection that was handed to a thread. No call was made in its session. A contract sees the
/// session.
#[derive(Drop)]
pub(crate) struct Incoming<C: Named> {
    stream: ClientStream,
    session: StoreSession<C>,
    slot: usize,
    receipts: usize,
}

impl<C: Named> Model for Incoming<C> {
    ghost use Rattle.craq_server.specs.Sessions.{Connected, IsNewSession};

    ghost Value = { Connected };

    ghost view = { λ i. i.session };

    ghost invariant = { λ i. IsNewSession i.session };
}

impl<C: Named> Incoming<C> {
    /// Makes the value of a connection with a new session.
    pub(crate) fn new(arrival: NewConnection<StoreSession<C>>) -> Self
        requires { IsNewSession arrival.session }
    {
        let NewConnection {
            stream,
            session,
            slot,
            receipts,
        } = arrival;
        Incoming {
            stream,
            session,
            slot,
            receipts,
        }
    }

    /// Returns the connection, for the thread.
    pub(crate) fn into_arrival(self) -> NewConnection<StoreSession<C>>
        ensures { IsNewSession result.session }
    {
        let Incoming {
            stream,
            session,
            slot,
            receipts,
        } = self;
        NewConnection {
            stream,
            session,
            slot,
            receipts,
        }
    }
}
