//! A law: the replies of connections stand in the store's history.
ghost use Rattle.std.specs.Prelude.{◌≡◌, ℕ, List, [], length};
ghost use Rattle.craq_seat.specs.declared.token.CallToken.{CallToken};
ghost use Rattle.craq_event_loop.specs.SubmittedCalls.{called_by};
ghost use Rattle.craq_event_loop.specs.declared.connection_state.ConnectionState.{ConnectionState};
ghost use Rattle.craq_event_loop.specs.Reaching.{Reaches};
ghost use Rattle.craq_workers.specs.Stores.{Stored};
ghost use Rattle.craq_server.specs.Refusing.{RefusesServed};
ghost use Rattle.craq_server.specs.Sessions.{Connected, FinishesCall, IsWitnessedConnection, Submits};
ghost use Rattle.craq_server.specs.Status.{TellsStatus};

/// Law: the turns of a connection are witnessed, from its first byte on. `first` is the state in
/// which it came, with a session in which no call is under way, and `state` one that it reaches;
/// `read` and `written` are the bytes that came and went since then. The states of an event loop's
/// connections are all reached so (`Reaches`), and it hands each that ended to the server so
/// (`LoopBackend::ended`). So is the last state of a connection on a thread of its own (`serve_one`).
/// It has no body: the contract is the law.
pub(crate) fn connections_are_witnessed()
    ensures { (store : Stored) (most_leap : ℕ) (read written : List ℕ) (first state : ConnectionState Connected)
        → first.session.calls ≡ []
        → Reaches (TellsStatus store) (λ node pass ask e. RefusesServed (length store.names) node ask e) (called_by (λ (token : CallToken). Submits most_leap) FinishesCall) FinishesCall first read written state
        → IsWitnessedConnection most_leap first.session read written state }
{}
