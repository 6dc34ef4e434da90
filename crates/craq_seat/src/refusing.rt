//! `refusal_of_call`: keeps a refusal that the request can have. It checks refusals that come over
//! channels, of which no contract speaks; for clients.
ghost use Rattle.std.specs.Prelude.{◌≡◌, ◌↔◌, IsTrue};
ghost use Rattle.craq_seat.specs.RefusedCalls.{CanRefuse, CanWait, IsUpdate};

use craq_commands::ReadMode;
use craq_model::Ask;
use craq_names::Refusal;

/// Returns whether a request is an update.
pub fn is_update(ask: &Ask) -> bool
    ensures { IsTrue result ↔ IsUpdate ask.now }
{
    match ask {
        Ask::Update(_) => true,
        Ask::Read { .. } => false,
    }
}

/// Returns whether a request may wait at its node for other nodes: updates and strong reads do.
fn can_wait(ask: &Ask) -> bool
    ensures { IsTrue result ↔ CanWait ask.now }
{
    match ask {
        Ask::Update(_) => true,
        Ask::Read { mode, object: _ } => match mode {
            ReadMode::Strong => true,
            ReadMode::Eventual => false,
            ReadMode::Bounded(_) => false,
        },
    }
}

/// Returns whether a call of this request may have this refusal.
fn can_refuse(ask: &Ask, refusal: &Refusal) -> bool
    ensures { IsTrue result ↔ CanRefuse ask.now refusal.now }
{
    match refusal {
        Refusal::NotHead(head) => is_update(ask) && head.get() != 0,
        Refusal::PendingFull => can_wait(ask),
        Refusal::TwoChains
        | Refusal::NotReady
        | Refusal::Stopped
        | Refusal::Exhausted
        | Refusal::Memory
        | Refusal::WrongNode
        | Refusal::Closed => true,
        _ => false,
    }
}

/// Returns the refusal that came back, if a call of this request may have it, and else `Closed`:
/// what came back is then another call's. Takes no memory.
pub fn refusal_of_call(ask: &Ask, refusal: Refusal) -> Refusal
    ensures reported { CanRefuse ask.now refusal → result ≡ refusal }
    ensures closed { ¬ (CanRefuse ask.now refusal) → result ≡ Refusal.Closed }
    ensures can { CanRefuse ask.now result }
{
    if can_refuse(ask, &refusal) {
        refusal
    } else {
        Refusal::Closed
    }
}
