//! Tests whether the counts in a step's sends fit into messages. `NodeCore` calls this before
//! it applies a change.
ghost use Rattle.std.specs.Prelude.{◌≡◌};
ghost use Rattle.craq_model.specs.Node.{outs_fit, counts_fit};

use craq_model::{Body, GREATEST_COUNT, Out};

/// Returns true exactly if the counts in a message's content can be encoded.
fn has_fitting_counts(body: &Body) -> bool
    ensures { result ≡ counts_fit body.now }
{
    match body {
        Body::Copy { state, .. } => {
            state.objects.len() <= GREATEST_COUNT && state.kept.len() <= GREATEST_COUNT
        }
        Body::Part(part) => part.count as usize <= GREATEST_COUNT,
        _ => true,
    }
}

/// Returns true exactly if each out can be sent: the sends can be numbered from 0, and their counts
/// fit.
#[tactic(auto, unfolding(craq_model::specs::Node::outs_fit))]
pub(crate) fn are_fitting(outs: &[Out]) -> bool
    ensures { result ≡ outs_fit outs.now }
{
    let mut sends = 0usize;
    for out in outs {
        if let Out::Send { message, .. } = out {
            if !has_fitting_counts(&message.body) {
                return false;
            }
            sends += 1;
        }
    }
    sends <= GREATEST_COUNT + 1
}
