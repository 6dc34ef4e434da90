//! `answer_of_call` and `pass_after`: the reply in a receipt that is the caller's own, and the pass
//! after it; for clients and connections.
ghost use Rattle.std.specs.Prelude.{◌≡◌, ◌⊎◌, ◌↔◌, max, Err, IfOk, IfErr, IsTrue};
ghost use Rattle.craq_seat.specs.CallCompletions.{IsCallOf};
ghost use Rattle.craq_node_invariant.specs.Sound.{IsEncodableAnswer};

use crate::CallReceipt;
use craq_model::{Answer, Ask};
use craq_names::{Copied, NodeName, Pass, Refusal, Same};
use std::alloc::Global;

/// Returns whether a receipt is of this request at this node, shown with this pass.
fn is_of(receipt: &CallReceipt, node: &NodeName, ask: &Ask, pass: Pass) -> bool
    ensures { IsTrue result ↔ IsCallOf node.now ask.now pass receipt.now.answer receipt.now }
{
    receipt.asked().node == node.node
        && receipt.answered().node == node.node
        && receipt.pass() == pass
        && pass.stamp() < receipt.asked().stamp
        && receipt.asked().stamp <= receipt.answered().stamp
        && receipt.ask().is_same(ask)
}

/// Copies the answer out of a receipt, if the receipt is of this request at this node, shown with
/// this pass. The request's stamp is then above the pass, and the answer's stamp is not below it.
/// The answer has an encoding.
///
/// Refused with `Closed` exactly if the receipt is of another call (`IsCallOf`), and with `Memory`
/// when out of memory.
pub fn answer_of_call(
    alloc: Global,
    receipt: &CallReceipt,
    node: &NodeName,
    ask: &Ask,
    pass: Pass,
) -> Result<Answer, Refusal>
    ensures ok { IfOk result (λ answer. IsCallOf node.now ask.now pass answer receipt.now) }
    ensures encodable { IfOk result (λ answer. IsEncodableAnswer answer) }
    ensures closed { (result ≡ Err Refusal.Closed) ↔ ¬ (IsCallOf node.now ask.now pass receipt.now.answer receipt.now) }
    ensures err { IfErr result (λ e. (e ≡ Refusal.Closed) ⊎ (e ≡ Refusal.Memory)) }
{
    if !is_of(receipt, node, ask, pass) {
        return Err(Refusal::Closed);
    }
    Ok(receipt.answer().copied(alloc)?)
}

/// Returns the pass after an answer: the larger of the pass so far and the answer's stamp. Takes no
/// memory.
pub fn pass_after(pass: Pass, receipt: &CallReceipt) -> Pass
    ensures { result ≡ max pass receipt.now.answered.stamp }
{
    pass.join(Pass::of(receipt.answered().stamp))
}
