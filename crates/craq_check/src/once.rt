//! Tests that nothing occurs twice; used by `verdict`.
ghost use Rattle.std.specs.Prelude.{◌≡◌, IfOk};
ghost use Rattle.craq_runs.specs.Valid.{same_request, same_name};
ghost use Rattle.craq_check.specs.Tests.{stand_once};

use crate::lookups::UpdateSeen;
use crate::seen::AnswerSeen;
use std::alloc::{AllocError, Global};
use std::collections::HashSet;

/// Returns true if no two replies have the same node and ticket.
pub fn are_names_once(alloc: Global, answers: &[AnswerSeen]) -> Result<bool, AllocError>
    ensures { IfOk result (λ b. b ≡ stand_once same_name answers.now) }
{
    let mut names = HashSet::new(alloc);
    for answer in answers {
        names.insert((answer.node().get(), answer.ticket().get()))?;
    }
    Ok(names.len() == answers.len())
}

/// Returns true if no two updates have the same client and number.
pub fn are_requests_once(alloc: Global, updates: &[UpdateSeen]) -> Result<bool, AllocError>
    ensures { IfOk result (λ b. b ≡ stand_once same_request updates.now) }
{
    let mut requests = HashSet::new(alloc);
    for seen in updates {
        let update = seen.update();
        requests.insert((update.client.get(), update.number.get()))?;
    }
    Ok(requests.len() == updates.len())
}
