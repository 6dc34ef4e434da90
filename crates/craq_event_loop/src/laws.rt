//! A law: each call of a connection has a number of its own.
ghost use Rattle.std.specs.Prelude.{◌≡◌, ◌≢◌, ◌≤◌, ◌+◌, ◌^◌, ◌++◌, ℕ, length};
ghost use Rattle.std.specs.List.{AllPairs};
ghost use Rattle.craq_event_loop.specs.SubmittedCalls.{called_by};
ghost use Rattle.craq_event_loop.specs.declared.connection_state.ConnectionState.{ConnectionState};
ghost use Rattle.craq_event_loop.specs.Advancing.{TakesSteps, asked_in, numbers_after, under_key};

use crate::LoopBackend;

/// Law: the calls that a connection asks in some steps have the numbers after that of the call
/// asked last before them, one by one, and later calls go on from there. Of up to 2^64 calls in a
/// row no two have the same number. So a completion under one number is not taken for that of
/// another call until 2^64 calls later. It has no body: the contract is the law.
pub fn each_call_has_its_number<H: LoopBackend>(backend: &H)
    ensures in_order { (key before after count more : ℕ) (old new : ConnectionState H.Session)
        → (taken : TakesSteps (H.tells backend.now) (H.refuses backend.now) (under_key (called_by (H.submits backend.now) (H.finishes backend.now)) key) old before count new after)
        → asked_in taken ++ numbers_after after more ≡ numbers_after before (length (asked_in taken) + more) }
    ensures none_twice { (before count : ℕ) → count ≤ 2 ^ 64 → AllPairs (λ x y. x ≢ y) (numbers_after before count) }
{}
