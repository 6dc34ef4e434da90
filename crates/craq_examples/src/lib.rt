//! Worked scripts, computed from the definitions alone, as examples; no other crate uses them.
//! States laws: functions without bodies whose contracts are the theorems.
#![tactic(auto, unfolding(craq_commands::specs::Evaluation::tested, craq_commands::specs::Evaluation::joined, craq_commands::specs::Evaluation::number_in_bytes, craq_commands::specs::Evaluation::increased, craq_commands::specs::Evaluation::decreased, craq_commands::specs::Evaluation::first_difference, craq_commands::specs::Evaluation::transacted, craq_commands::specs::Evaluation::all_of_chain, craq_commands::specs::Evaluation::some_used_up, craq_commands::specs::Kept::is_stale, craq_commands::specs::Kept::is_new, craq_commands::specs::Kept::keep, craq_commands::specs::Kept::said_of, craq_commands::specs::Objects::object_of, craq_commands::specs::Objects::set_object, craq_commands::specs::SingleCopy::window_of, craq_commands::specs::SingleCopy::kept_with, craq_commands::specs::SingleCopy::apply, craq_commands::specs::SingleCopy::after_entry, craq_model::specs::Past::values_in, craq_model::specs::Past::values_after, craq_model::specs::Past::newest_within, craq_model::specs::Past::last_position, craq_model::specs::Parts::parts_of, craq_model::specs::Parts::is_in_order, craq_model::specs::Parts::joined_state, craq_model::specs::Plain::entries_after, craq_model::specs::Plain::newest, craq_model::specs::Plain::clean, craq_model::specs::Members::is_member, craq_model::specs::Members::last_of, craq_model::specs::Members::successor_in, craq_model::specs::Members::predecessor_in, craq_model::specs::Members::without, craq_model::specs::Sends::runs_of, craq_model::specs::Sends::entry_bodies, craq_model::specs::Sends::copy_bodies, craq_model::specs::Sends::catch_up, craq_model::specs::Sends::ready_sends, craq_model::specs::Sends::unready_sends, craq_model::specs::Sends::tick_sends, craq_model::specs::Settle::insert_given, craq_model::specs::Settle::by_ticket, craq_model::specs::Settle::all_given, craq_model::specs::Settle::settling_transition, craq_model::specs::Settle::without_reached, craq_model::specs::Settle::readiness_transition, craq_model::specs::Asks::is_full, craq_model::specs::Asks::reply_transition, craq_model::specs::Asks::update_transition, craq_model::specs::Asks::waiting_read_transition, craq_model::specs::Asks::read_transition, craq_model::specs::Asks::ask_transition, craq_model::specs::Deliveries::config_transition, craq_model::specs::Deliveries::is_applicable, craq_model::specs::Deliveries::forwarding_transition, craq_model::specs::Deliveries::entries_above, craq_model::specs::Deliveries::entries_transition, craq_model::specs::Deliveries::pending_updates, craq_model::specs::Deliveries::later_updates, craq_model::specs::Deliveries::acknowledgement_transition, craq_model::specs::Deliveries::ack_transition, craq_model::specs::Deliveries::query_transition, craq_model::specs::Deliveries::read_with, craq_model::specs::Deliveries::reads_without, craq_model::specs::Deliveries::reported_version_transition, craq_model::specs::Deliveries::version_transition, craq_model::specs::Deliveries::fill_bodies, craq_model::specs::Deliveries::blank_transition, craq_model::specs::Deliveries::copy_transition, craq_model::specs::Deliveries::part_transition, craq_model::specs::Deliveries::floor_transition, craq_model::specs::Node::outs_fit, craq_model::specs::Node::node_step, craq_runs::specs::Chain::node_at, craq_runs::specs::Chain::set_node, craq_runs::specs::Chain::sent_in, craq_runs::specs::Chain::removal_progress, craq_runs::specs::Chain::join_progress, craq_runs::specs::Chain::numbers_left, craq_runs::specs::Chain::chain_step, craq_runs::specs::Explain::wrote, craq_runs::specs::Explain::written_at, craq_runs::specs::Explain::pending_place, craq_runs::specs::Explain::places_of, craq_runs::specs::Explain::account_with, craq_runs::specs::Explain::ask_number, craq_runs::specs::Seen::asks_from, craq_runs::specs::Seen::receivers_in, craq_runs::specs::Seen::answers_in, craq_runs::specs::Seen::answers_from, craq_runs::specs::Seen::ask_with, craq_runs::specs::Seen::update_at, craq_runs::specs::Seen::strong_answers, craq_runs::specs::Valid::look_of, craq_runs::specs::Valid::committed_object, craq_runs::specs::Valid::answered_object))]

ghost use Rattle.std.specs.Prelude.{◌≡◌, ◌-◌, ◌^◌, [], ◌∷◌, Some, None, Err, IsOk};
ghost use Rattle.craq_names.specs.declared.refusal.Refusal.{Refusal};
ghost use Rattle.craq_model.specs.Node.{node_step};
ghost use Rattle.craq_model.specs.declared.ask.Ask.{Ask};
ghost use Rattle.craq_model.specs.declared.ask.Event.{Event};
ghost use Rattle.craq_examples.specs.Steps.{steps_of, message_of, message, first_entry, clean_and_dirty_reads_steps, third_copy, busy, late, put};
ghost use Rattle.craq_model.specs.declared.message.Body.{Body};
ghost use Rattle.craq_runs.specs.Explain.{explain};
ghost use Rattle.craq_runs.specs.Runs.{IsRunOf};
ghost use Rattle.craq_runs.specs.Seen.{seen};
ghost use Rattle.craq_runs.specs.Valid.{IsValid, StrongHold, HasForm, IsBounded, look_of};
ghost use Rattle.craq_examples.specs.Bounded.{run, explanation, earlier, answered, look};
ghost use Rattle.craq_examples.specs.Pieces.{part_counts, run_lengths};
ghost use Rattle.craq_examples.specs.Printed.{play, printed, run_of};
ghost use Rattle.craq_examples.specs.Rows.{first_read_moves, first_read_lines, first_read_explained, clean_and_dirty_reads_moves, clean_and_dirty_reads_lines, clean_and_dirty_reads_explained, one_put_moves, one_put_lines, one_put_explained, query_overtaken_moves, query_overtaken_lines, query_overtaken_explained, out_of_order_moves, out_of_order_lines, head_lost_early_moves, head_lost_early_lines, head_lost_early_explained, head_lost_with_retry_moves, head_lost_with_retry_lines, head_lost_with_retry_explained, tail_lost_moves, tail_lost_lines, tail_lost_explained, join_moves, join_lines, old_epoch_moves, old_epoch_lines, one_node_moves, one_node_lines, one_node_explained, numbers_moves, numbers_lines, transactions_moves, transactions_lines, bounded_reads_moves, bounded_reads_lines, refusals_moves, refusals_lines, last_node_moves, last_node_lines, full_chain_moves, full_chain_lines, long_append_moves, long_append_lines, prepend_moves, prepend_lines, retry_moves, retry_lines, retry_explained, ticks_moves, ticks_lines, ticks_explained, whole_join_moves, whole_join_lines, whole_join_explained, eight_kept_moves, eight_kept_lines, eight_kept_explained, batch_moves, batch_lines, batch_explained, chain_of_many, parts_moves, parts_lines};

pub fn first_read()
    ensures printed { play (1 ∷ 2 ∷ 3 ∷ []) first_read_moves ≡ first_read_lines }
    ensures explained { explain 0 (run_of (1 ∷ 2 ∷ 3 ∷ []) first_read_moves) ≡ first_read_explained }
{}

pub fn clean_and_dirty_reads()
    ensures printed { play (1 ∷ 2 ∷ 3 ∷ []) clean_and_dirty_reads_moves ≡ clean_and_dirty_reads_lines }
    ensures explained { explain 0 (run_of (1 ∷ 2 ∷ 3 ∷ []) clean_and_dirty_reads_moves) ≡ clean_and_dirty_reads_explained }
{}

pub fn one_put()
    ensures printed { play (1 ∷ 2 ∷ 3 ∷ []) one_put_moves ≡ one_put_lines }
    ensures explained { explain 0 (run_of (1 ∷ 2 ∷ 3 ∷ []) one_put_moves) ≡ one_put_explained }
{}

pub fn query_overtaken()
    ensures printed { play (1 ∷ 2 ∷ 3 ∷ []) query_overtaken_moves ≡ query_overtaken_lines }
    ensures explained { explain 0 (run_of (1 ∷ 2 ∷ 3 ∷ []) query_overtaken_moves) ≡ query_overtaken_explained }
{}

pub fn out_of_order()
    ensures { play (1 ∷ 2 ∷ 3 ∷ []) out_of_order_moves ≡ out_of_order_lines }
{}

pub fn head_lost_early()
    ensures printed { play (1 ∷ 2 ∷ 3 ∷ []) head_lost_early_moves ≡ head_lost_early_lines }
    ensures explained { explain 0 (run_of (1 ∷ 2 ∷ 3 ∷ []) head_lost_early_moves) ≡ head_lost_early_explained }
{}

pub fn head_lost_with_retry()
    ensures printed { play (1 ∷ 2 ∷ 3 ∷ []) head_lost_with_retry_moves ≡ head_lost_with_retry_lines }
    ensures explained { explain 0 (run_of (1 ∷ 2 ∷ 3 ∷ []) head_lost_with_retry_moves) ≡ head_lost_with_retry_explained }
{}

pub fn tail_lost()
    ensures printed { play (1 ∷ 2 ∷ 3 ∷ []) tail_lost_moves ≡ tail_lost_lines }
    ensures explained { explain 0 (run_of (1 ∷ 2 ∷ 3 ∷ []) tail_lost_moves) ≡ tail_lost_explained }
{}

pub fn join()
    ensures { play (1 ∷ 2 ∷ 3 ∷ []) join_moves ≡ join_lines }
{}

pub fn old_epoch()
    ensures { play (1 ∷ 2 ∷ 3 ∷ []) old_epoch_moves ≡ old_epoch_lines }
{}

pub fn one_node()
    ensures printed { play (1 ∷ []) one_node_moves ≡ one_node_lines }
    ensures explained { explain 0 (run_of (1 ∷ []) one_node_moves) ≡ one_node_explained }
{}

pub fn numbers()
    ensures { play (1 ∷ []) numbers_moves ≡ numbers_lines }
{}

pub fn transactions()
    ensures { play (1 ∷ []) transactions_moves ≡ transactions_lines }
{}

pub fn bounded_reads()
    ensures { play (1 ∷ 2 ∷ 3 ∷ []) bounded_reads_moves ≡ bounded_reads_lines }
{}

pub fn refusals()
    ensures { play (1 ∷ 2 ∷ 3 ∷ []) refusals_moves ≡ refusals_lines }
{}

pub fn last_node()
    ensures { play (1 ∷ []) last_node_moves ≡ last_node_lines }
{}

pub fn full_chain()
    ensures { play (1 ∷ 2 ∷ 3 ∷ 4 ∷ 5 ∷ 6 ∷ 7 ∷ 8 ∷ []) full_chain_moves ≡ full_chain_lines }
{}

pub fn long_append()
    ensures { play (1 ∷ []) long_append_moves ≡ long_append_lines }
{}

pub fn prepend()
    ensures { play (1 ∷ []) prepend_moves ≡ prepend_lines }
{}

pub fn retry()
    ensures printed { play (1 ∷ 2 ∷ 3 ∷ []) retry_moves ≡ retry_lines }
    ensures explained { explain 0 (run_of (1 ∷ 2 ∷ 3 ∷ []) retry_moves) ≡ retry_explained }
{}

pub fn ticks()
    ensures printed { play (1 ∷ 2 ∷ 3 ∷ []) ticks_moves ≡ ticks_lines }
    ensures explained { explain 0 (run_of (1 ∷ 2 ∷ 3 ∷ []) ticks_moves) ≡ ticks_explained }
{}

pub fn whole_join()
    ensures printed { play (1 ∷ []) whole_join_moves ≡ whole_join_lines }
    ensures explained { explain 0 (run_of (1 ∷ []) whole_join_moves) ≡ whole_join_explained }
{}

/// Of 9 replies, the 8 with the largest numbers are kept.
pub fn eight_kept()
    ensures printed { play (1 ∷ []) eight_kept_moves ≡ eight_kept_lines }
    ensures explained { explain 0 (run_of (1 ∷ []) eight_kept_moves) ≡ eight_kept_explained }
{}

/// A tick sends three entries as one batch, which gets one acknowledgement.
pub fn batch()
    ensures printed { play (1 ∷ 2 ∷ []) batch_moves ≡ batch_lines }
    ensures explained { explain 0 (run_of (1 ∷ 2 ∷ []) batch_moves) ≡ batch_explained }
{}

/// 17 entries are sent in runs of 16 and 1, and 33 in two runs of 16 and one of 1.
pub fn runs()
    ensures seventeen { run_lengths 17 ≡ 16 ∷ 1 ∷ [] }
    ensures thirty_three { run_lengths 33 ≡ 16 ∷ 16 ∷ 1 ∷ [] }
{}

/// A state of 65 items is sent in parts of 64 and 1, one of 129 in two parts of 64 and one of 1.
pub fn part_items()
    ensures sixty_five { part_counts 60 5 ≡ 64 ∷ 1 ∷ [] }
    ensures hundred_twenty_nine { part_counts 100 29 ≡ 64 ∷ 64 ∷ 1 ∷ [] }
{}

/// A state of 66 items comes in two parts; the second arrives first, and twice.
pub fn parts()
    ensures { printed chain_of_many parts_moves ≡ parts_lines }
{}

/// This run is possible, and its explanation is valid for it.
pub fn clean_and_dirty_reads_hold()
    ensures run { IsRunOf 0 (run_of (1 ∷ 2 ∷ 3 ∷ []) clean_and_dirty_reads_moves) }
    ensures valid { IsValid (run_of (1 ∷ 2 ∷ 3 ∷ []) clean_and_dirty_reads_moves) clean_and_dirty_reads_explained }
{}

/// The strong replies of these runs are explained.
pub fn strong_answers_hold()
    ensures one_put { StrongHold (seen (run_of (1 ∷ 2 ∷ 3 ∷ []) one_put_moves)) one_put_explained }
    ensures query_overtaken { StrongHold (seen (run_of (1 ∷ 2 ∷ 3 ∷ []) query_overtaken_moves)) query_overtaken_explained }
    ensures head_lost_early { StrongHold (seen (run_of (1 ∷ 2 ∷ 3 ∷ []) head_lost_early_moves)) head_lost_early_explained }
    ensures head_lost_with_retry { StrongHold (seen (run_of (1 ∷ 2 ∷ 3 ∷ []) head_lost_with_retry_moves)) head_lost_with_retry_explained }
    ensures tail_lost { StrongHold (seen (run_of (1 ∷ 2 ∷ 3 ∷ []) tail_lost_moves)) tail_lost_explained }
    ensures one_node { StrongHold (seen (run_of (1 ∷ []) one_node_moves)) one_node_explained }
{}

/// An explanation without linearization points is valid for no run with a strong reply.
pub fn no_empty_explanation()
    ensures { ¬ (HasForm (seen (run_of (1 ∷ 2 ∷ 3 ∷ []) one_put_moves)) (record one_put_explained { places = [] })) }
{}

/// A wrong linearization point explains no reply: this read returned the version of the second put.
pub fn no_early_place()
    ensures { ¬ (StrongHold (seen (run_of (1 ∷ 2 ∷ 3 ∷ []) query_overtaken_moves)) (record query_overtaken_explained { places = record { node = 2; ticket = 1; position = 1 } ∷ [] })) }
{}

/// Steps and messages, field by field.
pub fn whole_steps()
    ensures steps { steps_of (1 ∷ 2 ∷ 3 ∷ []) clean_and_dirty_reads_moves ≡ clean_and_dirty_reads_steps }
    ensures entry { message_of (1 ∷ 2 ∷ 3 ∷ []) one_put_moves 1 ≡ Some (message 1 2 1 (Body.Entry first_entry)) }
    ensures copy { message_of (1 ∷ 2 ∷ 3 ∷ []) join_moves 20 ≡ Some third_copy }
{}

/// At most 1,024 requests wait, and the last ticket is 2^64 - 1. The ticket is tested first.
pub fn limits()
    ensures room { IsOk (node_step (busy 1023) (Event.Ask (Ask.Update put))) }
    ensures full { node_step (busy 1024) (Event.Ask (Ask.Update put)) ≡ Err Refusal.PendingFull }
    ensures last { IsOk (node_step (late (2 ^ 64 - 2)) (Event.Ask (Ask.Update put))) }
    ensures used_up { node_step (late (2 ^ 64 - 1)) (Event.Ask (Ask.Update put)) ≡ Err Refusal.Exhausted }
    ensures ticket_first { node_step (record (busy 1024) { last_ticket = 2 ^ 64 - 1 }) (Event.Ask (Ask.Update put)) ≡ Err Refusal.Exhausted }
{}

/// A read with bound 1 returns version 2 while version 1 is committed, and could not return version
/// 3.
pub fn bounded_answers()
    ensures looked { look_of (seen run) (answered 2 (98 ∷ [])) ≡ Some (look 2 (98 ∷ [])) }
    ensures right { IsBounded (seen run) explanation 1 earlier (answered 2 (98 ∷ [])) (look 2 (98 ∷ [])) }
    ensures too_new { ¬ (IsBounded (seen run) explanation 1 earlier (answered 3 (99 ∷ [])) (look 3 (99 ∷ []))) }
{}
