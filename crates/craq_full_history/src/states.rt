//! The state after entries, as a copy. `history` and `craq_compact_history` call this.
ghost use Rattle.std.specs.Prelude.{◌≡◌, [], unwrap_or, IfOk, OnOk};
ghost use Rattle.craq_names.specs.Maps.{at_number, put_number};
ghost use Rattle.craq_commands.specs.Kept.{keep};
ghost use Rattle.craq_commands.specs.Objects.{set_object};
ghost use Rattle.craq_commands.specs.SingleCopy.{after_entries, with_writes};

use craq_commands::{Entry, Reply, State, Window, Write};
use craq_names::{ClientId, Copied, Items, Key, RequestNo, Value, Version, copies_of, put_at};
use std::alloc::{AllocError, Global};

/// Copies a write into the objects. Fails only when out of memory.
#[tactic(auto, unfolding(craq_commands::specs::Objects::set_object))]
fn put_write(
    alloc: Global,
    objects: &mut Vec<(Key, (Version, Value))>,
    write: &Write,
) -> Result<(), AllocError>
    ensures { OnOk result (objects.new.items ≡ set_object objects.old.items write.now.key write.now.version write.now.value) }
{
    let value = write.value.copied(alloc)?;
    let key = write.key.copied(alloc)?;
    put_at(objects, key, (write.version, value))
}

/// Copies writes into the objects, in order. Fails only when out of memory.
fn put_writes(
    alloc: Global,
    objects: &mut Vec<(Key, (Version, Value))>,
    writes: &[Write],
) -> Result<(), AllocError>
    ensures { OnOk result (objects.new.items ≡ with_writes objects.old.items writes.now) }
{
    for write in writes {
        put_write(alloc, objects, write)?;
    }
    Ok(())
}

/// Copies the replies kept for a client. Fails only when out of memory.
#[tactic(auto, using(crate::proofs::Scans::same_numbers))]
fn window_of(
    alloc: Global,
    items: &[(ClientId, Window)],
    client: ClientId,
) -> Result<Window, AllocError>
    ensures { IfOk result (λ w. w ≡ unwrap_or (at_number items.now client) []) }
{
    for (name, window) in items {
        if client == *name {
            return window.copied(alloc);
        }
    }
    Ok(Window::new(alloc))
}

/// Keeps the reply to a client's request number. Fails only when out of memory.
fn put_kept(
    alloc: Global,
    items: &mut Vec<(ClientId, Window)>,
    client: ClientId,
    number: RequestNo,
    reply: Reply,
) -> Result<(), AllocError>
    ensures { OnOk result (items.new.items ≡ put_number items.old.items client (keep (unwrap_or (at_number items.old.items client) []) number reply)) }
{
    let mut window = window_of(alloc, items.as_slice(), client)?;
    window.keep(number, reply)?;
    put_at(items, client, window)?;
    Ok(())
}

/// Returns a copy of the state after these entries. Fails only when out of memory.
#[tactic(auto, unfolding(craq_commands::specs::SingleCopy::after_entry, craq_commands::specs::SingleCopy::kept_with, craq_commands::specs::SingleCopy::window_of))]
pub fn state_after(alloc: Global, state: &State, entries: &[Entry]) -> Result<State, AllocError>
    ensures { IfOk result (λ s. s ≡ after_entries state.now entries.now) }
{
    let mut objects = copies_of(alloc, state.objects.as_slice())?;
    let mut kept = copies_of(alloc, state.kept.as_slice())?;
    for entry in entries {
        put_writes(alloc, &mut objects, entry.writes.as_slice())?;
        let reply = entry.reply.copied(alloc)?;
        put_kept(alloc, &mut kept, entry.client, entry.number, reply)?;
    }
    Ok(State {
        objects: Items::of(objects),
        kept: Items::of(kept),
    })
}
