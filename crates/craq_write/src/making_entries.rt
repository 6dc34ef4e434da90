//! Entries at the head: a command becomes versions, writes and a reply (`outcome`). For `updates`;
//! `forward` and `only` also for `deliveries`.
ghost use Rattle.std.specs.Prelude.{◌≡◌, ◌≢◌, ◌∷◌, [], ℕ, List, All, map, is_none, ◌++◌, IfOk, IfSome, OnOk};
ghost use Rattle.craq_names.specs.Limits.{greatest};
ghost use Rattle.craq_commands.specs.Evaluation.{objects_named, some_used_up};
ghost use Rattle.craq_commands.specs.Objects.{version_of};
ghost use Rattle.craq_model.specs.Asks.{versioned_write};
ghost use Rattle.craq_model.specs.Past.{newest_in};
ghost use Rattle.craq_write.specs.Forward.{forwarded};
ghost use Rattle.craq_write.specs.Outcomes.{HaveNext, outcome_of, outcome_in};

use craq_commands::{Command, Entry, Look, Reply, Write, evaluate};
use craq_history::History;
use craq_history::members::successor_of;
use craq_history::outs::{Sender, send_entries};
use craq_model::Out;
use craq_names::{Items, Key, NodeId, ObjectId, Value, Version};
use std::alloc::{AllocError, Global};

/// The newest objects of a history.
#[derive(Drop)]
pub(crate) struct Newest<'a, H>(pub &'a H);

impl<H: History> Look for Newest<'_, H> {
    ghost objects = { λ n. (newest_in (H.past n.0.now)).objects };

    fn look(&self, key: &Key) -> (Version, &[u8]) {
        self.0.newest(key)
    }
}

/// A command whose named objects all have a next version.
#[derive(Drop)]
pub(crate) enum Checked {
    /// A put, as the write that it makes.
    Put(Write),
    /// Another command, not evaluated yet.
    Other(Command),
}

/// Returns a put as its write; `None` if the object has no next version. Looks the object up once.
#[tactic(auto, unfolding(craq_commands::specs::Evaluation::some_used_up))]
fn check_put<H: History>(history: &H, object: ObjectId, value: Value) -> Option<Checked>
    ensures found { some_used_up (newest_in (H.past history.now)).objects (object ∷ []) ≡ is_none result }
    ensures same { IfSome result (λ c. outcome_in (newest_in (H.past history.now)).objects c ≡ outcome_of (newest_in (H.past history.now)).objects (Command.Put object value)) }
    ensures next { IfSome result (HaveNext (newest_in (H.past history.now)).objects) }
{
    let (version, _) = history.newest(&object.key);
    let next = version.get().checked_add(1)?;
    Some(Checked::Put(Write {
        key: object.key,
        version: Version::new(next),
        value,
    }))
}

/// Returns the command; `None` if some object that it names has no next version.
pub(crate) fn check<H: History>(history: &H, command: Command) -> Option<Checked>
    ensures found { some_used_up (newest_in (H.past history.now)).objects (objects_named command) ≡ is_none result }
    ensures same { IfSome result (λ c. outcome_in (newest_in (H.past history.now)).objects c ≡ outcome_of (newest_in (H.past history.now)).objects command) }
    ensures next { IfSome result (HaveNext (newest_in (H.past history.now)).objects) }
{
    match command {
        Command::Put { object, value } => check_put(history, object, value),
        command => {
            if command.names_used_up(&Newest(history)) {
                drop(command);
                return None;
            }
            Some(Checked::Other(command))
        }
    }
}

/// Returns the writes with their versions, each its object's next. Moves keys and values.
fn versioned<H: History>(
    alloc: Global,
    history: &H,
    writes: Vec<(Key, Value)>,
) -> Result<Vec<Write>, AllocError>
    requires { All (λ (w : List ℕ × List ℕ). version_of (newest_in (H.past history.now)).objects w.0 ≢ greatest) writes.items }
    ensures { IfOk result (λ made. made.items ≡ map (versioned_write (newest_in (H.past history.now)).objects) writes.items) }
{
    let mut made = Vec::new(alloc);
    for (key, value) in writes {
        let (version, _) = history.newest(&key);
        let version = Version::new(version.get() + 1);
        made.push(Write {
            key,
            version,
            value,
        })?;
    }
    Ok(made)
}

/// Returns the command's writes with their versions, and its reply. Moves the key and the value of
/// a put.
pub(crate) fn outcome<H: History>(
    alloc: Global,
    history: &H,
    command: Checked,
) -> Result<(Items<Write>, Reply), AllocError>
    requires { HaveNext (newest_in (H.past history.now)).objects command }
    ensures { IfOk result (λ r. (r.0, r.1) ≡ outcome_in (newest_in (H.past history.now)).objects command) }
{
    match command {
        Checked::Put(write) => {
            let version = write.version;
            Ok((only(alloc, write)?, Reply::Written(version)))
        }
        Checked::Other(command) => {
            let evaluated = evaluate(alloc, &Newest(history), &command);
            drop(command);
            let (writes, reply) = evaluated?;
            match versioned(alloc, history, writes.into_vec()) {
                Ok(writes) => Ok((Items::of(writes), reply)),
                Err(error) => {
                    drop(reply);
                    Err(error)
                }
            }
        }
    }
}

/// Returns a list of one item.
pub(crate) fn only<T: Drop>(alloc: Global, item: T) -> Result<Items<T>, AllocError>
    ensures { IfOk result (λ items. items ≡ item ∷ []) }
{
    let mut items = Items::new(alloc);
    items.push(item)?;
    Ok(items)
}

/// Adds the sends of consecutive entries to the successor, if there is one.
pub(crate) fn forward(
    outs: &mut Vec<Out>,
    alloc: Global,
    sender: &Sender,
    members: &[NodeId],
    entries: &[Entry],
) -> Result<(), AllocError>
    ensures { OnOk result (outs.new.items ≡ outs.old.items ++ forwarded sender.now.name sender.now.epoch members.now entries.now) }
{
    match successor_of(members, sender.id()) {
        Some(to) => send_entries(outs, alloc, sender, to, entries),
        None => Ok(()),
    }
}
