//! The single copy, which applies the committed updates one after another; used by `strong`.
ghost use Rattle.std.specs.Prelude.{◌≡◌, ◌+◌, ◌<◌, ◌≤◌, [], length, unwrap_or, OnOk, IfOk};
ghost use Rattle.craq_names.specs.Limits.{greatest};
ghost use Rattle.craq_names.specs.Maps.{at_number, put_key, put_number};
ghost use Rattle.craq_commands.specs.Objects.{object_of, version_of, written, all_written};
ghost use Rattle.craq_commands.specs.Evaluation.{eval};
ghost use Rattle.craq_commands.specs.Kept.{keep, said_of};
ghost use Rattle.craq_commands.specs.Reported.{given_reply};
ghost use Rattle.craq_commands.specs.declared.state.State.{State};
ghost use Rattle.craq_commands.specs.SingleCopy.{opening_state, apply, said, is_new_to};
ghost use Rattle.craq_check.specs.Tests.{HasVersionsUpTo, HasFewWrites, is_reply, is_said};

use crate::replies::are_same_replies;
use craq_commands::{Command, Look, Reply, RequestStatus, Update, Window, Writes, evaluate};
use craq_model::{Answer, Ask};
use craq_names::{ClientId, Copied, Key, RequestNo, Value, Version};
use std::alloc::{AllocError, Global};
use std::collections::BTreeMap;
use std::marker::Model;

/// Objects by key, each with its version and value.
type ObjectMap = BTreeMap<Key, (Version, Value)>;

/// The kept replies of each client, by its id.
type KeptMap = BTreeMap<u64, Window>;

/// Returns the version and value of an object.
#[tactic(auto, unfolding(craq_commands::specs::Objects::object_of))]
fn object_in<'a>(objects: &'a ObjectMap, key: &Key) -> (Version, &'a [u8])
    ensures object { (result.0, result.1.now) ≡ object_of objects.now.entries key.now }
    ensures short { length result.1.now ≤ 4096 }
{
    match objects.get(key) {
        Some((version, value)) => (*version, value.as_slice()),
        None => (Version::new(0), &[]),
    }
}

/// Returns what is known of a client's request number.
fn said_in(kept: &KeptMap, client: ClientId, number: RequestNo) -> RequestStatus<'_>
    ensures { given_reply result ≡ said_of (unwrap_or (at_number kept.now.entries client) []) number }
{
    match kept.get(&client.get()) {
        Some(window) => window.look(number),
        None => RequestStatus::New,
    }
}

/// Puts an object at its key.
fn put_object(
    objects: &mut ObjectMap,
    key: Key,
    version: Version,
    value: Value,
) -> Result<(), AllocError>
    ensures { OnOk result (objects.new.entries ≡ put_key objects.old.entries key (version, value)) }
{
    objects.insert(key, (version, value))?;
    Ok(())
}

/// Writes a value as the next version of its object, which must have one left.
#[tactic(auto, unfolding(craq_commands::specs::Objects::set_object))]
fn put_next(
    alloc: Global,
    objects: &mut ObjectMap,
    key: &Key,
    value: &Value,
) -> Result<(), AllocError>
    requires { version_of objects.old.entries key.now < greatest }
    ensures { OnOk result (objects.new.entries ≡ written objects.old.entries (key.now, value.now)) }
{
    let (version, _) = object_in(objects, key);
    let next = Version::new(version.get() + 1);
    let copy = value.copied(alloc)?;
    put_object(objects, key.copied(alloc)?, next, copy)
}

/// Writes a value as the next version of its object. The caller knows that no version is above
/// `highest`.
#[tactic(auto, using(crate::proofs::Bounds::version_low, crate::proofs::Bounds::written_at))]
fn put_write(
    alloc: Global,
    objects: &mut ObjectMap,
    key: &Key,
    value: &Value,
    highest: u64,
) -> Result<(), AllocError>
    requires bound { HasVersionsUpTo highest objects.old.entries }
    requires room { highest < greatest }
    ensures objects { OnOk result (objects.new.entries ≡ written objects.old.entries (key.now, value.now)) }
    ensures bound { OnOk result (HasVersionsUpTo (highest + 1) objects.new.entries) }
{
    put_next(alloc, objects, key, value)?;
    Ok(())
}

/// Writes these values in order, each as the next version of its object. The caller knows that no
/// version is above `highest`, and that there are enough versions left.
#[tactic(auto, using(crate::proofs::Bounds::more_room))]
fn put_writes(
    alloc: Global,
    objects: &mut ObjectMap,
    writes: &[(Key, Value)],
    highest: u64,
) -> Result<(), AllocError>
    requires bound { HasVersionsUpTo highest objects.old.entries }
    requires room { highest + length writes.now < greatest }
    ensures objects { OnOk result (objects.new.entries ≡ all_written objects.old.entries writes.now) }
    ensures bound { OnOk result (HasVersionsUpTo (highest + length writes.now) objects.new.entries) }
{
    let mut most = highest;
    for (key, value) in writes {
        put_write(alloc, objects, key, value, most)?;
        most += 1;
    }
    Ok(())
}

/// Puts the kept replies of a client, and returns those that were there.
fn swap_kept(
    kept: &mut KeptMap,
    client: ClientId,
    window: Window,
) -> Result<Option<Window>, AllocError>
    ensures kept { OnOk result (kept.new.entries ≡ put_number kept.old.entries client window) }
    ensures held { IfOk result (λ held. held ≡ at_number kept.old.entries client) }
{
    let held = kept.insert(client.get(), window)?;
    Ok(held)
}

/// Keeps the reply to a client's new number.
fn put_kept(
    alloc: Global,
    kept: &mut KeptMap,
    client: ClientId,
    number: RequestNo,
    reply: Reply,
) -> Result<(), AllocError>
    ensures { OnOk result (kept.new.entries ≡ put_number kept.old.entries client (keep (unwrap_or (at_number kept.old.entries client) []) number reply)) }
{
    let held = swap_kept(kept, client, Window::new(alloc))?;
    let mut window = held.unwrap_or(Window::new(alloc));
    window.keep(number, reply)?;
    swap_kept(kept, client, window)?;
    Ok(())
}

/// States that a transaction has at most 16 writes. Does nothing.
fn has_few_writes(command: &Command)
    ensures { HasFewWrites command.now }
{
    if let Command::Mini(mini) = command {
        mini.keeps_limits();
    }
}

/// The objects, and the kept replies of the clients.
#[derive(Drop)]
pub struct Single {
    objects: ObjectMap,
    kept: KeptMap,
}

impl Model for Single {
    ghost Value = { State };

    ghost view = { λ s. record { objects = s.objects.entries; kept = s.kept.entries } };
}

impl Look for Single {
    ghost objects = { λ s. s.objects };

    fn look(&self, key: &Key) -> (Version, &[u8]) {
        object_in(&self.objects, key)
    }
}

impl Single {
    /// Makes the copy before any update.
    pub fn new(alloc: Global) -> Self
        ensures { result ≡ opening_state }
    {
        Single {
            objects: BTreeMap::new(alloc),
            kept: BTreeMap::new(alloc),
        }
    }

    /// Returns true if the client's number is new.
    #[tactic(auto, using(crate::proofs::Said::new_is_unsaid), unfolding(craq_commands::specs::SingleCopy::window_of))]
    fn is_new(&self, client: ClientId, number: RequestNo) -> bool
        ensures { result ≡ is_new_to self.now client number }
    {
        match said_in(&self.kept, client, number) {
            RequestStatus::New => true,
            RequestStatus::Kept(_) | RequestStatus::Stale(_) => false,
        }
    }

    /// Returns the writes of a command, at most 16, and its reply. The caller knows that no version
    /// is above `highest`, which is not the greatest.
    #[tactic(auto, using(crate::proofs::Bounds::none_used_up, crate::proofs::Bounds::few_written))]
    fn outcome(
        &self,
        alloc: Global,
        command: &Command,
        highest: u64,
    ) -> Result<(Writes, Reply), AllocError>
        requires bound { HasVersionsUpTo highest self.now.objects }
        requires room { highest < greatest }
        ensures outcome { IfOk result (λ r. (r.0, r.1) ≡ eval self.now.objects command.now) }
        ensures few { IfOk result (λ r. length r.0 ≤ 16) }
    {
        has_few_writes(command);
        let (writes, reply) = evaluate(alloc, self, command)?;
        Ok((writes, reply))
    }

    /// Applies an update; one whose number is not new changes nothing. The caller knows that no
    /// version is above `highest`, and that there are 16 versions left.
    #[tactic(auto, using(crate::proofs::Bounds::more_room), unfolding(craq_commands::specs::SingleCopy::apply, craq_commands::specs::SingleCopy::kept_with, craq_commands::specs::SingleCopy::window_of))]
    pub fn apply(&mut self, alloc: Global, update: &Update, highest: u64) -> Result<(), AllocError>
        requires bound { HasVersionsUpTo highest self.old.objects }
        requires room { highest + 16 < greatest }
        ensures state { OnOk result (self.new ≡ apply self.old update.now) }
        ensures bound { OnOk result (HasVersionsUpTo (highest + 16) self.new.objects) }
    {
        if !self.is_new(update.client, update.number) {
            return Ok(());
        }
        let (writes, reply) = self.outcome(alloc, &update.command, highest)?;
        put_writes(alloc, &mut self.objects, writes.as_slice(), highest)?;
        put_kept(alloc, &mut self.kept, update.client, update.number, reply)?;
        Ok(())
    }

    /// Returns true if this is the reply to a client's number.
    #[tactic(auto, unfolding(craq_commands::specs::SingleCopy::window_of, crate::specs::Tests::is_reply))]
    fn says(&self, client: ClientId, number: RequestNo, reply: &Reply) -> bool
        ensures { result ≡ is_reply (said self.now client number) reply.now }
    {
        match said_in(&self.kept, client, number) {
            RequestStatus::New => false,
            RequestStatus::Kept(kept) => are_same_replies(kept, reply),
            RequestStatus::Stale(last) => are_same_replies(&Reply::Stale(last), reply),
        }
    }

    /// Returns true if the answer is this copy's reply to the request.
    #[tactic(auto, unfolding(crate::specs::Tests::is_said))]
    pub fn answers(&self, ask: &Ask, answer: &Answer) -> bool
        ensures { result ≡ is_said self.now ask.now answer.now }
    {
        match ask {
            Ask::Update(update) => match answer {
                Answer::Update(reply) => self.says(update.client, update.number, reply),
                Answer::Read { .. } => false,
            },
            Ask::Read { object, .. } => match answer {
                Answer::Update(_) => false,
                Answer::Read { version, value } => {
                    let (newest, bytes) = self.look(&object.key);
                    newest == *version && bytes == value.as_slice()
                }
            },
        }
    }
}
