//! `NodeBatch`: a batch of steps of a node under its lock, and what these steps send. And the chain
//! thread, which takes rounds of batches, from the head to the tail and back. While the head is
//! busy, the second thread takes the nodes behind it. Called by `work`, and by `shared` for a caller
//! that carries its own step on.
ghost use Rattle.std.specs.Sync.Mutex.{mutex_guard_value};
ghost use Rattle.std.specs.Prelude.{◌≡◌, ◌⊎◌, ℕ, [], None, Some, false};
ghost use Rattle.craq_locked_chain.specs.Held.{cell_in};
ghost use Rattle.craq_node.specs.Represented.{CanArrive};
ghost use Rattle.craq_running_chain.specs.declared.held_back.HeldBack.TheVariants as held_back;
ghost use Rattle.craq_running_node.specs.Replies.{ClosesOwn, ClosesQueued, ReactsTo, RefusesOwn, RefusesQueued, TakesOwn, TakesQueued, in_hand};
ghost use Rattle.craq_store_parts.specs.Recorded.{MayHappen};
ghost use Rattle.craq_running_chain.specs.Batches.{TakesMessage, HoldsBack, OwesLast, OwesStill, TakesBrought};

use crate::chain::Chain;
use crate::held_back::HeldBack;
use crate::help::HeadLoad;
use crate::shared::{Shared, Wakes};
use craq_ghost_history::Named;
use craq_model::Event;
use craq_names::{ChainId, Refusal, Seq};
use craq_node::Core;
use craq_running_node::{
    ArrivedEvent, Delivery, Messages, OwedAck, OwnAsk, OwnReply, QueuedAsk, Replies, RunningNode,
    SeatedNode, Wire, entries_of, lone_entry_of, messages_of, owed_by, refuse_asked, refuse_own,
    take_event, take_own_ask, take_queued_ask,
};
use craq_store_parts::{Gate, Work};
use std::alloc::Global;
use std::hint::spin_loop;
use std::mem;
use std::sync::{Arc, MutexGuard, Wait};

/// The most messages of one batch of a node. It is well above the number of entry messages of a
/// round, so that entries do not wait behind the queries of many reads of one object.
const MESSAGES: u32 = 32;

/// The most requests of one batch of a node: as many as one message has entries.
pub(crate) const ASKS: u32 = 16;

/// The most rounds that a caller takes in the chain thread's place.
const ROUNDS: u32 = 8;

/// The most looks of a chain thread for what waits at the head, while the second thread is called.
/// This project's profile.
const LOOKS: u32 = 10_000;

/// The way out of a node, for what its batch sends.
#[derive(Drop)]
struct Exit<'a, C: Core + Named, G: Gate> {
    alloc: Global,
    shared: &'a Shared<C, G>,
    node: &'a RunningNode<C>,
    wakes: Wakes,
}

impl<'a, C: Core + Named, G: Gate> Exit<'a, C, G> {
    /// Sends messages, in order.
    fn post<R: Wait>(&self, rt: &R, messages: Messages<C>) {
        self.shared.post(rt, &self.node.name, messages, self.wakes);
    }

    /// Sends an acknowledgement. Out of memory, it is lost and counted.
    fn acknowledge<R: Wait>(&self, rt: &R, ack: OwedAck<C>) {
        match ack.encode(self.alloc) {
            Ok(outgoing) => self.shared.send(rt, &self.node.name, outgoing, self.wakes),
            Err(_) => self.node.losses.add(),
        }
    }
}

/// A batch of steps of a node, whose lock it holds. Sends at once what a step sends, except for two
/// kinds of steps.
///
/// - A step that only acknowledges: its acknowledgement is owed. It goes out before the next
///   message of another step, and at the latest at the end of the batch. It is dropped if that of a
///   later step makes it needless.
/// - A step that only sends an entry: the entry is held back until the end of the batch. One entry
///   goes out then as its step sends it. Several go out as the entries of one tick, in messages of
///   up to 16. What else that tick sends is not needed, and is not sent.
///
/// A batch has no drop: only `end` ends it, after what is held back and owed. No contract says that
/// this goes out, since none sees what the links take.
pub(crate) struct NodeBatch<'a, C: Core + Named, G: Gate> {
    exit: Exit<'a, C, G>,
    seated: MutexGuard<'a, SeatedNode<C>>,
    replies: Replies<C>,
    owed: Option<OwedAck<C>>,
    held_back: HeldBack,
}

impl<'a, C: Core + Named, G: Gate> NodeBatch<'a, C, G> {
    /// Begins a batch of a node whose lock is held. It owes nothing yet and holds nothing back.
    /// Takes no memory.
    pub(crate) fn begin(
        shared: &'a Shared<C, G>,
        node: &'a RunningNode<C>,
        seated: MutexGuard<'a, SeatedNode<C>>,
        wakes: Wakes,
    ) -> Self
        ensures seated { result.seated ≡ seated.entry }
        ensures replies { result.replies ≡ record { replies = []; short = false } }
        ensures owed { result.owed ≡ None }
        ensures held_back { result.held_back ≡ held_back.Nothing }
    {
        let alloc = shared.alloc;
        NodeBatch {
            exit: Exit {
                alloc,
                shared,
                node,
                wakes,
            },
            seated,
            replies: Replies::new(alloc),
            owed: None,
            held_back: HeldBack::Nothing,
        }
    }

    /// Ends the batch. Sends the entries that are held back (`flush`), then the acknowledgement that
    /// is owed. Then unlocks the node, and sends the replies to callers.
    pub(crate) fn end<R: Wait>(self, rt: &R) {
        let mut batch = self;
        batch.flush(rt);
        batch.let_go(rt);
    }

    /// Sends what is owed, unlocks the node, and then sends the replies to callers.
    fn let_go<R: Wait>(self, rt: &R)
        requires { self.held_back ≡ held_back.Nothing }
    {
        let NodeBatch {
            exit,
            seated,
            replies,
            owed,
            held_back: _,
        } = self;
        if let Some(ack) = owed {
            exit.acknowledge(rt, ack);
        }
        drop(seated);
        replies.tell(rt);
    }

    /// Sends what is held back: one entry of the last step as that step sends it; several as the
    /// entries of one tick of the node, in messages of up to 16.
    ///
    /// Of the tick's messages only those go out that bring entries which were held back. Out of
    /// memory, the next tick sends them, as it does after a lost message.
    fn flush<R: Wait>(&mut self, rt: &R)
        ensures held_back { self.new.held_back ≡ held_back.Nothing }
        ensures several { (first : ℕ) → self.old.held_back ≡ held_back.Several first → ReactsTo C.represents (mutex_guard_value self.old.seated) (mutex_guard_value self.new.seated) Event.Tick self.old.replies self.new.replies }
        ensures same { ((first : ℕ) → ¬ (self.old.held_back ≡ held_back.Several first)) → (self.new.seated ≡ self.old.seated) × (self.new.replies ≡ self.old.replies) }
    {
        let held_back = mem::replace(&mut self.held_back, HeldBack::Nothing);
        match held_back {
            HeldBack::Nothing => (),
            HeldBack::Last(_) => self.send_step(rt),
            HeldBack::Several(first) => {
                if self.tick(rt) {
                    self.send_entries(rt, first);
                }
            }
        }
    }

    /// Takes the step on what was brought. Out of memory to decode a message, it is lost and counted.
    pub(crate) fn take_brought<R: Wait>(&mut self, rt: &R, brought: Delivery<C>)
        ensures { TakesBrought C.represents (mutex_guard_value self.old.seated) (mutex_guard_value self.new.seated) brought self.old.replies self.new.replies }
    {
        match brought {
            Delivery::Tick => {
                if self.tick(rt) {
                    self.post_step(rt);
                }
            }
            Delivery::Message(wire) | Delivery::Ack(wire) => self.take_message(rt, wire),
            Delivery::Blank(wire) => {
                self.take_message(rt, wire);
                self.exit.node.inbox.blank_answered(rt);
            }
        }
    }

    /// Takes the step on an encoded message of the node's chain. One of another chain is lost.
    fn take_message<R: Wait>(&mut self, rt: &R, wire: Wire<C>)
        ensures { TakesMessage C.represents (mutex_guard_value self.old.seated) (mutex_guard_value self.new.seated) wire.bytes self.old.replies self.new.replies }
    {
        if wire.chain() != self.seated.desk.cell().opening().name.chain {
            drop(wire);
            return;
        }
        match wire.read(self.exit.alloc) {
            Ok((message, token)) => {
                let event = Event::Deliver(message);
                self.deliver(rt, ArrivedEvent { event, token });
            }
            Err(_) => self.exit.node.losses.add(),
        }
    }

    /// Takes the step on a message, and sends what it sends.
    fn deliver<R: Wait>(&mut self, rt: &R, arrival: ArrivedEvent<C>)
        requires arrives { CanArrive arrival.event }
        requires may { MayHappen arrival.token (mutex_guard_value self.old.seated).desk.cell.opening.name arrival.event None }
        ensures { ReactsTo C.represents (mutex_guard_value self.old.seated) (mutex_guard_value self.new.seated) arrival.event self.old.replies self.new.replies }
    {
        let history = &self.exit.shared.history;
        if take_event(rt, history, &mut self.seated, arrival, &mut self.replies) {
            self.post_step(rt);
        }
    }

    /// Takes the step on a tick, which sends again each entry that is not acknowledged. Returns true
    /// if it was taken.
    fn tick<R: Wait>(&mut self, rt: &R) -> bool
        ensures reacts { ReactsTo C.represents (mutex_guard_value self.old.seated) (mutex_guard_value self.new.seated) Event.Tick self.old.replies self.new.replies }
        ensures owed { self.new.owed ≡ self.old.owed }
        ensures held_back { self.new.held_back ≡ self.old.held_back }
    {
        let history = &self.exit.shared.history;
        let event = Event::Tick;
        let token = self.seated.desk.token(history);
        let arrival = ArrivedEvent { event, token };
        take_event(rt, history, &mut self.seated, arrival, &mut self.replies)
    }

    /// Takes the step of a queued request. A closed node refuses it with `Closed`, since nobody
    /// would answer it.
    pub(crate) fn take_asked<R: Wait>(&mut self, rt: &R, asked: QueuedAsk<C>)
        ensures { TakesQueued C.represents (mutex_guard_value self.old.seated) (mutex_guard_value self.new.seated) asked.made.ask asked.pass asked.at self.old.replies self.new.replies ⊎ RefusesQueued C.represents (mutex_guard_value self.old.seated) (mutex_guard_value self.new.seated) asked.made.name asked.made.ask asked.pass asked.at self.old.replies self.new.replies ⊎ ClosesQueued (mutex_guard_value self.old.seated) (mutex_guard_value self.new.seated) asked.at self.old.replies self.new.replies }
    {
        if self.exit.node.is_closed() {
            refuse_asked(rt, asked, &mut self.replies);
        } else if take_queued_ask(
            rt,
            &self.exit.shared.history,
            &mut self.seated,
            asked,
            &mut self.replies,
        ) {
            self.post_step(rt);
        }
    }

    /// Takes the step of the caller's own request. Returns the reply, or `None` if a completion
    /// will come.
    pub(crate) fn take_own<R: Wait>(&mut self, rt: &R, own: OwnAsk<'_, C>) -> OwnReply<C>
        ensures { TakesOwn C.represents (mutex_guard_value self.old.seated) (mutex_guard_value self.new.seated) own.entry.made.ask own.entry.pass own.entry.at.token (in_hand result) self.old.replies self.new.replies ⊎ RefusesOwn C.represents (mutex_guard_value self.old.seated) (mutex_guard_value self.new.seated) own.entry.made.name own.entry.made.ask own.entry.pass (in_hand result) self.old.replies self.new.replies ⊎ ClosesOwn (mutex_guard_value self.old.seated) (mutex_guard_value self.new.seated) (in_hand result) self.old.replies self.new.replies }
    {
        if self.exit.node.is_closed() {
            return Err(refuse_own(own, Refusal::Closed));
        }
        let history = &self.exit.shared.history;
        match take_own_ask(rt, history, &mut self.seated, own, &mut self.replies) {
            Err(refusal) => Err(refusal),
            Ok(reply) => {
                self.post_step(rt);
                reply
            }
        }
    }

    /// Sends what the node's last step sends, after what is owed; or owes it, or holds it back.
    fn post_step<R: Wait>(&mut self, rt: &R)
        ensures last { OwesLast (cell_in self.old.seated) self.new.owed }
        ensures still { OwesStill (cell_in self.old.seated) self.old.owed self.new.owed }
        ensures holds { HoldsBack (cell_in self.old.seated) self.old.held_back self.new.held_back }
        ensures seated { self.new.seated ≡ self.old.seated }
        ensures replies { self.new.replies ≡ self.old.replies }
    {
        let held_back = self.held_back;
        if let Some(position) = lone_entry_of(self.seated.desk.cell()) {
            self.held_back = held_back.with_entry(position);
            return;
        }
        match owed_by(&self.exit.shared.history, &mut self.seated) {
            Some(ack) => self.owe(rt, ack),
            None => self.send_step(rt),
        }
        self.held_back = held_back.after_another();
    }

    /// Sends all that the node's last step sends, after what is owed, so messages go out in the
    /// order of the steps.
    fn send_step<R: Wait>(&mut self, rt: &R)
        ensures still { OwesStill (cell_in self.old.seated) self.old.owed self.new.owed }
        ensures same { self.new.held_back ≡ self.old.held_back }
        ensures seated { self.new.seated ≡ self.old.seated }
        ensures replies { self.new.replies ≡ self.old.replies }
    {
        let history = &self.exit.shared.history;
        let messages = messages_of(
            self.exit.alloc,
            &self.exit.node.losses,
            history,
            &mut self.seated,
        );
        if messages.is_empty() {
            return;
        }
        if let Some(ack) = self.owed.take() {
            self.exit.acknowledge(rt, ack);
        }
        self.exit.post(rt, messages);
    }

    /// Sends the entries of the node's last step from this position on, and none of its other
    /// messages.
    fn send_entries<R: Wait>(&mut self, rt: &R, first: Seq)
        ensures owed { self.new.owed ≡ self.old.owed }
        ensures same { self.new.held_back ≡ self.old.held_back }
        ensures seated { self.new.seated ≡ self.old.seated }
        ensures replies { self.new.replies ≡ self.old.replies }
    {
        let history = &self.exit.shared.history;
        let messages = entries_of(
            self.exit.alloc,
            &self.exit.node.losses,
            history,
            &mut self.seated,
            first,
        );
        self.exit.post(rt, messages);
    }

    /// Owes an acknowledgement in place of the one before, if there was one.
    fn owe<R: Wait>(&mut self, rt: &R, ack: OwedAck<C>)
        ensures owed { self.new.owed ≡ Some ack }
        ensures seated { self.new.seated ≡ self.old.seated }
        ensures replies { self.new.replies ≡ self.old.replies }
    {
        if let Some(before) = self.owed.replace(ack) {
            self.follow(rt, before);
        }
    }

    /// Sends what was owed before, unless what is owed now makes it needless.
    fn follow<R: Wait>(&self, rt: &R, before: OwedAck<C>) {
        let needed = match &self.owed {
            Some(ack) => before.give_way(ack),
            None => Some(before),
        };
        if let Some(ack) = needed {
            self.exit.acknowledge(rt, ack);
        }
    }
}

/// Takes what waits at a node in a batch: messages first, then requests. Returns the number of
/// requests.
fn take_waiting<R: Wait, C: Core + Named, G: Gate>(
    rt: &R,
    node: &RunningNode<C>,
    batch: &mut NodeBatch<'_, C, G>,
) -> u32 {
    for _ in 0..MESSAGES {
        let Some(waiting) = node.inbox.next(rt) else {
            break;
        };
        if let Some(brought) = node.inbox.take(rt, waiting) {
            batch.take_brought(rt, brought);
        }
    }
    let mut taken = 0u32;
    for _ in 0..ASKS {
        let Some(asked) = node.inbox.next_ask(rt) else {
            break;
        };
        batch.take_asked(rt, asked);
        taken = taken.saturating_add(1);
    }
    taken
}

/// Takes a batch of a node. Returns the number of requests that it took, or `None` if nothing waits.
fn visit<R: Wait, C: Core + Named, G: Gate>(
    rt: &R,
    shared: &Shared<C, G>,
    node: &RunningNode<C>,
    wakes: Wakes,
) -> Option<u32> {
    if node.inbox.is_empty() {
        return None;
    }
    let count = node.next_piece();
    shared.gate.before(node.name, Work::Asks, count);
    let mut batch = NodeBatch::begin(shared, node, node.lock(rt), wakes);
    shared.gate.within(node.name, Work::Asks, count);
    let taken = take_waiting(rt, node, &mut batch);
    batch.end(rt);
    shared.gate.after(node.name, Work::Asks, count);
    Some(taken)
}

/// Takes a batch of each of these nodes, there and back. Returns whether anything waited.
fn visit_behind<R: Wait, C: Core + Named, G: Gate>(
    rt: &R,
    shared: &Shared<C, G>,
    behind: &[Arc<RunningNode<C>>],
    wakes: Wakes,
) -> bool {
    let mut found = false;
    for node in behind.iter().chain(behind.iter().rev()) {
        if visit(rt, shared, node, wakes).is_some() {
            found = true;
        }
    }
    found
}

/// Takes a batch of each node from the head to the tail, and back to the one after the head.
/// Returns whether anything waited.
///
/// So the head takes no two batches in a row: nobody could acknowledge the first before the second.
fn visit_all<R: Wait, C: Core + Named, G: Gate>(
    rt: &R,
    shared: &Shared<C, G>,
    nodes: &[Arc<RunningNode<C>>],
    load: &mut HeadLoad,
) -> bool {
    let Some((head, behind)) = nodes.split_first() else {
        return false;
    };
    let at_head = visit(rt, shared, head, Wakes::Nobody);
    if let Some(taken) = at_head {
        load.note_alone(taken);
    }
    visit_behind(rt, shared, behind, Wakes::Nobody) || at_head.is_some()
}

/// Takes a batch of the head, while the second thread takes the nodes behind it. Looks `LOOKS` times
/// for what waits at the head. Returns whether anything did.
fn visit_head<R: Wait, C: Core + Named, G: Gate>(
    rt: &R,
    shared: &Shared<C, G>,
    nodes: &[Arc<RunningNode<C>>],
    load: &mut HeadLoad,
) -> bool {
    let Some((head, _)) = nodes.split_first() else {
        return false;
    };
    for _ in 0..LOOKS {
        match visit(rt, shared, head, Wakes::Nobody) {
            Some(taken) => {
                load.note_helped(taken);
                return true;
            }
            None => spin_loop(),
        }
    }
    false
}

/// Runs a chain until its store is closed: takes batches of its nodes as long as anything waits,
/// then sleeps. Out of memory for the list of the nodes, waits a little and tries again. Calls the
/// second thread while many requests wait at the head.
pub(crate) fn run_chain_thread<R: Wait, C: Core + Named, G: Gate>(
    rt: &R,
    shared: &Shared<C, G>,
    id: ChainId,
) {
    let Ok(chain) = shared.chain(id) else {
        return;
    };
    for _ in rt.forever() {
        let changes = chain.wake_up.changes();
        match chain.nodes(rt, shared.alloc) {
            Ok(nodes) => run_nodes(rt, shared, chain, nodes.as_slice(), changes),
            Err(Refusal::Closed) => break,
            Err(_) => chain.wake_up.pause(rt),
        }
    }
}

/// Calls the second thread, or takes the call back, by the load of the head.
fn follow_load<C: Core + Named>(chain: &Chain<C>, load: &HeadLoad) {
    if chain.help.is_called() {
        if load.is_low() {
            chain.help.end();
        }
    } else if load.is_high() {
        chain.help.call();
    }
}

/// Runs these nodes until the chain has others: all of them, or the head alone while the second
/// thread is called. It is called only while this thread is awake.
fn run_nodes<R: Wait, C: Core + Named, G: Gate>(
    rt: &R,
    shared: &Shared<C, G>,
    chain: &Chain<C>,
    nodes: &[Arc<RunningNode<C>>],
    changes: u64,
) {
    let mut load = HeadLoad::new();
    for _ in rt.forever() {
        if chain.wake_up.changes() != changes {
            break;
        }
        follow_load(chain, &load);
        if chain.help.is_called() && visit_head(rt, shared, nodes, &mut load) {
            continue;
        }
        chain.help.end();
        if visit_all(rt, shared, nodes, &mut load) {
            continue;
        }
        chain.wake_up.doze();
        if nodes.iter().any(|node| !node.inbox.is_empty()) {
            chain.wake_up.rouse();
        } else {
            chain.wake_up.sleep(rt);
        }
    }
    chain.help.end();
}

/// Runs a chain's second thread until its store is closed: sleeps until the chain thread calls it.
/// Out of memory for the list of the nodes, takes the call back.
pub(crate) fn run_second_thread<R: Wait, C: Core + Named, G: Gate>(
    rt: &R,
    shared: &Shared<C, G>,
    id: ChainId,
) {
    let Ok(chain) = shared.chain(id) else {
        return;
    };
    for _ in rt.forever() {
        chain.help.sleep(rt);
        let changes = chain.wake_up.changes();
        match chain.nodes(rt, shared.alloc) {
            Ok(nodes) => help_nodes(rt, shared, chain, nodes.as_slice(), changes),
            Err(Refusal::Closed) => break,
            Err(_) => chain.help.end(),
        }
    }
}

/// Runs the nodes behind the head, as long as the chain thread calls for it and the chain has no
/// others. Where nothing waits it looks again at once.
fn help_nodes<R: Wait, C: Core + Named, G: Gate>(
    rt: &R,
    shared: &Shared<C, G>,
    chain: &Chain<C>,
    nodes: &[Arc<RunningNode<C>>],
    changes: u64,
) {
    let Some((_, behind)) = nodes.split_first() else {
        return;
    };
    for _ in rt.forever() {
        if !chain.help.is_called() || chain.wake_up.changes() != changes {
            break;
        }
        if !visit_behind(rt, shared, behind, Wakes::ChainThread) {
            spin_loop();
        }
    }
}

/// Takes batches of the nodes in the chain thread's place, for at most `ROUNDS` rounds, and gives
/// the place back (`WakeUp::doze`). Wakes the chain thread if anything still waits then, or out of
/// memory for the list of the nodes.
pub(crate) fn run_inline<R: Wait, C: Core + Named, G: Gate>(
    rt: &R,
    shared: &Shared<C, G>,
    chain: &Chain<C>,
) {
    let Ok(nodes) = chain.nodes(rt, shared.alloc) else {
        chain.wake_up.doze();
        chain.wake_up.wake();
        return;
    };
    let mut load = HeadLoad::new();
    for _ in 0..ROUNDS {
        if !visit_all(rt, shared, nodes.as_slice(), &mut load) {
            break;
        }
    }
    chain.wake_up.doze();
    if nodes.iter().any(|node| !node.inbox.is_empty()) {
        chain.wake_up.wake();
    }
}
