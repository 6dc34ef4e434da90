//! Opens chains and nodes, before any step, and lists their workers; called by `store` at a start
//! and at a join.
ghost use Rattle.std.specs.Prelude.{◌≡◌, ◌++◌, ◌∷◌, [], IfErr, IfOk, IsSome, Some, if◌then◌else◌, map, string_bytes};
ghost use Rattle.std.specs.List.{AllByRecursion};
ghost use Rattle.std.specs.Option.{option_map};
ghost use Rattle.craq_epochs.specs.Mastered.{opened_master};
ghost use Rattle.craq_ghost_history.specs.declared.author.Author.TheVariants as Author;
ghost use Rattle.craq_model.specs.Members.{IsMembership};
ghost use Rattle.craq_node.specs.Represented.{CanOpen};
ghost use Rattle.craq_place.specs.Plan.{IsPlan};
ghost use Rattle.craq_seat.specs.Books.{book_opening};
ghost use Rattle.craq_seat.specs.Cells.{opened};
ghost use Rattle.craq_store_history.specs.Entries.{members_in};
ghost use Rattle.craq_workers.specs.Posts.{Master, chain_posts, member_posts, node_posts, post_of};
ghost use Rattle.craq_workers.specs.Stores.{masters_of};

use craq_ghost_history::{Named, Registrar};
use craq_locked_chain::ChainBook;
use craq_model::Config;
use craq_names::{ChainId, Copied, NodeId, NodeName, Refusal, Stamp};
use craq_node::Core;
use craq_place::{MOST_CHAINS, Plan};
use craq_running_chain::{Chain, Help, Open, Rest, RoutingTable, WakeUp, Worker, master_of};
use craq_running_node::{RecordedDesk, Removed, Route, RunningNode, open_inbox};
use craq_seat::{BookCell, Cell, Desk};
use craq_store_history::{HistoryEntry, StoreRule};
use craq_store_parts::{StoreHistory, StoreToken, StoreWriter};
use crossbeam_channel::Sender;
use std::alloc::{AllocError, Global};
use std::sync::{Arc, Mutex, RwLock, Wait};

/// The form of a store: whether it keeps journals, and which threads take its steps.
#[derive(Clone, Copy)]
pub(crate) struct Form {
    /// The cells keep journals.
    pub journal: bool,
    /// Two threads for each chain take all that waits at its nodes. If not, each node has two: one
    /// takes the requests that are queued for it, one what arrives there.
    pub chain_threads: bool,
}

impl Form {
    /// Returns the part of a removed node that its chain keeps: an audit merges a journal.
    pub(crate) fn after_removal(&self) -> Removed
        ensures { result ≡ (if self.now.journal then Removed.Kept else Removed.Dropped) }
    {
        if self.journal {
            Removed::Kept
        } else {
            Removed::Dropped
        }
    }
}

/// A store that starts, as its chains are opened.
#[derive(Drop)]
pub(crate) struct Opener<'a, R, N: Named> {
    pub rt: &'a R,
    pub alloc: Global,
    pub form: Form,
    pub history: &'a StoreHistory<N>,
    /// The registrar of the history's rights.
    pub registrar: &'a Mutex<Registrar<HistoryEntry, StoreRule, N>>,
    /// The sender that each worker holds as long as it runs.
    pub alive: &'a Sender<()>,
}

/// Makes the routing entry of a node that is not open yet. Fails only when out of memory.
pub(crate) fn route_to<C: Core + Named>(
    alloc: Global,
    name: &NodeName,
) -> Result<Route<C>, AllocError>
    ensures name { IfOk result (λ route. route.name ≡ name.now) }
    ensures node { IfOk result (λ route. option_map (λ n. n.value.name) route.node ≡ Some name.now) }
    ensures entrances { IfOk result (λ route. IsSome route.entrances) }
{
    let (entrances, inbox) = open_inbox(alloc)?;
    let node = Arc::new(alloc, RunningNode::new(*name, inbox))?;
    Ok(Route {
        name: *name,
        node: Some(node),
        entrances: Some(entrances),
    })
}

/// Adds a node's own workers, if the nodes of the store have any, behind those that are there.
/// Fails only when out of memory.
pub(crate) fn add_workers<C: Core + Named>(
    route: &Route<C>,
    form: Form,
    workers: &mut Vec<Worker<C>>,
) -> Result<(), AllocError>
    ensures { IfOk result (λ _. map post_of workers.new.items ≡ map post_of workers.old.items ++ node_posts form.chain_threads (option_map (λ n. n.value.name) route.now.node)) }
{
    let Some(node) = &route.node else {
        return Ok(());
    };
    if form.chain_threads {
        return Ok(());
    }
    workers.push(Worker::Asks(Arc::try_clone(node)?))?;
    workers.push(Worker::Links(Arc::try_clone(node)?))?;
    Ok(())
}

/// Adds the two workers of a whole chain behind those that are there, if the store has such workers.
/// Fails only when out of memory.
fn add_chain_threads<C: Core + Named>(
    chain: ChainId,
    form: Form,
    workers: &mut Vec<Worker<C>>,
) -> Result<(), AllocError>
    ensures { IfOk result (λ _. map post_of workers.new.items ≡ map post_of workers.old.items ++ member_posts form.chain_threads chain []) }
{
    if !form.chain_threads {
        return Ok(());
    }
    workers.push(Worker::ChainThread(chain))?;
    workers.push(Worker::SecondThread(chain))?;
    Ok(())
}

impl<'a, R: Wait, C: Core + Named> Opener<'a, R, C> {
    /// Returns the right to the entries of this node, or of a chain's master as node 0. Refused with
    /// `Memory` when out of memory, or if the right was given before.
    fn writer(&self, name: &NodeName) -> Result<StoreWriter<C>, Refusal>
        ensures writer { IfOk result (λ w. (w.author ≡ Author.Node name.now.chain name.now.node) × (w.seen ≡ [])) }
        ensures err { IfErr result (λ e. e ≡ Refusal.Memory) }
    {
        let chain = name.chain.get() as u64;
        let node = name.node.get() as u64;
        let mut registrar = self.registrar.lock(self.rt);
        match registrar.node(self.history, chain, node) {
            Some(writer) => Ok(writer),
            None => Err(Refusal::Memory),
        }
    }

    /// Opens the desk of a first member in a cell, before its first step (`Cell::open`). The token
    /// has seen that the chain was opened with this membership. Refused with `Memory` only.
    fn open_desk(
        &self,
        name: &NodeName,
        config: &Config,
        token: StoreToken<C>,
    ) -> Result<RecordedDesk<C>, Refusal>
        requires can { CanOpen name.now (Some config.now) }
        requires opened { members_in name.now.chain token ≡ Some config.now.members }
        ensures err { IfErr result (λ e. e ≡ Refusal.Memory) }
    {
        let journal = self.form.journal;
        let cell = Cell::open(self.alloc, *name, Some(config), journal, Stamp::new(0))?;
        let writer = self.writer(name)?;
        let desk = Desk::new(self.alloc, cell);
        Ok(RecordedDesk::open(self.history, desk, writer, token))
    }

    /// Opens a first member before its first step, and makes its routing entry. Refused with
    /// `Memory` only.
    fn open_member(
        &self,
        name: &NodeName,
        config: &Config,
        token: StoreToken<C>,
    ) -> Result<Route<C>, Refusal>
        requires can { CanOpen name.now (Some config.now) }
        requires opened { members_in name.now.chain token ≡ Some config.now.members }
        ensures name { IfOk result (λ route. route.name ≡ name.now) }
        ensures node { IfOk result (λ route. option_map (λ n. n.value.name) route.node ≡ Some name.now) }
        ensures entrances { IfOk result (λ route. IsSome route.entrances) }
        ensures err { IfErr result (λ e. e ≡ Refusal.Memory) }
    {
        let desk = self.open_desk(name, config, token)?;
        let route = route_to(self.alloc, name)?;
        if let Some(node) = &route.node {
            node.open(self.rt, self.alloc, desk);
        } else {
            drop(desk);
        }
        Ok(route)
    }

    /// Opens the members of a first membership, at stamp 0, and appends their workers to those that
    /// are there. Refused with `Memory` only.
    fn open_members(
        &self,
        chain: ChainId,
        config: &Config,
        token: StoreToken<C>,
        workers: &mut Vec<Worker<C>>,
    ) -> Result<Vec<Route<C>>, Refusal>
        requires membership { (config.now.epoch ≡ 1) × IsMembership config.now.members }
        requires opened { members_in chain token ≡ Some config.now.members }
        ensures names { IfOk result (λ routes. map (λ w. w.name) routes.items ≡ map (λ n. record { chain = chain; node = n }) config.now.members) }
        ensures open { IfOk result (λ routes. AllByRecursion (λ w. (option_map (λ n. n.value.name) w.node ≡ Some w.name) × IsSome w.entrances) routes.items) }
        ensures workers { IfOk result (λ _. map post_of workers.new.items ≡ map post_of workers.old.items ++ member_posts self.now.form.chain_threads chain config.now.members) }
        ensures err { IfErr result (λ e. e ≡ Refusal.Memory) }
    {
        add_chain_threads(chain, self.form, workers)?;
        let mut token = token;
        let mut nodes = Vec::new(self.alloc);
        for node in config.members.as_slice() {
            let name = NodeName { chain, node: *node };
            let seen = token.again(self.history);
            let route = self.open_member(&name, config, seen)?;
            add_workers(&route, self.form, workers)?;
            nodes.push(route)?;
        }
        Ok(nodes)
    }

    /// Opens the cell of a chain's master before any step, and the chain in the store's history.
    /// Returns also a token that has seen the opening. Refused with `Memory` only.
    fn open_book(
        &self,
        id: ChainId,
        members: &[NodeId],
    ) -> Result<(ChainBook<C>, StoreToken<C>), Refusal>
        requires { IsMembership members.now }
        ensures book { IfOk result (λ r. r.0 ≡ opened (book_opening id members.now) self.now.form.journal (opened_master id members.now)) }
        ensures token { IfOk result (λ r. members_in id r.1 ≡ Some members.now) }
        ensures err { IfErr result (λ e. e ≡ Refusal.Memory) }
    {
        let cell = BookCell::open(self.alloc, id, members, self.form.journal)?;
        let writer = self.writer(&master_of(id))?;
        Ok(ChainBook::open(self.history, cell, writer))
    }

    /// Opens a chain of these members, before any step, and appends its workers to those that are
    /// there. Refused with `Memory` only.
    fn open_chain(
        &self,
        id: ChainId,
        name: &str,
        members: &[NodeId],
        workers: &mut Vec<Worker<C>>,
    ) -> Result<Chain<C>, Refusal>
        requires { IsMembership members.now }
        ensures name { IfOk result (λ c. string_bytes c.name ≡ name.now) }
        ensures master { IfOk result (λ c. opened_master c.id c.first.members ≡ opened_master id members.now) }
        ensures workers { IfOk result (λ _. map post_of workers.new.items ≡ map post_of workers.old.items ++ (member_posts self.now.form.chain_threads id members.now ++ Master id ∷ [])) }
        ensures err { IfErr result (λ e. e ≡ Refusal.Memory) }
    {
        let name = String::from_str(self.alloc, name)?;
        let (book, token) = self.open_book(id, members)?;
        let first = book.cell().config().copied(self.alloc)?;
        let nodes = self.open_members(id, &first, token, workers)?;
        let (master, ticks) = crossbeam_channel::bounded(self.alloc, 1)?;
        workers.push(Worker::Master(id, ticks))?;
        let alive = self.alive.clone()?;
        Ok(Chain {
            name,
            id,
            first,
            book: Mutex::new(book),
            routes: RwLock::new(RoutingTable {
                nodes,
                open: Some(Open { master, alive }),
            }),
            wake_up: WakeUp::new(),
            help: Help::new(),
            rest: Rest::new(),
        })
    }

    /// Opens the chains of a plan, by id, before any step, and appends all their workers. Refused
    /// with `Memory` only.
    pub(crate) fn open_chains(
        &self,
        plan: &Plan,
        workers: &mut Vec<Worker<C>>,
    ) -> Result<Vec<Chain<C>>, Refusal>
        requires { IsPlan plan.now }
        ensures names { IfOk result (λ chains. map (λ c. string_bytes c.name) chains.items ≡ map (λ c. c.0) plan.now) }
        ensures masters { IfOk result (λ chains. map (λ c. opened_master c.id c.first.members) chains.items ≡ masters_of 0 plan.now) }
        ensures workers { IfOk result (λ _. map post_of workers.new.items ≡ map post_of workers.old.items ++ chain_posts self.now.form.chain_threads 0 plan.now) }
        ensures err { IfErr result (λ e. e ≡ Refusal.Memory) }
    {
        let mut chains = Vec::new(self.alloc);
        for id in 0..MOST_CHAINS {
            let id = ChainId::new(id);
            match plan.chain(id) {
                Ok((name, members)) => {
                    let chain = self.open_chain(id, name, members, workers)?;
                    chains.push(chain)?;
                }
                Err(_) => break,
            }
        }
        Ok(chains)
    }
}
