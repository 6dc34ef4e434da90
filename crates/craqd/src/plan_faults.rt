//! Names the rule of a plan that a text breaks, for the line behind `plan refused`; called by
//! `plans`.
use craq_place::{MOST_CHAINS, is_chain_name};
use std::alloc::{AllocError, Global};
use std::fmt;
use std::str::from_utf8;
use toml::{Table, Value};

/// The most nodes of a chain.
const MOST_NODES: usize = 8;

/// Rules that one chain of a plan breaks.
#[derive(Clone, Copy)]
enum ChainFault<'t> {
    /// The chain is not a table.
    NoTable,
    /// The table has a key beside the name and the nodes.
    OtherKey(&'t str),
    /// There is no name.
    NoName,
    /// The name is not 1 to 32 letters, digits, `_` or `-`.
    BadName,
    /// An earlier chain has this name too.
    NameTwice(&'t str),
    /// There is no array of nodes.
    NoNodes,
    /// The number of nodes is not 1 to 8.
    NodeCount(usize),
    /// A node is not a number from 1 to 2^32 - 1.
    BadNode,
    /// This node stands twice.
    NodeTwice(i64),
}

/// Rules that a table in TOML breaks.
#[derive(Clone, Copy)]
enum PlanFault<'t> {
    /// The table has a key beside the chains.
    OtherKey(&'t str),
    /// There is no array of chains.
    NoChains,
    /// The number of chains is not 1 to 64.
    ChainCount(usize),
    /// The chain of this index, from 0, breaks a rule.
    Chain(usize, ChainFault<'t>),
}

impl fmt::Display for ChainFault<'_> {
    fn fmt<W: fmt::Write>(&self, f: &mut fmt::Formatter<W>) -> fmt::Result {
        match *self {
            ChainFault::NoTable => write!(f, "expected a table with a name and nodes"),
            ChainFault::OtherKey(key) => {
                write!(
                    f,
                    "expected a name and nodes alone, and found the key {key:?}"
                )
            }
            ChainFault::NoName => write!(f, "expected a name"),
            ChainFault::BadName => {
                write!(f, "expected a name of 1 to 32 letters, digits, _ and -")
            }
            ChainFault::NameTwice(name) => write!(f, "an earlier chain has the name {name} too"),
            ChainFault::NoNodes => write!(f, "expected nodes, as [1, 2, 3]"),
            ChainFault::NodeCount(count) => write!(f, "expected 1 to 8 nodes, and found {count}"),
            ChainFault::BadNode => write!(f, "expected nodes from 1 to 4294967295"),
            ChainFault::NodeTwice(node) => write!(f, "node {node} stands twice"),
        }
    }
}

impl fmt::Display for PlanFault<'_> {
    fn fmt<W: fmt::Write>(&self, f: &mut fmt::Formatter<W>) -> fmt::Result {
        match *self {
            PlanFault::OtherKey(key) => {
                write!(
                    f,
                    "expected tables [[chain]] alone, and found the key {key:?}"
                )
            }
            PlanFault::NoChains => write!(f, "expected tables [[chain]]"),
            PlanFault::ChainCount(count) => {
                write!(f, "expected 1 to {MOST_CHAINS} chains, and found {count}")
            }
            PlanFault::Chain(index, fault) => write!(f, "chain {index}, from 0: {fault}"),
        }
    }
}

/// Returns the value of a key.
fn value_of<'t>(table: &'t Table, wanted: &str) -> Option<&'t Value> {
    for (key, value) in table.iter() {
        if key.as_str() == wanted {
            return Some(value);
        }
    }
    None
}

/// Returns a key that is none of these two.
fn other_key<'t>(table: &'t Table, first: &str, second: &str) -> Option<&'t str> {
    for (key, _value) in table.iter() {
        if key.as_str() != first && key.as_str() != second {
            return Some(key.as_str());
        }
    }
    None
}

/// Returns the text of a chain's name, if it has one.
fn name_of(chain: &Value) -> Option<&str> {
    value_of(chain.as_table()?, "name")?.as_str()
}

/// Returns a node, if the value is a number from 1 to 2^32 - 1.
fn node_of(value: &Value) -> Option<i64> {
    match value.as_integer() {
        Some(node) if node >= 1 && node <= 0xffff_ffff => Some(node),
        _ => None,
    }
}

/// Returns the rule that the nodes of a chain break.
fn nodes_fault<'t>(nodes: &[Value]) -> Option<ChainFault<'t>> {
    if nodes.is_empty() || nodes.len() > MOST_NODES {
        return Some(ChainFault::NodeCount(nodes.len()));
    }
    for (place, value) in nodes.iter().enumerate() {
        let Some(node) = node_of(value) else {
            return Some(ChainFault::BadNode);
        };
        if nodes
            .iter()
            .take(place)
            .any(|earlier| node_of(earlier) == Some(node))
        {
            return Some(ChainFault::NodeTwice(node));
        }
    }
    None
}

/// Returns the rule that the table of a chain breaks, as far as that does not depend on others.
fn table_fault(table: &Table) -> Option<ChainFault<'_>> {
    if let Some(key) = other_key(table, "name", "nodes") {
        return Some(ChainFault::OtherKey(key));
    }
    let Some(name) = value_of(table, "name") else {
        return Some(ChainFault::NoName);
    };
    let Some(name) = name.as_str() else {
        return Some(ChainFault::BadName);
    };
    if !is_chain_name(name) {
        return Some(ChainFault::BadName);
    }
    let Some(nodes) = value_of(table, "nodes") else {
        return Some(ChainFault::NoNodes);
    };
    let Some(nodes) = nodes.as_array() else {
        return Some(ChainFault::NoNodes);
    };
    nodes_fault(nodes.as_slice())
}

/// Returns the rule that the chain at this index breaks.
fn chain_fault(chains: &[Value], index: usize) -> Option<ChainFault<'_>> {
    let chain = chains.get(index)?;
    let Some(table) = chain.as_table() else {
        return Some(ChainFault::NoTable);
    };
    if let Some(fault) = table_fault(table) {
        return Some(fault);
    }
    let name = name_of(chain)?;
    if chains
        .iter()
        .take(index)
        .any(|earlier| name_of(earlier) == Some(name))
    {
        return Some(ChainFault::NameTwice(name));
    }
    None
}

/// Returns the first rule that a table in TOML breaks; `NoChains` if it breaks none.
fn plan_fault(table: &Table) -> PlanFault<'_> {
    if let Some(key) = other_key(table, "chain", "chain") {
        return PlanFault::OtherKey(key);
    }
    let Some(chains) = value_of(table, "chain") else {
        return PlanFault::NoChains;
    };
    let Some(chains) = chains.as_array() else {
        return PlanFault::NoChains;
    };
    let chains = chains.as_slice();
    if chains.is_empty() || chains.len() > MOST_CHAINS as usize {
        return PlanFault::ChainCount(chains.len());
    }
    for index in 0..chains.len() {
        if let Some(fault) = chain_fault(chains, index) {
            return PlanFault::Chain(index, fault);
        }
    }
    PlanFault::NoChains
}

/// Returns the number of the line, from 1, in which this place of a text is.
fn line_at(text: &str, place: usize) -> usize {
    let mut line = 1usize;
    for byte in text.as_bytes().iter().take(place) {
        if *byte == b'\n' {
            line = line.saturating_add(1);
        }
    }
    line
}

/// Returns the error of a text that is not TOML, with its line.
fn toml_text(alloc: Global, text: &str, error: &toml::de::Error) -> Result<String, AllocError> {
    let Some(span) = error.span() else {
        return Err(AllocError);
    };
    let (line, message) = (line_at(text, span.start), error.message());
    format!(in alloc; "line {line}: {message}")
}

/// Returns the first rule, in words, that the bytes of a file break which are no plan. Fails only
/// when out of memory.
pub fn broken_rule(alloc: Global, bytes: &[u8]) -> Result<String, AllocError> {
    let Ok(text) = from_utf8(bytes) else {
        return String::from_str(alloc, "the file is not text in UTF-8");
    };
    match toml::table_from_str(alloc, text) {
        Ok(table) => {
            let fault = plan_fault(&table);
            format!(in alloc; "{fault}")
        }
        Err(error) => toml_text(alloc, text, &error),
    }
}
