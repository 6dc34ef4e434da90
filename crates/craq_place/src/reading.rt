//! Tests and reads the tables of a plan's text one after another; used by `plan`.
ghost use Rattle.std.specs.Prelude.{◌≡◌, [], map, codes, string_bytes, option_map};
ghost use Rattle.std.specs.List.{list_all};
ghost use Rattle.toml.specs.View.{view, items_of, table_view};
ghost use Rattle.craq_place.specs.Plan.{is_name, is_name_byte};
ghost use Rattle.craq_place.specs.Reading.{Reads, number_in, numbers_from, is_membership as encodable_membership, fields_in, field_in, name_in, nodes_in, chain_in};

use craq_epochs::is_membership;
use craq_names::{Items, NodeId, Refusal};
use std::alloc::Global;
use toml::{Table, Value};

/// The most bytes of a name.
const MOST_NAME: usize = 32;

/// Returns true if the byte is a letter, a digit, `_` or `-`.
fn is_of_names(byte: u8) -> bool
    ensures { result ≡ is_name_byte byte }
{
    (97 <= byte && byte <= 122)
        || (65 <= byte && byte <= 90)
        || (48 <= byte && byte <= 57)
        || byte == 95
        || byte == 45
}

/// Returns true if each byte may occur in a name.
fn are_of_names(bytes: &[u8]) -> bool
    ensures { result ≡ list_all is_name_byte bytes.now }
{
    bytes.iter().all(|byte| is_of_names(*byte))
}

/// Returns true if the text is a chain's name: 1 to 32 letters, digits, `_` and `-`.
pub fn is_chain_name(name: &str) -> bool
    ensures { result ≡ is_name name.now }
{
    name.len() >= 1 && name.len() <= MOST_NAME && are_of_names(name.as_bytes())
}

/// Reads the name of a chain.
fn read_name(alloc: Global, value: &Value) -> Result<String, Refusal>
    ensures { Reads (λ s. string_bytes s) result (name_in (view value.now)) }
{
    match value.as_str() {
        Some(name) => {
            if is_chain_name(name) {
                Ok(String::from_str(alloc, name)?)
            } else {
                Err(Refusal::BadConfig)
            }
        }
        None => Err(Refusal::BadConfig),
    }
}

/// Reads a number of 32 bits.
fn toml_number(value: &Value) -> Option<u32>
    ensures { result ≡ number_in (view value.now) }
{
    match value.as_integer() {
        Some(x) => {
            if x < 0 || x > 0xffff_ffff {
                return None;
            }
            Some(x as u32)
        }
        None => None,
    }
}

/// Reads the numbers of these values.
fn read_numbers(alloc: Global, items: &[Value]) -> Result<Vec<NodeId>, Refusal>
    ensures { Reads (λ v. v.items) result (numbers_from [] (items_of (map view items.now))) }
{
    let mut list = Vec::new(alloc);
    for value in items {
        let Some(number) = toml_number(value) else {
            return Err(Refusal::BadConfig);
        };
        list.push(NodeId::new(number))?;
    }
    Ok(list)
}

/// Returns true if a chain may have these nodes.
fn test_nodes(nodes: &[NodeId]) -> bool
    ensures { result ≡ encodable_membership nodes.now }
{
    is_membership(nodes)
}

/// Reads the nodes of a chain.
fn read_nodes(alloc: Global, value: &Value) -> Result<Items<NodeId>, Refusal>
    ensures { Reads (λ nodes. nodes) result (nodes_in (view value.now)) }
{
    match value.as_array() {
        Some(items) => {
            let nodes = read_numbers(alloc, items.as_slice())?;
            if test_nodes(nodes.as_slice()) {
                Ok(Items::of(nodes))
            } else {
                Err(Refusal::BadConfig)
            }
        }
        None => Err(Refusal::BadConfig),
    }
}

/// Returns the two values of a table that has exactly a name and nodes.
fn fields(table: &Table) -> Option<(&Value, &Value)>
    ensures { option_map (λ f. (view f.0.now, view f.1.now)) result ≡ fields_in (codes "name") (codes "nodes") (table_view table.now) }
{
    let mut entries = table.iter();
    let (first, name) = entries.next()?;
    let (second, nodes) = entries.next()?;
    if entries.next().is_some() {
        return None;
    }
    if first.as_str() == "name" && second.as_str() == "nodes" {
        Some((name, nodes))
    } else {
        None
    }
}

/// Returns the value of a table that has exactly the chains.
pub(crate) fn field(table: &Table) -> Option<&Value>
    ensures { option_map (λ f. view f.now) result ≡ field_in (codes "chain") (table_view table.now) }
{
    let mut entries = table.iter();
    let (first, chains) = entries.next()?;
    if entries.next().is_some() {
        return None;
    }
    if first.as_str() == "chain" {
        Some(chains)
    } else {
        None
    }
}

/// Reads the chain of a table.
#[tactic(auto, unfolding(crate::specs::Reading::chain_in))]
pub(crate) fn read_chain(alloc: Global, value: &Value) -> Result<(String, Items<NodeId>), Refusal>
    ensures { Reads (λ c. (string_bytes c.0, c.1)) result (chain_in (view value.now)) }
{
    let Some(table) = value.as_table() else {
        return Err(Refusal::BadConfig);
    };
    let Some((name, nodes)) = fields(table) else {
        return Err(Refusal::BadConfig);
    };
    let name = read_name(alloc, name)?;
    let nodes = read_nodes(alloc, nodes)?;
    Ok((name, nodes))
}
