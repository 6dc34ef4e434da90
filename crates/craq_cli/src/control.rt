//! Reads the words of a line of `craqd --control`: its verb and its node, or the first wrong word;
//! called by `craqd`.
ghost use Rattle.std.specs.Prelude.{◌≡◌, ◌==◌, ◌<◌, ◌≤◌, ◌^◌, length, map, IfSome};
ghost use Rattle.craq_script.specs.Reading.{ParsesTo};
ghost use Rattle.craq_cli.specs.Commands.{Reads, word_at};
ghost use Rattle.craq_cli.specs.Control.{verb_of, forced, stop_of, remove_of, join_of, control_line};
ghost use Rattle.craq_cli.specs.ControlNode.{index_from, chain_of, node_of};

use crate::numbers::number_between;
use crate::words::{at_end, bad, bytes_at};
use crate::{Expected, UsageError};
use craq_names::{ChainId, NodeId, NodeName};
use craq_script::{GREATEST_NODE, ParseError, cut, number_up_to};

/// The greatest id of a chain: the greatest number of 16 bits.
const GREATEST_CHAIN: u64 = 65_535;

/// The request of a line of `craqd --control`.
#[derive(Clone, Copy, Debug, PartialEq, Eq)]
pub enum ControlLine {
    /// Nothing: the line has no words.
    Nothing,
    /// The text about the lines that there are.
    Help,
    /// The chains, and the condition of each member.
    Status,
    /// Stop the node, unless it is the last ready member of its chain.
    Stop(NodeName),
    /// Stop the node in any case.
    ForceStop(NodeName),
    /// Remove the node, which is stopped, from its chain.
    Remove(NodeName),
    /// Let a new node of this name join its chain.
    Join(NodeName),
}

/// The first word of a line.
#[derive(Clone, Copy, Debug, PartialEq, Eq)]
enum ControlVerb {
    Stop,
    Remove,
    Join,
    Status,
    Help,
}

/// Returns the verb of this name.
#[tactic(auto, unfolding(crate::specs::Control::verb_of))]
fn verb_of(word: &[u8]) -> Option<ControlVerb>
    ensures { result ≡ verb_of word.now }
{
    if word == b"stop".as_slice() {
        return Some(ControlVerb::Stop);
    }
    if word == b"remove".as_slice() {
        return Some(ControlVerb::Remove);
    }
    if word == b"join".as_slice() {
        return Some(ControlVerb::Join);
    }
    if word == b"status".as_slice() {
        return Some(ControlVerb::Status);
    }
    if word == b"help".as_slice() {
        return Some(ControlVerb::Help);
    }
    None
}

/// Returns the verb at place 0.
fn verb_at(words: &[&str]) -> Result<ControlVerb, UsageError>
    ensures { Reads (λ x. x) result (word_at Expected.ControlVerb verb_of (map (λ w. w.now) words.now) 0) }
{
    let Some(word) = bytes_at(words, 0) else {
        return Err(bad(0, Expected::ControlVerb));
    };
    match verb_of(word) {
        Some(verb) => Ok(verb),
        None => Err(bad(0, Expected::ControlVerb)),
    }
}

/// Returns the index of the first name that is this word.
fn index_of(names: &[&str], word: &[u8]) -> Option<usize>
    ensures value { result ≡ index_from 0 word.now (map (λ n. n.now) names.now) }
    ensures bound { IfSome result (λ index. index < length names.now) }
{
    for (index, name) in names.iter().enumerate() {
        if name.as_bytes() == word {
            return Some(index);
        }
    }
    None
}

/// Returns the chain of this name or, where no chain has it, of this index. `OutsideGrammar` where
/// there is neither.
#[tactic(auto, unfolding(crate::specs::ControlNode::chain_of))]
fn chain_of(names: &[&str], word: &[u8]) -> Result<ChainId, ParseError>
    requires { length names.now ≤ 2 ^ 16 }
    ensures { ParsesTo (λ x. x) result (chain_of (map (λ n. n.now) names.now) word.now) }
{
    if let Some(index) = index_of(names, word) {
        return Ok(ChainId::new(index as u16));
    }
    let index = number_up_to(GREATEST_CHAIN, word)?;
    if index < names.len() as u64 {
        Ok(ChainId::new(index as u16))
    } else {
        Err(ParseError::OutsideGrammar)
    }
}

/// Returns the node that the word CHAIN/N names. `OutsideGrammar` where it names none.
#[tactic(auto, unfolding(crate::specs::ControlNode::node_of))]
fn node_of(names: &[&str], word: &[u8]) -> Result<NodeName, ParseError>
    requires { length names.now ≤ 2 ^ 16 }
    ensures { ParsesTo (λ x. x) result (node_of (map (λ n. n.now) names.now) word.now) }
{
    let Some((chain, node)) = cut(word, b'/') else {
        return Err(ParseError::OutsideGrammar);
    };
    let chain = chain_of(names, chain)?;
    let node = number_between(1, GREATEST_NODE, node)?;
    Ok(NodeName {
        chain,
        node: NodeId::new(node as u32),
    })
}

/// Returns the node that the word at place 1 names.
fn node_behind_verb(names: &[&str], words: &[&str]) -> Result<NodeName, UsageError>
    requires { length names.now ≤ 2 ^ 16 }
    ensures { Reads (λ x. x) result (word_at Expected.ChainNode (node_of (map (λ n. n.now) names.now)) (map (λ w. w.now) words.now) 1) }
{
    let Some(word) = bytes_at(words, 1) else {
        return Err(bad(1, Expected::ChainNode));
    };
    match node_of(names, word) {
        Ok(node) => Ok(node),
        Err(ParseError::Memory) => Err(UsageError::Memory),
        Err(ParseError::OutsideGrammar) => Err(bad(1, Expected::ChainNode)),
    }
}

/// Returns the stop of a node in any case, where the word at place 2 is `--force`.
fn forced_stop(node: NodeName, words: &[&str]) -> Result<ControlLine, UsageError>
    ensures { Reads (λ x. x) result (word_at Expected.Force (forced node) (map (λ w. w.now) words.now) 2) }
{
    let Some(word) = bytes_at(words, 2) else {
        return Err(bad(2, Expected::Force));
    };
    if word == b"--force".as_slice() {
        Ok(ControlLine::ForceStop(node))
    } else {
        Err(bad(2, Expected::Force))
    }
}

/// Reads NODE [--force], behind `stop`.
#[tactic(auto, unfolding(crate::specs::Control::stop_of))]
fn stop_of(names: &[&str], words: &[&str]) -> Result<ControlLine, UsageError>
    requires { length names.now ≤ 2 ^ 16 }
    ensures { Reads (λ x. x) result (stop_of (map (λ n. n.now) names.now) (map (λ w. w.now) words.now)) }
{
    let node = node_behind_verb(names, words)?;
    if words.len() <= 2 {
        return Ok(ControlLine::Stop(node));
    }
    let line = forced_stop(node, words)?;
    at_end(line, words, 3)
}

/// Reads NODE, behind `remove`.
#[tactic(auto, unfolding(crate::specs::Control::remove_of))]
fn remove_of(names: &[&str], words: &[&str]) -> Result<ControlLine, UsageError>
    requires { length names.now ≤ 2 ^ 16 }
    ensures { Reads (λ x. x) result (remove_of (map (λ n. n.now) names.now) (map (λ w. w.now) words.now)) }
{
    let node = node_behind_verb(names, words)?;
    at_end(ControlLine::Remove(node), words, 2)
}

/// Reads NODE, behind `join`.
#[tactic(auto, unfolding(crate::specs::Control::join_of))]
fn join_of(names: &[&str], words: &[&str]) -> Result<ControlLine, UsageError>
    requires { length names.now ≤ 2 ^ 16 }
    ensures { Reads (λ x. x) result (join_of (map (λ n. n.now) names.now) (map (λ w. w.now) words.now)) }
{
    let node = node_behind_verb(names, words)?;
    at_end(ControlLine::Join(node), words, 2)
}

/// Returns the request of a line's words, for chains of these names: one of `stop NODE [--force]`,
/// `remove NODE`, `join NODE`, `status` and `help`. NODE is CHAIN/N: the name of a chain or, where
/// no chain has that name, its index from 0; and a number from 1 to 2^32 - 1 in decimal digits.
///
/// `Bad` with the first word that is not what is expected there, or is missing.
#[tactic(auto, unfolding(crate::specs::Control::control_line))]
pub fn control_line(names: &[&str], words: &[&str]) -> Result<ControlLine, UsageError>
    requires { length names.now ≤ 2 ^ 16 }
    ensures { Reads (λ x. x) result (control_line (map (λ n. n.now) names.now) (map (λ w. w.now) words.now)) }
{
    if words.is_empty() {
        return Ok(ControlLine::Nothing);
    }
    match verb_at(words)? {
        ControlVerb::Stop => stop_of(names, words),
        ControlVerb::Remove => remove_of(names, words),
        ControlVerb::Join => join_of(names, words),
        ControlVerb::Status => at_end(ControlLine::Status, words, 1),
        ControlVerb::Help => at_end(ControlLine::Help, words, 1),
    }
}
