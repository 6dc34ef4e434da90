//! Provides a client of a store under test, with its own object and request number; for `cases`,
//! `calls` and `changes`.
use crate::asks::{name_of, put_of, read_of, version_of};
use crate::gate::{TestGate, Tested};
use craq_commands::ReadMode;
use craq_compact_history::ListCore;
use craq_model::Ask;
use craq_names::{Pass, Refusal};
use craq_seat::CallReceipt;
use craq_workers::{At, Client, Named};
use std::alloc::{AllocError, Global};
use std::sync::Wait;

/// The key that its clients write.
const KEY: &[u8] = b"k";

/// A client of a store under test. It uses one object of chain 0, and keeps the receipts of its
/// calls.
#[derive(Drop)]
pub struct Asker<N: Named> {
    alloc: Global,
    client: Client<At<ListCore, N>, TestGate>,
    id: u64,
    /// The request number of its next put.
    number: u64,
    /// The version in the reply to its last answered call, or 0.
    pub version: u64,
    pub receipts: Vec<CallReceipt>,
}

impl<N: Named> Asker<N> {
    /// Creates a client of this id that has no pass yet.
    pub fn new<R: Wait>(
        rt: &R,
        alloc: Global,
        store: &Tested<N>,
        id: u64,
    ) -> Result<Self, Refusal> {
        Ok(Asker {
            alloc,
            client: store.client(rt, Pass::start())?,
            id,
            number: 1,
            version: 0,
            receipts: Vec::new(alloc),
        })
    }

    fn ask<R: Wait>(&mut self, rt: &R, node: u32, ask: Ask) -> Result<(), Refusal> {
        let (answer, receipt) = self.client.call(rt, name_of(node), ask)?;
        self.version = version_of(&answer);
        drop(answer);
        self.receipts.push(receipt)?;
        Ok(())
    }

    /// Sends a put with the next request number. The number stays the next one until a put is
    /// answered.
    pub fn put<R: Wait>(&mut self, rt: &R, node: u32) -> Result<(), Refusal> {
        let ask = put_of(self.alloc, self.id, self.number, KEY)?;
        self.ask(rt, node, ask)?;
        self.number = self.number.wrapping_add(1);
        Ok(())
    }

    /// Sends a strong read.
    pub fn read<R: Wait>(&mut self, rt: &R, node: u32) -> Result<(), Refusal> {
        let ask = read_of(self.alloc, ReadMode::Strong, KEY)?;
        self.ask(rt, node, ask)
    }

    /// Appends the receipts of another client to its own.
    pub fn take_receipts(&mut self, other: &mut Self) -> Result<(), AllocError> {
        self.receipts.append(&mut other.receipts)
    }
}
