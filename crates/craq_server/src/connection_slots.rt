//! `ConnectionSlots`: the places of open connections; kept by `connections` under its lock.
ghost use Rattle.std.specs.Prelude.{◌≡◌, ◌<◌, ◌↔◌, [], None, Some, IfSome, IsTrue, OnErr, OnOk, position, set, length};
ghost use Rattle.std.specs.List.{All};
ghost use Rattle.craq_server.specs.Slots.{IsFree, is_free, may_grow, with_room};

use std::alloc::{AllocError, Global};
use std::marker::Model;
use std::net::TcpStream;
use std::sync::Arc;

/// Places, each with the connection that has it, or free. A contract sees them as a list of these.
#[derive(Drop)]
pub(crate) struct ConnectionSlots {
    slots: Vec<Option<Arc<TcpStream>>>,
}

impl Model for ConnectionSlots {
    ghost use Rattle.std.specs.Prelude.{List, Option};
    ghost use Rattle.std.specs.declared.alloc.Global.{Global};
    ghost use Rattle.std.specs.declared.sync.Arc.{Arc};
    ghost use Rattle.std.specs.declared.net.tcp.TcpStream.{TcpStream};

    ghost Value = { List (Option (Arc TcpStream Global)) };

    ghost view = { λ p. p.slots.items };
}

/// Returns whether no connection has the place.
fn is_free(at: &Option<Arc<TcpStream>>) -> bool
    ensures { result ≡ is_free at.now }
{
    at.is_none()
}

impl ConnectionSlots {
    /// Makes no places. Takes no memory.
    pub(crate) fn new(alloc: Global) -> Self
        ensures { result ≡ [] }
    {
        ConnectionSlots {
            slots: Vec::new(alloc),
        }
    }

    /// Returns whether there may be one place more, where there are to be at most `most`, or with 0
    /// any number.
    fn may_grow(&self, most: u32) -> bool
        ensures { result ≡ may_grow most (length self.now) }
    {
        most == 0 || self.slots.len() < most as usize
    }

    /// Returns the first free place, if there is one.
    fn first_free(&self) -> Option<usize>
        ensures first { result ≡ position is_free self.now }
        ensures bound { IfSome result (λ slot. slot < length self.now) }
    {
        self.slots.iter().position(|at| is_free(at))
    }

    /// Makes a free place behind the others where none is free and there are fewer than `most`, or
    /// `most` is 0. Fails only when out of memory; unchanged then.
    pub(crate) fn make_room(&mut self, most: u32) -> Result<(), AllocError>
        ensures made { OnOk result (self.new ≡ with_room most self.old) }
        ensures err { OnErr result (self.new ≡ self.old) }
    {
        if self.first_free().is_none() && self.may_grow(most) {
            self.slots.push(None)?;
        }
        Ok(())
    }

    /// Gives the first free place to a connection and returns it; `None` where no place is free,
    /// and the connection is dropped. Takes no memory.
    pub(crate) fn enter(&mut self, stream: Arc<TcpStream>) -> Option<usize>
        ensures first { result ≡ position is_free self.old }
        ensures taken { IfSome result (λ slot. self.new ≡ set self.old slot (Some stream)) }
        ensures full { result ≡ None → self.new ≡ self.old }
    {
        let slot = self.first_free()?;
        self.slots[slot] = Some(stream);
        Some(slot)
    }

    /// Frees a place. Unchanged where there is no place of this number.
    pub(crate) fn leave(&mut self, slot: usize)
        ensures { self.new ≡ set self.old slot None }
    {
        if let Some(at) = self.slots.get_mut(slot) {
            *at = None;
        }
    }

    /// Returns whether each place is free.
    pub(crate) fn are_free(&self) -> bool
        ensures { IsTrue result ↔ All IsFree self.now }
    {
        self.slots.iter().all(|at| is_free(at))
    }

    /// Lends each place.
    pub(crate) fn as_slice(&self) -> &[Option<Arc<TcpStream>>]
        ensures { result.now ≡ self.now }
    {
        self.slots.as_slice()
    }
}
