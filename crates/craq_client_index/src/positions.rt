//! The positions of one client's entries, a queue in ascending order. `places` calls this.
ghost use Rattle.std.specs.Prelude.{◌≡◌, ◌<◌, [], ◌∷◌, ◌++◌, None, drop, length, slice_index, unwrap_or, OnOk, OnErr};
ghost use Rattle.std.specs.List.{last_or};

use std::alloc::{AllocError, Global};
use std::collections::VecDeque;
use std::marker::Model;

/// The positions of one client's entries, oldest first.
#[derive(Drop)]
pub struct Positions {
    positions: VecDeque<u64>,
}

impl Model for Positions {
    ghost use Rattle.std.specs.Prelude.{ℕ, List};

    ghost Value = { List ℕ };

    ghost view = { λ p. p.positions.items };
}

impl Positions {
    /// Returns no positions. Allocates nothing.
    pub fn new(alloc: Global) -> Self
        ensures { result ≡ [] }
    {
        Positions {
            positions: VecDeque::new(alloc),
        }
    }

    /// Returns the number of positions.
    pub fn len(&self) -> usize
        ensures { result ≡ length self.now }
    {
        self.positions.len()
    }

    /// Returns the position at an index, from 0.
    pub fn at(&self, index: usize) -> u64
        requires { index < length self.now }
        ensures { result ≡ slice_index self.now index }
    {
        self.positions[index]
    }

    /// Returns the newest position, `none` if there is no position.
    pub fn newest_or(&self, none: u64) -> u64
        ensures { result ≡ unwrap_or (last_or None self.now) none }
    {
        let count = self.positions.len();
        if count == 0 {
            none
        } else {
            self.positions[count - 1]
        }
    }

    /// Appends a position. Fails only when out of memory; the positions are unchanged on error.
    pub fn push(&mut self, position: u64) -> Result<(), AllocError>
        ensures ok { OnOk result (self.new ≡ self.old ++ position ∷ []) }
        ensures err { OnErr result (self.new ≡ self.old) }
    {
        self.positions.reserve(1)?;
        self.positions.push_back_reserved(position);
        Ok(())
    }

    /// Removes the oldest position, if there is one. Allocates nothing.
    pub fn let_first_go(&mut self)
        ensures { self.new ≡ drop 1 self.old }
    {
        self.positions.pop_front();
    }
}
