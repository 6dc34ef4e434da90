//! `FixedBytes`: bytes that never change, short ones in place; `Key` and `Value` hold them.
ghost use Rattle.std.specs.Prelude.{◌≡◌, ◌≤◌, IfOk, IsOk, length};

use std::alloc::{AllocError, Global};
use std::fmt::{self, Debug, Formatter};
use std::marker::Model;
use std::sync::ArcSlice;

/// The maximum number of bytes that are held in place.
const SHORT: usize = 22;

/// The storage of bytes.
#[derive(Drop)]
enum Place {
    /// In place: how many they are, and the bytes, zeros behind them.
    Short(u8, [u8; SHORT]),
    /// In memory that copies share.
    Long(ArcSlice<u8>),
}

/// Bytes that never change. Up to 22 of them stand in place and take no memory; copies of more share their memory.
#[derive(Drop)]
pub(crate) struct FixedBytes {
    place: Place,
}

impl Model for FixedBytes {
    ghost use Rattle.std.specs.Prelude.{ℕ, List};
    ghost use Rattle.craq_names.specs.Short.{bytes_at, IsPlace};

    ghost Value = { List ℕ };

    ghost view = { λ s. bytes_at s.place };

    ghost invariant = { λ s. IsPlace s.place };
}

impl FixedBytes {
    /// Holds bytes in place.
    fn short(bytes: &[u8]) -> Self
        requires { length bytes.now ≤ 22 }
        ensures { result ≡ bytes.now }
    {
        let mut short = [0u8; SHORT];
        short[..bytes.len()].copy_from_slice(bytes);
        FixedBytes {
            place: Place::Short(bytes.len() as u8, short),
        }
    }

    /// Holds a copy of these bytes. Fails only when out of memory, and never where they are at most 22.
    pub(crate) fn from_slice(alloc: Global, bytes: &[u8]) -> Result<Self, AllocError>
        ensures bytes { IfOk result (λ held. held ≡ bytes.now) }
        ensures short { length bytes.now ≤ 22 → IsOk result }
    {
        if bytes.len() <= SHORT {
            return Ok(FixedBytes::short(bytes));
        }
        FixedBytes::of(Vec::from_slice(alloc, bytes)?)
    }

    /// Holds these bytes. Fails only when out of memory, and never where they are at most 22.
    pub(crate) fn of(bytes: Vec<u8>) -> Result<Self, AllocError>
        ensures bytes { IfOk result (λ held. held ≡ bytes.items) }
        ensures short { length bytes.items ≤ 22 → IsOk result }
    {
        if bytes.len() <= SHORT {
            return Ok(FixedBytes::short(bytes.as_slice()));
        }
        Ok(FixedBytes {
            place: Place::Long(ArcSlice::from_vec(bytes)?),
        })
    }

    /// Lends the bytes.
    pub(crate) fn as_slice(&self) -> &[u8]
        ensures { result.now ≡ self.now }
    {
        match &self.place {
            Place::Short(count, short) => &short[..usize::from(*count)],
            Place::Long(bytes) => bytes.as_slice(),
        }
    }

    /// Copies the bytes: those in place, or a share in their memory. Fails only where the count of copies is at its maximum.
    pub(crate) fn copied(&self) -> Result<Self, AllocError>
        ensures { IfOk result (λ held. held ≡ self.now) }
    {
        match &self.place {
            Place::Short(count, short) => Ok(FixedBytes {
                place: Place::Short(*count, *short),
            }),
            Place::Long(bytes) => Ok(FixedBytes {
                place: Place::Long(bytes.clone()?),
            }),
        }
    }
}

impl Debug for FixedBytes {
    fn fmt<W: fmt::Write>(&self, f: &mut Formatter<W>) -> fmt::Result {
        self.as_slice().fmt(f)
    }
}
