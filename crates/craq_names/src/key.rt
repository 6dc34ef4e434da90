//! `Key` and `Value`: byte strings whose types enforce their length limits. Commands, histories and
//! messages hold them.
ghost use Rattle.std.specs.Prelude.{◌≡◌, ◌<◌, ◌≤◌, ◌⊎◌, ◌↔◌, ℕ, List, [], length, nat_eq, refl, Err, Some, IfOk, IfErr};
ghost use Rattle.std.specs.Ordering.{nat_cmp};
ghost use Rattle.std.specs.Cmp.{partial_equiv_from_equiv};
ghost use Rattle.std.specs.Cmp.Lexicographic.{pointwise, slice_cmp, nat_list_eq_equiv, nat_list_cmp_total, texts_ties, texts_po};

use crate::Refusal;
use crate::order::{are_equal, order_of};
use crate::short::FixedBytes;
use std::alloc::{AllocError, Global};
use std::cmp::Ordering;
use std::marker::Model;

/// The key of an object: 1 to 128 bytes, ordered lexicographically. Keys of up to 22 bytes are held
/// in place; copies of longer ones share their bytes.
#[derive(Debug, Drop)]
pub struct Key {
    bytes: FixedBytes,
}

impl Model for Key {
    ghost Value = { List ℕ };

    ghost view = { λ k. k.bytes };

    ghost invariant = { λ k. (1 ≤ length k.bytes) × (length k.bytes ≤ 128) };
}

impl Key {
    /// The maximum length of a key, in bytes.
    pub const MAX: usize = 128;

    /// Makes a key of these bytes. Returns `BadKey` exactly if there are none or more than 128;
    /// otherwise fails only when out of memory (`Memory`).
    pub fn new(alloc: Global, bytes: &[u8]) -> Result<Self, Refusal>
        ensures key { IfOk result (λ k. k ≡ bytes.now) }
        ensures bad { (result ≡ Err Refusal.BadKey) ↔ ((length bytes.now ≡ 0) ⊎ (128 < length bytes.now)) }
        ensures err { IfErr result (λ e. (e ≡ Refusal.BadKey) ⊎ (e ≡ Refusal.Memory)) }
    {
        if bytes.is_empty() || bytes.len() > Key::MAX {
            return Err(Refusal::BadKey);
        }
        Ok(Key {
            bytes: FixedBytes::from_slice(alloc, bytes)?,
        })
    }

    /// Returns the key's bytes.
    pub fn as_slice(&self) -> &[u8]
        ensures value { result.now ≡ self.now }
        ensures some { 1 ≤ length self.now }
        ensures short { length self.now ≤ 128 }
    {
        self.bytes.as_slice()
    }

    /// Copies the key into memory of its own. Fails only when out of memory.
    pub(crate) fn copy_of(alloc: Global, key: &Key) -> Result<Self, AllocError>
        ensures { IfOk result (λ k. k ≡ key.now) }
    {
        Ok(Key {
            bytes: key.bytes.copied()?,
        })
    }
}

impl Clone for Key {
    ghost is_clone = { λ k c. c ≡ k };

    fn clone(&self) -> Result<Self, AllocError> {
        Ok(Key {
            bytes: self.bytes.copied()?,
        })
    }
}

impl PartialEq for Key {
    ghost eq = { pointwise nat_eq };

    ghost laws = { partial_equiv_from_equiv nat_list_eq_equiv };

    fn eq(&self, other: &Self) -> bool {
        are_equal(self.bytes.as_slice(), other.bytes.as_slice())
    }
}

impl Eq for Key {
    ghost laws = { nat_list_eq_equiv };
}

impl PartialOrd for Key {
    ghost partial_cmp = { λ x y. Some (slice_cmp nat_cmp x y) };

    ghost laws = { texts_po };

    fn partial_cmp(&self, other: &Self) -> Option<Ordering> {
        Some(self.cmp(other))
    }
}

impl Ord for Key {
    ghost cmp = { slice_cmp nat_cmp };

    ghost total = { nat_list_cmp_total };

    ghost matches_partial_cmp = { λ x y. refl };

    ghost matches_eq = { texts_ties };

    fn cmp(&self, other: &Self) -> Ordering {
        order_of(self.bytes.as_slice(), other.bytes.as_slice())
    }
}

/// The value of an object: 0 to 4,096 bytes. Values of up to 22 bytes are held in place; copies of
/// longer ones share their bytes.
#[derive(Debug, Drop)]
pub struct Value {
    bytes: FixedBytes,
}

impl Model for Value {
    ghost Value = { List ℕ };

    ghost view = { λ v. v.bytes };

    ghost invariant = { λ v. length v.bytes ≤ 4096 };
}

impl Value {
    /// The maximum length of a value, in bytes.
    pub const MAX: usize = 4096;

    /// Makes a value of these bytes. Returns `ValueTooLong` exactly if there are more than 4,096;
    /// otherwise fails only when out of memory (`Memory`).
    pub fn new(alloc: Global, bytes: &[u8]) -> Result<Self, Refusal>
        ensures value { IfOk result (λ v. v ≡ bytes.now) }
        ensures bad { (result ≡ Err Refusal.ValueTooLong) ↔ (4096 < length bytes.now) }
        ensures err { IfErr result (λ e. (e ≡ Refusal.ValueTooLong) ⊎ (e ≡ Refusal.Memory)) }
    {
        if bytes.len() > Value::MAX {
            return Err(Refusal::ValueTooLong);
        }
        Ok(Value {
            bytes: FixedBytes::from_slice(alloc, bytes)?,
        })
    }

    /// Returns the value's bytes.
    pub fn as_slice(&self) -> &[u8]
        ensures value { result.now ≡ self.now }
        ensures short { length self.now ≤ 4096 }
    {
        self.bytes.as_slice()
    }

    /// Makes a value of bytes that the caller knows to be at most 4,096. Fails only when out of
    /// memory.
    pub fn of(bytes: Vec<u8>) -> Result<Self, AllocError>
        requires { length bytes.items ≤ 4096 }
        ensures { IfOk result (λ v. v ≡ bytes.items) }
    {
        Ok(Value {
            bytes: FixedBytes::of(bytes)?,
        })
    }

    /// Returns a value that shares these bytes. Fails only if the reference count is at its
    /// maximum.
    pub(crate) fn copy_of(value: &Value) -> Result<Self, AllocError>
        ensures { IfOk result (λ v. v ≡ value.now) }
    {
        Ok(Value {
            bytes: value.bytes.copied()?,
        })
    }
}

impl PartialEq for Value {
    ghost eq = { pointwise nat_eq };

    ghost laws = { partial_equiv_from_equiv nat_list_eq_equiv };

    fn eq(&self, other: &Self) -> bool {
        are_equal(self.bytes.as_slice(), other.bytes.as_slice())
    }
}

impl Eq for Value {
    ghost laws = { nat_list_eq_equiv };
}
