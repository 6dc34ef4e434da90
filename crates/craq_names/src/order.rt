//! Comparison of byte strings: by words of 8 bytes, then byte by byte. Only `Key` and `Value` call
//! it.
ghost use Rattle.std.specs.Prelude.{◌≡◌, nat_eq};
ghost use Rattle.std.specs.Ordering.{nat_cmp};
ghost use Rattle.std.specs.Cmp.Lexicographic.{pointwise, slice_cmp};

use std::cmp::Ordering;

/// Compares two byte strings lexicographically, one byte at a time. A proper prefix orders first.
fn order_by_byte(bytes: &[u8], others: &[u8]) -> Ordering
    ensures { result ≡ slice_cmp nat_cmp bytes.now others.now }
{
    let mut left = bytes.iter();
    let mut right = others.iter();
    while let Some(byte) = left.next() {
        let Some(other) = right.next() else {
            return Ordering::Greater;
        };
        if byte != other {
            return byte.cmp(other);
        }
    }
    match right.next() {
        Some(_) => Ordering::Less,
        None => Ordering::Equal,
    }
}

/// Compares two byte strings lexicographically; a proper prefix orders first. While both have 8
/// bytes left, it compares these as one number.
pub(crate) fn order_of(bytes: &[u8], others: &[u8]) -> Ordering
    ensures { result ≡ slice_cmp nat_cmp bytes.now others.now }
{
    let mut left = bytes;
    let mut right = others;
    while let Some((word, rest)) = left.split_first_chunk::<8>() {
        let Some((other, others)) = right.split_first_chunk::<8>() else {
            break;
        };
        let word = u64::from_be_bytes(*word);
        let other = u64::from_be_bytes(*other);
        if word != other {
            return word.cmp(&other);
        }
        left = rest;
        right = others;
    }
    order_by_byte(left, right)
}

/// Returns true exactly if the two byte strings are equal: the same length and the same bytes.
pub(crate) fn are_equal(bytes: &[u8], others: &[u8]) -> bool
    ensures { result ≡ pointwise nat_eq bytes.now others.now }
{
    if bytes.len() != others.len() {
        return false;
    }
    let mut left = bytes.iter();
    let mut right = others.iter();
    while let Some(byte) = left.next() {
        let Some(other) = right.next() else {
            return false;
        };
        if byte != other {
            return false;
        }
    }
    right.next().is_none()
}
