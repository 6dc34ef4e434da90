//! `Reply`: the reply to an update. Entries and windows hold it.
use craq_names::{Copied, Items, RequestNo, Same, Value, Version};
use std::alloc::{AllocError, Global};

/// The reply to an update.
#[derive(Debug, Drop)]
pub enum Reply {
    /// The object was written and has this version now.
    Written(Version),
    /// Nothing was written: the object has this version instead of the expected one.
    Mismatch(Version),
    /// Nothing was written: the joined value would have more than 4,096 bytes.
    TooLong,
    /// Nothing was written: the object exists and its value does not have 8 bytes.
    NotANumber,
    /// Nothing was written: the sum would be above 2^64 - 1.
    Overflow,
    /// Nothing was written: the difference would be below 0.
    Underflow,
    /// The transaction was done. These are the objects that it read, as they were before its
    /// writes.
    Done(Items<(Version, Value)>),
    /// Nothing was written: the compare at this index, from 0, was the first to fail.
    CompareFailed(u8),
    /// The request number is below all 8 that are kept for the client; this is the largest kept.
    Stale(RequestNo),
}

impl Copied for Reply {
    fn copied(&self, alloc: Global) -> Result<Self, AllocError> {
        Ok(match self {
            Reply::Written(version) => Reply::Written(*version),
            Reply::Mismatch(version) => Reply::Mismatch(*version),
            Reply::TooLong => Reply::TooLong,
            Reply::NotANumber => Reply::NotANumber,
            Reply::Overflow => Reply::Overflow,
            Reply::Underflow => Reply::Underflow,
            Reply::Done(objects) => Reply::Done(objects.copied(alloc)?),
            Reply::CompareFailed(place) => Reply::CompareFailed(*place),
            Reply::Stale(last) => Reply::Stale(*last),
        })
    }
}

impl Same for Reply {
    fn is_same(&self, other: &Self) -> bool {
        match (self, other) {
            (Reply::Written(mine), Reply::Written(theirs))
            | (Reply::Mismatch(mine), Reply::Mismatch(theirs)) => mine == theirs,
            (Reply::TooLong, Reply::TooLong)
            | (Reply::NotANumber, Reply::NotANumber)
            | (Reply::Overflow, Reply::Overflow)
            | (Reply::Underflow, Reply::Underflow) => true,
            (Reply::Done(mine), Reply::Done(theirs)) => mine.is_same(theirs),
            (Reply::CompareFailed(mine), Reply::CompareFailed(theirs)) => mine == theirs,
            (Reply::Stale(mine), Reply::Stale(theirs)) => mine == theirs,
            _ => false,
        }
    }
}
