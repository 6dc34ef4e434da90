//! `Tally`: counts of answered and refused requests, and the time that each took; for `bench`.
ghost use Rattle.std.specs.Prelude.{◌≡◌, ◌<◌, ◌≤◌, ◌+◌, ◌-◌, ◌^◌, min, max, IfOk};

use std::alloc::{AllocError, Global};

/// The microseconds of a bucket.
const BUCKET_MICROSECONDS: u64 = 10;

/// The number of buckets; the last has all longer times.
const BUCKETS: usize = 10_001;

/// The times of requests, in buckets of 10 microseconds up to 100 milliseconds.
#[derive(Drop)]
pub struct Tally {
    /// The number of answers in each bucket.
    counts: Vec<u64>,
    /// The number of answers.
    pub answered: u64,
    /// The number of refusals.
    pub refused: u64,
    /// The longest time that an answer took, in microseconds.
    pub longest: u64,
}

/// Returns the bucket of a time.
fn bucket_of(microseconds: u64) -> usize
    ensures { result < BUCKETS }
{
    let bucket = microseconds / BUCKET_MICROSECONDS;
    if bucket < BUCKETS as u64 {
        bucket as usize
    } else {
        BUCKETS - 1
    }
}

impl Tally {
    /// Makes an empty tally. Fails only when out of memory.
    pub fn new(alloc: Global) -> Result<Self, AllocError>
        ensures { IfOk result (λ t. (t.answered ≡ 0) × (t.refused ≡ 0) × (t.longest ≡ 0)) }
    {
        Ok(Tally {
            counts: vec![in alloc; 0; BUCKETS]?,
            answered: 0,
            refused: 0,
            longest: 0,
        })
    }

    /// Counts an answer that took this many microseconds.
    pub fn answer(&mut self, microseconds: u64)
        ensures answered { self.new.answered ≡ min (self.old.answered + 1) (2 ^ 64 - 1) }
        ensures refused { self.new.refused ≡ self.old.refused }
        ensures longest { self.new.longest ≡ max self.old.longest microseconds }
    {
        if let Some(count) = self.counts.get_mut(bucket_of(microseconds)) {
            *count = count.saturating_add(1);
        }
        self.answered = self.answered.saturating_add(1);
        self.longest = self.longest.max(microseconds);
    }

    /// Counts one more refusal.
    pub fn refuse(&mut self)
        ensures { self.new ≡ record self.old { refused = min (self.old.refused + 1) (2 ^ 64 - 1) } }
    {
        self.refused = self.refused.saturating_add(1);
    }

    /// Counts what another tally counted.
    pub fn add(&mut self, other: &Tally)
        ensures answered { self.new.answered ≡ min (self.old.answered + other.now.answered) (2 ^ 64 - 1) }
        ensures refused { self.new.refused ≡ min (self.old.refused + other.now.refused) (2 ^ 64 - 1) }
        ensures longest { self.new.longest ≡ max self.old.longest other.now.longest }
    {
        for (count, more) in self.counts.iter_mut().zip(other.counts.iter()) {
            *count = count.saturating_add(*more);
        }
        self.answered = self.answered.saturating_add(other.answered);
        self.refused = self.refused.saturating_add(other.refused);
        self.longest = self.longest.max(other.longest);
    }

    /// Returns how many answers took less than this many microseconds, a multiple of 10 up to
    /// 100,000.
    pub fn below(&self, microseconds: u64) -> u64 {
        let mut sum = 0u64;
        for count in self.counts.iter().take(bucket_of(microseconds)) {
            sum = sum.saturating_add(*count);
        }
        sum
    }

    /// Returns the microseconds, to 10 of them, within which `percent` of 100 answers came. Above
    /// 100 milliseconds it is the longest time; without answers it is 0.
    pub fn within(&self, percent: u64) -> u64
        ensures { result ≤ self.now.longest }
    {
        let wanted = u128::from(self.answered).saturating_mul(u128::from(percent));
        let mut so_far = 0u128;
        for (bucket, count) in self.counts.iter().enumerate() {
            so_far = so_far.saturating_add(u128::from(*count).saturating_mul(100));
            if so_far >= wanted && bucket + 1 < BUCKETS {
                return self.longest.min((bucket as u64 + 1) * BUCKET_MICROSECONDS);
            }
        }
        self.longest
    }
}
