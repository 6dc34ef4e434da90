//! `Layout`: the bucket of each hash. `index` calls this.
ghost use Rattle.std.specs.Prelude.{◌≡◌, ◌+◌, ◌<◌, ◌≤◌, ◌^◌};
ghost use Rattle.craq_key_map.specs.Indexed.{bucket_of, goes};

/// Finds the bucket of a hash, by linear hashing (Litwin, VLDB 1980).
#[derive(Clone, Copy, Drop)]
pub(crate) struct Layout {
    /// The number of buckets at the last doubling.
    pub(crate) half: usize,
    /// The number of buckets.
    pub(crate) count: usize,
}

impl Layout {
    /// Returns the bucket of a hash, from 0.
    pub(crate) fn bucket(&self, hash: u32) -> usize
        requires some { 0 < self.now.half }
        requires from { self.now.half ≤ self.now.count }
        requires fits { self.now.half + self.now.half < 2 ^ 64 }
        ensures { result ≡ bucket_of hash self.now.half self.now.count }
    {
        let rest = hash as u64 % (self.half as u64 + self.half as u64);
        if rest < self.count as u64 {
            rest as usize
        } else {
            (rest - self.half as u64) as usize
        }
    }

    /// Returns true exactly if a hash goes to the next bucket, once there is one.
    pub(crate) fn goes(&self, hash: u32) -> bool
        requires some { 0 < self.now.half }
        requires from { self.now.half ≤ self.now.count }
        requires to { self.now.count < self.now.half + self.now.half }
        requires fits { self.now.half + self.now.half < 2 ^ 64 }
        ensures { result ≡ goes self.now.half self.now.count hash }
    {
        let next = Layout {
            half: self.half,
            count: self.count + 1,
        };
        next.bucket(hash) == self.count
    }
}
