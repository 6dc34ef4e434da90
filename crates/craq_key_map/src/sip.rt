//! `Sip`: SipHash-1-3 by whole words, which costs less than `DefaultHasher` by bytes. `hashing` calls
//! this.
ghost use Rattle.std.specs.Prelude.{◌≡◌, ◌+◌, ◌≤◌, drop, length, take};
ghost use Rattle.std.specs.Int.{from_le_bytes, w64};
ghost use Rattle.craq_key_map.specs.Hashed.{digest_of, finished, last_word, opened, rounded, with_word};

/// The state of SipHash-1-3 (Aumasson and Bernstein, INDOCRYPT 2012).
#[derive(Clone, Copy, Drop)]
pub(crate) struct Sip {
    v0: u64,
    v1: u64,
    v2: u64,
    v3: u64,
}

impl Sip {
    /// Returns the state with these two words of a key, before the first word of a message.
    pub(crate) fn with_keys(key0: u64, key1: u64) -> Self
        ensures { result ≡ opened key0 key1 }
    {
        Sip {
            v0: key0 ^ 0x736f_6d65_7073_6575,
            v1: key1 ^ 0x646f_7261_6e64_6f6d,
            v2: key0 ^ 0x6c79_6765_6e65_7261,
            v3: key1 ^ 0x7465_6462_7974_6573,
        }
    }

    /// Mixes the state: one SipRound.
    fn round(&mut self)
        ensures { self.new ≡ rounded self.old }
    {
        self.v0 = self.v0.wrapping_add(self.v1);
        self.v2 = self.v2.wrapping_add(self.v3);
        self.v1 = self.v1.rotate_left(13) ^ self.v0;
        self.v3 = self.v3.rotate_left(16) ^ self.v2;
        self.v0 = self.v0.rotate_left(32);
        self.v2 = self.v2.wrapping_add(self.v1);
        self.v0 = self.v0.wrapping_add(self.v3);
        self.v1 = self.v1.rotate_left(17) ^ self.v2;
        self.v3 = self.v3.rotate_left(21) ^ self.v0;
        self.v2 = self.v2.rotate_left(32);
    }

    /// Adds the next word of a message.
    fn add(&mut self, word: u64)
        ensures { self.new ≡ with_word self.old word }
    {
        self.v3 ^= word;
        self.round();
        self.v0 ^= word;
    }

    /// Returns the hash of the words that were added.
    fn finish(&self) -> u64
        ensures { result ≡ finished self.now }
    {
        let mut last = Sip {
            v0: self.v0,
            v1: self.v1,
            v2: self.v2 ^ 0xFF,
            v3: self.v3,
        };
        last.round();
        last.round();
        last.round();
        last.v0 ^ last.v1 ^ last.v2 ^ last.v3
    }
}

/// Returns the first 8 bytes as a word, the lowest byte first, and the bytes behind them.
fn split_word(bytes: &[u8]) -> (u64, &[u8])
    requires { 8 ≤ length bytes.now }
    ensures word { result.0 ≡ from_le_bytes w64 (take 8 bytes.now) }
    ensures rest { result.1.now ≡ drop 8 bytes.now }
    ensures count { length result.1.now + 8 ≡ length bytes.now }
{
    match bytes.split_first_chunk::<8>() {
        Some((word, rest)) => (u64::from_le_bytes(*word), rest),
        None => unreachable!(),
    }
}

/// Returns the last word of a message: its length, and behind it these at most 7 bytes. SipHash puts
/// the length behind the bytes.
#[tactic(auto, unfolding(crate::specs::Hashed::last_word))]
fn last_word_of(count: u64, bytes: &[u8]) -> u64
    ensures { result ≡ last_word count bytes.now }
{
    let mut word = count;
    for byte in bytes {
        word = word.wrapping_mul(256).wrapping_add(*byte as u64);
    }
    word
}

/// Returns the hash of these bytes, given the state with the key.
pub(crate) fn digest(start: &Sip, bytes: &[u8]) -> u64
    ensures { result ≡ digest_of start.now bytes.now }
{
    let mut state = *start;
    let mut left = bytes;
    while left.len() >= 8 {
        let (word, rest) = split_word(left);
        state.add(word);
        left = rest;
    }
    state.add(last_word_of(bytes.len() as u64, left));
    state.finish()
}
