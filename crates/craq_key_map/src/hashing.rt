//! `KeyHasher`: the hash of a key. `map` calls this.
ghost use Rattle.std.specs.Prelude.{◌≡◌};
ghost use Rattle.craq_key_map.specs.Mapped.{hash_of};

use crate::sip::{Sip, digest};
use craq_names::Key;

/// Hashes keys: 32 bits of SipHash-1-3 by 16 secret bytes. So a client that chooses keys cannot
/// choose ones that share a hash.
#[derive(Clone, Copy, Drop)]
pub(crate) struct KeyHasher {
    /// The state with the secret bytes.
    fed: Sip,
}

/// Returns 8 secret bytes of the system as a number; 0 if it gives none.
fn secret_word() -> u64 {
    let mut secret = [0u8; 8];
    let _status = libc::getentropy(&mut secret);
    u64::from_le_bytes(secret)
}

impl KeyHasher {
    /// Makes a hasher. The secret bytes are of the system; zeros if it gives none.
    pub(crate) fn new() -> Self {
        KeyHasher {
            fed: Sip::with_keys(secret_word(), secret_word()),
        }
    }

    /// Returns the hash of a key.
    pub(crate) fn hash(&self, key: &Key) -> u32
        ensures { result ≡ hash_of self.now.fed key.now }
    {
        (digest(&self.fed, key.as_slice()) % 0x1_0000_0000) as u32
    }
}
