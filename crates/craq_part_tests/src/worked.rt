//! Holds the worked bytes that these tests send and expect; for `rows`, `cuts` and `exchanges`.
/// The frame of a put of `a` on `k` of chain 0 at node 1, with pass 0, of client 1 and number 1.
pub(crate) const PUT: [u8; 42] = [
    0, 0, 0, 38, 1, 1, 0, 0, 0, 1, 0, 0, 0, 0, 0, 0, 0, 0, 0, 0, 0, 0, 0, 0, 0, 1, 0, 0, 0, 0, 0,
    0, 0, 1, 1, 0, 0, 1, 107, 0, 1, 97,
];

/// The frame of its reply, version 1, with pass 9.
pub(crate) const WRITTEN: [u8; 23] = [
    0, 0, 0, 19, 1, 1, 0, 0, 0, 0, 0, 0, 0, 9, 1, 0, 0, 0, 0, 0, 0, 0, 1,
];

/// The frame of that put in a payload of version 2.
pub(crate) const SECOND_PUT: [u8; 42] = [
    0, 0, 0, 38, 2, 1, 0, 0, 0, 1, 0, 0, 0, 0, 0, 0, 0, 0, 0, 0, 0, 0, 0, 0, 0, 1, 0, 0, 0, 0, 0,
    0, 0, 1, 1, 0, 0, 1, 107, 0, 1, 97,
];

/// The put, and a strong read of `k` of chain 0 at node 3 with pass 0, in one payload of version 2.
pub(crate) const MANY: [u8; 62] = [
    0, 0, 0, 58, 2, 4, 2, 1, 0, 0, 0, 1, 0, 0, 0, 0, 0, 0, 0, 0, 0, 0, 0, 0, 0, 0, 0, 1, 0, 0, 0,
    0, 0, 0, 0, 1, 1, 0, 0, 1, 107, 0, 1, 97, 2, 0, 0, 0, 3, 0, 0, 0, 0, 0, 0, 0, 0, 1, 0, 0, 1,
    107,
];

/// A payload of several requests in version 1, which does not decode.
pub(crate) const FIRST_MANY: [u8; 7] = [0, 0, 0, 3, 1, 4, 1];

/// Two payloads of several requests that do not decode: with no request, and with nine.
pub(crate) const NO_MESSAGE: [u8; 7] = [0, 0, 0, 3, 2, 4, 0];

pub(crate) const NINE_MESSAGES: [u8; 16] = [0, 0, 0, 12, 2, 4, 9, 3, 3, 3, 3, 3, 3, 3, 3, 3];

/// A length above the limit.
pub(crate) const TOO_LONG: [u8; 4] = [0, 16, 0, 1];

/// The frame of the refusal of a payload that does not decode.
pub(crate) const BAD_FRAME: [u8; 15] = [0, 0, 0, 11, 1, 3, 15, 0, 0, 0, 0, 0, 0, 0, 0];
