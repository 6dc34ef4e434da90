//! A map from keys to items, by a keyed hash. It grows one bucket at a time. Runs in the program.
#![tactic(auto)]

mod chunks;
mod entries;
mod hashing;
mod index;
mod layout;
mod least;
mod map;
mod order;
mod rising;
mod sip;

pub use entries::Entries;
pub use map::KeyMap;
pub use order::sort_by_key;
pub use rising::Rising;
