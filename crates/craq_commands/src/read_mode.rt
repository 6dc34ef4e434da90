//! `ReadMode`: strong, eventual or bounded. A read's `Ask` holds it, and `craq_read` plans by it.
/// The consistency that a read asks for.
#[derive(Clone, Copy, Debug, PartialEq, Eq)]
pub enum ReadMode {
    /// Returns the committed version at some moment between request and reply (linearizable).
    Strong,
    /// Returns the newest version that the node holds, committed or not.
    Eventual,
    /// Returns the newest version that the node holds and that is at most this many above the clean
    /// one.
    Bounded(u32),
}
