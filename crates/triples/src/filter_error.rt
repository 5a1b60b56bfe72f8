//! Why a filter fails.

/// The error that ends a filter.
#[derive(Clone, Copy, Debug, PartialEq, Eq)]
pub enum FilterError {
    /// A read failed.
    Read,
    /// A write or the flush failed, or a write took no byte of a piece.
    Write,
    /// The filter made `u64::MAX` reads, and none of them found the end.
    Endless,
}
