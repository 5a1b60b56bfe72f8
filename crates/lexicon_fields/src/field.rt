//! The fields themselves.

/// A field of a target triple. The variants are in the order in which a triple has them.
///
/// # Examples
///
/// ```
/// use target_lexicon::{Field, TripleRef};
///
/// let refusal = TripleRef::from_str("x86_64-unknown-foo").unwrap_err();
/// assert_eq!(rt; refusal.expected, Some(Field::OperatingSystem));
/// ```
#[derive(Clone, Copy, Debug, PartialEq, Eq)]
// In Rust: #[derive(Hash)].
pub enum Field {
    /// The instruction set.
    Architecture,
    /// The maker of the platform.
    Vendor,
    /// The operating system.
    OperatingSystem,
    /// The ABI or C library.
    Environment,
    /// The format of object files.
    BinaryFormat,
}
