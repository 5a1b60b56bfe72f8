//! Byte orders.
ghost use Rattle.std.specs.Prelude.{◌≡◌};
ghost use Rattle.lexicon_fields.specs.Endianness.{endianness_name};

/// The order of the bytes of a number in memory.
///
/// # Examples
///
/// ```
/// use target_lexicon::{Architecture, Endianness};
///
/// assert_eq!(rt; Architecture::X86_64.endianness(), Ok(Endianness::Little));
/// ```
#[derive(Clone, Copy, Debug, PartialEq, Eq, Hash)]
pub enum Endianness {
    /// The least significant byte comes first.
    Little,
    /// The most significant byte comes first.
    Big,
}

impl Endianness {
    /// The name of the byte order.
    // In Rust: pub(crate).
    pub const fn name(self) -> &'static str
        ensures { result.now ≡ endianness_name self }
    {
        match self {
            Endianness::Little => "little",
            Endianness::Big => "big",
        }
    }
}
