//! The 64-bit Arm architectures.
ghost use Rattle.std.specs.Prelude.{◌≡◌, false, Some};
ghost use Rattle.std.specs.Cow.{cow_str_bytes, IsBorrowedStr};
ghost use Rattle.lexicon_fields.specs.Names.{MatchesLookup};
ghost use Rattle.lexicon_fields.specs.Architecture.{sub_architecture_of};
ghost use Rattle.lexicon_fields.specs.SubArchitecture.{aarch64_name, as_aarch64};
ghost use Rattle.lexicon_fields.specs.ArchitectureQueries.{aarch64_endianness};

use crate::architecture::Architecture;
use crate::endianness::Endianness;
use crate::pointer_width::PointerWidth;
use std::borrow::CowStr;
use std::fmt;
use std::str::FromStr;

/// A 64-bit Arm architecture.
///
/// # Examples
///
/// ```
/// use target_lexicon::{Architecture, Aarch64Architecture};
///
/// let architecture: Architecture = "aarch64_be".parse().unwrap();
/// assert_eq!(rt; architecture, Architecture::Aarch64(Aarch64Architecture::Aarch64be));
/// ```
// In Rust: #[non_exhaustive].
#[derive(Clone, Copy, Debug, PartialEq, Eq, Hash)]
pub enum Aarch64Architecture {
    // written by tools/names/write: the variants of Aarch64Architecture
    /// Little-endian.
    Aarch64,
    /// Big-endian.
    Aarch64be,
    // end of what is written
}

impl Aarch64Architecture {
    /// Whether this architecture uses the Thumb instruction set: none does.
    ///
    /// # Examples
    ///
    /// ```
    /// assert!(rt; !target_lexicon::Aarch64Architecture::Aarch64.is_thumb());
    /// ```
    pub const fn is_thumb(self) -> bool
        ensures { result ≡ false }
    {
        false
    }

    /// The width of a pointer: 64 bits on each. In a triple, the environment can make it 32.
    ///
    /// # Examples
    ///
    /// ```
    /// use target_lexicon::{Aarch64Architecture, PointerWidth};
    ///
    /// assert_eq!(rt; Aarch64Architecture::Aarch64.pointer_width(), PointerWidth::U64);
    /// ```
    pub const fn pointer_width(self) -> PointerWidth
        ensures { result ≡ PointerWidth.U64 }
    {
        PointerWidth::U64
    }

    /// The byte order.
    ///
    /// # Examples
    ///
    /// ```
    /// use target_lexicon::{Aarch64Architecture, Endianness};
    ///
    /// assert_eq!(rt; Aarch64Architecture::Aarch64be.endianness(), Endianness::Big);
    /// ```
    pub const fn endianness(self) -> Endianness
        ensures { result ≡ aarch64_endianness self }
    {
        match self {
            // written by tools/names/write: the byte orders of Aarch64Architecture
            Aarch64Architecture::Aarch64 => Endianness::Little,
            Aarch64Architecture::Aarch64be => Endianness::Big,
            // end of what is written
        }
    }

    /// The value with this name; `arm64` is an alias of `aarch64`. `Err` for every other string.
    // Not in Rust.
    pub fn from_str(s: &str) -> Result<Self, ()>
        ensures { MatchesLookup (sub_architecture_of as_aarch64 s.now) result }
    {
        match Architecture::from_str(s) {
            Ok(Architecture::Aarch64(sub)) => Ok(sub),
            _ => Err(()),
        }
    }

    /// The name. It is always borrowed.
    ///
    /// # Examples
    ///
    /// ```
    /// assert_eq!(rt; target_lexicon::Aarch64Architecture::Aarch64be.into_str().as_str(), "aarch64_be");
    /// ```
    pub fn into_str(self) -> CowStr<'static>
        ensures name { cow_str_bytes result ≡ aarch64_name self }
        ensures borrowed { IsBorrowedStr result }
    {
        CowStr::Borrowed(self.name())
    }

    pub(crate) const fn name(self) -> &'static str
        ensures { result.now ≡ aarch64_name self }
    {
        match self {
            // written by tools/names/write: the names of Aarch64Architecture
            Aarch64Architecture::Aarch64 => "aarch64",
            Aarch64Architecture::Aarch64be => "aarch64_be",
            // end of what is written
        }
    }
}

impl FromStr for Aarch64Architecture {
    type Err = ();

    ghost from_str_gives = { λ s. MatchesLookup (sub_architecture_of as_aarch64 s) };

    fn from_str(s: &str) -> Result<Aarch64Architecture, ()> {
        Aarch64Architecture::from_str(s)
    }
}

impl fmt::Display for Aarch64Architecture {
    ghost output = { λ it. Some (aarch64_name it) };

    ghost styled_output = { λ it _. Some (aarch64_name it) };

    fn fmt<W: fmt::Write>(&self, f: &mut fmt::Formatter<W>) -> fmt::Result {
        f.write_str(self.name())
    }
}
