//! The binary formats.
ghost use Rattle.std.specs.Prelude.{◌≡◌, Some};
ghost use Rattle.std.specs.Cow.{cow_str_bytes, IsBorrowedStr};
ghost use Rattle.lexicon_fields.specs.Names.{MatchesLookup};
ghost use Rattle.lexicon_fields.specs.BinaryFormat.{binary_format_name, binary_format_of};

use crate::steps::Steps;
use crate::table::fixed_row;
use std::borrow::CowStr;
use std::fmt;
use std::str::FromStr;

/// The format of object files.
///
/// # Examples
///
/// ```
/// use target_lexicon::{BinaryFormat, TripleRef};
///
/// let triple = TripleRef::from_str("x86_64-pc-windows-gnu").unwrap();
/// assert_eq!(rt; triple.binary_format, BinaryFormat::Coff);
/// ```
// In Rust: #[non_exhaustive].
#[derive(Clone, Copy, Debug, PartialEq, Eq, Hash)]
pub enum BinaryFormat {
    // written by tools/names/write: the variants of BinaryFormat
    /// A format that isn't known.
    Unknown,
    /// ELF, of most systems like Unix.
    Elf,
    /// COFF, the format of Windows.
    Coff,
    /// Mach-O, Apple's format.
    Macho,
    /// WebAssembly.
    Wasm,
    /// XCOFF, the format of AIX.
    Xcoff,
    // end of what is written
}

impl BinaryFormat {
    /// The field of the host, which is `x86_64-unknown-linux-gnu` on every machine.
    // Not in Rust.
    pub fn host() -> Self
        ensures { result ≡ BinaryFormat.Elf }
    {
        Self::Elf
    }

    /// The binary format with the name `s`; `Err` if there is none.
    // Not in Rust.
    pub fn from_str(s: &str) -> Result<Self, ()>
        ensures { MatchesLookup (binary_format_of s.now) result }
    {
        match fixed_row(s, &mut Steps::new()) {
            Some(row) => row.binary_format.ok_or(()),
            None => Err(()),
        }
    }

    /// The name. It is always borrowed.
    ///
    /// # Examples
    ///
    /// ```
    /// assert_eq!(rt; target_lexicon::BinaryFormat::Elf.into_str().as_str(), "elf");
    /// ```
    // In Rust: #[inline].
    pub fn into_str(self) -> CowStr<'static>
        ensures name { cow_str_bytes result ≡ binary_format_name self }
        ensures borrowed { IsBorrowedStr result }
    {
        CowStr::Borrowed(self.name())
    }

    /// The name.
    // In Rust: pub(crate).
    pub const fn name(self) -> &'static str
        ensures { result.now ≡ binary_format_name self }
    {
        match self {
            // written by tools/names/write: the names of BinaryFormat
            BinaryFormat::Unknown => "unknown",
            BinaryFormat::Elf => "elf",
            BinaryFormat::Coff => "coff",
            BinaryFormat::Macho => "macho",
            BinaryFormat::Wasm => "wasm",
            BinaryFormat::Xcoff => "xcoff",
            // end of what is written
        }
    }
}

impl FromStr for BinaryFormat {
    type Err = ();

    ghost from_str_gives = { λ s. MatchesLookup (binary_format_of s) };

    // In Rust: #[inline].
    fn from_str(s: &str) -> Result<BinaryFormat, ()> {
        BinaryFormat::from_str(s)
    }
}

impl fmt::Display for BinaryFormat {
    ghost output = { λ it. Some (binary_format_name it) };

    ghost styled_output = { λ it _. Some (binary_format_name it) };

    fn fmt<W: fmt::Write>(&self, f: &mut fmt::Formatter<W>) -> fmt::Result {
        f.write_str(self.name())
    }
}
