//! The binary format that the other fields imply.
ghost use Rattle.std.specs.Prelude.{◌≡◌};
ghost use Rattle.target_lexicon.specs.ImpliedFormat as spec;
ghost use Rattle.target_lexicon.specs.Values.{values_of};
ghost use Rattle.target_lexicon.specs.ValuesRef.{values_of_ref};

use crate::triple::Triple;
use crate::triple_ref::TripleRef;
use lexicon_fields::{Architecture, BinaryFormat, Environment, OperatingSystem};
// written by tools/names/write: the families that imply formats by their members
// end of what is written

/// The binary format that the architecture, the operating system and the environment imply. The triple's own format
/// doesn't matter.
///
/// # Examples
///
/// ```
/// use target_lexicon::{BinaryFormat, OperatingSystem, Triple, default_binary_format};
///
/// let mut triple = Triple::unknown();
/// triple.operating_system = OperatingSystem::Windows;
/// assert_eq!(rt; default_binary_format(&triple), BinaryFormat::Coff);
/// ```
pub fn default_binary_format(triple: &Triple) -> BinaryFormat
    ensures { result ≡ spec.default_binary_format (values_of triple.now) }
{
    triple.as_triple_ref().default_binary_format()
}

impl TripleRef<'_> {
    /// The implied binary format, as [`default_binary_format`] says.
    ///
    /// # Examples
    ///
    /// ```
    /// use target_lexicon::{BinaryFormat, TripleRef};
    ///
    /// let triple = TripleRef::from_str("x86_64-unknown-linux-gnu-coff").unwrap();
    /// assert_eq!(rt; triple.default_binary_format(), BinaryFormat::Elf);
    /// ```
    #[must_use]
    pub const fn default_binary_format(&self) -> BinaryFormat
        ensures { result ≡ spec.default_binary_format (values_of_ref self.now) }
    {
        match self.operating_system {
            // written by tools/names/write: the formats of systems
            OperatingSystem::None_ => match self.environment {
                Environment::Eabi | Environment::Eabihf => BinaryFormat::Elf,
                _ => BinaryFormat::Unknown,
            },
            OperatingSystem::Aix => BinaryFormat::Xcoff,
            OperatingSystem::Darwin(_)
            | OperatingSystem::IOS(_)
            | OperatingSystem::MacOSX(_)
            | OperatingSystem::TvOS(_)
            | OperatingSystem::VisionOS(_)
            | OperatingSystem::WatchOS(_)
            | OperatingSystem::XROS(_) => BinaryFormat::Macho,
            OperatingSystem::Windows => BinaryFormat::Coff,
            OperatingSystem::Nebulet
            | OperatingSystem::Emscripten
            | OperatingSystem::VxWorks
            | OperatingSystem::Wasi
            | OperatingSystem::Unknown => match self.architecture {
                Architecture::Wasm32 | Architecture::Wasm64 => BinaryFormat::Wasm,
                Architecture::Unknown => BinaryFormat::Unknown,
                _ => BinaryFormat::Elf,
            },
            OperatingSystem::AmdHsa
            | OperatingSystem::Bitrig
            | OperatingSystem::Cloudabi
            | OperatingSystem::Cuda
            | OperatingSystem::Cygwin
            | OperatingSystem::Dragonfly
            | OperatingSystem::Espidf
            | OperatingSystem::Freebsd
            | OperatingSystem::Fuchsia
            | OperatingSystem::Haiku
            | OperatingSystem::Hermit
            | OperatingSystem::Horizon
            | OperatingSystem::Hurd
            | OperatingSystem::Illumos
            | OperatingSystem::L4re
            | OperatingSystem::Linux
            | OperatingSystem::Netbsd
            | OperatingSystem::Openbsd
            | OperatingSystem::Psp
            | OperatingSystem::Redox
            | OperatingSystem::Solaris
            | OperatingSystem::SolidAsp3
            | OperatingSystem::Uefi
            | OperatingSystem::WasiP1
            | OperatingSystem::WasiP2 => BinaryFormat::Elf,
            // end of what is written
        }
    }
}
