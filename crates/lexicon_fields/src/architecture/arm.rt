//! The 32-bit Arm architectures.
ghost use Rattle.std.specs.Prelude.{◌≡◌, Some};
ghost use Rattle.std.specs.Cow.{cow_str_bytes, IsBorrowedStr};
ghost use Rattle.lexicon_fields.specs.Names.{MatchesLookup};
ghost use Rattle.lexicon_fields.specs.Architecture.{sub_architecture_of};
ghost use Rattle.lexicon_fields.specs.SubArchitecture.{arm_name, as_arm};
ghost use Rattle.lexicon_fields.specs.ArchitectureQueries as queries;

use crate::architecture::Architecture;
use crate::endianness::Endianness;
use crate::pointer_width::PointerWidth;
use std::borrow::CowStr;
use std::fmt;
use std::str::FromStr;

/// A 32-bit Arm architecture, in the Arm or the Thumb instruction set.
///
/// # Examples
///
/// ```
/// use target_lexicon::{Architecture, ArmArchitecture};
///
/// let architecture: Architecture = "thumbv7em".parse().unwrap();
/// assert_eq!(rt; architecture, Architecture::Arm(ArmArchitecture::Thumbv7em));
/// ```
// In Rust: #[non_exhaustive].
#[derive(Clone, Copy, Debug, PartialEq, Eq, Hash)]
pub enum ArmArchitecture {
    // written by tools/names/write: the variants of ArmArchitecture
    /// Arm of no stated version.
    Arm,
    /// Arm of no stated version, big-endian.
    Armeb,
    /// Armv4.
    Armv4,
    /// Armv4, with Thumb.
    Armv4t,
    /// Armv5, with Thumb.
    Armv5t,
    /// Armv5, with Thumb and the DSP instructions.
    Armv5te,
    /// Armv5, with Thumb, the DSP instructions and Jazelle.
    Armv5tej,
    /// Armv6.
    Armv6,
    /// Armv6, with Jazelle.
    Armv6j,
    /// Armv6, with the extensions of the MPCore.
    Armv6k,
    /// Armv6, with the security extensions.
    Armv6z,
    /// Armv6, with the kernel and the security extensions.
    Armv6kz,
    /// Armv6, with Thumb-2.
    Armv6t2,
    /// Armv6-M, of microcontrollers.
    Armv6m,
    /// Armv7 of no stated profile.
    Armv7,
    /// Armv7-A, of applications.
    Armv7a,
    /// Armv7 of Apple's watches.
    Armv7k,
    /// Armv7-A, with the virtualization extensions.
    Armv7ve,
    /// Armv7-M, of microcontrollers.
    Armv7m,
    /// Armv7-R, of real-time systems.
    Armv7r,
    /// Armv7 of Apple's A6.
    Armv7s,
    /// Armv8 of no stated profile, 32-bit.
    Armv8,
    /// Armv8-A, 32-bit.
    Armv8a,
    /// Armv8.1-A, 32-bit.
    Armv8_1a,
    /// Armv8.2-A, 32-bit.
    Armv8_2a,
    /// Armv8.3-A, 32-bit.
    Armv8_3a,
    /// Armv8.4-A, 32-bit.
    Armv8_4a,
    /// Armv8.5-A, 32-bit.
    Armv8_5a,
    /// Armv8-M, the baseline.
    Armv8mBase,
    /// Armv8-M, the mainline.
    Armv8mMain,
    /// Armv8-R, of real-time systems.
    Armv8r,
    /// Armv7-R, big-endian.
    Armebv7r,
    /// Thumb of no stated version, big-endian.
    Thumbeb,
    /// Armv4 in Thumb.
    Thumbv4t,
    /// Armv5 in Thumb, with the DSP instructions.
    Thumbv5te,
    /// Armv6-M in Thumb.
    Thumbv6m,
    /// Armv7-A in Thumb.
    Thumbv7a,
    /// Armv7-M in Thumb, with the DSP instructions.
    Thumbv7em,
    /// Armv7-M in Thumb.
    Thumbv7m,
    /// Armv7-A in Thumb, with the vector instructions Neon.
    Thumbv7neon,
    /// Armv8-M in Thumb, the baseline.
    Thumbv8mBase,
    /// Armv8-M in Thumb, the mainline.
    Thumbv8mMain,
    // end of what is written
}

impl ArmArchitecture {
    /// Whether this architecture uses the Thumb instruction set.
    ///
    /// # Examples
    ///
    /// ```
    /// use target_lexicon::ArmArchitecture;
    ///
    /// assert!(rt; ArmArchitecture::Thumbv7em.is_thumb());
    /// assert!(rt; !ArmArchitecture::Armv7a.is_thumb());
    /// ```
    pub const fn is_thumb(self) -> bool
        ensures { result ≡ queries.is_thumb self }
    {
        matches!(
            self,
            ArmArchitecture::Thumbeb
                | ArmArchitecture::Thumbv4t
                | ArmArchitecture::Thumbv5te
                | ArmArchitecture::Thumbv6m
                | ArmArchitecture::Thumbv7a
                | ArmArchitecture::Thumbv7em
                | ArmArchitecture::Thumbv7m
                | ArmArchitecture::Thumbv7neon
                | ArmArchitecture::Thumbv8mBase
                | ArmArchitecture::Thumbv8mMain
        )
    }

    /// The width of a pointer: 32 bits on each.
    ///
    /// # Examples
    ///
    /// ```
    /// use target_lexicon::{ArmArchitecture, PointerWidth};
    ///
    /// assert_eq!(rt; ArmArchitecture::Armv7a.pointer_width(), PointerWidth::U32);
    /// ```
    pub const fn pointer_width(self) -> PointerWidth
        ensures { result ≡ PointerWidth.U32 }
    {
        PointerWidth::U32
    }

    /// The byte order.
    ///
    /// # Examples
    ///
    /// ```
    /// use target_lexicon::{ArmArchitecture, Endianness};
    ///
    /// assert_eq!(rt; ArmArchitecture::Armeb.endianness(), Endianness::Big);
    /// ```
    pub const fn endianness(self) -> Endianness
        ensures { result ≡ queries.arm_endianness self }
    {
        match self {
            // written by tools/names/write: the byte orders of ArmArchitecture
            ArmArchitecture::Armeb | ArmArchitecture::Armebv7r | ArmArchitecture::Thumbeb =>
                Endianness::Big,
            ArmArchitecture::Arm
            | ArmArchitecture::Armv4
            | ArmArchitecture::Armv4t
            | ArmArchitecture::Armv5t
            | ArmArchitecture::Armv5te
            | ArmArchitecture::Armv5tej
            | ArmArchitecture::Armv6
            | ArmArchitecture::Armv6j
            | ArmArchitecture::Armv6k
            | ArmArchitecture::Armv6z
            | ArmArchitecture::Armv6kz
            | ArmArchitecture::Armv6t2
            | ArmArchitecture::Armv6m
            | ArmArchitecture::Armv7
            | ArmArchitecture::Armv7a
            | ArmArchitecture::Armv7k
            | ArmArchitecture::Armv7ve
            | ArmArchitecture::Armv7m
            | ArmArchitecture::Armv7r
            | ArmArchitecture::Armv7s
            | ArmArchitecture::Armv8
            | ArmArchitecture::Armv8a
            | ArmArchitecture::Armv8_1a
            | ArmArchitecture::Armv8_2a
            | ArmArchitecture::Armv8_3a
            | ArmArchitecture::Armv8_4a
            | ArmArchitecture::Armv8_5a
            | ArmArchitecture::Armv8mBase
            | ArmArchitecture::Armv8mMain
            | ArmArchitecture::Armv8r
            | ArmArchitecture::Thumbv4t
            | ArmArchitecture::Thumbv5te
            | ArmArchitecture::Thumbv6m
            | ArmArchitecture::Thumbv7a
            | ArmArchitecture::Thumbv7em
            | ArmArchitecture::Thumbv7m
            | ArmArchitecture::Thumbv7neon
            | ArmArchitecture::Thumbv8mBase
            | ArmArchitecture::Thumbv8mMain => Endianness::Little,
            // end of what is written
        }
    }

    /// The sub-architecture with the name `s`; `Err` if there is none.
    // Not in Rust.
    pub fn from_str(s: &str) -> Result<Self, ()>
        ensures { MatchesLookup (sub_architecture_of as_arm s.now) result }
    {
        match Architecture::from_str(s) {
            Ok(Architecture::Arm(sub)) => Ok(sub),
            _ => Err(()),
        }
    }

    /// The name. It is always borrowed.
    ///
    /// # Examples
    ///
    /// ```
    /// assert_eq!(rt; target_lexicon::ArmArchitecture::Thumbv7em.into_str().as_str(), "thumbv7em");
    /// ```
    pub fn into_str(self) -> CowStr<'static>
        ensures name { cow_str_bytes result ≡ arm_name self }
        ensures borrowed { IsBorrowedStr result }
    {
        CowStr::Borrowed(self.name())
    }

    pub(crate) const fn name(self) -> &'static str
        ensures { result.now ≡ arm_name self }
    {
        match self {
            // written by tools/names/write: the names of ArmArchitecture
            ArmArchitecture::Arm => "arm",
            ArmArchitecture::Armeb => "armeb",
            ArmArchitecture::Armv4 => "armv4",
            ArmArchitecture::Armv4t => "armv4t",
            ArmArchitecture::Armv5t => "armv5t",
            ArmArchitecture::Armv5te => "armv5te",
            ArmArchitecture::Armv5tej => "armv5tej",
            ArmArchitecture::Armv6 => "armv6",
            ArmArchitecture::Armv6j => "armv6j",
            ArmArchitecture::Armv6k => "armv6k",
            ArmArchitecture::Armv6z => "armv6z",
            ArmArchitecture::Armv6kz => "armv6kz",
            ArmArchitecture::Armv6t2 => "armv6t2",
            ArmArchitecture::Armv6m => "armv6m",
            ArmArchitecture::Armv7 => "armv7",
            ArmArchitecture::Armv7a => "armv7a",
            ArmArchitecture::Armv7k => "armv7k",
            ArmArchitecture::Armv7ve => "armv7ve",
            ArmArchitecture::Armv7m => "armv7m",
            ArmArchitecture::Armv7r => "armv7r",
            ArmArchitecture::Armv7s => "armv7s",
            ArmArchitecture::Armv8 => "armv8",
            ArmArchitecture::Armv8a => "armv8a",
            ArmArchitecture::Armv8_1a => "armv8.1a",
            ArmArchitecture::Armv8_2a => "armv8.2a",
            ArmArchitecture::Armv8_3a => "armv8.3a",
            ArmArchitecture::Armv8_4a => "armv8.4a",
            ArmArchitecture::Armv8_5a => "armv8.5a",
            ArmArchitecture::Armv8mBase => "armv8m.base",
            ArmArchitecture::Armv8mMain => "armv8m.main",
            ArmArchitecture::Armv8r => "armv8r",
            ArmArchitecture::Armebv7r => "armebv7r",
            ArmArchitecture::Thumbeb => "thumbeb",
            ArmArchitecture::Thumbv4t => "thumbv4t",
            ArmArchitecture::Thumbv5te => "thumbv5te",
            ArmArchitecture::Thumbv6m => "thumbv6m",
            ArmArchitecture::Thumbv7a => "thumbv7a",
            ArmArchitecture::Thumbv7em => "thumbv7em",
            ArmArchitecture::Thumbv7m => "thumbv7m",
            ArmArchitecture::Thumbv7neon => "thumbv7neon",
            ArmArchitecture::Thumbv8mBase => "thumbv8m.base",
            ArmArchitecture::Thumbv8mMain => "thumbv8m.main",
            // end of what is written
        }
    }
}

impl FromStr for ArmArchitecture {
    type Err = ();

    ghost from_str_gives = { λ s. MatchesLookup (sub_architecture_of as_arm s) };

    fn from_str(s: &str) -> Result<ArmArchitecture, ()> {
        ArmArchitecture::from_str(s)
    }
}

impl fmt::Display for ArmArchitecture {
    ghost output = { λ it. Some (arm_name it) };

    ghost styled_output = { λ it _. Some (arm_name it) };

    fn fmt<W: fmt::Write>(&self, f: &mut fmt::Formatter<W>) -> fmt::Result {
        f.write_str(self.name())
    }
}
