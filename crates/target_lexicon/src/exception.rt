//! The exceptions to the round trip.
ghost use Rattle.std.specs.Prelude.{◌≡◌, ◌&&◌};
ghost use Rattle.lexicon_fields.specs.VendorRef.{ref_value};
ghost use Rattle.target_lexicon.specs.Exceptions as spec;
ghost use Rattle.target_lexicon.specs.SpecialStrings.{implies_newlib};
ghost use Rattle.target_lexicon.specs.Values.{omits_unknown_system, is_newlib, is_none_environment, values_of};
ghost use Rattle.target_lexicon.specs.ValuesRef.{values_of_ref};

use crate::triple::Triple;
use crate::triple_ref::TripleRef;
use lexicon_fields::{
    Architecture, BinaryFormat, Environment, OperatingSystem, Riscv32Architecture, VendorRef,
};

/// Why a triple doesn't come back: printed and parsed again, it is another triple or none.
///
/// # Examples
///
/// ```
/// use target_lexicon::{RoundTripException, TripleRef};
///
/// let triple = TripleRef::from_str("riscv32imc-esp-espidf-elf").unwrap();
/// assert!(rt; !triple.comes_back());
/// assert_eq!(rt; triple.round_trip_exception(), Some(RoundTripException::PrintsTheEspIdfString));
/// ```
// In Rust: #[non_exhaustive].
#[derive(Clone, Copy, Debug, PartialEq, Eq)]
// In Rust: #[derive(Hash)].
pub enum RoundTripException {
    /// The first three fields are those of a special string, such as `armv6k-nintendo-3ds`, which is printed, and
    /// environment and format aren't `Newlib` and `Elf`.
    PrintsAsSpecial,
    /// Vendor and system are those of a special string, and the environment is `Newlib`, which isn't shown, but the
    /// architecture is another.
    HidesNewlib,
    /// The string is `riscv32imc-esp-espidf`, but the vendor is the custom `esp`.
    PrintsTheEspIdfString,
    /// An unknown system is omitted, as on Clever, and the environment is `None`, which parses as the system.
    ShowsOnlyNone,
    /// The vendor isn't plain: no string parses as it. If `ShowsOnlyNone` applies too, it is the answer.
    VendorIsNotPlain,
}

impl Triple {
    /// The first exception that applies to the triple. `None` if it comes back. Nothing is allocated.
    ///
    /// Only with such a system can a triple be in two: `ShowsOnlyNone` comes before `VendorIsNotPlain`.
    // Not in Rust.
    pub fn round_trip_exception(&self) -> Option<RoundTripException>
        ensures { result ≡ spec.exception (values_of self.now) }
    {
        self.as_triple_ref().round_trip_exception()
    }
}

impl TripleRef<'_> {
    /// The first exception that applies to the triple, as [`Triple::round_trip_exception`] says.
    ///
    /// # Examples
    ///
    /// ```
    /// use target_lexicon::{RoundTripException, TripleRef};
    ///
    /// let triple = TripleRef::from_str("armv7-nintendo-horizon-newlib").unwrap();
    /// assert_eq!(rt; triple.round_trip_exception(), Some(RoundTripException::HidesNewlib));
    /// ```
    #[must_use]
    pub fn round_trip_exception(&self) -> Option<RoundTripException>
        ensures { result ≡ spec.exception (values_of_ref self.now) }
    {
        if self.special_string().is_some() {
            if self.has_newlib_and_elf() {
                None
            } else {
                Some(RoundTripException::PrintsAsSpecial)
            }
        } else if self.hides_newlib() {
            Some(RoundTripException::HidesNewlib)
        } else if self.prints_the_esp_idf_string() {
            Some(RoundTripException::PrintsTheEspIdfString)
        } else if self.shows_only_none() {
            Some(RoundTripException::ShowsOnlyNone)
        } else if self.vendor.is_plain() {
            None
        } else {
            Some(RoundTripException::VendorIsNotPlain)
        }
    }

    /// Whether environment and format are those of every special string.
    fn has_newlib_and_elf(&self) -> bool
        ensures { result ≡ spec.has_newlib_and_elf (values_of_ref self.now) }
    {
        matches!(
            (self.environment, self.binary_format),
            (Environment::Newlib, BinaryFormat::Elf)
        )
    }

    /// Whether the environment is a `Newlib` that vendor and system imply. Where no special string is printed, it isn't
    /// shown.
    fn hides_newlib(&self) -> bool
        ensures { result ≡ (implies_newlib (ref_value self.now.vendor)
            self.now.operating_system && is_newlib self.now.environment) }
    {
        matches!(self.environment, Environment::Newlib) && self.implies_newlib()
    }

    /// Whether the vendor is the custom `esp`, and the string is the special one.
    fn prints_the_esp_idf_string(&self) -> bool
        ensures { result ≡ spec.is_custom_esp self.now.architecture (ref_value self.now.vendor)
            self.now.operating_system self.now.environment self.now.binary_format }
    {
        match (
            self.architecture,
            self.vendor,
            self.operating_system,
            self.environment,
            self.binary_format,
        ) {
            (
                Architecture::Riscv32(Riscv32Architecture::Riscv32imc),
                VendorRef::Custom(custom),
                OperatingSystem::Espidf,
                Environment::Unknown,
                BinaryFormat::Elf,
            ) => custom == "esp",
            _ => false,
        }
    }

    /// Whether the environment `none` is shown, and an unknown system isn't.
    fn shows_only_none(&self) -> bool
        ensures { result ≡ (omits_unknown_system self.now.architecture self.now.operating_system
            && is_none_environment self.now.environment) }
    {
        self.omits_unknown_system() && matches!(self.environment, Environment::None)
    }
}
