//! Whether a triple comes back, its normal step, and its canonical form.
ghost use Rattle.std.specs.Prelude.{◌≡◌, ◌↔◌, ◌⊎◌, true, IsTrue};
ghost use Rattle.lexicon_fields.specs.Vendor.{is_plain, vendor_value};
ghost use Rattle.lexicon_fields.specs.VendorRef.{ref_value};
ghost use Rattle.lexicon_fields.specs.declared.known_vendor.KnownVendor.TheVariants as known_vendor;
ghost use Rattle.lexicon_fields.specs.declared.vendor.Vendor.TheVariants.{Espressif};
ghost use Rattle.lexicon_fields.specs.declared.vendor_ref.VendorRef.TheVariants.{Known};
ghost use Rattle.target_lexicon.specs.FixedPoints.{canonical_values};
ghost use Rattle.target_lexicon.specs.Laws.{ComesBack};
ghost use Rattle.target_lexicon.specs.NormalStep as spec;
ghost use Rattle.target_lexicon.specs.Printing.{string_of};
ghost use Rattle.target_lexicon.specs.Parsing.{ParsesAs};
ghost use Rattle.target_lexicon.specs.Values.{values_of};
ghost use Rattle.target_lexicon.specs.ValuesRef.{values_of_ref};

use crate::exception::RoundTripException;
use crate::laws::{
    canonical_strings_are_keys, fixed_exactly_outside_families, round_is_normal_step,
    versions_are_in_range,
};
use crate::triple::Triple;
use crate::triple_ref::TripleRef;
use lexicon_fields::{BinaryFormat, Environment, KnownVendor, OperatingSystem, Vendor, VendorRef};

impl Triple {
    /// Whether the triple comes back: printed and parsed again, it is itself. No string is made and nothing is
    /// allocated.
    ///
    /// A triple comes back unless one of five exceptions applies, which [`RoundTripException`] lists, and
    /// [`Triple::round_trip_exception`] names.
    // Not in Rust.
    pub fn comes_back(&self) -> bool
        ensures { IsTrue result ↔ ComesBack (values_of self.now) }
    {
        self.as_triple_ref().comes_back()
    }

    /// The normal step of the triple: the triple that its printed string parses as. The vendor must be plain, as that
    /// of every parsed triple is. Nothing is copied or allocated. [`Triple::settle`] gives the same triple.
    ///
    /// A triple that comes back is unchanged. Otherwise the first of these cases that holds decides, by the
    /// [`RoundTripException`]:
    /// - `PrintsAsSpecial`: environment and format become `Newlib` and `Elf`.
    /// - `HidesNewlib`: the environment becomes `Unknown`, and an `Unknown` format becomes `Elf`.
    /// - `PrintsTheEspIdfString`: the vendor becomes `Espressif`, environment and format become `Newlib` and `Elf`.
    /// - `ShowsOnlyNone`: the system becomes `None_`, and the environment `Unknown`.
    // Not in Rust.
    pub fn normal(self) -> Triple
        requires { is_plain (vendor_value self.vendor) ≡ true }
        ensures step { values_of result ≡ spec.normal_step (values_of self) }
        ensures round { ParsesAs (string_of (values_of self)) (values_of result) }
        ensures vendor { (result.vendor ≡ self.vendor) ⊎ (result.vendor ≡ Espressif) }
    {
        round_is_normal_step();
        versions_are_in_range(self.operating_system);
        self.step()
    }

    /// The canonical form of the triple: it comes back. It is specified as two normal steps, of which the second
    /// changes nothing (law `second_step_changes_one`). There are two calls since one triple would take both steps if
    /// printing followed upstream's rules. The vendor must be plain, as for `normal`. A triple that comes back is
    /// unchanged. A plain triple with another canonical form has another canonical string (law
    /// `canonical_strings_are_keys`), so the string serves as a key. Nothing is allocated.
    // Not in Rust.
    pub fn settle(self) -> Triple
        requires { is_plain (vendor_value self.vendor) ≡ true }
        ensures steps { values_of result ≡ canonical_values (values_of self) }
        ensures back { ComesBack (values_of result) }
        ensures stays { ComesBack (values_of self) → values_of result ≡ values_of self }
        ensures vendor { (result.vendor ≡ self.vendor) ⊎ (result.vendor ≡ Espressif) }
    {
        canonical_strings_are_keys();
        versions_are_in_range(self.operating_system);
        Triple::normal(self)
    }

    /// The normal step.
    // In Rust: #[inline].
    pub(crate) fn step(mut self) -> Triple
        ensures step { values_of result ≡ spec.normal_step (values_of self) }
        ensures vendor { (result.vendor ≡ self.vendor) ⊎ (result.vendor ≡ Espressif) }
    {
        let step = self.as_triple_ref().step();
        let (architecture, operating_system) = (step.architecture, step.operating_system);
        let (environment, binary_format) = (step.environment, step.binary_format);
        if matches!(step.vendor, VendorRef::Known(KnownVendor::Espressif)) {
            self.vendor = Vendor::Espressif;
        }
        self.architecture = architecture;
        self.operating_system = operating_system;
        self.environment = environment;
        self.binary_format = binary_format;
        self
    }
}

impl<'a> TripleRef<'a> {
    /// Whether the triple comes back, as [`Triple::comes_back`] says.
    ///
    /// # Examples
    ///
    /// ```
    /// use target_lexicon::TripleRef;
    ///
    /// assert!(rt; !TripleRef::from_str("armv7-nintendo-horizon-newlib").unwrap().comes_back());
    /// ```
    #[must_use]
    // In Rust: #[inline].
    pub fn comes_back(&self) -> bool
        ensures { IsTrue result ↔ ComesBack (values_of_ref self.now) }
    {
        fixed_exactly_outside_families();
        versions_are_in_range(self.operating_system);
        self.round_trip_exception().is_none()
    }

    /// The triple that the printed string parses as, as [`Triple::normal`] says. The vendor must be plain.
    // Not in Rust.
    pub fn normal(self) -> TripleRef<'a>
        requires { is_plain (ref_value self.vendor) ≡ true }
        ensures step { values_of_ref result ≡ spec.normal_step (values_of_ref self.entry) }
        ensures round { ParsesAs (string_of (values_of_ref self.entry)) (values_of_ref result) }
        ensures vendor { (result.vendor ≡ self.entry.vendor)
            ⊎ (result.vendor ≡ Known known_vendor.Espressif) }
    {
        round_is_normal_step();
        versions_are_in_range(self.operating_system);
        self.step()
    }

    /// The canonical form, as [`Triple::settle`] says. The vendor must be plain.
    // Not in Rust.
    pub fn settle(self) -> TripleRef<'a>
        requires { is_plain (ref_value self.vendor) ≡ true }
        ensures steps { values_of_ref result ≡ canonical_values (values_of_ref self.entry) }
        ensures back { ComesBack (values_of_ref result) }
        ensures stays { ComesBack (values_of_ref self.entry) →
            values_of_ref result ≡ values_of_ref self.entry }
        ensures vendor { (result.vendor ≡ self.entry.vendor)
            ⊎ (result.vendor ≡ Known known_vendor.Espressif) }
    {
        canonical_strings_are_keys();
        versions_are_in_range(self.operating_system);
        self.normal()
    }

    /// The normal step of any triple. If the vendor is plain, it is the canonical form.
    #[must_use]
    #[doc(hidden)]
    #[inline(always)]
    pub fn step(mut self) -> TripleRef<'a>
        ensures step { values_of_ref result ≡ spec.normal_step (values_of_ref self.entry) }
        ensures vendor { (result.vendor ≡ self.entry.vendor)
            ⊎ (result.vendor ≡ Known known_vendor.Espressif) }
    {
        match self.round_trip_exception() {
            Some(RoundTripException::PrintsAsSpecial) => {
                self.environment = Environment::Newlib;
                self.binary_format = BinaryFormat::Elf;
            }
            Some(RoundTripException::HidesNewlib) => {
                self.environment = Environment::Unknown;
                self.binary_format = elf_if_unknown(self.binary_format);
            }
            Some(RoundTripException::PrintsTheEspIdfString) => {
                self.vendor = VendorRef::Known(KnownVendor::Espressif);
                self.environment = Environment::Newlib;
                self.binary_format = BinaryFormat::Elf;
            }
            Some(RoundTripException::ShowsOnlyNone) => {
                self.operating_system = OperatingSystem::None_;
                self.environment = Environment::Unknown;
            }
            Some(RoundTripException::VendorIsNotPlain) => {}
            None => {}
        }
        self
    }
}

/// The format, with `Elf` for an unknown one.
// In Rust: #[inline].
fn elf_if_unknown(binary_format: BinaryFormat) -> BinaryFormat
    ensures { result ≡ spec.elf_if_unknown binary_format }
{
    match binary_format {
        BinaryFormat::Unknown => BinaryFormat::Elf,
        _ => binary_format,
    }
}
