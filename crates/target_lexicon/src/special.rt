//! The strings that have a triple of their own.
ghost use Rattle.std.specs.Prelude.{◌≡◌, option_map, List, ℕ};
ghost use Rattle.target_lexicon.specs.SpecialStrings as spec;
ghost use Rattle.target_lexicon.specs.ValuesRef.{values_of_ref};
ghost use Rattle.lexicon_fields.specs.VendorRef.{ref_value};

use crate::triple_ref::TripleRef;
use lexicon_fields::{
    Architecture, BinaryFormat, Environment, KnownVendor, OperatingSystem, VendorRef,
};
// written by tools/names/write: the families of special strings
use lexicon_fields::{ArmArchitecture, Riscv32Architecture};
// end of what is written

impl<'a> TripleRef<'a> {
    /// The triple of a special string.
    pub(crate) fn from_special_string(text: &str) -> Option<TripleRef<'a>>
        ensures { option_map values_of_ref result ≡ spec.special_values text.now }
    {
        match text {
            // written by tools/names/write: the triples of special strings
            "armv6k-nintendo-3ds" => Some(TripleRef {
                architecture: Architecture::Arm(ArmArchitecture::Armv6k),
                vendor: VendorRef::Known(KnownVendor::Nintendo),
                operating_system: OperatingSystem::Horizon,
                environment: Environment::Newlib,
                binary_format: BinaryFormat::Elf,
            }),
            "riscv32imc-esp-espidf" => Some(TripleRef {
                architecture: Architecture::Riscv32(Riscv32Architecture::Riscv32imc),
                vendor: VendorRef::Known(KnownVendor::Espressif),
                operating_system: OperatingSystem::Espidf,
                environment: Environment::Newlib,
                binary_format: BinaryFormat::Elf,
            }),
            // end of what is written
            _ => None,
        }
    }

    /// The special string that the triple prints, if any. Environment and format don't matter.
    pub(crate) fn special_string(&self) -> Option<&'static str>
        ensures { option_map {U = List ℕ} (λ text. text.now) result
            ≡ spec.special_string (values_of_ref self.now) }
    {
        match (self.architecture, self.vendor, self.operating_system) {
            // written by tools/names/write: the special strings of triples
            (
                Architecture::Arm(ArmArchitecture::Armv6k),
                VendorRef::Known(KnownVendor::Nintendo),
                OperatingSystem::Horizon,
            ) => Some("armv6k-nintendo-3ds"),
            (
                Architecture::Riscv32(Riscv32Architecture::Riscv32imc),
                VendorRef::Known(KnownVendor::Espressif),
                OperatingSystem::Espidf,
            ) => Some("riscv32imc-esp-espidf"),
            // end of what is written
            _ => None,
        }
    }

    /// Whether vendor and system are those of a special string: they imply the environment `Newlib`.
    pub(crate) fn implies_newlib(&self) -> bool
        ensures { result ≡ spec.implies_newlib (ref_value self.now.vendor)
            self.now.operating_system }
    {
        match (self.vendor, self.operating_system) {
            // written by tools/names/write: the vendors and systems of special strings
            (VendorRef::Known(KnownVendor::Nintendo), OperatingSystem::Horizon) => true,
            (VendorRef::Known(KnownVendor::Espressif), OperatingSystem::Espidf) => true,
            // end of what is written
            _ => false,
        }
    }
}
