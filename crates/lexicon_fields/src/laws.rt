//! Laws of names, queries, equality and hashing. Each function's contract is a law; a call does nothing.
ghost use Rattle.std.specs.Prelude.{◌≡◌, ◌↔◌, ◌≤◌, ◌++◌, true, ℕ, List, Some, length, Contains, IsTrue};
ghost use Rattle.std.specs.Cmp.Lexicographic.{slice_cmp};
ghost use Rattle.std.specs.List.Sorted.{IsStrictlySortedBy};
ghost use Rattle.std.specs.Ordering.{nat_cmp};
ghost use Rattle.lexicon_fields.specs.Put.{IsPut, Puts};
ghost use Rattle.lexicon_fields.specs.Laws.{HashInjectiveOn, HashInjective, CopiesEqualTheirSources, IsVersionInRange};
ghost use Rattle.lexicon_fields.specs.Laws.{HasVersionInRange, NamesReadBackOn, NamesReadBack, TextsAreNames};
ghost use Rattle.lexicon_fields.specs.Laws.{NamesGrowAtMost, NamesAreShort, max_name_length, ComparesByValue};
ghost use Rattle.lexicon_fields.specs.Laws.{version_cmp};
ghost use Rattle.lexicon_fields.specs.SubArchitecture as spec;
ghost use Rattle.lexicon_fields.specs.Architecture.{architecture_name, architecture_of, sub_architecture_of};
ghost use Rattle.lexicon_fields.specs.Environment.{environment_name, environment_of};
ghost use Rattle.lexicon_fields.specs.OperatingSystem.{operating_system_name, operating_system_of};
ghost use Rattle.lexicon_fields.specs.BinaryFormat.{binary_format_name, binary_format_of};
ghost use Rattle.lexicon_fields.specs.FixedRow.{has_row, row_count, row_texts, HaveSameValues};
ghost use Rattle.lexicon_fields.specs.declared.vendor.CustomVendor.{CustomVendor};
ghost use Rattle.lexicon_fields.specs.declared.vendor.Vendor.{Vendor};
ghost use Rattle.lexicon_fields.specs.Vendor.{custom_string, known_vendor_name, vendor_value, vendor_name, vendor_of};
ghost use Rattle.lexicon_fields.specs.Vendor.{is_plain};
ghost use Rattle.lexicon_fields.specs.declared.vendor_ref.VendorRef.{VendorRef};
ghost use Rattle.lexicon_fields.specs.VendorRef.{ref_value};

use crate::architecture::Architecture;
// written by tools/names/write: the types of families in laws
use crate::architecture::{
    Aarch64Architecture, ArmArchitecture, CleverArchitecture, Mips32Architecture,
    Mips64Architecture, Riscv32Architecture, Riscv64Architecture, X86_32Architecture,
    Z80Architecture,
};
// end of what is written
use crate::binary_format::BinaryFormat;
use crate::deployment_target::DeploymentTarget;
use crate::endianness::Endianness;
use crate::environment::Environment;
use crate::field::Field;
use crate::known_vendor::KnownVendor;
use crate::operating_system::OperatingSystem;
use crate::pointer_width::PointerWidth;
use crate::table::FixedRow;
use crate::vendor::{CustomVendor, Vendor, VendorError};
use crate::vendor_ref::VendorRef;
use std::hash::Hash;

/// Each value parses back from its name, versions included, and no string that parses as a value has a dash. For
/// vendors this holds for plain ones.
pub fn names_read_back()
    ensures architecture { NamesReadBack architecture_name architecture_of }
    // written by tools/names/write: families that read back
    ensures arm { NamesReadBack spec.arm_name (sub_architecture_of spec.as_arm) }
    ensures aarch64 { NamesReadBack spec.aarch64_name (sub_architecture_of spec.as_aarch64) }
    ensures x86_32 { NamesReadBack spec.x86_32_name (sub_architecture_of spec.as_x86_32) }
    ensures mips32 { NamesReadBack spec.mips32_name (sub_architecture_of spec.as_mips32) }
    ensures mips64 { NamesReadBack spec.mips64_name (sub_architecture_of spec.as_mips64) }
    ensures riscv32 { NamesReadBack spec.riscv32_name (sub_architecture_of spec.as_riscv32) }
    ensures riscv64 { NamesReadBack spec.riscv64_name (sub_architecture_of spec.as_riscv64) }
    ensures clever { NamesReadBack spec.clever_name (sub_architecture_of spec.as_clever) }
    ensures z80 { NamesReadBack spec.z80_name (sub_architecture_of spec.as_z80) }
    // end of what is written
    ensures operating_system { NamesReadBackOn HasVersionInRange operating_system_name
        operating_system_of }
    ensures environment { NamesReadBack environment_name environment_of }
    ensures binary_format { NamesReadBack binary_format_name binary_format_of }
    ensures vendor { NamesReadBackOn (λ v. is_plain v ≡ true) vendor_name vendor_of }
{}

/// A string that parses as a vendor, an environment or a binary format is its name. The name of an architecture or a
/// system can be longer than the string, by at most 2 and 4 bytes: `arm64` is `aarch64`, and `ios1` is `ios1.0.0`. So
/// printed triples are at most so much longer than what was parsed.
pub fn names_grow_at_most()
    ensures vendor { TextsAreNames vendor_name vendor_of }
    ensures environment { TextsAreNames environment_name environment_of }
    ensures binary_format { TextsAreNames binary_format_name binary_format_of }
    ensures architecture { NamesGrowAtMost 2 architecture_name architecture_of }
    ensures operating_system { NamesGrowAtMost 4 operating_system_name operating_system_of }
{}

/// No name has more than `max_name_length` bytes, except the string of a custom vendor. So the length of a printed
/// triple doesn't overflow.
pub fn names_are_short()
    ensures architecture { NamesAreShort architecture_name }
    ensures vendor { NamesAreShort known_vendor_name }
    ensures operating_system { (s : OperatingSystem) →
        HasVersionInRange s →
        length (operating_system_name s) ≤ max_name_length }
    ensures environment { NamesAreShort environment_name }
    ensures binary_format { NamesAreShort binary_format_name }
{}

/// A string that is put after another follows it, and one that is put at the start of a buffer is all that is there. So
/// a triple or a refusal can be written into a buffer piece by piece.
pub fn texts_are_put_in_order()
    ensures first { (x old now : List ℕ) (end : ℕ) →
        Puts x old 0 now end →
        IsPut x old now end }
    ensures next { (x y old mid now : List ℕ) (at end last : ℕ) →
        Puts x old at mid end →
        Puts y mid end now last →
        Puts (x ++ y) old at now last }
{}

/// The version of each system that a string parses as is in range. So the laws that ask for such a version apply to
/// every parsed triple.
pub fn read_versions_are_in_range()
    ensures { (text : List ℕ) (s : OperatingSystem) →
        operating_system_of text ≡ Some s →
        HasVersionInRange s }
{}

/// Versions are ordered by major, then minor, then patch.
pub fn versions_are_ordered()
    ensures { (x y : DeploymentTarget) → ⟦<DeploymentTarget as Ord>⟧.cmp x y ≡ version_cmp x y }
{}

/// Two custom vendors are equal if and only if their strings are, owned or static.
pub fn custom_vendors_are_equal_by_text()
    ensures { (x y : CustomVendor) →
        IsTrue (⟦<CustomVendor as PartialEq>⟧.eq x y) ↔ (custom_string x ≡ custom_string y) }
{}

/// Known vendors are equal by variant, custom ones by string, and a custom vendor never equals a known one.
pub fn vendors_are_equal_by_value()
    ensures { (x y : Vendor) →
        IsTrue (⟦<Vendor as PartialEq>⟧.eq x y) ↔ (vendor_value x ≡ vendor_value y) }
{}

/// Borrowed vendors are equal by value, as [`Vendor`]s are.
pub fn vendor_refs_are_equal_by_value()
    ensures { (x y : VendorRef) →
        IsTrue (⟦<VendorRef<'static> as PartialEq>⟧.eq x y) ↔ (ref_value x ≡ ref_value y) }
{}

/// Borrowed vendors feed a hasher by value. What is fed after one can be distinguished from what it feeds.
pub fn vendor_refs_hash_by_value()
    ensures { HashInjectiveOn (λ (v : VendorRef). Unit {0}) ref_value
        ⟦<VendorRef<'static> as Hash>⟧.hash_input }
{}

/// The strings of the rows are the fixed names of all fields and the alias, each once, in the order of their bytes. So
/// [`crate::row_order`] counts rows in this order, and each name has one.
pub fn rows_are_sorted_and_complete()
    ensures sorted { IsStrictlySortedBy (slice_cmp nat_cmp) row_texts }
    ensures count { length row_texts ≡ row_count }
    ensures whole { (text : List ℕ) → IsTrue (has_row text) ↔ Contains row_texts text }
{}

/// Values of each other type are equal if and only if their variants and fields are, the strings of rows by bytes.
pub fn values_are_equal_by_variant_and_fields()
    ensures architecture { ComparesByValue ⟦<Architecture as PartialEq>⟧.eq }
    // written by tools/names/write: families that compare by value
    ensures arm { ComparesByValue ⟦<ArmArchitecture as PartialEq>⟧.eq }
    ensures aarch64 { ComparesByValue ⟦<Aarch64Architecture as PartialEq>⟧.eq }
    ensures x86_32 { ComparesByValue ⟦<X86_32Architecture as PartialEq>⟧.eq }
    ensures mips32 { ComparesByValue ⟦<Mips32Architecture as PartialEq>⟧.eq }
    ensures mips64 { ComparesByValue ⟦<Mips64Architecture as PartialEq>⟧.eq }
    ensures riscv32 { ComparesByValue ⟦<Riscv32Architecture as PartialEq>⟧.eq }
    ensures riscv64 { ComparesByValue ⟦<Riscv64Architecture as PartialEq>⟧.eq }
    ensures clever { ComparesByValue ⟦<CleverArchitecture as PartialEq>⟧.eq }
    ensures z80 { ComparesByValue ⟦<Z80Architecture as PartialEq>⟧.eq }
    // end of what is written
    ensures version { ComparesByValue ⟦<DeploymentTarget as PartialEq>⟧.eq }
    ensures operating_system { ComparesByValue ⟦<OperatingSystem as PartialEq>⟧.eq }
    ensures environment { ComparesByValue ⟦<Environment as PartialEq>⟧.eq }
    ensures binary_format { ComparesByValue ⟦<BinaryFormat as PartialEq>⟧.eq }
    ensures endianness { ComparesByValue ⟦<Endianness as PartialEq>⟧.eq }
    ensures pointer_width { ComparesByValue ⟦<PointerWidth as PartialEq>⟧.eq }
    ensures vendor_error { ComparesByValue ⟦<VendorError as PartialEq>⟧.eq }
    ensures known_vendor { ComparesByValue ⟦<KnownVendor as PartialEq>⟧.eq }
    ensures field { ComparesByValue ⟦<Field as PartialEq>⟧.eq }
    ensures fixed_row { (x y : FixedRow) →
        IsTrue (⟦<FixedRow as PartialEq>⟧.eq x y) ↔ HaveSameValues x y }
{}

/// Two custom vendors feed a hasher equally if and only if their strings are equal.
pub fn custom_vendors_hash_by_text()
    ensures { (x y : CustomVendor) →
        (⟦<CustomVendor as Hash>⟧.hash_input x ≡ ⟦<CustomVendor as Hash>⟧.hash_input y)
        ↔ (custom_string x ≡ custom_string y) }
{}

/// Two values of a type feed a hasher the same if and only if they are equal, and what is fed after a value can be
/// distinguished from what the value feeds. For systems with a version this holds if the version is in range.
pub fn values_hash_by_variant_and_fields()
    ensures architecture { HashInjective ⟦<Architecture as Hash>⟧.hash_input }
    // written by tools/names/write: families that hash by value
    ensures arm { HashInjective ⟦<ArmArchitecture as Hash>⟧.hash_input }
    ensures aarch64 { HashInjective ⟦<Aarch64Architecture as Hash>⟧.hash_input }
    ensures x86_32 { HashInjective ⟦<X86_32Architecture as Hash>⟧.hash_input }
    ensures mips32 { HashInjective ⟦<Mips32Architecture as Hash>⟧.hash_input }
    ensures mips64 { HashInjective ⟦<Mips64Architecture as Hash>⟧.hash_input }
    ensures riscv32 { HashInjective ⟦<Riscv32Architecture as Hash>⟧.hash_input }
    ensures riscv64 { HashInjective ⟦<Riscv64Architecture as Hash>⟧.hash_input }
    ensures clever { HashInjective ⟦<CleverArchitecture as Hash>⟧.hash_input }
    ensures z80 { HashInjective ⟦<Z80Architecture as Hash>⟧.hash_input }
    // end of what is written
    ensures vendor { HashInjectiveOn (λ (v : Vendor). Unit {0}) vendor_value
        ⟦<Vendor as Hash>⟧.hash_input }
    ensures version { HashInjectiveOn IsVersionInRange (λ v. v)
        ⟦<DeploymentTarget as Hash>⟧.hash_input }
    ensures operating_system { HashInjectiveOn HasVersionInRange (λ s. s)
        ⟦<OperatingSystem as Hash>⟧.hash_input }
    ensures environment { HashInjective ⟦<Environment as Hash>⟧.hash_input }
    ensures binary_format { HashInjective ⟦<BinaryFormat as Hash>⟧.hash_input }
    ensures endianness { HashInjective ⟦<Endianness as Hash>⟧.hash_input }
    ensures pointer_width { HashInjective ⟦<PointerWidth as Hash>⟧.hash_input }
    ensures known_vendor { HashInjective ⟦<KnownVendor as Hash>⟧.hash_input }
{}

/// A copy of a value is that value, and copying allocates nothing.
pub fn copies_of_fields_equal_their_sources()
    ensures architecture { CopiesEqualTheirSources ⟦<Architecture as Clone>⟧.is_clone
        ⟦<Architecture as Clone>⟧.is_infallible }
    // written by tools/names/write: families whose copies equal their sources
    ensures arm { CopiesEqualTheirSources ⟦<ArmArchitecture as Clone>⟧.is_clone
        ⟦<ArmArchitecture as Clone>⟧.is_infallible }
    ensures aarch64 { CopiesEqualTheirSources ⟦<Aarch64Architecture as Clone>⟧.is_clone
        ⟦<Aarch64Architecture as Clone>⟧.is_infallible }
    ensures x86_32 { CopiesEqualTheirSources ⟦<X86_32Architecture as Clone>⟧.is_clone
        ⟦<X86_32Architecture as Clone>⟧.is_infallible }
    ensures mips32 { CopiesEqualTheirSources ⟦<Mips32Architecture as Clone>⟧.is_clone
        ⟦<Mips32Architecture as Clone>⟧.is_infallible }
    ensures mips64 { CopiesEqualTheirSources ⟦<Mips64Architecture as Clone>⟧.is_clone
        ⟦<Mips64Architecture as Clone>⟧.is_infallible }
    ensures riscv32 { CopiesEqualTheirSources ⟦<Riscv32Architecture as Clone>⟧.is_clone
        ⟦<Riscv32Architecture as Clone>⟧.is_infallible }
    ensures riscv64 { CopiesEqualTheirSources ⟦<Riscv64Architecture as Clone>⟧.is_clone
        ⟦<Riscv64Architecture as Clone>⟧.is_infallible }
    ensures clever { CopiesEqualTheirSources ⟦<CleverArchitecture as Clone>⟧.is_clone
        ⟦<CleverArchitecture as Clone>⟧.is_infallible }
    ensures z80 { CopiesEqualTheirSources ⟦<Z80Architecture as Clone>⟧.is_clone
        ⟦<Z80Architecture as Clone>⟧.is_infallible }
    // end of what is written
    ensures version { CopiesEqualTheirSources ⟦<DeploymentTarget as Clone>⟧.is_clone
        ⟦<DeploymentTarget as Clone>⟧.is_infallible }
    ensures operating_system { CopiesEqualTheirSources ⟦<OperatingSystem as Clone>⟧.is_clone
        ⟦<OperatingSystem as Clone>⟧.is_infallible }
    ensures environment { CopiesEqualTheirSources ⟦<Environment as Clone>⟧.is_clone
        ⟦<Environment as Clone>⟧.is_infallible }
    ensures binary_format { CopiesEqualTheirSources ⟦<BinaryFormat as Clone>⟧.is_clone
        ⟦<BinaryFormat as Clone>⟧.is_infallible }
    ensures endianness { CopiesEqualTheirSources ⟦<Endianness as Clone>⟧.is_clone
        ⟦<Endianness as Clone>⟧.is_infallible }
    ensures pointer_width { CopiesEqualTheirSources ⟦<PointerWidth as Clone>⟧.is_clone
        ⟦<PointerWidth as Clone>⟧.is_infallible }
    ensures vendor_error { CopiesEqualTheirSources ⟦<VendorError as Clone>⟧.is_clone
        ⟦<VendorError as Clone>⟧.is_infallible }
    ensures known_vendor { CopiesEqualTheirSources ⟦<KnownVendor as Clone>⟧.is_clone
        ⟦<KnownVendor as Clone>⟧.is_infallible }
    ensures field { CopiesEqualTheirSources ⟦<Field as Clone>⟧.is_clone
        ⟦<Field as Clone>⟧.is_infallible }
    ensures vendor_ref { CopiesEqualTheirSources ⟦<VendorRef<'static> as Clone>⟧.is_clone
        ⟦<VendorRef<'static> as Clone>⟧.is_infallible }
    ensures fixed_row { CopiesEqualTheirSources ⟦<FixedRow as Clone>⟧.is_clone
        ⟦<FixedRow as Clone>⟧.is_infallible }
{}
