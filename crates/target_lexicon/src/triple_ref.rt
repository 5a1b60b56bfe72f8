//! The type [`TripleRef`].
ghost use Rattle.std.specs.Prelude.{◌≡◌, IfOk, OnErr};
ghost use Rattle.lexicon_fields.specs.Vendor.{IsCustom, OwnsCustomString};

use crate::triple::Triple;
use lexicon_fields::{
    Architecture, BinaryFormat, Environment, KnownVendor, OperatingSystem, VendorRef,
};
use std::alloc::{AllocError, Global};

/// A target triple whose custom vendor, if it has one, borrows its string. It is copied freely, and only the calls that
/// make an owned value need an allocator. The fields are those of [`Triple`].
///
/// # Examples
///
/// ```
/// use target_lexicon::{OperatingSystem, TripleRef, VendorRef};
///
/// let triple = TripleRef::from_str("x86_64-acme-linux").unwrap();
/// assert_eq!(rt; triple.vendor, VendorRef::Custom("acme"));
/// assert_eq!(rt; triple.operating_system, OperatingSystem::Linux);
/// ```
#[derive(Clone, Copy, Debug, PartialEq, Eq, Hash)]
pub struct TripleRef<'a> {
    /// The instruction set, with its sub-architecture if it has one.
    pub architecture: Architecture,
    /// The maker of the platform, or a name for a variant of it.
    pub vendor: VendorRef<'a>,
    /// The operating system. `None_` is a target without one.
    pub operating_system: OperatingSystem,
    /// The ABI or C library on the system. `Unknown` on most systems that have only one.
    pub environment: Environment,
    /// The format of object files. The other fields mostly determine it.
    pub binary_format: BinaryFormat,
}

impl<'a> TripleRef<'a> {
    ghost use Rattle.target_lexicon.specs.Values.{unknown_values, values_of};
    ghost use Rattle.target_lexicon.specs.ValuesRef.{values_of_ref};

    /// The triple whose five fields are `Unknown`.
    ///
    /// # Examples
    ///
    /// ```
    /// use target_lexicon::TripleRef;
    ///
    /// assert_eq!(rt; TripleRef::from_str("unknown"), Ok(TripleRef::unknown()));
    /// ```
    #[must_use]
    pub const fn unknown() -> TripleRef<'a>
        ensures { values_of_ref result ≡ unknown_values }
    {
        TripleRef {
            architecture: Architecture::Unknown,
            vendor: VendorRef::Known(KnownVendor::Unknown),
            operating_system: OperatingSystem::Unknown,
            environment: Environment::Unknown,
            binary_format: BinaryFormat::Unknown,
        }
    }

    /// The same triple, of which a custom vendor owns a copy of its string. `Err` if the allocation for that string
    /// fails.
    pub fn to_triple(&self, alloc: Global) -> Result<Triple, AllocError>
        ensures values { IfOk result (λ triple. values_of triple ≡ values_of_ref self.now) }
        ensures owned { IfOk result (λ triple. OwnsCustomString triple.vendor) }
        ensures memory { OnErr result (IsCustom (values_of_ref self.now).vendor) }
    {
        Ok(Triple {
            architecture: self.architecture,
            vendor: self.vendor.to_vendor(alloc)?,
            operating_system: self.operating_system,
            environment: self.environment,
            binary_format: self.binary_format,
        })
    }
}

impl Triple {
    ghost use Rattle.target_lexicon.specs.Values.{values_of};
    ghost use Rattle.target_lexicon.specs.ValuesRef.{values_of_ref};

    /// The same triple, borrowed.
    // In Rust: pub(crate), #[inline].
    pub fn as_triple_ref(&self) -> TripleRef<'_>
        ensures { values_of_ref result ≡ values_of self.now }
    {
        TripleRef {
            architecture: self.architecture,
            vendor: self.vendor.as_vendor_ref(),
            operating_system: self.operating_system,
            environment: self.environment,
            binary_format: self.binary_format,
        }
    }
}
