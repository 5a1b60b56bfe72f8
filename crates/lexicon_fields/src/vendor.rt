//! The vendors, of which a custom one owns its string or has a static one.
ghost use Rattle.std.specs.Prelude.{◌≡◌, true, false, nat_eq, Some, IfOk, IfErr, IsOk};
ghost use Rattle.std.specs.Cmp;
ghost use Rattle.std.specs.Cmp.{on_per, on_equiv};
ghost use Rattle.std.specs.Cmp.Lexicographic.{pointwise, nat_list_eq_equiv, bytes_decides};
ghost use Rattle.std.specs.Hash as fed;
ghost use Rattle.std.specs.Hash.{on_Alike, same_Alike};
ghost use Rattle.lexicon_fields.specs.Vendor as spec;
ghost use Rattle.lexicon_fields.specs.Vendor.{IsVendorErrorOf};

use crate::known_vendor::KnownVendor;
use crate::vendor_ref::VendorRef;
use std::alloc::{AllocError, Global};
// In Rust: #[cfg(feature = "alloc")], use alloc::{boxed::Box, string::String}.
use std::fmt;
use std::hash::{Hash, Hasher};

/// A vendor other than the known ones, as its string.
///
/// # Examples
///
/// ```
/// use target_lexicon::{CustomVendor, Vendor};
///
/// assert_ne!(rt; Vendor::Custom(CustomVendor::Static("pc")), Vendor::Pc);
/// ```
// In Rust: #[cfg_attr(not(feature = "alloc"), non_exhaustive)].
#[derive(Debug, Drop)]
pub enum CustomVendor {
    /// An owned string.
    // In Rust: #[cfg(feature = "alloc")].
    Owned(Box<String>),
    /// A static string.
    Static(&'static str),
}

impl CustomVendor {
    /// The string.
    ///
    /// # Examples
    ///
    /// ```
    /// assert_eq!(rt; target_lexicon::CustomVendor::Static("acme").as_str(), "acme");
    /// ```
    pub fn as_str(&self) -> &str
        ensures { result.now ≡ spec.custom_string self.now }
    {
        match self {
            // In Rust: #[cfg(feature = "alloc")].
            CustomVendor::Owned(text) => text.as_str(),
            CustomVendor::Static(text) => text,
        }
    }

    /// A copy of the same variant: it owns its string if this one does. `Err` if the allocation for that string fails.
    pub fn clone(&self, alloc: Global) -> Result<Self, AllocError>
        ensures text { IfOk result (λ copy. spec.custom_string copy ≡ spec.custom_string self.now) }
        ensures variant { IfOk result (λ copy. spec.is_owned copy ≡ spec.is_owned self.now) }
        ensures succeeds { spec.is_owned self.now ≡ false → IsOk result }
    {
        match self {
            CustomVendor::Owned(text) => CustomVendor::owned_copy(alloc, text.as_str()),
            CustomVendor::Static(text) => Ok(CustomVendor::Static(text)),
        }
    }

    /// A custom vendor that owns a copy of the string.
    pub(crate) fn owned_copy(alloc: Global, text: &str) -> Result<Self, AllocError>
        ensures text { IfOk result (λ custom. spec.custom_string custom ≡ text.now) }
        ensures owned { IfOk result (λ custom. spec.is_owned custom ≡ true) }
    {
        let copy = String::from_str(alloc, text)?;
        Ok(CustomVendor::Owned(Box::new(alloc, copy)?))
    }
}

impl PartialEq for CustomVendor {
    ghost eq = { λ x y. pointwise nat_eq (spec.custom_string x) (spec.custom_string y) };

    ghost laws = { on_per spec.custom_string (Cmp.partial_equiv_from_equiv nat_list_eq_equiv) };

    fn eq(&self, other: &Self) -> bool {
        self.as_str() == other.as_str()
    }
}

impl Eq for CustomVendor {
    ghost laws = { on_equiv spec.custom_string nat_list_eq_equiv };
}

impl Hash for CustomVendor {
    ghost hash_input = { λ custom. fed.str (spec.custom_string custom) };

    ghost respects_eq = { (on_Alike spec.custom_string (same_Alike fed.str bytes_decides)).fed };

    fn hash<H: Hasher>(&self, state: &mut H) {
        self.as_str().hash(state);
    }
}

/// The vendor of a target.
///
/// # Examples
///
/// ```
/// use target_lexicon::{CustomVendor, Vendor};
///
/// let acme = Vendor::Custom(CustomVendor::Static("acme"));
/// assert_eq!(rt; (Vendor::Apple.as_str(), acme.as_str()), ("apple", "acme"));
/// ```
// In Rust: #[non_exhaustive].
#[derive(Debug, Drop, PartialEq, Eq, Hash)]
pub enum Vendor {
    // written by tools/names/write: the variants of Vendor
    /// A vendor that the string doesn't say, or none.
    Unknown,
    /// AMD.
    Amd,
    /// Apple.
    Apple,
    /// Espressif, of the ESP32.
    Espressif,
    /// No vendor: a target that is tried out.
    Experimental,
    /// Fortanix, of enclaves of Intel SGX.
    Fortanix,
    /// IBM.
    Ibm,
    /// Kyoto Microcomputer, of the system SOLID.
    Kmc,
    /// Nintendo.
    Nintendo,
    /// NVIDIA.
    Nvidia,
    /// Computers that are compatible with IBM's PC.
    Pc,
    /// The unikernel Rumprun.
    Rumprun,
    /// Sun Microsystems, now Oracle.
    Sun,
    /// Microsoft's Universal Windows Platform.
    Uwp,
    /// Wind River Systems.
    Wrs,
    // end of what is written
    /// Any other vendor. Parsing admits a string as one if it begins with a letter from `a` to `z`, has only such
    /// letters, digits, `_` and `.`, and parses as no known vendor and no other field. Code can make a value with any
    /// string.
    Custom(CustomVendor),
}

impl Vendor {
    /// The field of the host, which is `x86_64-unknown-linux-gnu` on every machine.
    // Not in Rust.
    pub fn host() -> Self
        ensures { result ≡ Vendor.Unknown }
    {
        Self::Unknown
    }

    /// The vendor that the string parses as: a known one, or a custom one that owns the string, if it is admitted.
    ///
    /// A string is admitted as a custom vendor if it is not the name of a known vendor, parses as no other field,
    /// begins with a letter from `a` to `z`, and has only such letters, digits, `_` and `.`.
    ///
    /// # Errors
    ///
    /// - [`VendorError::Unrecognized`] for every other string.
    /// - [`VendorError::OutOfMemory`] if the allocation for an admitted string fails.
    pub fn from_str(alloc: Global, s: &str) -> Result<Self, VendorError>
        ensures ok { IfOk result
            (λ vendor. spec.vendor_of s.now ≡ Some (spec.vendor_value vendor)) }
        ensures owned { IfOk result (λ vendor. spec.owns_string vendor ≡ spec.is_admitted s.now) }
        ensures err { IfErr result (IsVendorErrorOf s.now) }
    {
        match VendorRef::from_str(s) {
            Ok(vendor) => match vendor.to_vendor(alloc) {
                Ok(owned) => Ok(owned),
                Err(_) => Err(VendorError::OutOfMemory),
            },
            Err(_) => Err(VendorError::Unrecognized),
        }
    }

    /// The name. That of a custom vendor is its string.
    ///
    /// # Examples
    ///
    /// ```
    /// assert_eq!(rt; target_lexicon::Vendor::Nvidia.as_str(), "nvidia");
    /// ```
    // In Rust: #[inline].
    pub fn as_str(&self) -> &str
        ensures { result.now ≡ spec.vendor_name (spec.vendor_value self.now) }
    {
        match self {
            Vendor::Custom(custom) => custom.as_str(),
            known => known.known_name(),
        }
    }

    /// The name of a known vendor. By itself, rustc makes a table of it, which takes less time than a jump.
    #[inline(never)]
    fn known_name(&self) -> &'static str
        ensures { spec.is_custom (spec.vendor_value self.now) ≡ false
            → result.now ≡ spec.vendor_name (spec.vendor_value self.now) }
    {
        match self.as_vendor_ref() {
            VendorRef::Known(known) => known.name(),
            VendorRef::Custom(_) => KnownVendor::Unknown.name(),
        }
    }

    /// Whether parsing can produce the vendor: it is known, or custom with a string that [`Vendor::Custom`] admits.
    // In Rust: pub(crate).
    pub fn is_plain(&self) -> bool
        ensures { result ≡ spec.is_plain (spec.vendor_value self.now) }
    {
        self.as_vendor_ref().is_plain()
    }

    /// A copy of the same variant: it owns its string if this one does. `Err` if the allocation for that string fails.
    pub fn clone(&self, alloc: Global) -> Result<Self, AllocError>
        ensures value { IfOk result (λ copy. spec.vendor_value copy ≡ spec.vendor_value self.now) }
        ensures variant { IfOk result (λ copy. spec.owns_string copy ≡ spec.owns_string self.now) }
        ensures succeeds { spec.owns_string self.now ≡ false → IsOk result }
    {
        match self {
            Vendor::Custom(custom) => Ok(Vendor::Custom(custom.clone(alloc)?)),
            known => known.as_vendor_ref().to_vendor(alloc),
        }
    }
}

impl fmt::Display for Vendor {
    ghost output = { λ it. Some (spec.vendor_name (spec.vendor_value it)) };

    ghost styled_output = { λ it _. Some (spec.vendor_name (spec.vendor_value it)) };

    fn fmt<W: fmt::Write>(&self, f: &mut fmt::Formatter<W>) -> fmt::Result {
        f.write_str(self.as_str())
    }
}

/// Why a string doesn't parse as a vendor.
// Not in Rust.
#[derive(Clone, Copy, Debug, PartialEq, Eq)]
pub enum VendorError {
    /// The string is neither the name of a known vendor nor admitted as a custom vendor.
    Unrecognized,
    /// The string is admitted, and the allocation for it failed.
    OutOfMemory,
}
