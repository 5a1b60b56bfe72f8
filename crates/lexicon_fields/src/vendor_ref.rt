//! The vendors, of which a custom one borrows its string.
ghost use Rattle.std.specs.Prelude.{◌≡◌, None, Some, IfOk, OnErr};
ghost use Rattle.lexicon_fields.specs.Vendor as spec;
ghost use Rattle.lexicon_fields.specs.Vendor.{IsCustom, OwnsCustomString};
ghost use Rattle.lexicon_fields.specs.VendorRef.{ref_value};

use crate::known_vendor::KnownVendor;
use crate::operating_system::OperatingSystem;
use crate::steps::Steps;
use crate::table::fixed_row;
use crate::vendor::{CustomVendor, Vendor};
use std::alloc::{AllocError, Global};
use std::fmt;

/// The vendor of a target, of which a custom one borrows its string. It is copied freely and never allocates.
///
/// # Examples
///
/// ```
/// use target_lexicon::VendorRef;
///
/// assert_eq!(rt; VendorRef::from_str("acme"), Ok(VendorRef::Custom("acme")));
/// ```
// In Rust instead: #[derive(Clone, Copy, Debug, PartialEq, Eq)]
#[derive(Clone, Copy, Debug, PartialEq, Eq, Hash)]
pub enum VendorRef<'a> {
    /// A vendor that has a fixed name.
    Known(KnownVendor),
    /// Any other vendor, as its string: see [`Vendor::Custom`].
    Custom(&'a str),
}

impl<'a> VendorRef<'a> {
    /// The vendor that the string parses as: a known one, or a custom one that borrows the string, if
    /// [`Vendor::Custom`] admits it.
    ///
    /// # Errors
    ///
    /// `()` for every other string.
    // In Rust: pub(crate), from_text.
    #[inline(always)]
    pub fn from_str(text: &'a str) -> Result<VendorRef<'a>, ()>
        ensures ok { IfOk result
            (λ vendor. spec.vendor_of text.entry.now ≡ Some (ref_value vendor)) }
        ensures err { OnErr result (spec.vendor_of text.entry.now ≡ None) }
    {
        match fixed_row(text, &mut Steps::new()) {
            Some(row) => match row.vendor {
                Some(known) => Ok(VendorRef::Known(known)),
                None => Err(()),
            },
            None => {
                if has_vendor_form(text) && OperatingSystem::parse_darwin_like(text).is_none() {
                    Ok(VendorRef::Custom(text))
                } else {
                    Err(())
                }
            }
        }
    }

    /// The name. That of a custom vendor is its string.
    ///
    /// # Examples
    ///
    /// ```
    /// assert_eq!(rt; target_lexicon::VendorRef::Custom("acme").as_str(), "acme");
    /// ```
    #[must_use]
    pub const fn as_str(&self) -> &'a str
        ensures { result.now ≡ spec.vendor_name (ref_value self.now) }
    {
        match *self {
            VendorRef::Known(known) => known.name(),
            VendorRef::Custom(text) => text,
        }
    }

    /// Whether parsing can produce the vendor: it is known, or custom with a string that [`Vendor::Custom`] admits.
    ///
    /// # Examples
    ///
    /// ```
    /// use target_lexicon::VendorRef;
    ///
    /// assert!(rt; VendorRef::Custom("acme").is_plain());
    /// assert!(rt; !VendorRef::Custom("linux").is_plain());
    /// ```
    #[must_use]
    pub fn is_plain(&self) -> bool
        ensures { result ≡ spec.is_plain (ref_value self.now) }
    {
        match *self {
            VendorRef::Known(_) => true,
            VendorRef::Custom(text) => match VendorRef::from_str(text) {
                Ok(VendorRef::Custom(_)) => true,
                Ok(VendorRef::Known(_)) => false,
                Err(_) => false,
            },
        }
    }

    /// Whether the vendor is a custom one.
    ///
    /// # Examples
    ///
    /// ```
    /// use target_lexicon::VendorRef;
    ///
    /// assert!(rt; VendorRef::Custom("acme").is_custom());
    /// assert!(rt; !VendorRef::from_str("apple").unwrap().is_custom());
    /// ```
    #[must_use]
    pub const fn is_custom(&self) -> bool
        ensures { result ≡ spec.is_custom (ref_value self.now) }
    {
        matches!(self, VendorRef::Custom(_))
    }

    /// The same vendor, of which a custom one owns a copy of its string. `Err` if the allocation for that string fails.
    pub fn to_vendor(&self, alloc: Global) -> Result<Vendor, AllocError>
        ensures value { IfOk result (λ vendor. spec.vendor_value vendor ≡ ref_value self.now) }
        ensures owned { IfOk result OwnsCustomString }
        ensures memory { OnErr result (IsCustom (ref_value self.now)) }
    {
        match *self {
            VendorRef::Known(known) => Ok(known.to_vendor()),
            VendorRef::Custom(text) => Ok(Vendor::Custom(CustomVendor::owned_copy(alloc, text)?)),
        }
    }
}

impl Vendor {
    /// The same vendor, borrowed.
    // In Rust: pub(crate), #[inline].
    pub fn as_vendor_ref(&self) -> VendorRef<'_>
        ensures { ref_value result ≡ spec.vendor_value self.now }
    {
        match self {
            // written by tools/names/write: each Vendor as a VendorRef
            Vendor::Unknown => VendorRef::Known(KnownVendor::Unknown),
            Vendor::Amd => VendorRef::Known(KnownVendor::Amd),
            Vendor::Apple => VendorRef::Known(KnownVendor::Apple),
            Vendor::Espressif => VendorRef::Known(KnownVendor::Espressif),
            Vendor::Experimental => VendorRef::Known(KnownVendor::Experimental),
            Vendor::Fortanix => VendorRef::Known(KnownVendor::Fortanix),
            Vendor::Ibm => VendorRef::Known(KnownVendor::Ibm),
            Vendor::Kmc => VendorRef::Known(KnownVendor::Kmc),
            Vendor::Nintendo => VendorRef::Known(KnownVendor::Nintendo),
            Vendor::Nvidia => VendorRef::Known(KnownVendor::Nvidia),
            Vendor::Pc => VendorRef::Known(KnownVendor::Pc),
            Vendor::Rumprun => VendorRef::Known(KnownVendor::Rumprun),
            Vendor::Sun => VendorRef::Known(KnownVendor::Sun),
            Vendor::Uwp => VendorRef::Known(KnownVendor::Uwp),
            Vendor::Wrs => VendorRef::Known(KnownVendor::Wrs),
            // end of what is written
            Vendor::Custom(custom) => VendorRef::Custom(custom.as_str()),
        }
    }
}

impl fmt::Display for VendorRef<'_> {
    ghost output = { λ it. Some (spec.vendor_name (ref_value it)) };

    ghost styled_output = { λ it _. Some (spec.vendor_name (ref_value it)) };

    fn fmt<W: fmt::Write>(&self, f: &mut fmt::Formatter<W>) -> fmt::Result {
        f.write_str(self.as_str())
    }
}

/// Whether the string begins with a lower-case letter and has only characters of a vendor.
fn has_vendor_form(s: &str) -> bool
    ensures { result ≡ spec.has_vendor_form s.now }
{
    match s.as_bytes().split_first() {
        None => false,
        Some((first, others)) => {
            first.is_ascii_lowercase() && others.iter().all(|byte| is_vendor_character(*byte))
        }
    }
}

fn is_vendor_character(byte: u8) -> bool
    ensures { result ≡ spec.is_vendor_character byte }
{
    byte.is_ascii_lowercase() || matches!(byte, b'0'..=b'9' | b'_' | b'.')
}
