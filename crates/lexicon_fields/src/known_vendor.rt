//! The known vendors.
ghost use Rattle.std.specs.Prelude.{◌≡◌};
ghost use Rattle.lexicon_fields.specs.Vendor.{vendor_value, Known, known_vendor_name};

use crate::vendor::Vendor;

/// A vendor that has a fixed name.
///
/// # Examples
///
/// ```
/// use target_lexicon::{KnownVendor, VendorRef};
///
/// assert_eq!(rt; VendorRef::from_str("apple"), Ok(VendorRef::Known(KnownVendor::Apple)));
/// ```
// In Rust: #[non_exhaustive].
#[derive(Clone, Copy, Debug, PartialEq, Eq, Hash)]
pub enum KnownVendor {
    // written by tools/names/write: the variants of KnownVendor
    /// A vendor that the string doesn't say, or none.
    Unknown,
    /// AMD.
    Amd,
    /// Apple.
    Apple,
    /// Espressif, of the ESP32.
    Espressif,
    /// No vendor: a target that is tried out.
    Experimental,
    /// Fortanix, of enclaves of Intel SGX.
    Fortanix,
    /// IBM.
    Ibm,
    /// Kyoto Microcomputer, of the system SOLID.
    Kmc,
    /// Nintendo.
    Nintendo,
    /// NVIDIA.
    Nvidia,
    /// Computers that are compatible with IBM's PC.
    Pc,
    /// The unikernel Rumprun.
    Rumprun,
    /// Sun Microsystems, now Oracle.
    Sun,
    /// Microsoft's Universal Windows Platform.
    Uwp,
    /// Wind River Systems.
    Wrs,
    // end of what is written
}

impl KnownVendor {
    /// The vendor of the same name.
    ///
    /// # Examples
    ///
    /// ```
    /// use target_lexicon::{KnownVendor, Vendor};
    ///
    /// assert_eq!(rt; KnownVendor::Pc.to_vendor(), Vendor::Pc);
    /// ```
    #[must_use]
    pub const fn to_vendor(self) -> Vendor
        ensures { vendor_value result ≡ Known self }
    {
        match self {
            // written by tools/names/write: each KnownVendor as a Vendor
            KnownVendor::Unknown => Vendor::Unknown,
            KnownVendor::Amd => Vendor::Amd,
            KnownVendor::Apple => Vendor::Apple,
            KnownVendor::Espressif => Vendor::Espressif,
            KnownVendor::Experimental => Vendor::Experimental,
            KnownVendor::Fortanix => Vendor::Fortanix,
            KnownVendor::Ibm => Vendor::Ibm,
            KnownVendor::Kmc => Vendor::Kmc,
            KnownVendor::Nintendo => Vendor::Nintendo,
            KnownVendor::Nvidia => Vendor::Nvidia,
            KnownVendor::Pc => Vendor::Pc,
            KnownVendor::Rumprun => Vendor::Rumprun,
            KnownVendor::Sun => Vendor::Sun,
            KnownVendor::Uwp => Vendor::Uwp,
            KnownVendor::Wrs => Vendor::Wrs,
            // end of what is written
        }
    }

    /// The name.
    ///
    /// # Examples
    ///
    /// ```
    /// assert_eq!(rt; target_lexicon::KnownVendor::Pc.name(), "pc");
    /// ```
    #[must_use]
    pub const fn name(self) -> &'static str
        ensures { result.now ≡ known_vendor_name self }
    {
        match self {
            // written by tools/names/write: the names of KnownVendor
            KnownVendor::Unknown => "unknown",
            KnownVendor::Amd => "amd",
            KnownVendor::Apple => "apple",
            KnownVendor::Espressif => "espressif",
            KnownVendor::Experimental => "experimental",
            KnownVendor::Fortanix => "fortanix",
            KnownVendor::Ibm => "ibm",
            KnownVendor::Kmc => "kmc",
            KnownVendor::Nintendo => "nintendo",
            KnownVendor::Nvidia => "nvidia",
            KnownVendor::Pc => "pc",
            KnownVendor::Rumprun => "rumprun",
            KnownVendor::Sun => "sun",
            KnownVendor::Uwp => "uwp",
            KnownVendor::Wrs => "wrs",
            // end of what is written
        }
    }
}
