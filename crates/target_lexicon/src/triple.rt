//! The type [`Triple`].
ghost use Rattle.std.specs.Prelude.{◌≡◌, IfOk, IsOk, false};
ghost use Rattle.lexicon_fields.specs.Vendor.{owns_string};

use lexicon_fields::{Architecture, BinaryFormat, Environment, OperatingSystem, Vendor};
use std::alloc::{AllocError, Global};

/// A target triple, such as `x86_64-unknown-linux-gnu`. It has five fields, of which its printed string shows some.
///
/// # Examples
///
/// ```
/// use target_lexicon::{Architecture, OperatingSystem, PointerWidth, Triple, Vendor};
///
/// let mut triple = Triple::unknown();
/// triple.architecture = Architecture::X86_64;
/// triple.vendor = Vendor::Pc;
/// triple.operating_system = OperatingSystem::Windows;
/// assert_eq!(rt; triple.pointer_width(), Ok(PointerWidth::U64));
/// ```
#[derive(Debug, PartialEq, Eq, Hash, Drop)]
pub struct Triple {
    /// The instruction set, with its sub-architecture if it has one.
    pub architecture: Architecture,
    /// The maker of the platform, or a name for a variant of it.
    pub vendor: Vendor,
    /// The operating system. `None_` is a target without one.
    pub operating_system: OperatingSystem,
    /// The ABI or C library on the system. `Unknown` on most systems that have only one.
    pub environment: Environment,
    /// The format of object files. The other fields mostly determine it.
    pub binary_format: BinaryFormat,
}

impl Triple {
    ghost use Rattle.target_lexicon.specs.Values.{values_of, unknown_values};

    /// The triple whose five fields are `Unknown`.
    ///
    /// # Examples
    ///
    /// ```
    /// use target_lexicon::{Triple, Vendor};
    ///
    /// assert_eq!(rt; Triple::unknown().vendor, Vendor::Unknown);
    /// ```
    pub const fn unknown() -> Self
        ensures { values_of result ≡ unknown_values }
    {
        Triple {
            architecture: Architecture::Unknown,
            vendor: Vendor::Unknown,
            operating_system: OperatingSystem::Unknown,
            environment: Environment::Unknown,
            binary_format: BinaryFormat::Unknown,
        }
    }

    /// A copy. Its vendor owns its string if this one's does. `Err` if the allocation for that string fails.
    pub fn clone(&self, alloc: Global) -> Result<Self, AllocError>
        ensures values { IfOk result (λ copy. values_of copy ≡ values_of self.now) }
        ensures variant { IfOk result (λ copy.
            owns_string copy.vendor ≡ owns_string self.now.vendor) }
        ensures succeeds { owns_string self.now.vendor ≡ false → IsOk result }
    {
        Ok(Triple {
            architecture: self.architecture,
            vendor: self.vendor.clone(alloc)?,
            operating_system: self.operating_system,
            environment: self.environment,
            binary_format: self.binary_format,
        })
    }
}
