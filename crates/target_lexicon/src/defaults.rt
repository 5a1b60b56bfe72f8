//! Triples with a default.
ghost use Rattle.std.specs.Prelude.{◌≡◌, IfOk, IsOk, false};
ghost use Rattle.lexicon_fields.specs.Vendor.{owns_string};
ghost use Rattle.target_lexicon.specs.Values.{values_of};

use crate::triple::Triple;
use std::alloc::{AllocError, Global};

/// A triple whose default is the host.
///
/// # Examples
///
/// ```
/// use target_lexicon::{DefaultToHost, Triple};
///
/// assert_eq!(rt; DefaultToHost::default().0, Triple::host());
/// ```
#[derive(Debug, PartialEq, Eq, Hash, Drop)]
pub struct DefaultToHost(pub Triple);

impl Default for DefaultToHost {
    ghost use Rattle.target_lexicon.specs.Values.{host_values};

    ghost is_default = { λ it. values_of it.0 ≡ host_values };

    fn default() -> Self {
        DefaultToHost(Triple::host())
    }
}

impl DefaultToHost {
    /// A copy. Its vendor owns its string if this one's does. `Err` if the allocation for that string fails.
    pub fn clone(&self, alloc: Global) -> Result<Self, AllocError>
        ensures values { IfOk result (λ copy. values_of copy.0 ≡ values_of self.now.0) }
        ensures variant { IfOk result
            (λ copy. owns_string copy.0.vendor ≡ owns_string self.now.0.vendor) }
        ensures succeeds { owns_string self.now.0.vendor ≡ false → IsOk result }
    {
        Ok(DefaultToHost(self.0.clone(alloc)?))
    }
}

/// A triple whose default is `unknown-unknown-unknown`.
///
/// # Examples
///
/// ```
/// use target_lexicon::{DefaultToUnknown, Triple};
///
/// assert_eq!(rt; DefaultToUnknown::default().0, Triple::unknown());
/// ```
#[derive(Debug, PartialEq, Eq, Hash, Drop)]
pub struct DefaultToUnknown(pub Triple);

impl Default for DefaultToUnknown {
    ghost use Rattle.target_lexicon.specs.Values.{unknown_values};

    ghost is_default = { λ it. values_of it.0 ≡ unknown_values };

    fn default() -> Self {
        DefaultToUnknown(Triple::unknown())
    }
}

impl DefaultToUnknown {
    /// A copy. Its vendor owns its string if this one's does. `Err` if the allocation for that string fails.
    pub fn clone(&self, alloc: Global) -> Result<Self, AllocError>
        ensures values { IfOk result (λ copy. values_of copy.0 ≡ values_of self.now.0) }
        ensures variant { IfOk result
            (λ copy. owns_string copy.0.vendor ≡ owns_string self.now.0.vendor) }
        ensures succeeds { owns_string self.now.0.vendor ≡ false → IsOk result }
    {
        Ok(DefaultToUnknown(self.0.clone(alloc)?))
    }
}
