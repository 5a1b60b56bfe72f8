//! A build cache: a key for each target.
ghost use Rattle.std.specs.Prelude.{◌≡◌, true};
ghost use Rattle.lexicon_fields.specs.Vendor.{is_plain, vendor_value};
ghost use Rattle.target_lexicon.specs.FixedPoints.{canonical_values};
ghost use Rattle.target_lexicon.specs.Laws.{ComesBack};
ghost use Rattle.target_lexicon.specs.Values.{values_of};

use target_lexicon::Triple;

/// The key of a target: its canonical triple.
#[derive(PartialEq, Eq, Hash, Drop)]
pub struct CacheKey {
    pub triple: Triple,
}

impl CacheKey {
    /// The key of a triple: its canonical form. The vendor of the triple must be plain, and that of every parsed
    /// triple is.
    pub fn new(triple: Triple) -> Self
        requires { is_plain (vendor_value triple.vendor) ≡ true }
        ensures settled { values_of result.triple ≡ canonical_values (values_of triple) }
        ensures back { ComesBack (values_of result.triple) }
        ensures stays { ComesBack (values_of triple) → values_of result.triple ≡ values_of triple }
    {
        CacheKey {
            triple: triple.settle(),
        }
    }
}
