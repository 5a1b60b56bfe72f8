//! The round trip of a triple as a call: printed, and parsed again.
ghost use Rattle.std.specs.Prelude.{◌≡◌, ◌↔◌, None, true, false, IfOk, IfErr, IfSome};
ghost use Rattle.lexicon_fields.specs.Vendor.{is_plain, vendor_value};
ghost use Rattle.target_lexicon.specs.Exceptions.{exception};
ghost use Rattle.target_lexicon.specs.Laws.{ComesBack};
ghost use Rattle.target_lexicon.specs.NormalStep.{normal_step};
ghost use Rattle.target_lexicon.specs.Printing.{string_of};
ghost use Rattle.target_lexicon.specs.QueryLaws.{HaveSameAnswers};
ghost use Rattle.target_lexicon.specs.Parsing.{ParsesAs, IsRefusalOrOutOfMemory};
ghost use Rattle.target_lexicon.specs.Refusal.{refusal_of};
ghost use Rattle.target_lexicon.specs.Values.{values_of};

use crate::laws::{round_trips_are_known, versions_are_in_range};
use crate::parse_error::ParseError;
use crate::triple::Triple;
use std::alloc::Global;

/// Prints the triple and parses the string: one round trip, by the calls themselves. If the vendor is plain, this gives
/// the normal step, as [`Triple::normal`] does without a string, which keeps the four queries and comes back. It gives
/// the triple itself if and only if that has no exception.
///
/// # Errors
///
/// The refusal of the printed string, but only if the vendor isn't plain, or `OutOfMemory`.
pub fn round(alloc: Global, triple: &Triple) -> Result<Triple, ParseError>
    ensures read { IfOk result (λ it. ParsesAs (string_of (values_of triple.now)) (values_of it)) }
    ensures step { is_plain (vendor_value triple.now.vendor) ≡ true →
        IfOk result (λ it. values_of it ≡ normal_step (values_of triple.now)) }
    ensures queries { is_plain (vendor_value triple.now.vendor) ≡ true →
        IfOk result (λ it. HaveSameAnswers (values_of it) (values_of triple.now)) }
    ensures back { is_plain (vendor_value triple.now.vendor) ≡ true →
        IfOk result (λ it. ComesBack (values_of it)) }
    ensures fixed { IfOk result (λ it. (values_of it ≡ values_of triple.now)
        ↔ (exception (values_of triple.now) ≡ None)) }
    ensures err { IfErr result
        (λ error. IsRefusalOrOutOfMemory (string_of (values_of triple.now)) error) }
    ensures refused { IfErr result (λ error. IfSome (refusal_of error)
        (λ _. is_plain (vendor_value triple.now.vendor) ≡ false)) }
{
    round_trips_are_known();
    versions_are_in_range(triple.operating_system);
    let text = triple.to_text(alloc)?;
    Triple::from_str(alloc, &text)
}
