//! A string parsed by the macro. The clauses are those of `Triple::from_str`, so the macro passes the string on
//! unchanged.
ghost use Rattle.std.specs.Prelude.{◌≡◌, true, IfOk, IfErr};
ghost use Rattle.lexicon_fields.specs.Vendor.{OwnsCustomString, vendor_value, is_plain};
ghost use Rattle.target_lexicon.specs.Parsing.{ParsesAs, IsErrorOf};
ghost use Rattle.target_lexicon.specs.Values.{values_of};

use std::alloc::Global;
use target_lexicon::{ParseError, Triple, triple};

/// The triple that a string parses as, or why it is refused.
pub fn triple_by_macro(alloc: Global, text: &str) -> Result<Triple, ParseError>
    ensures ok { IfOk result (λ triple. ParsesAs text.now (values_of triple)) }
    ensures owned { IfOk result (λ triple. OwnsCustomString triple.vendor) }
    ensures plain { IfOk result (λ triple. is_plain (vendor_value triple.vendor) ≡ true) }
    ensures err { IfErr result (λ error. IsErrorOf text.now error) }
{
    triple!(alloc, text)
}
