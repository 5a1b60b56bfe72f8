//! Parsing: the triple of a string, or why it is refused, and the part that each field takes.
//! Functions are inlined if they return a wide value, so that a caller that drops the sources doesn't compute them.
ghost use Rattle.std.specs.Prelude.{◌≡◌, ◌+◌, ◌∷◌, length, true, IfOk, IfErr, IfSome};
ghost use Rattle.lexicon_fields.specs.Vendor.{OwnsCustomString, vendor_value, is_plain};
ghost use Rattle.lexicon_fields.specs.VendorRef.{ref_value};
ghost use Rattle.target_lexicon.specs.Explanation.{AreInString, AreSourcesOf, IsInString, IsRefusedAfter, IsRefusedAt};
ghost use Rattle.target_lexicon.specs.Explanation.{part_value, sources_of};
ghost use Rattle.target_lexicon.specs.Parsing.{ParsesAs, IsErrorOf, IsRefusedAs, parts_after, parts_of};
ghost use Rattle.target_lexicon.specs.Values.{values_of};
ghost use Rattle.target_lexicon.specs.ValuesRef.{refusal_value, values_of_ref};

use crate::explanation::{Explanation, Source, Sources, TextPart};
use crate::parse_error::ParseError;
use crate::reading::Reading;
use crate::refusal::Refusal;
use crate::triple::Triple;
use crate::triple_ref::TripleRef;
// In Rust: use crate::search::first_dash.
use std::alloc::Global;

/// The first part of a string, and what follows its dash, if it has one.
#[inline(always)]
pub fn first_part(text: &str) -> (&str, Option<&str>)
    ensures parts { parts_of text.now ≡ result.0.now ∷ parts_after result.1 }
    ensures size { IfSome result.1
        (λ rest. length text.now ≡ length result.0.now + 1 + length rest.now) }
{
    // In Rust instead: match first_dash(text.as_bytes()) {
    match text.as_bytes().iter().position(|&byte| byte == b'-') {
        Some(at) => (&text[..at], Some(&text[at + 1..])),
        None => (text, None),
    }
}

/// The triple that a string parses as, and where in the string each of its fields comes from; or why the string is
/// refused, where, and which fields the parts before the refused one filled. Nothing is allocated.
///
/// A part is of the first field that it parses as, of those after the field of the part before it. So `nuttx` in
/// `armv7a-nuttx-eabi` is the vendor, since it is the name of no field. The whole of a special string gives all five
/// fields; its parts have none of their own.
#[inline(always)]
pub fn explain(text: &str) -> Explanation<'_>
    ensures triple { IfOk result.triple (λ it. ParsesAs text.entry.now (values_of_ref it)) }
    ensures sources { IfOk result.triple
        (λ _. AreSourcesOf text.entry.now (sources_of result.sources)) }
    ensures error { IfErr result.triple
        (λ it. IsRefusedAs text.entry.now (refusal_value it)) }
    ensures refused { IfErr result.triple
        (λ it. IsRefusedAfter text.entry.now (refusal_value it)
        (sources_of result.sources) (part_value it.part)) }
    ensures ranges { AreInString text.entry.now (sources_of result.sources) }
    ensures range { IfErr result.triple
        (λ it. IsInString text.entry.now (part_value it.part)) }
{
    if let Some(triple) = TripleRef::from_special_string(text) {
        let whole = Source::Part(TextPart { text, start: 0 });
        return Explanation {
            triple: Ok(triple),
            sources: Sources {
                architecture: whole,
                vendor: whole,
                operating_system: whole,
                environment: whole,
                binary_format: whole,
            },
        };
    }
    let mut reading = Reading::start();
    let mut rest = Some(text);
    while let Some(left) = rest {
        let (name, others) = first_part(left);
        let part = TextPart {
            text: name,
            start: text.len() - left.len(),
        };
        if let Err(refusal) = reading.take(part) {
            return Explanation {
                triple: Err(refusal),
                sources: reading.sources,
            };
        }
        rest = others;
    }
    let (triple, sources) = reading.finish();
    Explanation {
        triple: Ok(triple),
        sources,
    }
}

impl<'a> TripleRef<'a> {
    /// The triple that a string parses as, as `Triple::from_str` says. A custom vendor and a refused part borrow from
    /// the string, so nothing is allocated. `explain` answers this too, and where each field comes from.
    ///
    /// # Errors
    ///
    /// Why the string is refused, and the refused part.
    ///
    /// # Examples
    ///
    /// ```
    /// use target_lexicon::{Field, TripleRef};
    ///
    /// let refusal = TripleRef::from_str("foo-linux").unwrap_err();
    /// assert_eq!(rt; (refusal.expected, refusal.part.text), (Some(Field::Architecture), "foo"));
    /// ```
    // In Rust: #[inline].
    pub fn from_str(text: &'a str) -> Result<TripleRef<'a>, Refusal<'a>>
        ensures ok { IfOk result (λ triple. ParsesAs text.entry.now (values_of_ref triple)) }
        ensures plain { IfOk result (λ triple. is_plain (ref_value triple.vendor) ≡ true) }
        ensures err { IfErr result (λ it. IsRefusedAs text.entry.now (refusal_value it)) }
        ensures refused { IfErr result
            (λ it. IsRefusedAt text.entry.now (refusal_value it) (part_value it.part)) }
        ensures range { IfErr result (λ it. IsInString text.entry.now (part_value it.part)) }
    {
        explain(text).triple
    }
}

impl Triple {
    /// The triple that a string parses as, or why it is refused. Most of `rustc`'s targets parse.
    ///
    /// The strings `armv6k-nintendo-3ds` and `riscv32imc-esp-espidf` have a triple of their own. Any other
    /// string is cut at its dashes. The first part is the architecture. Each other part is taken by the
    /// first field that it parses as, of those after the last one taken: vendor, operating system,
    /// environment, binary format. A field without a part is `Unknown`, and a missing binary format is
    /// the one that the other fields imply.
    ///
    /// The first part that no field takes is refused, as the architecture or as the field after the
    /// last one taken; after the binary format it is an `UnrecognizedField`. `OutOfMemory` says that
    /// allocating a custom vendor or the refused part failed; nothing else is allocated.
    #[inline(always)]
    pub fn from_str(alloc: Global, text: &str) -> Result<Triple, ParseError>
        ensures ok { IfOk result (λ triple. ParsesAs text.now (values_of triple)) }
        ensures owned { IfOk result (λ triple. OwnsCustomString triple.vendor) }
        ensures plain { IfOk result (λ triple. is_plain (vendor_value triple.vendor) ≡ true) }
        ensures err { IfErr result (λ error. IsErrorOf text.now error) }
    {
        match TripleRef::from_str(text) {
            Ok(triple) => Ok(triple.to_triple(alloc)?),
            Err(refusal) => Err(refusal.to_error(alloc)?),
        }
    }
}
