//! Laws of the definitions. Each function's contract is a law; a call does nothing.
ghost use Rattle.std.specs.Prelude.{◌≡◌, ◌≢◌, ◌↔◌, ℕ, suc, List, All, take, IsTrue};
ghost use Rattle.target_lexicon.specs.GreedyReading.{ResultsAreComputed};
ghost use Rattle.target_lexicon.specs.Laws.{ComesBack, HasOneLeastPlacement, EveryStringHasOneOutcome};
ghost use Rattle.target_lexicon.specs.Laws.{ReadingIsComputed, ReadVendorsArePlain, EqualTextsEqualTriples};
ghost use Rattle.lexicon_fields.specs.Laws.{HashInjectiveOn, HashInjective, ComparesByValue, CopiesEqualTheirSources};
ghost use Rattle.lexicon_fields.specs.Laws.{HasVersionInRange};
ghost use Rattle.target_lexicon.specs.FixedPoints.{ParsedTriplesArePlain, FixedExactlyOutsideExceptions};
ghost use Rattle.target_lexicon.specs.FixedPoints.{RoundIsNormalStep, OneStepSettles, CanonicalStringsAreKeys};
ghost use Rattle.target_lexicon.specs.FixedPoints.{RoundTripsAreKnown, PrintedStringsGrowAtMost};
ghost use Rattle.target_lexicon.specs.FixedPoints.{CanonicalStringsGrowAtMost, RefusedPartsDoNotGrow};
ghost use Rattle.target_lexicon.specs.ExceptionFacts.{ExceptionsAreFactsOfFields};
ghost use Rattle.target_lexicon.specs.Json.{ListParsesAs, list_json_of, json_error_value, list_error_value};
ghost use Rattle.target_lexicon.specs.Parsing.{HasPlacement};
ghost use Rattle.target_lexicon.specs.Queries.{data_model};
ghost use Rattle.target_lexicon.specs.QueryLaws.{ModelWidth, IntegersGrow, QueriesKept};
ghost use Rattle.target_lexicon.specs.Refusal.{refusal_of};
ghost use Rattle.target_lexicon.specs.Printing.{OnlyUnknownsDifferFromUpstream};
ghost use Rattle.target_lexicon.specs.Values.{Values, values_of};
ghost use Rattle.target_lexicon.specs.ValuesRef.{values_of_ref, placed_outcome, placed_refusal};
ghost use Rattle.target_lexicon.specs.declared.data_model.CDataModel.{CDataModel};
ghost use Rattle.target_lexicon.specs.Explanation.{part_value, source_value, sources_of};
ghost use Rattle.target_lexicon.specs.declared.explanation.Explanation.{Explanation};
ghost use Rattle.target_lexicon.specs.declared.exception.RoundTripException.{RoundTripException};
ghost use Rattle.target_lexicon.specs.declared.reading.Reading.{Reading};
ghost use Rattle.target_lexicon.specs.declared.explanation.Source.{Source};
ghost use Rattle.target_lexicon.specs.declared.explanation.Sources.{Sources};
ghost use Rattle.target_lexicon.specs.declared.explanation.TextPart.{TextPart};
ghost use Rattle.target_lexicon.specs.declared.json_error.JsonError.{JsonError};
ghost use Rattle.target_lexicon.specs.declared.list_error.ListError.{ListError};
ghost use Rattle.target_lexicon.specs.declared.parse_error.ParseError.{ParseError};
ghost use Rattle.target_lexicon.specs.declared.refusal.Refusal.{Refusal};
ghost use Rattle.target_lexicon.specs.declared.triple.Triple.{Triple};
ghost use Rattle.target_lexicon.specs.declared.triple_ref.TripleRef.{TripleRef};
ghost use Rattle.target_lexicon.specs.declared.defaults.DefaultToHost.{DefaultToHost};
ghost use Rattle.target_lexicon.specs.declared.defaults.DefaultToUnknown.{DefaultToUnknown};

use crate::calling_convention::CallingConvention;
use crate::data_model::{CDataModel, Size};
use crate::defaults::{DefaultToHost, DefaultToUnknown};
use crate::exception::RoundTripException;
use crate::explanation::{Explanation, Source, Sources, TextPart};
use crate::json_error::JsonError;
use crate::list_error::ListError;
use crate::parse_error::ParseError;
use crate::reading::Reading;
use crate::refusal::Refusal;
use crate::triple::Triple;
use crate::triple_ref::TripleRef;
use lexicon_fields::OperatingSystem;
pub use lexicon_fields::laws::{
    copies_of_fields_equal_their_sources, custom_vendors_are_equal_by_text,
    custom_vendors_hash_by_text, names_are_short, names_grow_at_most, names_read_back,
    read_versions_are_in_range, rows_are_sorted_and_complete, texts_are_put_in_order,
    values_are_equal_by_variant_and_fields, values_hash_by_variant_and_fields,
    vendor_refs_are_equal_by_value, vendor_refs_hash_by_value, vendors_are_equal_by_value,
    versions_are_ordered,
};
use std::hash::Hash;

/// Parts that have a placement have exactly one least placement, and so does each prefix of them.
pub fn one_least_placement()
    ensures { (parts : List (List ℕ)) →
        HasPlacement parts →
        HasOneLeastPlacement parts × ((n : ℕ) → HasOneLeastPlacement (take (suc n) parts)) }
{}

/// Every string parses or is refused, in exactly one way. So a program that answers each line has one output.
pub fn every_string_has_one_outcome()
    ensures { EveryStringHasOneOutcome }
{}

/// The function `reading` of the definitions gives the triple that a string parses as, or how it is refused. So a
/// proof can compute the result for a string.
pub fn reading_is_computed()
    ensures { ReadingIsComputed }
{}

/// The result of [`Triple::from_str`] is what the function `reading` gives, or out of memory, but only for a custom
/// vendor or a refusal. So a caller's proof can compute the result for a literal.
pub fn results_are_computed()
    ensures { ResultsAreComputed }
{}

/// Every triple that a string parses as has a plain vendor.
pub fn read_vendors_are_plain()
    ensures { ReadVendorsArePlain }
{}

/// The version of a system in code, if it has one, is in range by its types. So the laws that ask for such a version
/// apply to every triple in code.
pub fn versions_are_in_range(operating_system: OperatingSystem)
    ensures { HasVersionInRange operating_system }
{}

/// Every triple that a string parses as has a plain vendor, and a version in range if its system has one. So the laws
/// of round trips apply to it.
pub fn read_triples_are_plain()
    ensures { ParsedTriplesArePlain }
{
    read_versions_are_in_range();
}

/// The printed string of a triple is at most 22 bytes longer than each string that parses as it, and so is the string
/// of the canonical triple. A refused part is not longer than the string. So a caller knows how large a buffer must be.
pub fn printed_strings_grow_at_most()
    ensures printed { PrintedStringsGrowAtMost }
    ensures settled { CanonicalStringsGrowAtMost }
    ensures refused { RefusedPartsDoNotGrow }
{
    names_grow_at_most();
}

/// Two triples that come back are equal if and only if their printed strings are.
pub fn equal_texts_equal_triples()
    ensures { EqualTextsEqualTriples }
{}

/// Two triples are equal if and only if their five values are. The value of a custom vendor is its string.
pub fn triples_are_equal_by_value()
    ensures { (x y : Triple) →
        IsTrue (⟦<Triple as PartialEq>⟧.eq x y) ↔ (values_of x ≡ values_of y) }
{
    values_are_equal_by_variant_and_fields();
    vendors_are_equal_by_value();
}

/// Two borrowed triples are equal if and only if their five values are.
pub fn triple_refs_are_equal_by_value()
    ensures { (x y : TripleRef) →
        IsTrue (⟦<TripleRef<'static> as PartialEq>⟧.eq x y) ↔ (values_of_ref x ≡ values_of_ref y) }
{
    values_are_equal_by_variant_and_fields();
    vendor_refs_are_equal_by_value();
}

/// Two errors are equal if and only if both are the same refusal, or both are `OutOfMemory`.
pub fn errors_are_equal_by_value()
    ensures { (x y : ParseError) →
        IsTrue (⟦<ParseError as PartialEq>⟧.eq x y) ↔ (refusal_of x ≡ refusal_of y) }
{}

/// Two refusals are equal if and only if they expected the same field, and their parts and where these begin are the
/// same.
pub fn refusals_are_equal_by_value()
    ensures { (x y : Refusal) →
        IsTrue (⟦<Refusal<'static> as PartialEq>⟧.eq x y) ↔ (placed_refusal x ≡ placed_refusal y) }
{}

/// If a triple has a data model, the pointers of the model have as many bits as those of the triple.
pub fn model_width()
    ensures { ModelWidth }
{}

/// No triple has the data model `LP32` or `ILP64`.
pub fn no_rare_model()
    ensures { (t : Values) →
        (data_model t ≢ Some CDataModel.LP32) × (data_model t ≢ Some CDataModel.ILP64) }
{}

/// In each data model the sizes of `short`, `int`, `long` and `long long` don't decrease.
pub fn integers_grow_in_each_model()
    ensures { (model : CDataModel) → IntegersGrow model }
{}

/// The normal step (`Triple::normal`) keeps the architecture of a triple, and so its byte order, pointer width, calling
/// convention and data model, or that it has none.
pub fn queries_kept()
    ensures { QueriesKept }
{}

/// Two sizes, two data models, two calling conventions or two reasons why a triple doesn't round-trip are equal if and
/// only if they are the same variant.
pub fn answers_are_equal_by_variant()
    ensures size { ComparesByValue ⟦<Size as PartialEq>⟧.eq }
    ensures data_model { ComparesByValue ⟦<CDataModel as PartialEq>⟧.eq }
    ensures calling_convention { ComparesByValue ⟦<CallingConvention as PartialEq>⟧.eq }
    ensures exception { ComparesByValue ⟦<RoundTripException as PartialEq>⟧.eq }
{}

/// Two `DefaultToHost`, or two `DefaultToUnknown`, are equal if and only if the triples in them have the same five
/// fields.
pub fn defaults_are_equal_by_value()
    ensures host { (x y : DefaultToHost) →
        IsTrue (⟦<DefaultToHost as PartialEq>⟧.eq x y) ↔ (values_of x.0 ≡ values_of y.0) }
    ensures unknown { (x y : DefaultToUnknown) →
        IsTrue (⟦<DefaultToUnknown as PartialEq>⟧.eq x y) ↔ (values_of x.0 ≡ values_of y.0) }
{
    triples_are_equal_by_value();
}

/// Each exception is the facts of the five fields that its record states. So a reader of
/// [`Triple::round_trip_exception`] need not follow the order of a list of cases.
pub fn exceptions_are_facts_of_fields()
    ensures { ExceptionsAreFactsOfFields }
{}

/// A triple comes back (it is printed and parsed again as itself) if and only if none of the five exceptions applies,
/// also if its vendor is not plain. The name calls an exception a family.
pub fn fixed_exactly_outside_families()
    ensures { FixedExactlyOutsideExceptions }
{
    round_is_normal_step();
}

/// The printed string of each triple with a plain vendor parses as the triple's normal step.
pub fn round_is_normal_step()
    ensures { RoundIsNormalStep }
{
    names_read_back();
}

/// A second normal step changes none: one round trip gives the canonical form. The name is from upstream's rules of
/// printing, by which it changes one.
pub fn second_step_changes_one()
    ensures { OneStepSettles }
{}

/// The canonical form of a triple with a plain vendor comes back, and no other canonical form of such a triple has its
/// string. So the string serves as a key.
pub fn canonical_strings_are_keys()
    ensures { CanonicalStringsAreKeys }
{
    round_is_normal_step();
}

/// The headline, all of these laws in one: every string parses or is refused, in exactly one way. Each parsed triple
/// has a plain vendor. A triple comes back if and only if none of the five exceptions applies. The round trip of each
/// triple with a plain vendor succeeds, is the normal step, keeps the answers of the four queries, and gives the
/// canonical form; and each canonical form of a plain triple has a string of its own.
pub fn round_trips_are_known()
    ensures { RoundTripsAreKnown }
{
    every_string_has_one_outcome();
    read_triples_are_plain();
    fixed_exactly_outside_families();
    round_is_normal_step();
    queries_kept();
    second_step_changes_one();
    canonical_strings_are_keys();
}

/// The printed string of a triple differs from upstream's if and only if environment and format are unknown, another
/// format is implied, and no special string is printed.
pub fn only_unknowns_differ_from_upstream()
    ensures { OnlyUnknownsDifferFromUpstream }
{}

/// A list of triples that come back, written as JSON, parses as itself and as no other list. So such a list can be
/// stored as JSON.
pub fn lists_read_back()
    ensures { (ts us : List Values) →
        All ComesBack ts →
        ListParsesAs (list_json_of ts) us ↔ (us ≡ ts) }
{
    every_string_has_one_outcome();
}

/// Two errors of a JSON value are equal if and only if both say that it is not a string, or the same about the string.
pub fn json_errors_are_equal_by_value()
    ensures { (x y : JsonError) →
        IsTrue (⟦<JsonError as PartialEq>⟧.eq x y) ↔ (json_error_value x ≡ json_error_value y) }
{}

/// Two errors of a JSON list are equal if and only if they are of one kind, with the same element and the same error of
/// it.
pub fn list_errors_are_equal_by_value()
    ensures { (x y : ListError) →
        IsTrue (⟦<ListError as PartialEq>⟧.eq x y) ↔ (list_error_value x ≡ list_error_value y) }
{}

/// Two parts are equal if and only if their bytes are and they begin at the same index. Two sources are equal if and
/// only if they are the same variant, with equal parts. Two explanations are equal if and only if their triples or
/// refusals are, and their sources.
pub fn explanations_are_equal_by_value()
    ensures part { (x y : TextPart) →
        IsTrue (⟦<TextPart<'static> as PartialEq>⟧.eq x y) ↔ (part_value x ≡ part_value y) }
    ensures source { (x y : Source) →
        IsTrue (⟦<Source<'static> as PartialEq>⟧.eq x y) ↔ (source_value x ≡ source_value y) }
    ensures sources { (x y : Sources) →
        IsTrue (⟦<Sources<'static> as PartialEq>⟧.eq x y) ↔ (sources_of x ≡ sources_of y) }
    ensures explanation { (x y : Explanation) →
        IsTrue (⟦<Explanation<'static> as PartialEq>⟧.eq x y)
        ↔ ((placed_outcome x.triple ≡ placed_outcome y.triple)
        × (sources_of x.sources ≡ sources_of y.sources)) }
{
    triple_refs_are_equal_by_value();
    refusals_are_equal_by_value();
}

/// A copy of a value is that value, and copying allocates nothing.
pub fn copies_equal_their_sources()
    ensures size { CopiesEqualTheirSources ⟦<Size as Clone>⟧.is_clone
        ⟦<Size as Clone>⟧.is_infallible }
    ensures data_model { CopiesEqualTheirSources ⟦<CDataModel as Clone>⟧.is_clone
        ⟦<CDataModel as Clone>⟧.is_infallible }
    ensures calling_convention { CopiesEqualTheirSources ⟦<CallingConvention as Clone>⟧.is_clone
        ⟦<CallingConvention as Clone>⟧.is_infallible }
    ensures exception { CopiesEqualTheirSources ⟦<RoundTripException as Clone>⟧.is_clone
        ⟦<RoundTripException as Clone>⟧.is_infallible }
    ensures reading { CopiesEqualTheirSources ⟦<Reading<'static> as Clone>⟧.is_clone
        ⟦<Reading<'static> as Clone>⟧.is_infallible }
    ensures triple_ref { CopiesEqualTheirSources ⟦<TripleRef<'static> as Clone>⟧.is_clone
        ⟦<TripleRef<'static> as Clone>⟧.is_infallible }
    ensures refusal { CopiesEqualTheirSources ⟦<Refusal<'static> as Clone>⟧.is_clone
        ⟦<Refusal<'static> as Clone>⟧.is_infallible }
    ensures part { CopiesEqualTheirSources ⟦<TextPart<'static> as Clone>⟧.is_clone
        ⟦<TextPart<'static> as Clone>⟧.is_infallible }
    ensures source { CopiesEqualTheirSources ⟦<Source<'static> as Clone>⟧.is_clone
        ⟦<Source<'static> as Clone>⟧.is_infallible }
    ensures sources { CopiesEqualTheirSources ⟦<Sources<'static> as Clone>⟧.is_clone
        ⟦<Sources<'static> as Clone>⟧.is_infallible }
    ensures explanation { CopiesEqualTheirSources ⟦<Explanation<'static> as Clone>⟧.is_clone
        ⟦<Explanation<'static> as Clone>⟧.is_infallible }
{}

/// Sizes, data models and calling conventions feed a hasher the same if and only if their variants are the same.
pub fn answers_hash_by_variant()
    ensures size { HashInjective ⟦<Size as Hash>⟧.hash_input }
    ensures data_model { HashInjective ⟦<CDataModel as Hash>⟧.hash_input }
    ensures calling_convention { HashInjective ⟦<CallingConvention as Hash>⟧.hash_input }
{}

/// Two triples, with a default or without, feed a hasher the same if and only if their five values are the same, and
/// what is fed after a triple can be distinguished from what it feeds. This is said of triples whose version is in
/// range.
pub fn triples_hash_by_value()
    ensures triple { HashInjectiveOn (λ t. HasVersionInRange t.operating_system) values_of
        ⟦<Triple as Hash>⟧.hash_input }
    ensures host { HashInjectiveOn (λ t. HasVersionInRange t.0.operating_system)
        (λ t. values_of t.0) ⟦<DefaultToHost as Hash>⟧.hash_input }
    ensures unknown { HashInjectiveOn (λ t. HasVersionInRange t.0.operating_system)
        (λ t. values_of t.0) ⟦<DefaultToUnknown as Hash>⟧.hash_input }
{
    values_hash_by_variant_and_fields();
}

/// Two borrowed triples feed a hasher the same if and only if their five values are the same, as
/// [`triples_hash_by_value`] says of triples.
pub fn triple_refs_hash_by_value()
    ensures { HashInjectiveOn (λ t. HasVersionInRange t.operating_system) values_of_ref
        ⟦<TripleRef<'static> as Hash>⟧.hash_input }
{
    values_hash_by_variant_and_fields();
    vendor_refs_hash_by_value();
}
