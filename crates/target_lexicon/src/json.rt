//! Triples and lists of triples as JSON values.
ghost use Rattle.std.specs.Prelude.{◌≡◌, true, map, All, IfOk, IfErr};
ghost use Rattle.serde_json.specs.View.{view};
ghost use Rattle.lexicon_fields.specs.Vendor.{OwnsCustomString, is_plain, vendor_value};
ghost use Rattle.target_lexicon.specs.Json as spec;
ghost use Rattle.target_lexicon.specs.Json.{JsonParsesAs, IsJsonErrorOf, ListParsesAs, IsListErrorOf};
ghost use Rattle.target_lexicon.specs.Values.{values_of};
ghost use Rattle.target_lexicon.specs.ValuesRef.{values_of_ref};

use crate::json_error::JsonError;
use crate::list_error::ListError;
use crate::triple::Triple;
use crate::triple_ref::TripleRef;
use serde_json::Value;
use std::alloc::{AllocError, Global};

impl Triple {
    /// The printed string as a JSON string. `Err` if the allocation for it fails.
    pub fn to_json(&self, alloc: Global) -> Result<Value, AllocError>
        ensures { IfOk result (λ value. view value ≡ spec.json_of (values_of self.now)) }
    {
        self.as_triple_ref().to_json(alloc)
    }

    /// The triple that a JSON string parses as, by [`Triple::from_str`].
    ///
    /// # Errors
    ///
    /// - [`JsonError::NotText`] if the value is not a string.
    /// - [`JsonError::Parse`] if the string is refused, or an allocation for parsing it fails. Nothing is
    ///   allocated for another value.
    pub fn from_json(alloc: Global, value: &Value) -> Result<Triple, JsonError>
        ensures ok { IfOk result (λ triple. JsonParsesAs (view value.now) (values_of triple)) }
        ensures owned { IfOk result (λ triple. OwnsCustomString triple.vendor) }
        ensures plain { IfOk result (λ triple. is_plain (vendor_value triple.vendor) ≡ true) }
        ensures err { IfErr result
            (λ error. IsJsonErrorOf (view value.now) (spec.json_error_value error)) }
    {
        let Some(text) = value.as_str() else {
            return Err(JsonError::NotText);
        };
        match Triple::from_str(alloc, text) {
            Ok(triple) => Ok(triple),
            Err(error) => Err(JsonError::Parse(error)),
        }
    }
}

impl TripleRef<'_> {
    /// The printed string as a JSON string. `Err` if the allocation for it fails.
    pub fn to_json(&self, alloc: Global) -> Result<Value, AllocError>
        ensures { IfOk result (λ value. view value ≡ spec.json_of (values_of_ref self.now)) }
    {
        Ok(Value::from(self.to_text(alloc)?))
    }
}

/// The JSON array of the triples' JSON strings, in order. `Err` if an allocation for it fails.
pub fn list_to_json(alloc: Global, triples: &[Triple]) -> Result<Value, AllocError>
    ensures { IfOk result (λ value. view value ≡ spec.list_json_of (map values_of triples.now)) }
{
    let mut values = Vec::new(alloc);
    for triple in triples {
        values.push(triple.to_json(alloc)?)?;
    }
    Ok(Value::from(values))
}

/// The triples that the elements of a JSON array parse as, in order.
///
/// # Errors
///
/// - [`ListError::NotList`] if the value is not an array.
/// - [`ListError::Element`] with the index of the first element for which [`Triple::from_json`] returns an error, and
///   that error, which may be that it ran out of memory.
/// - [`ListError::OutOfMemory`] if an allocation for the list itself fails. An empty list, and a list whose first
///   element does not parse, allocate nothing for the list.
pub fn list_from_json(alloc: Global, value: &Value) -> Result<Vec<Triple>, ListError>
    ensures ok { IfOk result
        (λ triples. ListParsesAs (view value.now) (map values_of triples.items)) }
    ensures owned { IfOk result
        (λ triples. All (λ triple. OwnsCustomString triple.vendor) triples.items) }
    ensures plain { IfOk result
        (λ triples. All (λ triple. is_plain (vendor_value triple.vendor) ≡ true) triples.items) }
    ensures err { IfErr result
        (λ error. IsListErrorOf (view value.now) (spec.list_error_value error)) }
{
    let Some(elements) = value.as_array() else {
        return Err(ListError::NotList);
    };
    let mut triples = Vec::new(alloc);
    for (i, element) in elements.iter().enumerate() {
        match Triple::from_json(alloc, element) {
            Ok(triple) => {
                if triples.push(triple).is_err() {
                    return Err(ListError::OutOfMemory);
                }
            }
            Err(error) => return Err(ListError::Element(i, error)),
        }
    }
    Ok(triples)
}
