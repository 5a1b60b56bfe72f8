//! What mode `json` writes for an input.
ghost use Rattle.std.specs.Prelude.{◌↔◌, ◌≡◌, ◌++◌, None, codes, map, string_bytes, IfOk, IfErr, IsTrue};
ghost use Rattle.serde_json.specs.View.{view};
ghost use Rattle.serde_json.specs.Written.{compact_text};
ghost use Rattle.target_lexicon.specs.Json.{Parse, Element, json_error_value, list_json_of, list_error_line};
ghost use Rattle.target_lexicon.specs.Values.{values_of};
ghost use Rattle.triples.specs.JsonOutput.{IsJsonAnswer, IsJsonAnswerErrorOf, IsJsonOutput, IsJsonInputErrorOf};

use crate::run_error::RunError;
use serde_json::Value;
use std::alloc::{AllocError, Global};
use target_lexicon::{JsonError, ListError, ParseError, Triple, list_from_json, list_to_json};

/// The triples as compact JSON. They are dropped before it is made, to save memory.
fn list_text(alloc: Global, triples: Vec<Triple>) -> Result<String, AllocError>
    ensures { IfOk result
        (λ text. string_bytes text ≡ compact_text (list_json_of (map values_of triples.items))) }
{
    let value = list_to_json(alloc, triples.as_slice())?;
    drop(triples);
    value.to_string(alloc)
}

/// The line for the refused element.
fn element_line(alloc: Global, i: usize, error: JsonError) -> Result<String, AllocError>
    ensures { IfOk result
        (λ line.
        string_bytes line
        ≡ codes "error: " ++ list_error_line (Element i (json_error_value error))) }
{
    let error = ListError::Element(i, error);
    format!(in alloc; "error: {error}")
}

/// Whether the error is an allocation failure.
fn is_out_of_memory(error: &JsonError) -> bool
    ensures { IsTrue result ↔ (json_error_value error.now ≡ Parse None) }
{
    matches!(error, JsonError::Parse(ParseError::OutOfMemory))
}

/// The list that the value parses as, printed as JSON, or the line for its first refused element. The value is dropped
/// before that is made, to save memory.
fn answer(alloc: Global, value: Value) -> Result<String, RunError>
    ensures ok { IfOk result (λ answer. IsJsonAnswer (view value) (string_bytes answer)) }
    ensures err { IfErr result (λ e. IsJsonAnswerErrorOf (view value) e) }
{
    let list = list_from_json(alloc, &value);
    drop(value);
    match list {
        Ok(triples) => Ok(list_text(alloc, triples)?),
        Err(ListError::NotList) => Err(RunError::NotList),
        Err(ListError::OutOfMemory) => Err(RunError::OutOfMemory),
        Err(ListError::Element(i, error)) => {
            if is_out_of_memory(&error) {
                return Err(RunError::OutOfMemory);
            }
            Ok(element_line(alloc, i, error)?)
        }
    }
}

/// The output for an input that is one JSON value, or why there is none.
pub(crate) fn json_output(alloc: Global, input: &str) -> Result<String, RunError>
    ensures output { IfOk result (λ output. IsJsonOutput input.now (string_bytes output)) }
    ensures err { IfErr result (λ e. IsJsonInputErrorOf input.now e) }
{
    let value = match Value::from_str(alloc, input) {
        Ok(value) => value,
        Err(error) => {
            if error.is_memory() {
                return Err(RunError::OutOfMemory);
            }
            return Err(RunError::NotJson);
        }
    };
    let mut output = answer(alloc, value)?;
    output.push('\n')?;
    Ok(output)
}
