//! What a run writes in the modes that answer each line by itself.
ghost use Rattle.std.specs.Prelude.{◌≡◌, ◌<◌, ◌++◌, length, option_map, string_bytes, IfOk, OnOk, OnErr};
ghost use Rattle.target_lexicon.specs.Values.{values_of};
ghost use Rattle.triples.specs.Facts.{facts_of, spaced_word};
ghost use Rattle.triples.specs.Lines.{lines_of};
ghost use Rattle.triples.specs.Output.{IsLineOutput, shown_by};
ghost use Rattle.triples.specs.Private.{AddsAnswer, AddsRefusal};

use crate::line_mode::LineMode;
use std::alloc::{AllocError, Global};
use target_lexicon::laws::read_vendors_are_plain;
use target_lexicon::{CDataModel, CallingConvention, Endianness, ParseError, PointerWidth, Triple};

/// The answers to the lines of an input, in order, with a line feed after each.
pub(crate) fn answers(alloc: Global, mode: LineMode, input: &str) -> Result<String, AllocError>
    ensures output { IfOk result
        (λ output. IsLineOutput (shown_by mode) (lines_of input.now) (string_bytes output)) }
    ensures memory { OnErr result (0 < length input.now) }
{
    let mut output = String::new(alloc);
    if !input.is_empty() {
        output.reserve(input.len())?;
    }
    for line in input.split_terminator('\n') {
        push_answer(alloc, &mut output, mode, line)?;
    }
    Ok(output)
}

/// Appends the answer to a line, and a line feed: the triple that the line parses as, or in mode `settle` its canonical
/// form, printed, and in mode `show` its facts; or why the line is refused.
fn push_answer(
    alloc: Global,
    output: &mut String,
    mode: LineMode,
    line: &str,
) -> Result<(), AllocError>
    ensures { OnOk result
        (AddsAnswer (shown_by mode) line.now (string_bytes output.old)
        (string_bytes output.new)) }
{
    read_vendors_are_plain();
    match Triple::from_str(alloc, line) {
        Ok(triple) => {
            let shown = match mode {
                LineMode::Print | LineMode::Show => triple,
                LineMode::Settle => triple.settle(),
            };
            output.push_str(&shown.to_text(alloc)?)?;
            match mode {
                LineMode::Show => push_facts(output, &shown)?,
                LineMode::Print | LineMode::Settle => {}
            }
            output.push('\n')
        }
        Err(error) => push_refusal(output, error),
    }
}

/// Appends `error: `, the line of the refusal and a line feed. `Err` if the line was refused for memory.
pub(crate) fn push_refusal(output: &mut String, error: ParseError) -> Result<(), AllocError>
    ensures { OnOk result
        (AddsRefusal error (string_bytes output.old) (string_bytes output.new)) }
{
    if matches!(error, ParseError::OutOfMemory) {
        return Err(AllocError);
    }
    write!(output, "error: {error}")?;
    output.push('\n')
}

/// Appends the words for the byte order, pointer width, calling convention and data model of a triple.
fn push_facts(output: &mut String, triple: &Triple) -> Result<(), AllocError>
    ensures { OnOk result
        (string_bytes output.new ≡ string_bytes output.old ++ facts_of (values_of triple.now)) }
{
    push_word(output, triple.endianness().ok().map(Endianness::name))?;
    push_word(output, triple.pointer_width().ok().map(PointerWidth::name))?;
    let convention = triple.default_calling_convention().ok();
    push_word(output, convention.map(CallingConvention::name))?;
    push_word(output, triple.data_model().ok().map(CDataModel::name))
}

/// Appends a space and a word, `-` for none.
fn push_word(output: &mut String, word: Option<&str>) -> Result<(), AllocError>
    ensures { OnOk result
        (string_bytes output.new
        ≡ string_bytes output.old ++ spaced_word (option_map (λ word. word.now) word.entry)) }
{
    output.push(' ')?;
    output.push_str(word.unwrap_or("-"))
}
