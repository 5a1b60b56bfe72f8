//! A filter: it answers line by line, between a buffer for its input and one for its output. It takes no memory.
ghost use Rattle.std.specs.Prelude.{◌≡◌, ◌+◌, ◌-◌, ◌<◌, ◌≤◌, length, option_map, take, drop, true};
ghost use Rattle.target_lexicon.specs.Printing.{string_of};
ghost use Rattle.target_lexicon.specs.Refusal.{refusal_line};
ghost use Rattle.target_lexicon.specs.Values.{is_plain};
ghost use Rattle.target_lexicon.specs.ValuesRef.{refusal_value, values_of_ref};
ghost use Rattle.triples.specs.Facts.{facts_of, spaced_word};
ghost use Rattle.triples.specs.Filter.{FilterEndsAs};
ghost use Rattle.triples.specs.FilterSteps.{AnswersRest, HasNoFeed, IsKept, IsLineAnswer, IsLineEnd, IsShortAnswer};
ghost use Rattle.triples.specs.FilterSteps.{LinesAnswered, MakesRoom, Pushes, PushesAnswer, RestAnswered};
ghost use Rattle.triples.specs.Output.{shown_by};
ghost use Rattle.triples.specs.Run.{use_of};

use crate::counted::Counted;
use crate::filter_error::FilterError;
use crate::line_mode::LineMode;
use crate::streams::write_all;
use std::io::{Read, Write};
use target_lexicon::laws::{
    every_string_has_one_outcome, printed_strings_grow_at_most, read_vendors_are_plain,
};
use target_lexicon::{CDataModel, CallingConvention, Endianness, PointerWidth, Refusal, TripleRef};

/// How many bytes an answer can have more than its line: 22 that printing can add, 32 for four words in mode `show`,
/// and the line feed.
pub const ANSWER_ROOM: usize = 55;

/// Reads the input to its end, writes the answer to each line, as the mode says, and flushes. After each read the lines
/// that have ended are answered.
///
/// A line that is refused gives a line of `error: ` and why, and so does one that is not UTF-8, or that has at least as
/// many bytes as the input buffer. An interrupted call is an error like any other.
///
/// # Errors
///
/// - [`FilterError::Read`] if and only if a read failed. The answers to all lines before it were written.
/// - [`FilterError::Write`] if and only if a write or the flush failed, or a write took no byte of a piece. A beginning
///   of the answers was written.
/// - [`FilterError::Endless`] after `u64::MAX` reads, if none of them found the end. The answers to all lines were
///   written.
pub fn filter<R: Read, W: Write>(
    mode: LineMode,
    input: &mut [u8],
    output: &mut [u8],
    r: &mut Counted<R>,
    w: &mut Counted<W>,
) -> Result<(), FilterError>
    requires some { 0 < length input.old }
    requires room { length input.old + ANSWER_ROOM ≤ length output.old }
    ensures ends { FilterEndsAs mode (length input.old) (use_of R.remaining r.old r.new)
        (use_of W.contents w.old w.new) result }
{
    every_string_has_one_outcome();
    let mut held = 0;
    let mut is_late = false;
    for _ in 0..u64::MAX {
        let Ok(taken) = r.read_after(w, &mut input[held..]) else {
            return Err(FilterError::Read);
        };
        if taken == 0 {
            return finish(mode, is_late, &input[..held], output, w);
        }
        let end = held + taken;
        let Ok((start, late)) = answer_lines(mode, is_late, &input[..end], held, output, w) else {
            return Err(FilterError::Write);
        };
        (held, is_late) = keep_rest(input, start, end, late);
    }
    Err(FilterError::Endless)
}

/// Writes the answers to the lines that end in the bytes, the first `searched` of which have no line feed. The first
/// line is too long if it `is_late`. Returns where the line begins that doesn't end, and whether that is still the
/// first, and too long.
fn answer_lines<W: Write>(
    mode: LineMode,
    is_late: bool,
    bytes: &[u8],
    searched: usize,
    output: &mut [u8],
    w: &mut Counted<W>,
) -> Result<(usize, bool), FilterError>
    requires room { length bytes.now + ANSWER_ROOM ≤ length output.old }
    requires within { searched ≤ length bytes.now }
    requires searched { HasNoFeed (take searched bytes.now) }
    ensures lines { LinesAnswered mode is_late bytes.now (use_of W.contents w.old w.new) result }
    ensures same_length { length output.new ≡ length output.old }
{
    let mut start = 0;
    let mut late = is_late;
    let mut used = 0;
    let mut from = searched;
    while let Some(at) = line_end(&bytes[start..], from) {
        let Ok(free) = make_room(output, used, at + ANSWER_ROOM, w) else {
            return Err(FilterError::Write);
        };
        used = push_line(mode, late, &bytes[start..start + at], output, free);
        late = false;
        from = 0;
        start = start + at + 1;
    }
    match write_all(w, &output[..used]) {
        Ok(()) => Ok((start, late)),
        Err(_) => Err(FilterError::Write),
    }
}

/// Writes what is used of the buffer, if it has less room than this. Returns what is used then.
fn make_room<W: Write>(
    output: &[u8],
    used: usize,
    room: usize,
    w: &mut Counted<W>,
) -> Result<usize, FilterError>
    requires used { used ≤ length output.now }
    requires room { room ≤ length output.now }
    ensures { MakesRoom output.now used room (use_of W.contents w.old w.new) result }
{
    if room <= output.len() - used {
        return Ok(used);
    }
    match write_all(w, &output[..used]) {
        Ok(()) => Ok(0),
        Err(_) => Err(FilterError::Write),
    }
}

/// Writes the answer to a last line that doesn't end, if there is one, and flushes.
fn finish<W: Write>(
    mode: LineMode,
    is_late: bool,
    rest: &[u8],
    output: &mut [u8],
    w: &mut Counted<W>,
) -> Result<(), FilterError>
    requires { length rest.now + ANSWER_ROOM ≤ length output.old }
    ensures { RestAnswered mode is_late rest.now (use_of W.contents w.old w.new) result }
{
    let used = push_rest(mode, is_late, rest, output);
    let Ok(()) = write_all(w, &output[..used]) else {
        return Err(FilterError::Write);
    };
    match w.flush() {
        Ok(()) => Ok(()),
        Err(_) => Err(FilterError::Write),
    }
}

/// Puts the answer to a last line that doesn't end, if there is one, at the front of the buffer. Returns its length.
fn push_rest(mode: LineMode, is_late: bool, rest: &[u8], out: &mut [u8]) -> usize
    requires { length rest.now + ANSWER_ROOM ≤ length out.old }
    ensures answer { AnswersRest mode is_late rest.now (take result out.new) }
    ensures within { result ≤ length out.new }
{
    if !is_late && rest.is_empty() {
        return 0;
    }
    push_line(mode, is_late, rest, out, 0)
}

/// Moves the rest of what the buffer holds, from `start` to `end`, to its front, but drops it if its line is too long.
/// Returns how many bytes the buffer holds then, and whether the line is too long.
fn keep_rest(buffer: &mut [u8], start: usize, end: usize, is_late: bool) -> (usize, bool)
    requires order { start ≤ end }
    requires within { end ≤ length buffer.old }
    requires some { 0 < length buffer.old }
    ensures kept { IsKept (length buffer.old) is_late (drop start (take end buffer.old))
        buffer.new result.0 result.1 }
    ensures held { result.0 < length buffer.new }
    ensures same_length { length buffer.new ≡ length buffer.old }
{
    if is_late {
        return (0, true);
    }
    if end - start == buffer.len() {
        return (0, true);
    }
    if start == 0 {
        return (end, false);
    }
    buffer.copy_within(start..end, 0);
    (end - start, false)
}

/// Puts the answer to a line, which is too long if it `is_late`, into the buffer at this position, and a line feed.
/// Returns where they end.
fn push_line(mode: LineMode, is_late: bool, line: &[u8], out: &mut [u8], at: usize) -> usize
    requires { at + length line.now + ANSWER_ROOM ≤ length out.old }
    ensures { PushesAnswer (IsLineAnswer mode is_late line.now) out.old at out.new result }
{
    if is_late {
        return put(out, at, b"error: Line too long\n");
    }
    push_answer(mode, line, out, at)
}

/// Where the first line ends, if it does. No byte before `from` is a line feed. Not inlined, since then the loop takes
/// an instruction less a byte.
#[inline(never)]
fn line_end(bytes: &[u8], from: usize) -> Option<usize>
    requires within { from ≤ length bytes.now }
    requires searched { HasNoFeed (take from bytes.now) }
    ensures { IsLineEnd bytes.now result }
{
    for i in from..bytes.len() {
        if bytes[i] == b'\n' {
            return Some(i);
        }
    }
    None
}

/// Puts the answer to a line that is not too long into the buffer at this position, and a line feed. Returns where they
/// end.
fn push_answer(mode: LineMode, line: &[u8], out: &mut [u8], at: usize) -> usize
    requires { at + length line.now + ANSWER_ROOM ≤ length out.old }
    ensures { PushesAnswer (IsShortAnswer mode line.now) out.old at out.new result }
{
    let Ok(line) = str::from_utf8(line) else {
        return put(out, at, b"error: Line is not UTF-8\n");
    };
    read_vendors_are_plain();
    printed_strings_grow_at_most();
    match TripleRef::from_str(line) {
        Ok(triple) => {
            let end = put_shown(mode, out, at, triple);
            put(out, end, b"\n")
        }
        Err(refusal) => {
            let start = put(out, at, b"error: ");
            let end = put_refusal(out, start, &refusal);
            put(out, end, b"\n")
        }
    }
}

/// Puts what the mode shows of a triple into the buffer at this position. Returns where it ends.
fn put_shown(mode: LineMode, out: &mut [u8], at: usize, triple: TripleRef<'_>) -> usize
    requires plain { is_plain (values_of_ref triple).vendor ≡ true }
    requires room { at + length (shown_by mode (values_of_ref triple)) ≤ length out.old }
    ensures { Pushes (shown_by mode (values_of_ref triple.entry)) out.old at out.new result }
{
    match mode {
        LineMode::Print => put_triple(out, at, &triple),
        LineMode::Show => {
            let end = put_triple(out, at, &triple);
            put_facts(out, end, &triple)
        }
        LineMode::Settle => put_triple(out, at, &triple.settle()),
    }
}

/// Puts the printed triple into the buffer at this position. Returns where it ends.
fn put_triple(out: &mut [u8], at: usize, triple: &TripleRef<'_>) -> usize
    requires { at + length (string_of (values_of_ref triple.now)) ≤ length out.old }
    ensures { Pushes (string_of (values_of_ref triple.now)) out.old at out.new result }
{
    at + triple.write_to(&mut out[at..])
}

/// Puts the words for the byte order, pointer width, calling convention and data model of a triple, as [`put_triple`]
/// puts the triple.
fn put_facts(out: &mut [u8], at: usize, triple: &TripleRef<'_>) -> usize
    requires { at + length (facts_of (values_of_ref triple.now)) ≤ length out.old }
    ensures { Pushes (facts_of (values_of_ref triple.now)) out.old at out.new result }
{
    let end = put_word(out, at, triple.endianness().ok().map(Endianness::name));
    let end = put_word(
        out,
        end,
        triple.pointer_width().ok().map(PointerWidth::name),
    );
    let convention = triple.default_calling_convention().ok();
    let end = put_word(out, end, convention.map(CallingConvention::name));
    put_word(out, end, triple.data_model().ok().map(CDataModel::name))
}

/// Puts a space and a word, `-` for none, as [`put_triple`] puts a triple.
fn put_word(out: &mut [u8], at: usize, word: Option<&str>) -> usize
    requires { at + length (spaced_word (option_map (λ word. word.now) word)) ≤ length out.old }
    ensures { Pushes (spaced_word (option_map (λ word. word.now) word.entry)) out.old at out.new
        result }
{
    let end = put(out, at, b" ");
    put(out, end, word.unwrap_or("-").as_bytes())
}

/// Puts the line of a refusal, as [`put_triple`] puts a triple.
fn put_refusal(out: &mut [u8], at: usize, refusal: &Refusal<'_>) -> usize
    requires { at + length (refusal_line (refusal_value refusal.now)) ≤ length out.old }
    ensures { Pushes (refusal_line (refusal_value refusal.now)) out.old at out.new result }
{
    at + refusal.write_to(&mut out[at..])
}

/// Puts a text, as [`put_triple`] puts a triple.
fn put(out: &mut [u8], at: usize, text: &[u8]) -> usize
    requires { at + length text.now ≤ length out.old }
    ensures { Pushes text.now out.old at out.new result }
{
    let end = at + text.len();
    out[at..end].copy_from_slice(text);
    end
}
