//! Laws of the definitions. Each function's contract is a law; a call does nothing.
ghost use Rattle.std.specs.Prelude.{List};
ghost use Rattle.target_lexicon.specs.Laws.{ComparesByValue, CopiesEqualTheirSources};
ghost use Rattle.triples.specs.FilterLaws.{ErrorsOfFiltersAreExact, EveryInputIsFiltered, FiltersAgreeWithRuns};
ghost use Rattle.triples.specs.FilterLaws.{FiltersEndOneWay};
ghost use Rattle.triples.specs.MatrixLaws.{EntriesAreCanonicalTriples, KeepsEntriesOnce, FirstEntriesStayInOrder};
ghost use Rattle.triples.specs.MatrixLaws.{EachCanonicalTripleHasAnEntry, MatricesAreTheirOwn};
ghost use Rattle.triples.specs.Output.{Answer};
ghost use Rattle.triples.specs.RunLaws.{ErrorsOfRunsAreExact, EveryInputHasAnOutcome, RunsEndOneWay};
ghost use Rattle.triples.specs.declared.filter_error.FilterError.{FilterError};
ghost use Rattle.triples.specs.declared.line_mode.LineMode.{LineMode};
ghost use Rattle.triples.specs.declared.mode.Mode.{Mode};
ghost use Rattle.triples.specs.declared.run_error.RunError.{RunError};

use crate::filter_error::FilterError;
use crate::line_mode::LineMode;
use crate::mode::Mode;
use crate::run_error::RunError;

/// Modes are equal if and only if their variants are.
pub fn modes_are_equal_by_variant()
    ensures modes { ComparesByValue ⟦<Mode as PartialEq>⟧.eq }
    ensures line_modes { ComparesByValue ⟦<LineMode as PartialEq>⟧.eq }
{}

/// Two errors of a run, or of a filter, are equal if and only if they are the same variant.
pub fn errors_are_equal_by_variant()
    ensures run { ComparesByValue ⟦<RunError as PartialEq>⟧.eq }
    ensures filter { ComparesByValue ⟦<FilterError as PartialEq>⟧.eq }
{}

/// A copy of a mode, or of an error, is that value, and copying allocates nothing.
pub fn copies_equal_their_sources()
    ensures modes { CopiesEqualTheirSources ⟦<Mode as Clone>⟧.is_clone
        ⟦<Mode as Clone>⟧.is_infallible }
    ensures errors { CopiesEqualTheirSources ⟦<RunError as Clone>⟧.is_clone
        ⟦<RunError as Clone>⟧.is_infallible }
    ensures line_modes { CopiesEqualTheirSources ⟦<LineMode as Clone>⟧.is_clone
        ⟦<LineMode as Clone>⟧.is_infallible }
    ensures filter_errors { CopiesEqualTheirSources ⟦<FilterError as Clone>⟧.is_clone
        ⟦<FilterError as Clone>⟧.is_infallible }
{}

/// Mode `settle` writes the same string for two lines that parse if and only if their canonical triples are equal.
pub fn entries_are_canonical_triples()
    ensures { EntriesAreCanonicalTriples }
{
    target_lexicon::laws::every_string_has_one_outcome();
    target_lexicon::laws::read_triples_are_plain();
    target_lexicon::laws::canonical_strings_are_keys();
    target_lexicon::laws::equal_texts_equal_triples();
}

/// The matrix keeps one entry for each string, and every refused line.
pub fn entries_are_kept_once()
    ensures { (lines : List Answer) → KeepsEntriesOnce lines }
{}

/// The matrix follows the order of the lines: each refused line and the first entry of each string are added at its
/// end, and a later entry of the same string changes nothing.
pub fn first_entries_stay_in_order()
    ensures { FirstEntriesStayInOrder }
{}

/// The canonical triple of each line that parses has exactly one entry in the matrix.
pub fn each_canonical_triple_has_an_entry()
    ensures { EachCanonicalTripleHasAnEntry }
{
    target_lexicon::laws::every_string_has_one_outcome();
}

/// Mode `matrix` gives the entries of a matrix back, if they are its input.
pub fn matrices_are_their_own()
    ensures { MatricesAreTheirOwn }
{
    target_lexicon::laws::every_string_has_one_outcome();
    target_lexicon::laws::read_triples_are_plain();
    target_lexicon::laws::round_is_normal_step();
    target_lexicon::laws::canonical_strings_are_keys();
}

/// A run over an input, in which no read, write or flush failed and memory did not run out, has one result and
/// writes one output.
pub fn runs_end_one_way()
    ensures { RunsEndOneWay }
{
    target_lexicon::laws::every_string_has_one_outcome();
}

/// Each input has an outcome in each mode: a result, and what is written, that such a run may have. By
/// [`runs_end_one_way`] it has no other.
pub fn every_input_has_an_outcome()
    ensures { EveryInputHasAnOutcome }
{
    target_lexicon::laws::every_string_has_one_outcome();
}

/// A run returns `Read` if and only if a read failed, and `Write` if and only if a write or the flush did. Of an input
/// that was read whole, unless memory runs out, it returns `NotUtf8` if and only if it isn't UTF-8, and in mode `json`
/// only `NotJson` if and only if it is UTF-8 but not JSON, and `NotList` if and only if it is JSON but not a list.
pub fn errors_of_runs_are_exact()
    ensures { ErrorsOfRunsAreExact }
{}

/// For each buffer and all lines there are answers, and no others.
pub fn every_input_is_filtered()
    ensures { EveryInputIsFiltered }
{
    target_lexicon::laws::every_string_has_one_outcome();
}

/// For an input that is UTF-8 and whose lines fit the buffer, the answers of a filter are the output of the run.
pub fn filters_agree_with_runs()
    ensures { FiltersAgreeWithRuns }
{}

/// A filter of fewer than `u64::MAX` bytes, in which no read, write or flush failed, succeeds, and its writes took the
/// answers to all lines.
pub fn filters_end_one_way()
    ensures { FiltersEndOneWay }
{}

/// A filter returns `Read` if and only if a read failed, and `Write` if and only if a write or the flush did.
pub fn errors_of_filters_are_exact()
    ensures { ErrorsOfFiltersAreExact }
{}
