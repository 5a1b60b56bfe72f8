//! What the arguments of the program ask for.
ghost use Rattle.std.specs.Prelude.{◌≡◌, option_map, string_bytes};
ghost use Rattle.triples.specs.Words.{request_of, request_of_word};

use crate::line_mode::LineMode;
use crate::mode::Mode;

/// What the arguments ask for.
#[derive(Clone, Copy, Debug, PartialEq, Eq)]
pub enum Request {
    /// A run, which holds its input and output whole.
    Run(Mode),
    /// A filter, which takes no memory.
    Filter(LineMode),
}

/// What the arguments after the program's name ask for, of which these are the first two: a run in mode `print` if
/// there is none, what a single word names, and `None` for another word or more words.
pub fn requested(word: Option<String>, next: Option<String>) -> Option<Request>
    ensures { result ≡ request_of (option_map string_bytes word) (option_map string_bytes next) }
{
    match (word, next) {
        (None, _) => Some(Request::Run(Mode::Print)),
        (Some(word), None) => request_named(word.as_str()),
        (Some(_), Some(_)) => None,
    }
}

/// What a word names, if anything.
fn request_named(word: &str) -> Option<Request>
    ensures { result ≡ request_of_word word.now }
{
    match LineMode::from_word(word) {
        Some(mode) => Some(Request::Filter(mode)),
        None => match Mode::from_word(word) {
            Some(mode) => Some(Request::Run(mode)),
            None => None,
        },
    }
}
