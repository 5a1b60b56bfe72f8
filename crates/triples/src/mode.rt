//! The modes of the program.
ghost use Rattle.std.specs.Prelude.{◌≡◌};

/// What the program writes for its input.
#[derive(Clone, Copy, Debug, PartialEq, Eq)]
pub enum Mode {
    /// The printed triple of each line.
    Print,
    /// The printed triple of each line, its byte order, pointer width, calling convention and data model.
    Show,
    /// The canonical triple of each line, printed.
    Settle,
    /// The triples of a JSON list of strings, printed, as a JSON list.
    Json,
    /// Each canonical triple once, printed, at its first line.
    Matrix,
}

impl Mode {
    ghost use Rattle.triples.specs.Words.{mode_from_word};

    /// The mode that the word names, if any.
    pub fn from_word(word: &str) -> Option<Mode>
        ensures { result ≡ mode_from_word word.now }
    {
        match word {
            "print" => Some(Mode::Print),
            "show" => Some(Mode::Show),
            "settle" => Some(Mode::Settle),
            "json" => Some(Mode::Json),
            "matrix" => Some(Mode::Matrix),
            _ => None,
        }
    }
}
