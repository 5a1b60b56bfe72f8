//! The type of the modes that answer each line by itself, which a filter can have too.
ghost use Rattle.std.specs.Prelude.{◌≡◌};

/// What is written for each line.
#[derive(Clone, Copy, Debug, PartialEq, Eq)]
pub enum LineMode {
    /// The printed triple.
    Print,
    /// The printed triple, its byte order, pointer width, calling convention and data model.
    Show,
    /// The canonical triple, printed.
    Settle,
}

impl LineMode {
    ghost use Rattle.triples.specs.Words.{line_mode_from_word};

    /// The mode in which the word asks for a filter, if any.
    pub fn from_word(word: &str) -> Option<LineMode>
        ensures { result ≡ line_mode_from_word word.now }
    {
        match word {
            "stream" => Some(LineMode::Print),
            "stream-show" => Some(LineMode::Show),
            "stream-settle" => Some(LineMode::Settle),
            _ => None,
        }
    }
}
