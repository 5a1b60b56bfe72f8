//! A boot loader: facts of an image's target, without an allocator.
ghost use Rattle.std.specs.Prelude.{◌≡◌, IfSome, IfNone};
ghost use Rattle.target_lexicon.specs.Parsing.{IsRefused, ParsesAs};
ghost use Rattle.target_lexicon.specs.Values.{Values};
ghost use Rattle.uses.specs.Boot as spec;

use target_lexicon::{BinaryFormat, Endianness, PointerWidth, TripleRef};

/// What a loader has to know of the target of an image.
#[derive(Clone, Copy, PartialEq, Eq)]
pub struct ImageFacts {
    /// The byte order, if it is known.
    pub endianness: Option<Endianness>,
    /// The size of a pointer, if it is known.
    pub pointer_width: Option<PointerWidth>,
    /// The format of the image.
    pub format: BinaryFormat,
}

/// The facts of the target that a string names. `None` if the string is refused.
pub fn image_facts(text: &str) -> Option<ImageFacts>
    ensures found { IfSome result
        (λ facts. (t : Values) × ParsesAs text.now t × (facts ≡ spec.image_facts t)) }
    ensures refused { IfNone result (IsRefused text.now) }
{
    match TripleRef::from_str(text) {
        Ok(triple) => Some(ImageFacts {
            endianness: triple.endianness().ok(),
            pointer_width: triple.pointer_width().ok(),
            format: triple.binary_format,
        }),
        Err(_) => None,
    }
}
