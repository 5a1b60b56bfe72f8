//! One step of parsing: a state that takes one part after the other. `parse` goes through the parts of a string.
ghost use Rattle.std.specs.Prelude.{◌≡◌, None, Some, IfOk, IfErr, IfSome};
ghost use Rattle.target_lexicon.specs.Explanation.{FromPart, part_value, same_sources, sources_of, NotGiven};
ghost use Rattle.target_lexicon.specs.Explanation.{with_source};
ghost use Rattle.target_lexicon.specs.Parsing.{expected_after};
ghost use Rattle.target_lexicon.specs.GreedyReading.{IsNotTaken, IsTaken, field_for, finished, finished_sources};
ghost use Rattle.target_lexicon.specs.GreedyReading.{with_value};
ghost use Rattle.target_lexicon.specs.Private.{is_open_at};
ghost use Rattle.target_lexicon.specs.Field as field;
ghost use Rattle.target_lexicon.specs.Values.{unknown_values};
ghost use Rattle.target_lexicon.specs.ValuesRef.{values_of_ref};

use crate::explanation::{Source, Sources, TextPart};
use crate::refusal::Refusal;
use crate::triple_ref::TripleRef;
use lexicon_fields::{Field, OperatingSystem, Steps, VendorRef, fixed_row};

/// The fields that the parts so far fill, the others `Unknown`; and the first field that is still open.
#[doc(hidden)]
#[derive(Clone, Copy, Debug)]
pub struct Reading<'a> {
    pub expected: Option<Field>,
    pub triple: TripleRef<'a>,
    pub sources: Sources<'a>,
}

impl<'a> Reading<'a> {
    pub fn start() -> Reading<'a>
        ensures expected { result.expected ≡ Some field.Architecture }
        ensures values { values_of_ref result.triple ≡ unknown_values }
        ensures sources { sources_of result.sources ≡ same_sources NotGiven }
    {
        Reading {
            expected: Some(Field::Architecture),
            triple: TripleRef::unknown(),
            sources: Sources {
                architecture: Source::NotGiven,
                vendor: Source::NotGiven,
                operating_system: Source::NotGiven,
                environment: Source::NotGiven,
                binary_format: Source::NotGiven,
            },
        }
    }

    /// Notes that this part fills a field, and which one is expected after it.
    #[inline(always)]
    fn fill(&mut self, field: Field, part: TextPart<'a>)
        ensures expected { self.new.expected ≡ expected_after field }
        ensures triple { self.new.triple ≡ self.old.triple }
        ensures sources { sources_of self.new.sources
            ≡ with_source field (FromPart (part_value part.entry)) (sources_of self.old.sources) }
    {
        let source = Source::Part(part);
        match field {
            Field::Architecture => self.sources.architecture = source,
            Field::Vendor => self.sources.vendor = source,
            Field::OperatingSystem => self.sources.operating_system = source,
            Field::Environment => self.sources.environment = source,
            Field::BinaryFormat => self.sources.binary_format = source,
        }
        self.expected = match field {
            Field::Architecture => Some(Field::Vendor),
            Field::Vendor => Some(Field::OperatingSystem),
            Field::OperatingSystem => Some(Field::Environment),
            Field::Environment => Some(Field::BinaryFormat),
            Field::BinaryFormat => None,
        };
    }

    /// Takes a part into the first field that is open and that it parses as. `Err` if there is none; nothing changes
    /// then. A part that has a row in the table of names is looked up once, and the comparisons aren't counted.
    #[inline(always)]
    pub fn take(&mut self, part: TextPart<'a>) -> Result<(), Refusal<'a>>
        ensures taken { IfOk result
            (λ _. IsTaken (part_value part.entry) self.old self.new) }
        ensures refused { IfErr result
            (λ it. IsNotTaken (part_value part.entry) self.old it) }
        ensures same { IfErr result (λ _. self.new ≡ self.old) }
    {
        if let Some(expected) = self.expected {
            if let Some(field) = self.triple.set_open_field(part.text, expected) {
                self.fill(field, part);
                return Ok(());
            }
        }
        Err(Refusal {
            expected: self.expected,
            part,
        })
    }

    /// The triple of the parts so far, and its sources. Without a binary format it has the implied one.
    #[inline(always)]
    pub fn finish(self) -> (TripleRef<'a>, Sources<'a>)
        ensures triple { values_of_ref result.0
            ≡ finished self.entry.expected (values_of_ref self.entry.triple) }
        ensures sources { sources_of result.1
            ≡ finished_sources self.entry.expected (sources_of self.entry.sources) }
    {
        let mut triple = self.triple;
        let mut sources = self.sources;
        if self.expected.is_some() {
            triple.binary_format = triple.default_binary_format();
            sources.binary_format = Source::Implied;
        }
        (triple, sources)
    }
}

impl<'a> TripleRef<'a> {
    /// Gives the first open field that the string parses as its value, and returns the field.
    #[inline(always)]
    fn set_open_field(&mut self, text: &'a str, expected: Field) -> Option<Field>
        ensures field { result ≡ field_for (Some expected) text.entry.now }
        ensures set { IfSome result (λ it. values_of_ref self.new
            ≡ with_value it text.entry.now (values_of_ref self.old)) }
        ensures same { result ≡ None → self.new ≡ self.old }
    {
        match fixed_row(text, &mut Steps::new()) {
            Some(row) => {
                // whether the row has a value, and then whether its field is open: the compilers know the first from
                // the row's meaning, so a line takes fewer instructions and fewer branches are mispredicted
                if let Some(architecture) = row.architecture {
                    if is_open(Field::Architecture, expected) {
                        self.architecture = architecture;
                        return Some(Field::Architecture);
                    }
                }
                if let Some(vendor) = row.vendor {
                    if is_open(Field::Vendor, expected) {
                        self.vendor = VendorRef::Known(vendor);
                        return Some(Field::Vendor);
                    }
                }
                if let Some(operating_system) = row.operating_system {
                    if is_open(Field::OperatingSystem, expected) {
                        self.operating_system = operating_system;
                        return Some(Field::OperatingSystem);
                    }
                }
                if let Some(environment) = row.environment {
                    if is_open(Field::Environment, expected) {
                        self.environment = environment;
                        return Some(Field::Environment);
                    }
                }
                if let Some(binary_format) = row.binary_format {
                    if is_open(Field::BinaryFormat, expected) {
                        self.binary_format = binary_format;
                        return Some(Field::BinaryFormat);
                    }
                }
            }
            // an arm for each field, by which the kit's compiler sees that these calls repeat the look-up, and drops
            // it, except after a part that is no vendor
            None => match expected {
                Field::Vendor => {
                    if let Ok(vendor) = VendorRef::from_str(text) {
                        self.vendor = vendor;
                        return Some(Field::Vendor);
                    }
                    if let Ok(operating_system) = OperatingSystem::from_str(text) {
                        self.operating_system = operating_system;
                        return Some(Field::OperatingSystem);
                    }
                }
                Field::OperatingSystem => {
                    if let Ok(operating_system) = OperatingSystem::from_str(text) {
                        self.operating_system = operating_system;
                        return Some(Field::OperatingSystem);
                    }
                }
                Field::Architecture | Field::Environment | Field::BinaryFormat => {}
            },
        }
        None
    }
}

/// Whether a part can fill the field where this one is expected.
#[inline(always)]
fn is_open(field: Field, expected: Field) -> bool
    ensures { result ≡ is_open_at expected field }
{
    match field {
        Field::Architecture => expected == Field::Architecture,
        Field::Vendor => expected == Field::Vendor,
        Field::OperatingSystem => matches!(expected, Field::Vendor | Field::OperatingSystem),
        Field::Environment => expected != Field::Architecture && expected != Field::BinaryFormat,
        Field::BinaryFormat => expected != Field::Architecture,
    }
}
