//! Whether two triples have the same canonical form: a question, where `settle` makes that form.
ghost use Rattle.std.specs.Prelude.{◌≡◌, ◌↔◌, IsTrue};
ghost use Rattle.target_lexicon.specs.FixedPoints.{canonical_values};
ghost use Rattle.target_lexicon.specs.Values.{values_of};
ghost use Rattle.target_lexicon.specs.ValuesRef.{values_of_ref};

use crate::laws::{second_step_changes_one, triple_refs_are_equal_by_value};
use crate::triple::Triple;
use crate::triple_ref::TripleRef;

impl Triple {
    /// Whether both triples have the same canonical form. Nothing is moved, copied or allocated. The cases that
    /// [`Triple::comes_back`] lists give one to a triple whose vendor isn't plain too, but its string is no key.
    // Not in Rust.
    pub fn settles_as(&self, other: &Triple) -> bool
        ensures { IsTrue result
            ↔ (canonical_values (values_of self.now) ≡ canonical_values (values_of other.now)) }
    {
        self.as_triple_ref().settles_as(&other.as_triple_ref())
    }
}

impl TripleRef<'_> {
    /// Whether both triples have the same canonical form, as [`Triple::settles_as`] says.
    ///
    /// # Examples
    ///
    /// ```
    /// use target_lexicon::TripleRef;
    ///
    /// let one = TripleRef::from_str("riscv32imc-esp-espidf").unwrap();
    /// let other = TripleRef::from_str("riscv32imc-esp-espidf-elf").unwrap();
    /// assert!(rt; one != other && one.settles_as(&other));
    /// ```
    #[must_use]
    // In Rust: #[inline].
    // In Rust instead: pub fn settles_as<'t>(&self, other: impl Into<TripleRef<'t>>) -> bool
    pub fn settles_as(&self, other: &TripleRef<'_>) -> bool
        ensures { IsTrue result
            ↔ (canonical_values (values_of_ref self.now)
            ≡ canonical_values (values_of_ref other.now)) }
    {
        triple_refs_are_equal_by_value();
        second_step_changes_one();
        // In Rust instead: self.step() == other.into().step()
        self.step() == other.step()
    }
}
