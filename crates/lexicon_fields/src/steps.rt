//! A counter that exists only in contracts.
ghost use Rattle.std.specs.Prelude.{◌≡◌, ℕ, ◌+◌};
ghost use Rattle.std.specs.Borrow.{ftrue};

use std::marker::Model;

/// A counter, for instance of comparisons. It takes no memory and has no upper limit; only contracts see its count.
///
/// [`row_order`](crate::row_order) ticks it once. [`fixed_row`](crate::fixed_row) ticks it exactly as often as it
/// compares a row with the string: at least once, and at most eight times. No clause excludes a comparison without a
/// tick: that only `row_order` compares can be read in the code.
#[derive(Drop)]
pub struct Steps {
    pub ghost count: { ℕ },
}

impl Model for Steps {
    ghost also_owns = { λ _. ftrue };
}

impl Steps {
    /// A counter at 0.
    pub fn new() -> Self
        ensures { result.count ≡ 0 }
    {
        Steps {}
    }

    /// Counts one more step. The count is a number of the proof, and can't overflow.
    pub fn tick(&mut self)
        ensures { self.new.count ≡ self.old.count + 1 }
    {
        // there is nothing to run
    }
}

const _: () = prove!(size_of::<Steps>() == 0);
