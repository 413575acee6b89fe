// What is shown of an activity, as its row of the memory holds it.
#![tactic(auto)]

ghost use Rattle.results.specs.Holds.{Holds};

use super::Shown;

// What is shown of an activity, each of its numbers below 2 ^ 63, as a cell of the memory holds one. The definitions speak of `Shown`, which they make of any run's times.
#[derive(Clone, Copy)]
pub struct ShownRow {
    pub shown: Shown,
    ghost holds: { Holds shown },
}

impl ShownRow {
    ghost use Rattle.std.specs.Prelude.{◌≡◌};

    // What is shown, where the memory can hold it.
    pub fn new(shown: Shown) -> ShownRow
        requires { Holds shown }
        ensures { result.shown ≡ shown }
    {
        ShownRow { shown }
    }
}
