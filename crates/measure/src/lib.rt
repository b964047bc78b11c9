// Measures of terms: how many parts of a core's whole a reservation needs.
#![tactic(auto)]

ghost use Rattle.std.specs.Prelude.{◌≡◌, ℕ, Option};
ghost use Rattle.measure.specs.Laws.{Lawful};

mod rounding;
mod rows;

pub use rounding::Rounded;
pub use rows::Catalogue;
use terms::Terms;

// A whole, and the parts of the terms that the measure takes.
pub trait Measure {
    ghost whole: { Self → ℕ };

    // The parts of a budget in a period, or none where the measure does not take them.
    ghost price: { Self → ℕ → ℕ → Option ℕ };

    fn whole(&self) -> u32
        ensures { result ≡ whole self.now };

    fn parts(&self, terms: Terms) -> Option<u32>
        ensures { result ≡ price self.now terms.budget terms.period };

    ghost lawful: { (x : Self) → Lawful (whole x) (price x) };
}
