// The rounded measure: the budget's share of the whole, rounded up.
ghost use Rattle.measure.specs.Meanings.{rounded_whole, rounded};
ghost use Rattle.measure.specs.Quotients.{rounded_lawful};

use crate::Measure;
use terms::Terms;

#[derive(Clone, Copy, Debug)]
pub struct Rounded;

impl Measure for Rounded {
    ghost whole = { λ _. rounded_whole };

    ghost price = { λ _. rounded };

    ghost lawful = { λ _. rounded_lawful };

    fn whole(&self) -> u32 {
        1_048_576
    }

    fn parts(&self, terms: Terms) -> Option<u32> {
        let share = terms.budget() as u64 * self.whole() as u64;
        Some(share.div_ceil(terms.period() as u64) as u32)
    }
}
