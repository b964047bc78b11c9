// The making of terms, and their two figures.
ghost use Rattle.std.specs.Prelude.{◌≡◌, ◌≤◌};
ghost use Rattle.terms.specs.Offer.{offer, shown};

use super::Terms;
use crate::Refusal;

impl Terms {
    pub fn new(budget: u32, period: u32) -> Result<Terms, Refusal>
        ensures { shown result ≡ offer budget period }
    {
        if 1 <= budget && budget <= period && period <= 1_000_000 {
            Ok(Terms { budget, period })
        } else {
            Err(Refusal::Limits)
        }
    }

    pub fn budget(self) -> u32
        ensures answer { result ≡ self.budget }
        ensures low { 1 ≤ result }
        ensures high { result ≤ self.period }
    {
        self.budget
    }

    pub fn period(self) -> u32
        ensures answer { result ≡ self.period }
        ensures low { 1 ≤ result }
        ensures high { result ≤ 1000000 }
    {
        self.period
    }
}
