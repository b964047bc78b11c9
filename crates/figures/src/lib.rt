// The worked figures, proved of the definitions and shown by the code.
#![tactic(auto)]

ghost use Rattle.std.specs.Prelude.{◌≡◌, true};
ghost use Rattle.figures.specs.Figures.{Figures};
ghost use Rattle.figures.specs.Parts.{parts_of};

use measure::{Catalogue, Measure, Rounded};
use policy::{BestFit, FirstFit, Policy, WorstFit};
use terms::Terms;

// The parts that a measure has for a budget in a period, or none where these are no terms or are not taken.
pub fn parts<M: Measure>(measure: &M, budget: u32, period: u32) -> Option<u32>
    ensures { result ≡ parts_of (M.Measure.price measure.now) budget period }
{
    measure.parts(Terms::new(budget, period).ok()?)
}

// Whether the rounded measure shows the worked figures.
fn rounded() -> bool
    ensures { result ≡ true }
{
    parts(&Rounded, 1, 3) == Some(349_526)
        && parts(&Rounded, 1, 1_000_000) == Some(2)
        && Rounded.whole() as u64 * 950 / 1000 == 996_147
}

// Whether the catalogue shows them.
fn catalogued() -> bool
    ensures { result ≡ true }
{
    parts(&Catalogue, 5, 7) == Some(715) && parts(&Catalogue, 1, 4) == None
}

// Whether the fits show them.
fn placed() -> bool
    ensures { result ≡ true }
{
    let rooms = [3, 9, 5];
    FirstFit.choose(&rooms, 4) == Some(1)
        && WorstFit.choose(&rooms, 4) == Some(1)
        && BestFit.choose(&rooms, 4) == Some(2)
}

// The worked figures follow from the definitions, and the code shows them.
#[tactic(auto, using(crate::proofs::Computed::figures))]
pub fn worked() -> bool
    ensures figures { Figures }
    ensures shown { result ≡ true }
{
    rounded() && catalogued() && placed()
}

#[cfg(test)]
mod tests;
