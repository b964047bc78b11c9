// The making of an engine: what refuses it, and the law that holds of every engine made.
ghost use Rattle.std.specs.Prelude.{◌≡◌};
ghost use Rattle.std.specs.Result.{result_err};
ghost use Rattle.rules.specs.Setup.{figures_fit, making, setup_of};
ghost use Rattle.rules.specs.Share.{MadeShares};

use crate::limits::{LAST_TICK, MOST_CORES, WHOLE_FIGURE};
use measure::Measure;
use policy::Policy;
use terms::Refusal;

// Each figure B is 1 to 1,000.
fn figures_fit(figures: &[u32]) -> bool
    ensures { result ≡ figures_fit figures.now }
{
    figures
        .iter()
        .all(|figure| (1..=WHOLE_FIGURE).contains(figure))
}

// Whether an engine may be made with a figure B for each core and this first tick, or what refuses it, and the share law of
// every engine made so.
pub fn check_making<M: Measure, P: Policy>(
    measure: &M,
    policy: &P,
    figures: &[u32],
    start: u32,
) -> Result<(), Refusal>
    ensures answer { result_err result ≡ making figures.now start }
    ensures share { MadeShares (setup_of (M.Measure.whole measure.now) (M.Measure.price measure.now) (P.Policy.choice policy.now) figures.now start) }
{
    if !(1..=MOST_CORES).contains(&figures.len()) {
        return Err(Refusal::Cores);
    }
    if !figures_fit(figures) {
        return Err(Refusal::Bandwidth);
    }
    if start > LAST_TICK {
        return Err(Refusal::Start);
    }
    Ok(())
}
