// Runs: a list of steps performed on an engine, before an observer.
ghost use Rattle.engine.specs.Engines.{shown};
ghost use Rattle.engine.specs.Along.{InHand, InHand-prop};

use crate::answers::Round;
use crate::engine::Engine;
use rules::Call;

// One step of a run: so many rounds are dealt and settled, and then the call is made, where there is one.
#[derive(Clone, Copy)]
pub struct Step {
    pub rounds: u32,
    pub call: Option<Call>,
}

// The end of a run: the engine, the round that is still out, and whether no deal of a round was refused. A run that was cut off hands back the same things.
pub struct Finish<M, P> {
    pub engine: Engine<M, P>,
    pub round: Option<Round>,
    pub complete: bool,
}

// An engine with the round in hand, none where none is out.
struct Runner<M, P> {
    engine: Engine<M, P>,
    hand: Option<Round>,
    ghost held: { InHand hand (shown engine) } by { InHand-prop hand (shown engine) },
}

mod calls;
mod steps;

pub use steps::run;
