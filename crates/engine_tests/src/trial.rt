// An engine with the round in hand, none where none is out. A trial that is let go settles its round. It has the engine's public calls alone, so it makes them as a run
// does but for the observer.
ghost use Rattle.engine.specs.Engines.{shown};
ghost use Rattle.engine.specs.Along.{InHand, InHand-prop};

use engine::{Engine, Round};
use measure::Measure;
use policy::Policy;

pub struct Trial<M: Measure + Drop, P: Policy + Drop> {
    engine: Engine<M, P>,
    hand: Option<Round>,
    ghost held: { InHand hand (shown engine) } by { InHand-prop hand (shown engine) },
}

impl<M: Measure + Drop, P: Policy + Drop> Drop for Trial<M, P> {
    fn drop(self) {
        let Trial { mut engine, hand } = self;
        if let Some(round) = hand {
            let _ = engine.settle(round).unwrap();
        }
    }
}

mod calls;
mod checks;

pub use checks::Row;
