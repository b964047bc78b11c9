// What was answered, as the answer that a run tells.
ghost use Rattle.std.specs.Prelude.{◌≡◌};
ghost use Rattle.rules.specs.declared.types.Answer.TheVariants.{Placed, Awake as WasAwake};
ghost use Rattle.engine.specs.Answers.{departure_said};

use super::{Awake, Departure, Placement};
use rules::Answer;

impl From<Placement> for Answer {
    ghost from_gives = { λ p a. a ≡ Placed p.number p.core };

    fn from(placement: Placement) -> Answer {
        Answer::Placed(placement.number, placement.core)
    }
}

impl From<Awake> for Answer {
    ghost from_gives = { λ w a. a ≡ WasAwake w.state w.deadline };

    fn from(woken: Awake) -> Answer {
        Answer::Awake(woken.state, woken.deadline)
    }
}

impl From<Departure> for Answer {
    ghost from_gives = { λ d a. a ≡ departure_said d };

    fn from(departure: Departure) -> Answer {
        departure.until.map_or(Answer::Free, Answer::Until)
    }
}
