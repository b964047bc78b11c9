// Makings, runs and calls of a trial.
use super::Trial;
use engine::{Engine, Finish, Observer, Step, Unsettled, run};
use measure::Measure;
use policy::Policy;
use rules::{Answer, Call};
use std::mem::swap;
use terms::Refusal;

impl<M: Measure + Drop, P: Policy + Drop> Trial<M, P> {
    pub fn new(measure: M, policy: P, figures: &[u32], start: u32) -> Result<Trial<M, P>, Refusal> {
        let engine = Engine::new(measure, policy, figures, start).map_err(|u| u.refusal)?;
        Ok(Trial { engine, hand: None })
    }

    // The engine and the round that a run of these steps hands back, and whether it was complete.
    pub fn after<O: Observer>(
        measure: M,
        policy: P,
        figures: &[u32],
        start: u32,
        steps: &[Step],
        observer: &mut O,
    ) -> Result<(Trial<M, P>, bool), Refusal> {
        let Finish {
            engine,
            round,
            complete,
        } = run(measure, policy, figures, start, steps, observer).map_err(|u| u.refusal)?;
        let trial = Trial {
            engine,
            hand: round,
        };
        Ok((trial, complete))
    }

    // The engine, to be asked questions.
    pub fn engine(&self) -> &Engine<M, P> {
        &self.engine
    }

    // Makes a call, with the round in hand where it is a settle. A settle of a round that is not in hand is refused with no engine asked.
    pub fn perform(&mut self, call: Call) -> Answer {
        self.make(call).unwrap_or_else(Answer::Refused)
    }

    fn make(&mut self, call: Call) -> Result<Answer, Refusal> {
        match call {
            Call::Admit(budget, period) => Ok(self.engine.admit(budget, period)?.into()),
            Call::Wake(number) => Ok(self.engine.wake(number)?.into()),
            Call::Rest(number) => Ok(Answer::Left(self.engine.rest(number)?)),
            Call::Leave(number) => Ok(self.engine.leave(number)?.into()),
            Call::Move(number, core) => Ok(self.engine.migrate(number, core)?.into()),
            Call::Deal => Ok(Answer::Dealt(self.deal()?)),
            Call::Settle(tick) => Ok(Answer::Clock(self.settle(tick)?)),
        }
    }

    // The tick of a round cannot be read: it is the clock's. A round has no Drop, so what replace hands back is taken by a match.
    fn deal(&mut self) -> Result<u32, Refusal> {
        let round = self.engine.deal()?;
        match self.hand.replace(round) {
            None => Ok(self.engine.clock()),
            Some(_) => unreachable(),
        }
    }

    fn settle(&mut self, tick: u32) -> Result<u32, Refusal> {
        if tick != self.engine.clock() {
            return Err(Refusal::WrongRound);
        }
        let round = self.hand.take().ok_or(Refusal::WrongRound)?;
        Ok(self.engine.settle(round).unwrap())
    }

    // Settles the round in hand on the engine of another trial, and says what that answers; none where no round is in hand. Where it is
    // taken the two rounds have changed places, and where it is refused this trial has its round again.
    pub fn offer<N: Measure + Drop, Q: Policy + Drop>(
        &mut self,
        other: &mut Trial<N, Q>,
    ) -> Option<Answer> {
        match other.engine.settle(self.hand.take()?) {
            Ok(clock) => {
                swap(&mut self.hand, &mut other.hand);
                Some(Answer::Clock(clock))
            }
            Err(Unsettled { refusal, round }) => match self.hand.replace(round) {
                None => Some(Answer::Refused(refusal)),
                Some(_) => unreachable(),
            },
        }
    }
}
