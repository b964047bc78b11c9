// One call of a run, of which the observer is told.
ghost use Rattle.std.specs.Prelude.{is_ok};
ghost use Rattle.rules.specs.declared.types.Answer.TheVariants.{Dealt, Clock};
ghost use Rattle.rules.specs.declared.types.Call.TheVariants.{Deal, Settle};
ghost use Rattle.engine.specs.Answers.{answer_by};
ghost use Rattle.engine.specs.Driven.{Called, Drove};
ghost use Rattle.engine.specs.Driving.{trying};

use super::Runner;
use crate::observer::Observer;
use measure::Measure;
use policy::Policy;
use rules::{Answer, Call};
use terms::Refusal;

impl<M: Measure, P: Policy> Runner<M, P> {
    // Makes a call and tells the observer what it answers, and whom a deal named. In line, as a round's two calls are known.
    #[inline(always)]
    pub fn perform<O: Observer>(&mut self, call: Call, observer: &mut O) -> Result<(), Refusal>
        ensures { Drove M.Measure.whole M.Measure.price P.Policy.choice O.Observer.shows (trying call) self.old observer.old (is_ok result) self.new observer.new }
    {
        let tick = self.engine.clock();
        let answer = self.make(call).unwrap_or_else(Answer::Refused);
        observer.said(tick, call, answer);
        match answer {
            Answer::Refused(refusal) => Err(refusal),
            Answer::Dealt(_) => {
                let picks = self.engine.picks();
                observer.dealt(&picks.names[0..self.engine.cores()]);
                Ok(())
            }
            _ => Ok(()),
        }
    }

    // Makes a call. Calls are data that a plan names, so they are matched on. In line as well.
    #[inline(always)]
    fn make(&mut self, call: Call) -> Result<Answer, Refusal>
        ensures { Called M.Measure.whole M.Measure.price P.Policy.choice call self.old (answer_by (λ a. a) result) self.new }
    {
        match call {
            Call::Admit(budget, period) => Ok(self.engine.admit(budget, period)?.into()),
            Call::Wake(number) => Ok(self.engine.wake(number)?.into()),
            Call::Rest(number) => Ok(Answer::Left(self.engine.rest(number)?)),
            Call::Leave(number) => Ok(self.engine.leave(number)?.into()),
            Call::Move(number, core) => Ok(self.engine.migrate(number, core)?.into()),
            Call::Deal => Ok(Answer::Dealt(self.deal()?)),
            Call::Settle(tick) => Ok(Answer::Clock(self.settle(tick)?)),
        }
    }

    // Deals a round, which is in hand then.
    fn deal(&mut self) -> Result<u32, Refusal>
        ensures { Called M.Measure.whole M.Measure.price P.Policy.choice Deal self.old (answer_by Dealt result) self.new }
    {
        let round = self.engine.deal()?;
        let tick = round.tick;
        // A round that was in hand could not be let go, but none was.
        match self.hand.replace(round) {
            None => Ok(tick),
            Some(_) => unreachable(),
        }
    }

    // Settles the round in hand, where it was dealt at this tick.
    fn settle(&mut self, tick: u32) -> Result<u32, Refusal>
        ensures { Called M.Measure.whole M.Measure.price P.Policy.choice (Settle tick) self.old (answer_by Clock result) self.new }
    {
        if tick != self.engine.clock() {
            return Err(Refusal::WrongRound);
        }
        let round = self.hand.take().ok_or(Refusal::WrongRound)?;
        // The round in hand is the one that is out.
        Ok(self.engine.settle(round).unwrap())
    }
}
