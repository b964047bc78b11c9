// The rounds and the steps of a run.
ghost use Rattle.std.specs.Prelude.{is_ok};
ghost use Rattle.rules.specs.Setup.{setup_of};
ghost use Rattle.engine.specs.Driven.{Drove};
ghost use Rattle.engine.specs.Driving.{rounds, stepping, course};
ghost use Rattle.engine.specs.Running.{Running};

use super::{Finish, Runner, Step};
use crate::answers::Unmade;
use crate::engine::Engine;
use crate::observer::Observer;
use measure::Measure;
use policy::Policy;
use rules::Call;
use terms::Refusal;

// Each of these ends at the first deal of a round that is refused. Rounds and steps have a loop of a line each, since one function over a closure would need clauses for every call of it.
impl<M: Measure, P: Policy> Runner<M, P> {
    // Deals a round and settles it.
    fn pass_round<O: Observer>(&mut self, observer: &mut O) -> Result<(), Refusal>
        ensures { Drove M.Measure.whole M.Measure.price P.Policy.choice O.Observer.shows (λ s σ. rounds s σ 1) self.old observer.old (is_ok result) self.new observer.new }
    {
        self.perform(Call::Deal, observer)?;
        let tick = self.engine.clock();
        self.perform(Call::Settle(tick), observer)
    }

    fn pass_rounds<O: Observer>(&mut self, count: u32, observer: &mut O) -> Result<(), Refusal>
        ensures { Drove M.Measure.whole M.Measure.price P.Policy.choice O.Observer.shows (λ s σ. rounds s σ count) self.old observer.old (is_ok result) self.new observer.new }
    {
        for _ in 0..count {
            self.pass_round(observer)?;
        }
        Ok(())
    }

    // Performs a step: its rounds and then its call, where there is one.
    fn perform_step<O: Observer>(&mut self, step: Step, observer: &mut O) -> Result<(), Refusal>
        ensures { Drove M.Measure.whole M.Measure.price P.Policy.choice O.Observer.shows (λ s. stepping s step) self.old observer.old (is_ok result) self.new observer.new }
    {
        self.pass_rounds(step.rounds, observer)?;
        if let Some(call) = step.call {
            // A call that is refused does not end the run.
            let _ = self.perform(call, observer);
        }
        Ok(())
    }

    fn perform_steps<O: Observer>(
        &mut self,
        steps: &[Step],
        observer: &mut O,
    ) -> Result<(), Refusal>
        ensures { Drove M.Measure.whole M.Measure.price P.Policy.choice O.Observer.shows (λ s σ. course s σ steps.now) self.old observer.old (is_ok result) self.new observer.new }
    {
        for step in steps {
            self.perform_step(*step, observer)?;
        }
        Ok(())
    }
}

// Makes an engine and performs the steps on it.
pub fn run<M: Measure, P: Policy, O: Observer>(
    measure: M,
    policy: P,
    figures: &[u32],
    start: u32,
    steps: &[Step],
    observer: &mut O,
) -> Result<Finish<M, P>, Unmade<M, P>>
    ensures { Running M.Measure.whole M.Measure.price P.Policy.choice O.Observer.shows (setup_of (M.Measure.whole measure) (M.Measure.price measure) (P.Policy.choice policy) figures.now start) measure policy steps.now observer.old result observer.new }
{
    let engine = Engine::new(measure, policy, figures, start)?;
    let mut run = Runner { engine, hand: None };
    let complete = run.perform_steps(steps, observer).is_ok();
    let Runner { engine, hand } = run;
    Ok(Finish {
        engine,
        round: hand,
        complete,
    })
}
