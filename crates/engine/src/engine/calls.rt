// The calls of the engine. Each answers as the model does and shows the model's next state; a refusal leaves the engine as it was. What is made and what is kept relate two
// states, so each call says it.
ghost use Rattle.std.specs.Prelude.{◌≡◌, true, is_err};
ghost use Rattle.rules.specs.declared.types.Call.TheVariants.{Admit, Wake, Rest, Leave, Move, Deal, Settle};
ghost use Rattle.rules.specs.Setup.{setup_of};
ghost use Rattle.engine.specs.Answers.{placed, awake, left, departed, dealt, settled, RoundBack};
ghost use Rattle.engine.specs.Shown.{Performed};
ghost use Rattle.engine.specs.Engines.{setup, shown, Making};

use super::Engine;
use crate::answers::{Awake, Departure, Placement, Round, Unmade, Unsettled};
use crate::inner::{Inner, Whole};
use measure::Measure;
use policy::Policy;
use rules::check_making;
use terms::{Refusal, Terms};

impl<M: Measure, P: Policy> Engine<M, P> {
    // An engine with a figure B for each core, whose clock starts at this tick.
    pub fn new(
        measure: M,
        policy: P,
        figures: &[u32],
        start: u32,
    ) -> Result<Engine<M, P>, Unmade<M, P>>
        ensures { Making (setup_of (M.Measure.whole measure) (M.Measure.price measure) (P.Policy.choice policy) figures.now start) measure policy result }
    {
        // The refusal takes the measure and the policy with it, so it is made here and not by a closure.
        match check_making(&measure, &policy, figures, start) {
            Err(refusal) => Err(Unmade {
                refusal,
                measure,
                policy,
            }),
            Ok(()) => Ok(Engine {
                measure,
                policy,
                inner: Inner::new(figures, start),
            }),
        }
    }

    // Admits a reservation of this budget in this period: the measure prices it, and the policy places it.
    pub fn admit(&mut self, budget: u32, period: u32) -> Result<Placement, Refusal>
        ensures next { Performed (setup M.Measure.whole M.Measure.price P.Policy.choice self.old) (shown self.old) (Admit budget period) (placed result) (shown self.new) }
        ensures made { setup M.Measure.whole M.Measure.price P.Policy.choice self.new ≡ setup M.Measure.whole M.Measure.price P.Policy.choice self.old }
        ensures kept { is_err result ≡ true → self.new ≡ self.old }
    {
        let terms = Terms::new(budget, period)?;
        let parts = self.measure.parts(terms).ok_or(Refusal::NotTaken)?;
        self.inner.check_open()?;
        let rooms = self.inner.rooms(Whole::of(&self.measure));
        let core = self.policy.choose(&rooms, parts).ok_or(Refusal::NoRoom)?;
        Ok(self.inner.place(terms, parts, core as u32))
    }

    // Wakes a resting reservation.
    pub fn wake(&mut self, number: u32) -> Result<Awake, Refusal>
        ensures next { Performed (setup M.Measure.whole M.Measure.price P.Policy.choice self.old) (shown self.old) (Wake number) (awake result) (shown self.new) }
        ensures made { setup M.Measure.whole M.Measure.price P.Policy.choice self.new ≡ setup M.Measure.whole M.Measure.price P.Policy.choice self.old }
        ensures kept { is_err result ≡ true → self.new ≡ self.old }
    {
        self.inner.wake(number)
    }

    // Puts a reservation to rest.
    pub fn rest(&mut self, number: u32) -> Result<u32, Refusal>
        ensures next { Performed (setup M.Measure.whole M.Measure.price P.Policy.choice self.old) (shown self.old) (Rest number) (left result) (shown self.new) }
        ensures made { setup M.Measure.whole M.Measure.price P.Policy.choice self.new ≡ setup M.Measure.whole M.Measure.price P.Policy.choice self.old }
        ensures kept { is_err result ≡ true → self.new ≡ self.old }
    {
        self.inner.rest(number)
    }

    // Takes a reservation out.
    pub fn leave(&mut self, number: u32) -> Result<Departure, Refusal>
        ensures next { Performed (setup M.Measure.whole M.Measure.price P.Policy.choice self.old) (shown self.old) (Leave number) (departed result) (shown self.new) }
        ensures made { setup M.Measure.whole M.Measure.price P.Policy.choice self.new ≡ setup M.Measure.whole M.Measure.price P.Policy.choice self.old }
        ensures kept { is_err result ≡ true → self.new ≡ self.old }
    {
        self.inner.leave(number)
    }

    // The call move: the reservation goes to another core.
    pub fn migrate(&mut self, number: u32, core: u32) -> Result<Departure, Refusal>
        ensures next { Performed (setup M.Measure.whole M.Measure.price P.Policy.choice self.old) (shown self.old) (Move number core) (departed result) (shown self.new) }
        ensures made { setup M.Measure.whole M.Measure.price P.Policy.choice self.new ≡ setup M.Measure.whole M.Measure.price P.Policy.choice self.old }
        ensures kept { is_err result ≡ true → self.new ≡ self.old }
    {
        self.inner.migrate(number, core, Whole::of(&self.measure))
    }

    // Deals a round: each core to the ready reservation on it with the earliest deadline.
    pub fn deal(&mut self) -> Result<Round, Refusal>
        ensures next { Performed (setup M.Measure.whole M.Measure.price P.Policy.choice self.old) (shown self.old) Deal (dealt result) (shown self.new) }
        ensures made { setup M.Measure.whole M.Measure.price P.Policy.choice self.new ≡ setup M.Measure.whole M.Measure.price P.Policy.choice self.old }
        ensures kept { is_err result ≡ true → self.new ≡ self.old }
    {
        self.inner.deal()
    }

    // Settles the round that is out: a tick passes. A refusal hands the round back.
    pub fn settle(&mut self, round: Round) -> Result<u32, Unsettled>
        ensures next { Performed (setup M.Measure.whole M.Measure.price P.Policy.choice self.old) (shown self.old) (Settle round.tick) (settled result) (shown self.new) }
        ensures made { setup M.Measure.whole M.Measure.price P.Policy.choice self.new ≡ setup M.Measure.whole M.Measure.price P.Policy.choice self.old }
        ensures kept { is_err result ≡ true → self.new ≡ self.old }
        ensures back { RoundBack round result }
    {
        self.inner.settle(round)
    }
}
