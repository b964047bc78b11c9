// The calls on the engine's figures that ask neither measure nor policy. A refusal leaves the figures as they were.
ghost use Rattle.std.specs.Prelude.{◌≡◌, true, false, is_err, MatchResult};
ghost use Rattle.terms.specs.declared.refusals.Refusal.TheVariants.{RoundOut};
ghost use Rattle.rules.specs.Calls.{wake, rest, leave, settle, deal};
ghost use Rattle.engine.specs.Answers.{awake, left, departed, dealt, settled, RoundBack};
ghost use Rattle.engine.specs.View.{view, bare, Follows, Departs};

use super::Inner;
use crate::answers::{Awake, Departure, Round, Unsettled};
use rules::{Entry, LAST_TICK, Reservation};
use table::lapse;
use terms::Refusal;

impl Inner {
    // No round is out.
    pub fn check_settled(&self) -> Result<(), Refusal>
        ensures { MatchResult result (λ _. (view self.now).out ≡ false) (λ e. ((view self.now).out ≡ true) × (e ≡ RoundOut)) }
    {
        if self.round.is_some() {
            return Err(Refusal::RoundOut);
        }
        Ok(())
    }

    pub fn wake(&mut self, number: u32) -> Result<Awake, Refusal>
        ensures next { Follows self.old (wake (view self.old) number) (awake result) self.new }
        ensures kept { is_err result ≡ true → self.new ≡ self.old }
    {
        self.check_settled()?;
        let (state, deadline) = self.table.wake(number)?;
        Ok(Awake { state, deadline })
    }

    pub fn rest(&mut self, number: u32) -> Result<u32, Refusal>
        ensures next { Follows self.old (rest (view self.old) number) (left result) self.new }
        ensures kept { is_err result ≡ true → self.new ≡ self.old }
    {
        self.check_settled()?;
        self.table.rest(number)
    }

    pub fn leave(&mut self, number: u32) -> Result<Departure, Refusal>
        ensures next { Follows self.old (leave (view self.old) number) (departed result) self.new }
        ensures kept { is_err result ≡ true → self.new ≡ self.old }
    {
        self.check_settled()?;
        let row = self.reservation(number)?;
        let departure = self.depart(row)?;
        let _ = self.table.remove(number);
        Ok(departure)
    }

    // Writes the entry that is due for a reservation that leaves its core.
    pub fn depart(&mut self, row: Reservation) -> Result<Departure, Refusal>
        ensures next { Departs self.old row result self.new }
        ensures kept { is_err result ≡ true → self.new ≡ self.old }
    {
        let tick = lapse(&row);
        if tick <= self.table.clock() {
            return Ok(Departure { until: None });
        }
        self.ledger.write(Entry {
            lapse: tick,
            number: row.number,
            core: row.core,
            parts: row.parts,
        })?;
        Ok(Departure { until: Some(tick) })
    }

    pub fn deal(&mut self) -> Result<Round, Refusal>
        ensures next { Follows self.old (deal (bare 0 self.old) (view self.old)) (dealt result) self.new }
        ensures kept { is_err result ≡ true → self.new ≡ self.old }
    {
        self.check_settled()?;
        let tick = self.table.clock();
        if tick == LAST_TICK {
            return Err(Refusal::ClockEnd);
        }
        self.round = Some(self.table.picks(self.figures.len()));
        Ok(Round { tick })
    }

    pub fn settle(&mut self, round: Round) -> Result<u32, Unsettled>
        ensures next { Follows self.old (settle (view self.old) round.tick) (settled result) self.new }
        ensures kept { is_err result ≡ true → self.new ≡ self.old }
        ensures back { RoundBack round result }
    {
        match &self.round {
            Some(picks) if round.tick == self.table.clock() => {
                let Round { tick: _ } = round;
                // A round is dealt only before the last tick.
                let clock = self.table.tick(picks).unwrap();
                self.ledger.purge(clock);
                // Faster than to write None.
                self.round.take();
                Ok(clock)
            }
            _ => Err(Unsettled {
                refusal: Refusal::WrongRound,
                round,
            }),
        }
    }
}
