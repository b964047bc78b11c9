// The calls on the engine's figures that place a reservation on a core. The whole is the measure's.
ghost use Rattle.std.specs.Prelude.{◌≡◌, ◌<◌, true, length, is_err, None, Some, MatchResult};
ghost use Rattle.rules.specs.Calls.{move, admitted, with_newcomer};
ghost use Rattle.rules.specs.Parts.{bound, room, rooms};
ghost use Rattle.engine.specs.Answers.{departed};
ghost use Rattle.engine.specs.View.{view, figures_of, bare, closed_by, Follows};

use super::{Inner, Whole};
use crate::answers::{Departure, Placement};
use arrayvec::ArrayVec;
use rules::{LAST_NUMBER, LIVE_LIMIT, MOST_CORES, WHOLE_FIGURE};
use table::is_behind;
use terms::{Refusal, Terms};

impl Inner {
    // Nothing refuses every newcomer.
    pub fn check_open(&self) -> Result<(), Refusal>
        ensures { MatchResult result (λ _. closed_by (view self.now) ≡ None) (λ e. closed_by (view self.now) ≡ Some e) }
    {
        self.check_settled()?;
        if self.table.len() >= LIVE_LIMIT {
            return Err(Refusal::TooMany);
        }
        if self.given >= LAST_NUMBER {
            return Err(Refusal::NumbersGone);
        }
        Ok(())
    }

    // Admits a reservation of these parts on the core.
    pub fn place(&mut self, terms: Terms, parts: u32, core: u32) -> Placement
        requires { (closed_by (view self.old) ≡ None) × (core < 8) }
        ensures number { result.number ≡ self.new.given }
        ensures core { result.core ≡ core }
        ensures next { view self.new ≡ with_newcomer (view self.old) (admitted (view self.old) terms.budget terms.period parts core) }
        ensures made { (figures_of self.new ≡ figures_of self.old) × (self.new.start ≡ self.old.start) }
    {
        self.given += 1;
        let number = self.given;
        let _ = self.table.admit(number, terms, parts, core);
        Placement { number, core }
    }

    pub fn migrate(&mut self, number: u32, core: u32, whole: Whole) -> Result<Departure, Refusal>
        ensures next { Follows self.old (move (bare whole.parts self.old) (view self.old) number core) (departed result) self.new }
        ensures kept { is_err result ≡ true → self.new ≡ self.old }
    {
        let place = self.core(core)?;
        self.check_settled()?;
        let row = self.reservation(number)?;
        if row.core == core {
            return Err(Refusal::SameCore);
        }
        if is_behind(&row, self.table.clock()) {
            return Err(Refusal::Behind);
        }
        if self.room(place, whole) < row.parts {
            return Err(Refusal::NoRoom);
        }
        let departure = self.depart(row)?;
        let _ = self.table.transfer(number, core);
        Ok(departure)
    }

    // The rooms of the cores.
    pub fn rooms(&self, whole: Whole) -> ArrayVec<u32, MOST_CORES>
        ensures { result.items ≡ rooms (bare whole.parts self.now) (view self.now) }
    {
        // Pushed one by one, since to collect or to extend may fail, and these never do.
        let mut rooms = ArrayVec::new();
        for core in 0..self.figures.len() {
            rooms.push(self.room(core, whole));
        }
        rooms
    }

    // The room of a core: its bound less its live and its departed parts.
    fn room(&self, core: usize, whole: Whole) -> u32
        requires { core < length (figures_of self.now) }
        ensures { result ≡ room (bare whole.parts self.now) (view self.now) core }
    {
        let live = self.table.live_parts(core as u32);
        let departed = self.ledger.departed(self.table.clock(), core as u32);
        (self.bound(core, whole) as u64)
            .saturating_sub(live)
            .saturating_sub(departed) as u32
    }

    // The bound of a core.
    pub fn bound(&self, core: usize, whole: Whole) -> u32
        requires { core < length (figures_of self.now) }
        ensures { result ≡ bound (bare whole.parts self.now) core }
    {
        (whole.parts() as u64 * self.figures[core] as u64 / WHOLE_FIGURE as u64) as u32
    }
}
