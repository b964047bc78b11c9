// What can be asked of the engine's figures. The whole is the measure's.
ghost use Rattle.std.specs.Prelude.{◌≡◌, ◌<◌, ◌≤◌, length, MatchResult};
ghost use Rattle.std.specs.List.{slice_get};
ghost use Rattle.terms.specs.declared.refusals.Refusal.TheVariants.{NoCore};
ghost use Rattle.rules.specs.Questions.{bound_of, live_parts_of, departed_parts_of, name_of, record_of, ledger_length};
ghost use Rattle.engine.specs.View.{view, figures_of, bare};
ghost use Rattle.engine.specs.Names.{eight_names};

use super::{Inner, Whole};
use rules::{MOST_CORES, Reservation};
use table::Picks;
use terms::Refusal;

// No core is dealt to anyone.
const NO_PICKS: Picks = Picks {
    names: [None; MOST_CORES],
};

impl Inner {
    pub fn cores(&self) -> usize
        ensures { result ≡ length (figures_of self.now) }
    {
        self.figures.len()
    }

    pub fn clock(&self) -> u32
        ensures { result ≡ (view self.now).clock }
    {
        self.table.clock()
    }

    // The place of a core, where there is one.
    pub fn core(&self, core: u32) -> Result<usize, Refusal>
        ensures { MatchResult result (λ i. (i ≡ core) × (core < length (figures_of self.now))) (λ e. (length (figures_of self.now) ≤ core) × (e ≡ NoCore)) }
    {
        if core as usize >= self.figures.len() {
            return Err(Refusal::NoCore);
        }
        Ok(core as usize)
    }

    pub fn bound_of(&self, core: u32, whole: Whole) -> Result<u32, Refusal>
        ensures { result ≡ bound_of (bare whole.parts self.now) core }
    {
        let place = self.core(core)?;
        Ok(self.bound(place, whole))
    }

    pub fn live_parts(&self, core: u32) -> Result<u64, Refusal>
        ensures { result ≡ live_parts_of (bare 0 self.now) (view self.now) core }
    {
        self.core(core)?;
        Ok(self.table.live_parts(core))
    }

    pub fn departed_parts(&self, core: u32) -> Result<u64, Refusal>
        ensures { result ≡ departed_parts_of (bare 0 self.now) (view self.now) core }
    {
        self.core(core)?;
        Ok(self.ledger.departed(self.table.clock(), core))
    }

    pub fn name_dealt(&self, core: u32) -> Result<Option<u32>, Refusal>
        ensures { result ≡ name_of (bare 0 self.now) (view self.now) core }
    {
        let index = self.core(core)?;
        // One name of the eight, with no copy of them all.
        match &self.round {
            Some(picks) => Ok(picks.names[index]),
            None => Ok(None),
        }
    }

    pub fn picks(&self) -> Picks
        ensures { result.names ≡ eight_names (view self.now).names }
    {
        self.round.unwrap_or(NO_PICKS)
    }

    pub fn reservation(&self, number: u32) -> Result<Reservation, Refusal>
        ensures { result ≡ record_of (view self.now) number }
    {
        self.table.find(number).ok_or(Refusal::NoReservation)
    }

    pub fn live(&self) -> &[Reservation]
        ensures { result.now ≡ (view self.now).live }
    {
        self.table.live()
    }

    pub fn live_at(&self, index: usize) -> Option<Reservation>
        ensures { result ≡ slice_get (view self.now).live index }
    {
        self.table.row(index)
    }

    pub fn ledger_len(&self) -> usize
        ensures { result ≡ ledger_length (view self.now) }
    {
        self.ledger.len()
    }

    pub fn live_count(&self) -> usize
        ensures { result ≡ length (view self.now).live }
    {
        self.table.len()
    }
}
