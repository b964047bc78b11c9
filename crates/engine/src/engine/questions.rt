// What can be asked of an engine; a question changes nothing.
ghost use Rattle.std.specs.Prelude.{◌≡◌, length};
ghost use Rattle.std.specs.List.{slice_get};
ghost use Rattle.rules.specs.Questions.{bound_of, live_parts_of, departed_parts_of, name_of, record_of, ledger_length};
ghost use Rattle.engine.specs.Engines.{setup, shown};
ghost use Rattle.engine.specs.Names.{eight_names};

use super::Engine;
use crate::inner::Whole;
use measure::Measure;
use policy::Policy;
use rules::Reservation;
use table::Picks;
use terms::Refusal;

impl<M: Measure, P: Policy> Engine<M, P> {
    pub fn clock(&self) -> u32
        ensures { result ≡ (shown self.now).clock }
    {
        self.inner.clock()
    }

    // How many cores there are.
    pub fn cores(&self) -> usize
        ensures { result ≡ length (setup M.Measure.whole M.Measure.price P.Policy.choice self.now).figures }
    {
        self.inner.cores()
    }

    // The bound of a core, in parts.
    pub fn bound(&self, core: u32) -> Result<u32, Refusal>
        ensures { result ≡ bound_of (setup M.Measure.whole M.Measure.price P.Policy.choice self.now) core }
    {
        self.inner.bound_of(core, Whole::of(&self.measure))
    }

    // The parts of a core's live reservations.
    pub fn live_parts(&self, core: u32) -> Result<u64, Refusal>
        ensures { result ≡ live_parts_of (setup M.Measure.whole M.Measure.price P.Policy.choice self.now) (shown self.now) core }
    {
        self.inner.live_parts(core)
    }

    // The parts of a core's departed reservations that it still counts.
    pub fn departed_parts(&self, core: u32) -> Result<u64, Refusal>
        ensures { result ≡ departed_parts_of (setup M.Measure.whole M.Measure.price P.Policy.choice self.now) (shown self.now) core }
    {
        self.inner.departed_parts(core)
    }

    // The reservation that a core is dealt to, none while no round is out.
    pub fn name_dealt(&self, core: u32) -> Result<Option<u32>, Refusal>
        ensures { result ≡ name_of (setup M.Measure.whole M.Measure.price P.Policy.choice self.now) (shown self.now) core }
    {
        self.inner.name_dealt(core)
    }

    // Whom each of eight cores is dealt to, none past the last core and while no round is out.
    pub fn picks(&self) -> Picks
        ensures { result.names ≡ eight_names (shown self.now).names }
    {
        self.inner.picks()
    }

    // The record of a live reservation.
    pub fn reservation(&self, number: u32) -> Result<Reservation, Refusal>
        ensures { result ≡ record_of (shown self.now) number }
    {
        self.inner.reservation(number)
    }

    // How many reservations are live.
    pub fn live_count(&self) -> usize
        ensures { result ≡ length (shown self.now).live }
    {
        self.inner.live_count()
    }

    // The records of the live reservations in number order.
    pub fn live(&self) -> &[Reservation]
        ensures { result.now ≡ (shown self.now).live }
    {
        self.inner.live()
    }

    // The record of the live reservation at this place in number order.
    pub fn live_at(&self, index: usize) -> Option<Reservation>
        ensures { result ≡ slice_get (shown self.now).live index }
    {
        self.inner.live_at(index)
    }

    // How many entries the ledger holds.
    pub fn ledger_len(&self) -> usize
        ensures { result ≡ ledger_length (shown self.now) }
    {
        self.inner.ledger_len()
    }
}
