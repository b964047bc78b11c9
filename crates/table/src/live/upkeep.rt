// What the calls share: the place of a reservation, another row in its place, and an event on it.
ghost use Rattle.std.specs.Prelude.{◌≡◌, ◌<◌, true, length, is_err, ◌==◌, slice_set};
ghost use Rattle.std.specs.List.{position};
ghost use Rattle.std.specs.Option.{ok_or};
ghost use Rattle.rules.specs.declared.types.Reservation.{Reservation};
ghost use Rattle.terms.specs.declared.refusals.Refusal.TheVariants.{NoReservation};
ghost use Rattle.table.specs.Calls.{event_answer, event_live};
ghost use Rattle.table.specs.Events.{after_event};
ghost use Rattle.table.specs.Rows.{fit};
ghost use Rattle.table.specs.View.{clock_of, live_of};

use super::Table;
use crate::ready::refile;
use crate::server::{Event, change};
use rules::Reservation;
use terms::Refusal;

impl Table {
    // The place of the reservation with this number.
    pub(super) fn seek(&self, number: u32) -> Result<usize, Refusal>
        ensures { result ≡ ok_or (position (λ r. r.number == number) (live_of self.now)) NoReservation }
    {
        self.rows
            .iter()
            .position(|row| row.number == number)
            .ok_or(Refusal::NoReservation)
    }

    // Puts another row in the place of one, and its key into the queues in the place of that one's.
    pub(super) fn replace(&mut self, place: usize, row: Reservation)
        requires within { place < length (live_of self.old) }
        requires fits { fit (clock_of self.old) row ≡ true }
        ensures clock { clock_of self.new ≡ clock_of self.old }
        ensures live { live_of self.new ≡ slice_set (live_of self.old) place row }
    {
        let old = self.rows[place];
        self.rows[place] = row;
        refile(&mut self.ready, &old, &row);
    }

    // Changes a reservation by an event, unless the event is refused, and tells what it is then.
    pub(super) fn apply(&mut self, number: u32, event: Event) -> Result<Reservation, Refusal>
        requires { (r : Reservation) → fit (clock_of self.old) r ≡ true → fit (clock_of self.old) (after_event event (clock_of self.old) r) ≡ true }
        ensures answer { result ≡ event_answer event number (clock_of self.old) (live_of self.old) }
        ensures clock { clock_of self.new ≡ clock_of self.old }
        ensures live { live_of self.new ≡ event_live event number (clock_of self.old) (live_of self.old) }
        ensures same { is_err result ≡ true → self.new ≡ self.old }
    {
        let place = self.seek(number)?;
        let mut row = self.rows[place];
        change(&mut row, event, self.clock)?;
        self.replace(place, row);
        Ok(row)
    }
}
