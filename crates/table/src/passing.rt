// The pass of a tick over the rows: it changes only those that it concerns.
ghost use Rattle.std.specs.Prelude.{◌≡◌, ℕ, ◌-◌, ◌<◌, ◌≤◌, true, List, length, map};
ghost use Rattle.std.specs.List.{AllPass};
ghost use Rattle.rules.specs.Setup.{last_tick};
ghost use Rattle.rules.specs.System.{live_limit};
ghost use Rattle.table.specs.declared.keys.Key.{Key};
ghost use Rattle.table.specs.Calls.{is_concerned, ticked};
ghost use Rattle.table.specs.Keys.{filed_on, less_on, waiting_on, Tied};
ghost use Rattle.table.specs.Rows.{fit};

use crate::keys::Queue;
use crate::ready::refile;
use crate::server::{Event, Picks, change, charge, is_ready};
use rules::{MOST_CORES, Reservation, State};

// A tick that passes: the names dealt for it, and what the clock then shows.
#[derive(Clone, Copy)]
pub struct Tick<'a> {
    pub picks: &'a Picks,
    pub clock: u32,
    ghost low: { 1 ≤ clock },
    ghost high: { clock ≤ last_tick },
}

impl Tick<'_> {
    // Passes for each row, and keeps the queues tied to the rows.
    pub fn pass_rows(&self, rows: &mut [Reservation], ready: &mut [Queue; MOST_CORES])
        requires few { length rows.old ≤ live_limit }
        requires fits { AllPass (fit (self.now.clock - 1)) rows.old }
        requires tied { Tied ready.old rows.old }
        ensures rows { rows.new ≡ map (ticked self.now.picks.now.names self.now.clock) rows.old }
        ensures tied { Tied ready.new rows.new }
    {
        for row in rows {
            self.pass_row(row, ready);
        }
    }

    // Passes for one row, whose key is filed anew where it changes.
    fn pass_row(&self, row: &mut Reservation, ready: &mut [Queue; MOST_CORES])
        requires fits { fit (self.now.clock - 1) row.old ≡ true }
        requires room { (c : ℕ) → c < 8 → length (less_on c row.old (waiting_on c ready.old)) < 64 }
        ensures row { row.new ≡ ticked self.now.picks.now.names self.now.clock row.old }
        ensures keys { (c : ℕ) → c < 8 → (ks : List Key) → waiting_on c ready.old ≡ filed_on c row.old ks → waiting_on c ready.new ≡ filed_on c row.new ks }
    {
        if !self.is_concerned(row) {
            return;
        }
        // A ready row with budget for more than this tick keeps its key.
        if is_ready(row) && row.left > 1 {
            charge(row);
            return;
        }
        let old = *row;
        self.change(row);
        refile(ready, &old, row);
    }

    // Whether the tick concerns a row: it is the one named for its core, or spent with its deadline reached.
    fn is_concerned(&self, row: &Reservation) -> bool
        requires { row.now.core < 8 }
        ensures { result ≡ is_concerned self.now.picks.now.names self.now.clock row.now }
    {
        self.picks.names[row.core as usize] == Some(row.number)
            || (row.deadline == self.clock && row.state == State::Spent)
    }

    // Charges a row where it is the one named for its core, and then fills it where it is due.
    fn change(&self, row: &mut Reservation)
        requires { fit (self.now.clock - 1) row.old ≡ true }
        ensures { row.new ≡ ticked self.now.picks.now.names self.now.clock row.old }
    {
        if self.picks.names[row.core as usize] == Some(row.number) {
            let _ = change(row, Event::Charge, self.clock);
        }
        let _ = change(row, Event::Refill, self.clock);
    }
}
