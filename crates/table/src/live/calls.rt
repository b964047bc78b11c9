// The calls on a table: a refusal leaves it as it was.
ghost use Rattle.std.specs.Prelude.{◌≡◌, true, is_err};
ghost use Rattle.rules.specs.Lists.{without};
ghost use Rattle.table.specs.Calls.{opening, newcomer, admit_answer, admit_live, wake_answer, wake_live, rest_answer, rest_live, remove_answer, transfer_answer, transfer_live, tick_answer, tick_clock, tick_live};
ghost use Rattle.table.specs.View.{clock_of, live_of, shown};

use super::Table;
use crate::keys::Queue;
use crate::passing::Tick;
use crate::ready::unfile;
use crate::server::{Event, Picks};
use arrayvec::ArrayVec;
use rules::{LAST_TICK, MOST_CORES, Reservation, State};
use terms::{Refusal, Terms};

impl Table {
    // A table with none live, whose clock starts at this tick.
    pub fn new(start: u32) -> Result<Table, Refusal>
        ensures { shown result ≡ opening start }
    {
        if start > LAST_TICK {
            return Err(Refusal::Start);
        }
        Ok(Table {
            clock: start,
            rows: ArrayVec::new(),
            ready: [Queue::new(); MOST_CORES],
        })
    }

    // Appends a resting reservation on this core.
    pub fn admit(&mut self, number: u32, terms: Terms, parts: u32, core: u32) -> Result<(), Refusal>
        ensures answer { result ≡ admit_answer core (live_of self.old) }
        ensures clock { clock_of self.new ≡ clock_of self.old }
        ensures live { live_of self.new ≡ admit_live (newcomer (clock_of self.old) number terms.budget terms.period parts core) (live_of self.old) }
        ensures same { is_err result ≡ true → self.new ≡ self.old }
    {
        if core as usize >= MOST_CORES {
            return Err(Refusal::NoCore);
        }
        if self.rows.is_full() {
            return Err(Refusal::TooMany);
        }
        self.rows.push(Reservation {
            number,
            budget: terms.budget(),
            period: terms.period(),
            parts,
            core,
            left: 0,
            deadline: self.clock,
            ran: 0,
            state: State::Resting,
        });
        Ok(())
    }

    // Wakes a resting reservation, and tells its state and its deadline.
    pub fn wake(&mut self, number: u32) -> Result<(State, u32), Refusal>
        ensures answer { result ≡ wake_answer number (clock_of self.old) (live_of self.old) }
        ensures clock { clock_of self.new ≡ clock_of self.old }
        ensures live { live_of self.new ≡ wake_live number (clock_of self.old) (live_of self.old) }
        ensures same { is_err result ≡ true → self.new ≡ self.old }
    {
        let row = self.apply(number, Event::Wake)?;
        Ok((row.state, row.deadline))
    }

    // Puts a reservation to rest, and tells the budget that it has left.
    pub fn rest(&mut self, number: u32) -> Result<u32, Refusal>
        ensures answer { result ≡ rest_answer number (live_of self.old) }
        ensures clock { clock_of self.new ≡ clock_of self.old }
        ensures live { live_of self.new ≡ rest_live number (live_of self.old) }
        ensures same { is_err result ≡ true → self.new ≡ self.old }
    {
        let row = self.apply(number, Event::Rest)?;
        Ok(row.left)
    }

    // Takes a reservation out; the others stay in order.
    pub fn remove(&mut self, number: u32) -> Result<Reservation, Refusal>
        ensures answer { result ≡ remove_answer number (live_of self.old) }
        ensures clock { clock_of self.new ≡ clock_of self.old }
        ensures live { live_of self.new ≡ without number (live_of self.old) }
        ensures same { is_err result ≡ true → self.new ≡ self.old }
    {
        let place = self.seek(number)?;
        let row = self.rows.remove(place);
        unfile(&mut self.ready, &row);
        Ok(row)
    }

    // Puts a reservation on another core.
    pub fn transfer(&mut self, number: u32, core: u32) -> Result<(), Refusal>
        ensures answer { result ≡ transfer_answer number core (live_of self.old) }
        ensures clock { clock_of self.new ≡ clock_of self.old }
        ensures live { live_of self.new ≡ transfer_live number core (live_of self.old) }
        ensures same { is_err result ≡ true → self.new ≡ self.old }
    {
        if core as usize >= MOST_CORES {
            return Err(Refusal::NoCore);
        }
        let place = self.seek(number)?;
        let mut row = self.rows[place];
        row.core = core;
        self.replace(place, row);
        Ok(())
    }

    // Lets a tick pass: the ones named are charged, and the spent whose deadline the clock reaches are filled.
    pub fn tick(&mut self, picks: &Picks) -> Result<u32, Refusal>
        ensures answer { result ≡ tick_answer (clock_of self.old) }
        ensures clock { clock_of self.new ≡ tick_clock (clock_of self.old) }
        ensures live { live_of self.new ≡ tick_live picks.now.names (clock_of self.old) (live_of self.old) }
        ensures same { is_err result ≡ true → self.new ≡ self.old }
    {
        if self.clock == LAST_TICK {
            return Err(Refusal::ClockEnd);
        }
        self.clock += 1;
        let tick = Tick {
            picks,
            clock: self.clock,
        };
        tick.pass_rows(&mut self.rows, &mut self.ready);
        Ok(self.clock)
    }
}
