// What can be asked of a table; a question changes nothing.
ghost use Rattle.std.specs.Prelude.{◌≡◌, ◌<◌, ◌≤◌, length};
ghost use Rattle.std.specs.List.{slice_get};
ghost use Rattle.std.specs.Option.{option_map};
ghost use Rattle.rules.specs.Dealing.{pick};
ghost use Rattle.rules.specs.Lists.{find};
ghost use Rattle.rules.specs.Parts.{live_parts};
ghost use Rattle.rules.specs.Setup.{last_tick};
ghost use Rattle.rules.specs.System.{live_limit};
ghost use Rattle.table.specs.Calls.{dealt};
ghost use Rattle.table.specs.View.{clock_of, live_of};

use super::Table;
use crate::server::Picks;
use rules::Reservation;
use std::array;

impl Table {
    pub fn clock(&self) -> u32
        ensures answer { result ≡ clock_of self.now }
        ensures high { result ≤ last_tick }
    {
        self.clock
    }

    // How many reservations are live.
    pub fn len(&self) -> usize
        ensures answer { result ≡ length (live_of self.now) }
        ensures high { result ≤ live_limit }
    {
        self.rows.len()
    }

    // The live reservation with this number.
    pub fn find(&self, number: u32) -> Option<Reservation>
        ensures { result ≡ find number (live_of self.now) }
    {
        // A loop over the slice, which takes fewer steps a row than a chain does.
        let rows = self.live();
        for row in rows {
            if row.number == number {
                return Some(*row);
            }
        }
        None
    }

    // The live reservations in order.
    pub fn live(&self) -> &[Reservation]
        ensures { result.now ≡ live_of self.now }
    {
        &self.rows
    }

    // The live reservation at this place.
    pub fn row(&self, index: usize) -> Option<Reservation>
        ensures { result ≡ slice_get (live_of self.now) index }
    {
        self.rows.get(index).copied()
    }

    // The parts of the live reservations on this core.
    pub fn live_parts(&self, core: u32) -> u64
        ensures { result ≡ live_parts core (live_of self.now) }
    {
        // A loop, which takes half the time of a chain that filters and sums.
        let rows = self.live();
        let mut parts = 0;
        for row in rows {
            if row.core == core {
                parts += row.parts as u64;
            }
        }
        parts
    }

    // Whom each of the first `cores` cores is dealt to, of eight at most.
    pub fn picks(&self, cores: usize) -> Picks
        ensures { result.names ≡ dealt cores (live_of self.now) }
    {
        Picks {
            names: array::from_fn(|core| { if core < cores { self.pick(core) } else { None } }),
        }
    }

    // The number of the ready reservation on a core that goes first.
    fn pick(&self, core: usize) -> Option<u32>
        requires { core < 8 }
        ensures { result ≡ option_map (λ r. r.number) (pick core (live_of self.now)) }
    {
        self.ready[core].least().map(|key| key.number)
    }
}
