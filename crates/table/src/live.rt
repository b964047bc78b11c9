// The table: the clock, the live reservations, each core's ready queue, and what holds of them between calls.
ghost use Rattle.std.specs.Prelude.{◌≤◌, length};
ghost use Rattle.std.specs.List.{AllPass};
ghost use Rattle.rules.specs.Setup.{last_tick};
ghost use Rattle.rules.specs.System.{live_limit};
ghost use Rattle.table.specs.Keys.{Tied, Tied-prop};
ghost use Rattle.table.specs.Rows.{fit};

use crate::keys::Queue;
use arrayvec::ArrayVec;
use rules::{LIVE_LIMIT, MOST_CORES, Reservation};

#[derive(Drop)]
pub struct Table {
    clock: u32,
    rows: ArrayVec<Reservation, LIVE_LIMIT>,
    ready: [Queue; MOST_CORES],
    ghost clocked: { clock ≤ last_tick },
    ghost counted: { length rows.items ≤ live_limit },
    ghost fitting: { AllPass (fit clock) rows.items },
    ghost tied: { Tied ready rows.items } by { Tied-prop ready rows.items },
}

mod calls;
mod questions;
mod upkeep;
