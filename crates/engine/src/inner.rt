// The engine's figures without its measure and policy, and what holds of them between calls.
ghost use Rattle.std.specs.Prelude.{◌≡◌, ◌≤◌, true, false, length, is_some};
ghost use Rattle.rules.specs.Setup.{making};
ghost use Rattle.table.specs.View.{clock_of};
ghost use Rattle.engine.specs.Limits.{fits_cores, going};

use arrayvec::ArrayVec;
use ledger::Ledger;
use rules::MOST_CORES;
use table::{Picks, Table};

// The figure B of each core, and whom each core is dealt to while a round is out.
#[derive(Drop)]
pub struct Inner {
    figures: ArrayVec<u32, MOST_CORES>,
    start: u32,
    table: Table,
    ledger: Ledger,
    given: u32,
    round: Option<Picks>,
    ghost made: { is_some (making figures.items start) ≡ false },
    ghost numbered: { given ≤ 65535 },
    ghost named: { fits_cores (length figures.items) round ≡ true },
    ghost lasts: { going (is_some round) (clock_of table) ≡ true },
}

mod calls;
mod making;
mod placing;
mod questions;
mod whole;

pub use whole::Whole;
