// The ledger's entries in a calendar over its own places.
ghost use Rattle.std.specs.Prelude.{◌≡◌, ◌≤◌, true, length, take};
ghost use Rattle.rules.specs.System.{ledger_limit};
ghost use Rattle.ledger.specs.Lapses.{none_before};

use calendar::Calendar;
use rules::Entry;

// At most so many entries are held.
const LEDGER_LIMIT: usize = 128;

// No entry lapses before the earliest tick, so before that tick a purge has nothing to look for.
#[derive(Drop)]
pub struct Ledger {
    calendar: Calendar,
    // Lent to the calendar at each call.
    places: [Entry; LEDGER_LIMIT],
    earliest: u32,
    ghost long: { length places ≡ ledger_limit },
    ghost within: { calendar.count ≤ ledger_limit },
    ghost later: { none_before earliest (take calendar.count places) ≡ true },
}

mod calls;
