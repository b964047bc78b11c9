// The calls of the ledger.
ghost use Rattle.std.specs.Prelude.{◌≡◌, ◌≤◌, [], length};
ghost use Rattle.calendar.specs.Places.{held};
ghost use Rattle.calendar.specs.Queues.{queue, first};
ghost use Rattle.rules.specs.Order.{lapses_first};
ghost use Rattle.rules.specs.Parts.{departed_parts};
ghost use Rattle.rules.specs.System.{ledger_limit};
ghost use Rattle.ledger.specs.Lapses.{counts};
ghost use Rattle.ledger.specs.Entries.{entries, SameEntries, write_answer, written, KeptIfFull, purged};

use super::{LEDGER_LIMIT, Ledger};
use calendar::Calendar;
use rules::Entry;
use terms::Refusal;

// What stands in a place that holds nothing.
const BLANK: Entry = Entry {
    lapse: 0,
    number: 0,
    core: 0,
    parts: 0,
};

impl Ledger {
    // A ledger with no entry.
    pub fn new() -> Ledger
        ensures { entries result ≡ [] }
    {
        Ledger {
            calendar: Calendar::new(),
            places: [BLANK; LEDGER_LIMIT],
            earliest: u32::MAX,
        }
    }

    // How many entries it holds.
    pub fn len(&self) -> usize
        ensures { result ≡ length (entries self.now) }
    {
        self.calendar.len()
    }

    // Writes an entry in, unless the ledger is full.
    pub fn write(&mut self, entry: Entry) -> Result<(), Refusal>
        ensures answer { result ≡ write_answer (entries self.old) }
        ensures next { SameEntries (entries self.new) (written entry (entries self.old)) }
        ensures refused { KeptIfFull self.old self.new }
    {
        self.calendar
            .put(&mut self.places, entry)
            .map_err(|_| Refusal::LedgerFull)?;
        self.earliest = self.earliest.min(entry.lapse);
        Ok(())
    }

    // Lets the entries go whose lapse tick has come.
    pub fn purge(&mut self, clock: u32)
        ensures { SameEntries (entries self.new) (purged clock (entries self.old)) }
    {
        if self.earliest <= clock {
            let least = take_lapsed(&mut self.calendar, &mut self.places, clock);
            self.earliest = least.map_or(u32::MAX, |entry| entry.lapse);
        }
    }

    // The parts that a core counts after the clock.
    pub fn departed(&self, clock: u32, core: u32) -> u64
        ensures { result ≡ departed_parts clock core (entries self.now) }
    {
        // A loop over the slice, which takes fewer steps for an entry that counts than a chain does.
        let held = self.held();
        let mut parts = 0;
        for entry in held {
            if counts(entry, clock, core) {
                parts += entry.parts as u64;
            }
        }
        parts
    }

    // The entries that it holds, as its places arrange them.
    fn held(&self) -> &[Entry]
        ensures all { result.now ≡ entries self.now }
        ensures few { length result.now ≤ ledger_limit }
    {
        &self.places[..self.calendar.len()]
    }
}

// Whether a core counts an entry after the clock.
fn counts(entry: &Entry, clock: u32, core: u32) -> bool
    ensures { result ≡ counts clock core entry.now }
{
    entry.core == core && clock < entry.lapse
}

// Takes the least entry while its lapse tick has come, and shows the least that is left. A calendar's places come with it to each call.
fn take_lapsed(calendar: &mut Calendar, places: &mut [Entry], clock: u32) -> Option<Entry>
    ensures answer { result ≡ first (queue lapses_first (held calendar.new places.new)) }
    ensures next { SameEntries (held calendar.new places.new) (purged clock (held calendar.old places.old)) }
    ensures fewer { calendar.new.count ≤ calendar.old.count }
{
    while let Some(entry) = calendar.least(places) {
        if clock < entry.lapse {
            return Some(entry);
        }
        let _ = calendar.take_least(places);
    }
    None
}
