// The refusals, and the number that each answers.
ghost use Rattle.std.specs.Prelude.{◌≡◌, Some, decimal};
ghost use Rattle.terms.specs.Numbers.{number, TellsApart};

use std::fmt;

#[derive(Clone, Copy, PartialEq, Eq, Debug)]
pub enum Refusal {
    // Cores not 1 to 8.
    Cores = 1,
    // A B not 1 to 1,000.
    Bandwidth = 2,
    // A start past 4,000,000,000.
    Start = 3,
    // Terms outside their limits.
    Limits = 4,
    // The measure does not take the terms.
    NotTaken = 5,
    // No such core.
    NoCore = 6,
    // A round is out.
    RoundOut = 11,
    // No round is out, or the round bears another tick.
    WrongRound = 12,
    // The clock is at 4,000,000,000.
    ClockEnd = 13,
    // No live reservation has that number.
    NoReservation = 14,
    // There are 64 live.
    TooMany = 15,
    // All numbers are given.
    NumbersGone = 16,
    // No room.
    NoRoom = 17,
    // Wake of one that does not rest.
    NotResting = 18,
    // Rest of one that rests.
    Resting = 19,
    // It is on that core already.
    SameCore = 20,
    // It is ready and has more budget left than its bandwidth gives until the deadline.
    Behind = 21,
    // An entry is due and the ledger is full.
    LedgerFull = 22,
    // The calendar's buffer is full.
    CalendarFull = 23,
}

impl Refusal {
    // One cast of the enum; `From` would be a second way to the same.
    pub fn number(self) -> u32
        ensures answer { result ≡ number self }
        ensures tells { TellsApart self result }
    {
        self as u32
    }
}

impl fmt::Display for Refusal {
    ghost output = { λ x. Some (decimal (number x)) };

    fn fmt<W: fmt::Write>(&self, f: &mut fmt::Formatter<W>) -> fmt::Result {
        let n = self.number();
        write!(f, "{n}")
    }
}
