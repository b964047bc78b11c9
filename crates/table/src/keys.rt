// A ready reservation's key, and one core's ready queue in places of its own.
ghost use Rattle.std.specs.Prelude.{◌≡◌};
ghost use Rattle.std.specs.Coded.{Coded-set};
ghost use Rattle.calendar.specs.Places.{held};
ghost use Rattle.calendar.specs.Queues.{first, queue};
ghost use Rattle.table.specs.Order.{key_of, no_later};
ghost use Rattle.std.proofs.Common.{rules};

use calendar::{Calendar, Order};
use rules::{LIVE_LIMIT, Reservation};

// What ready reservations are ordered by: the earlier deadline first, then the lower number.
#[derive(Clone, Copy, Default, PartialEq, Eq, PartialOrd, Ord)]
pub struct Key {
    pub deadline: u32,
    pub number: u32,
}

impl From<&Reservation> for Key {
    ghost from_gives = { λ row key. key ≡ key_of row.now };

    fn from(row: &Reservation) -> Key {
        Key {
            deadline: row.deadline,
            number: row.number,
        }
    }
}

impl Order for Key {
    ghost before = { no_later };

    ghost total = { Prim.search rules };

    fn at_most(self, other: Key) -> bool {
        self <= other
    }
}

// A calendar of keys with its places, which are lent to it at each call, and the least of them.
#[derive(Clone, Copy)]
pub struct Queue {
    calendar: Calendar,
    places: [Key; LIVE_LIMIT],
    least: Option<Key>,
    ghost known: { least ≡ first (queue no_later (held calendar places)) } by { Coded-set least-code least (first (queue no_later (held calendar places))) },
}

mod upkeep;
