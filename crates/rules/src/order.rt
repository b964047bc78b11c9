// The order of the ledger's entries in a calendar.
ghost use Rattle.rules.specs.Order.{lapses_first, entry_figures};
ghost use Rattle.std.proofs.Common.{arith};
ghost use Rattle.calendar.proofs.Ranks.{total_by};

use crate::Entry;
use calendar::Order;

impl Order for Entry {
    ghost before = { lapses_first };

    ghost total = { total_by entry_figures (λ x y e. Prim.grind arith) };

    fn at_most(self, other: Entry) -> bool {
        self.cmp(&other).is_le()
    }
}
