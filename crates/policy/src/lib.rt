// Policies of placement: which core is to take a reservation.
#![tactic(auto)]

ghost use Rattle.std.specs.Prelude.{◌≡◌, ℕ, List, Option};
ghost use Rattle.policy.specs.Laws.{Lawful};

mod fits;

pub use fits::{BestFit, FirstFit, WorstFit};

// A choice of a core by the rooms of all cores, in core order, and the parts sought.
pub trait Policy {
    ghost choice: { Self → List ℕ → ℕ → Option ℕ };

    fn choose(&self, rooms: &[u32], parts: u32) -> Option<usize>
        ensures answer { result ≡ choice self.now rooms.now parts };

    ghost lawful: { (x : Self) → Lawful (choice x) };
}
