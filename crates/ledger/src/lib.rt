// The engine's ledger: what each core still counts of the reservations that left it.
#![tactic(auto)]

mod departed;

pub use departed::Ledger;
