// The live reservations with the clock that they run by, and each core's queue of those that are ready.
#![tactic(auto)]

mod keys;
mod live;
mod passing;
mod ready;
mod server;

pub use live::Table;
pub use server::{Picks, is_behind, lapse};
