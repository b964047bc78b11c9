// The terms of a reservation, and every refusal of the engine.
#![tactic(auto)]

mod refusals;
mod ticks;

pub use refusals::Refusal;
pub use ticks::Terms;
