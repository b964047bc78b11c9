// What most of the tests import.
pub use crate::trial::{Row, Trial};
pub use measure::{Catalogue, Measure, Rounded};
pub use policy::{BestFit, FirstFit, Policy, WorstFit};
pub use rules::{Reservation, State};
pub use terms::Refusal;

// The last tick.
pub const END: u32 = 4_000_000_000;
