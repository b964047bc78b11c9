// The reservation engine: it admits reservations, places them on cores, deals ticks by earliest deadline first, and charges them.
#![tactic(auto)]

mod answers;
mod engine;
mod inner;
mod observer;
mod runs;

pub use answers::{Awake, Departure, Placement, Round, Unmade, Unsettled};
pub use engine::Engine;
pub use observer::Observer;
pub use runs::{Finish, Step, run};
