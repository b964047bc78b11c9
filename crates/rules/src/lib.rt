// The rules of the engine as one model: its plain types are here, its definitions in specs/.
#![tactic(auto)]

mod limits;
mod making;
mod order;
mod types;
mod words;

pub use limits::{LAST_NUMBER, LAST_TICK, LIVE_LIMIT, MOST_CORES, WHOLE_FIGURE};
pub use making::check_making;
pub use types::{Answer, Call, Entry, Reservation, State};
