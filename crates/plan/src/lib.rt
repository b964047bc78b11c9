// Plan files, read exactly: a header, then events of eight bytes each.
#![tactic(auto)]

mod event;
mod events;
mod field;
mod header;
mod reading;
mod unnamed;

pub use event::{Event, Kind, Source};
pub use events::{Events, read_header};
pub use header::{Header, MeasureKind, PolicyKind};
pub use reading::{Plan, PlanError, read_plan};
pub use unnamed::Unnamed;
