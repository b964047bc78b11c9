// From a plan's bytes to the lines of its report.
#![tactic(auto)]

mod line;
mod lines;
mod notes;
mod steps;

pub use line::Line;
pub use lines::report;
