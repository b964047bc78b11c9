// The report of a plan for callers in C and Rust: its bytes, in the caller's buffer.
#![tactic(auto)]

mod export;
#[cfg(test)]
mod tests;
mod text;

pub use export::{Written, wazrelin_report};
