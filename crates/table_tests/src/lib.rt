// Trials of the table: its limits, the figures of waking, lapsing and moving, and ties.
#![tactic(auto)]

#[cfg(test)]
mod tests;
