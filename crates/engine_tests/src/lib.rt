// Trials of the engine by its public calls, for what a plan cannot reach.
#![tactic(auto)]

#[cfg(test)]
mod limits;
#[cfg(test)]
mod making;
#[cfg(test)]
mod prelude;
#[cfg(test)]
mod questions;
#[cfg(test)]
mod rounds;
#[cfg(test)]
mod runs;
#[cfg(test)]
mod serving;
#[cfg(test)]
mod trial;
