// Plans that are cut, flipped, out of range or too long, with what is told of each.
#![tactic(auto)]

#[cfg(test)]
mod cuts;
#[cfg(test)]
mod fields;
#[cfg(test)]
mod flips;
#[cfg(test)]
mod helpers;
#[cfg(test)]
mod readers;
