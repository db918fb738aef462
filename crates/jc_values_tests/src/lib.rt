//! Calls with values that no script gives, each that allocates once. They stand apart from the crates that they try,
//! which would be proved twice with them; what scripts and texts can say is in the cases of `jc_stories`.
#![tactic(auto)]

#[cfg(test)]
mod ends;
#[cfg(test)]
mod lines;
#[cfg(test)]
mod looks;
#[cfg(test)]
mod policies;
#[cfg(test)]
mod samples;
#[cfg(test)]
mod store;
#[cfg(test)]
mod tallies;
#[cfg(test)]
mod values;
