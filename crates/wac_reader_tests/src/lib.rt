//! Tests of reading the parts of a component.
#![tactic(auto)]

#[cfg(test)]
mod asserts;
#[cfg(test)]
mod damaged;
#[cfg(test)]
mod faults;
#[cfg(test)]
mod large;
#[cfg(test)]
mod listed;
#[cfg(test)]
mod samples;
