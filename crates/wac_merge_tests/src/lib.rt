//! Tests of merging, through what `wac_merge` and its layers make public.
//!
//! They are a crate of their own, so that the tests of the crates below need not wait for merging.
#![tactic(auto)]

#[cfg(test)]
mod doubled;
mod examples;
#[cfg(test)]
mod listed;
#[cfg(test)]
mod memory;
#[cfg(test)]
mod merged;
#[cfg(test)]
mod merging;
#[cfg(test)]
mod nested_uses;
#[cfg(test)]
mod one_type;
#[cfg(test)]
mod outside;
#[cfg(test)]
mod rows;
#[cfg(test)]
mod uses;
#[cfg(test)]
mod values;
