//! Tests of the crates below merging, through what they make public.
//!
//! They stand in one crate so that no library is proved once more for its tests. What is done with a collection of types
//! stands in rows (`rows`), which tables list.

#[cfg(test)]
mod adding;
#[cfg(test)]
mod asserts;
#[cfg(test)]
mod collection;
#[cfg(test)]
mod edges;
#[cfg(test)]
mod memory;
#[cfg(test)]
mod modules;
#[cfg(test)]
mod packages;
#[cfg(test)]
mod reach;
#[cfg(test)]
mod refused;
#[cfg(test)]
mod rows;
#[cfg(test)]
mod shapes;
#[cfg(test)]
mod subtyping;
