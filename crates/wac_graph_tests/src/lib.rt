//! Tests of composition graphs, through what `wac_graph` makes public: calls, as tables of calls each with what it answers, types that
//! are defined and imported, names, packages, `plug`, and what `encode` answers then.
//!
//! They stand in a crate of their own so that no library is proved once more for them, and in one, since each crate over
//! `wac_graph` reads what was proved below.
#![tactic(auto)]

#[cfg(test)]
mod aliased;
#[cfg(test)]
mod bench;
#[cfg(test)]
mod defining;
#[cfg(test)]
mod dependencies;
#[cfg(test)]
mod edges;
#[cfg(test)]
mod encoding;
mod examples;
#[cfg(test)]
mod imported;
#[cfg(test)]
mod imports;
#[cfg(test)]
mod listed;
#[cfg(test)]
mod memory;
#[cfg(test)]
mod names;
#[cfg(test)]
mod once;
#[cfg(test)]
mod packages;
#[cfg(test)]
mod parts;
#[cfg(test)]
mod plugging;
#[cfg(test)]
mod reasons;
#[cfg(test)]
mod redefined;
#[cfg(test)]
mod refused;
#[cfg(test)]
mod removal;
#[cfg(test)]
mod resources;
#[cfg(test)]
mod short;
#[cfg(test)]
mod tables;
#[cfg(test)]
mod unregistering;
#[cfg(test)]
mod validation;
#[cfg(test)]
mod writable;
