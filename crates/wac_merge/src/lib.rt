//! Merges the imports of a composition.
//!
//! `TypeAggregator` collects the imports, called entries, and merges them into classes. Each class is imported once,
//! under its canonical name. Its item is a subtype of that of each of its entries.
//!
//! Two entries belong to one class if they have one name, or if they are instances whose names have one track.
//! So do entries that a chain of such pairs links. The canonical name is the one with the greatest version.
//!
//! | Entries | Imports |
//! |---|---|
//! | instances `a:b/c@0.2.0` and `a:b/c@0.2.9` | `a:b/c@0.2.9` |
//! | instances `a:b/c@0.2.0` and `a:b/c@0.3.0` | each under its own name |
//! | functions `f` and `f` | `f` |
//!
//! # Memory and time
//!
//! Each entry keeps its name. The classes keep one more copy of each name, and a key for each class.
//! Finding the classes reads each name a few times, and with it the greatest name that its class has so far.
//! A finished merge shares the items of the entries' collection: it takes a pointer and a count for each.
//! It keeps the names under which classes bind resources, so looking up a resource takes as long as the two names.
#![tactic(auto)]

mod aggregator;
pub mod laws;

pub use aggregator::TypeAggregator;
pub use wac_merge_classes::terms::fault::MergeFault;
