//! Whether entries of one class agree, and how classes depend on each other.
//!
//! - [`agreeing`]: the first two items of a class that disagree.
//! - [`agreement`]: the first two entries that disagree, the dependencies between classes, and their order.
#![tactic(auto)]

pub mod agreeing;
pub mod agreement;
