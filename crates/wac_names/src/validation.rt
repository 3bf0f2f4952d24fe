//! Validation of the outer names of a component: the names of its imports and exports.
//!
//! ```rust
//! validate(alloc, &["a", "[constructor]a"], &["run"])?;
//! validate(alloc, &["a", "A"], &[]) // the fault `Clash` of `a` and `A`
//! ```
//!
//! The first fault is returned. Imports come before exports. Among the names of each, the first name outside the
//! grammar comes first, then the first two names that clash, then the first export that is a hash, a URL or a
//! dependency. The first two that clash are the earliest name that clashes with one before it, and the earliest such
//! name (`FirstFault.antt`). An import and an export never clash.
//!
//! Time grows with the number of names and their total length. Names that clash have the same key, and at most two
//! names of a key do not clash.

mod clashes;
mod earlier;
mod fault;
mod keys;
mod naming;
mod outer;

pub use fault::{ValidationError, ValidationFault};
pub use outer::{one_answer, validate};
