//! Comparison of types of two collections, as a list of questions.
//!
//! A question is whether one type is a subtype of another. A comparison looks at the heads of two types and asks about
//! the types that they mention. So nothing recurses, and each pair of types is compared once. The type checker takes
//! the questions one after another until none is left or one has the answer no.

mod classes;
mod comparison;
mod core_modules;
mod fault;
mod questions;
mod small;

pub use classes::{Classes, Link, Node};
pub use comparison::Comparison;
pub use core_modules::is_module_subtype;
pub use fault::TypeFault;
pub use questions::{Asked, Question};
