//! The errors of encoding a graph, and the causes that they report: when each occurs, and which comes first.

mod errors;

pub use errors::EncodeError;
