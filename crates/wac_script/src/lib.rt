//! Scripts that make composition graphs, one call a line.
//!
//! A line is empty, a comment, or words with white space between them. A word that begins with `#` begins a comment.
//! A line `LABEL = CALL ..` gives what the call makes a label, by which later lines name it.
//! docs/SCRIPT.md lists the calls.
//!
//! - [`Script`]: a graph with labels. [`Script::line`] makes the call of a line.
//! - [`package_file`]: the file whose bytes a line needs.
//! - [`LineError`]: why a line is refused. [`Refusal`]: why its call is.
//! - [`Script::encode_fault`]: why the graph cannot be encoded, with the line to blame.
//! - [`Picture`]: the graph as DOT or Mermaid text, or the list of its imports.
#![tactic(auto)]

mod changes;
mod drawing;
mod faults;
mod labels;
mod lines;
mod nodes;
mod packages;
mod refusal;
mod script;
#[cfg(test)]
mod tests;
mod types;

pub use drawing::Picture;
pub use faults::EncodeFault;
pub use labels::{WordError, WordFault};
pub use packages::package_file;
pub use refusal::{LineError, Refusal};
pub use script::Script;
