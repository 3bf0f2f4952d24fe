//! Why a graph cannot be encoded, in the words of its script.

use crate::labels::{Labelled, Thing};
use crate::script::Script;
use std::fmt::Write;
use std::io;
use wac_graph::{EncodeError, NodeId, ValidationFault};

/// Why a graph cannot be encoded.
pub struct EncodeFault {
    /// The line that made the node to blame, if a node is.
    pub line: Option<usize>,
    /// The error and its reason.
    pub text: String,
}

// By hand: a derived `Drop` is proved again wherever one goes out of scope (docs/PROOFS.md, 'Drop').
impl Drop for EncodeFault {
    fn drop(self) {
        let EncodeFault { line: _, text: _ } = self;
    }
}

/// Returns the node to blame, if one is.
fn blamed(error: &EncodeError) -> Option<NodeId> {
    match error {
        EncodeError::GraphContainsCycle { node } => Some(*node),
        EncodeError::ImplicitImportConflict { instantiation, .. } => Some(*instantiation),
        EncodeError::ImportTypeMergeConflict { second, .. } => Some(*second),
        EncodeError::ExplicitImportMergeConflict { node, .. } => Some(*node),
        EncodeError::TypeNotWritable { node, .. } => Some(*node),
        _ => None,
    }
}

/// Returns the other node that the error names, if it names two.
fn other(error: &EncodeError) -> Option<NodeId> {
    match error {
        EncodeError::ImplicitImportConflict { import, .. } => Some(*import),
        EncodeError::ImportTypeMergeConflict { first, .. } => Some(*first),
        EncodeError::ExplicitImportMergeConflict { other, .. } => Some(*other),
        _ => None,
    }
}

/// Writes the reason that an error has beside its nodes.
fn write_reason(text: &mut String, error: &EncodeError) -> io::Result<()> {
    match error {
        EncodeError::TypeNotWritable { fault, .. } => write!(text, ": {fault}")?,
        EncodeError::ImportTypeMergeConflict { source, .. } => write!(text, ": {source}")?,
        EncodeError::ValidationFailure { source } => match source {
            ValidationFault::BadName { name } => write!(text, ": `{name}` is no name")?,
            ValidationFault::Clash { first, second } => {
                write!(text, ": names `{first}` and `{second}` clash")?;
            }
            ValidationFault::NotExportable { name } => {
                write!(text, ": `{name}` cannot be exported")?;
            }
        },
        _ => {}
    }
    Ok(())
}

impl Script {
    /// Returns the label of a node, and its line.
    fn label_of(&self, id: NodeId) -> Option<(&str, Labelled)> {
        for (label, labelled) in self.labels.iter() {
            if let Thing::Node(node) = labelled.thing {
                if node == id {
                    return Some((label, *labelled));
                }
            }
        }
        None
    }

    /// Returns a node's label, or its number.
    fn node_text(&self, id: NodeId) -> io::Result<String> {
        match self.label_of(id) {
            Some((label, _)) => Ok(String::from_str(self.alloc, label)?),
            None => Ok(format!(in self.alloc; "{id}")?),
        }
    }

    /// Returns why the graph cannot be encoded: the error, the labels of the nodes that it names, and its reason.
    ///
    /// # Errors
    /// If out of memory.
    pub fn encode_fault(&self, error: &EncodeError) -> io::Result<EncodeFault> {
        let mut text = format!(in self.alloc; "{error}")?;
        let mut line = None;
        if let Some(node) = blamed(error) {
            let label = self.node_text(node)?;
            write!(text, ": node `{label}`")?;
            line = match self.label_of(node) {
                Some((_, labelled)) => Some(labelled.line),
                None => None,
            };
        }
        if let Some(node) = other(error) {
            let label = self.node_text(node)?;
            write!(text, " and node `{label}`")?;
        }
        write_reason(&mut text, error)?;
        Ok(EncodeFault { line, text })
    }
}
