//! Pictures of graphs.

use crate::labels::Thing;
use crate::script::Script;
use std::alloc::{AllocError, Global};
use std::collections::BTreeMap;
use std::fmt::Write;
use std::io;
use wac_graph::{Node, NodeId, NodeKind};

/// A picture of a graph.
#[derive(Clone, Copy, Debug, PartialEq, Eq)]
pub enum Picture {
    /// A directed graph as DOT text.
    Dot,
    /// A flowchart as Mermaid text.
    Mermaid,
    /// The graph's imports, one a line: the name, the kind, and the node if it is an import node.
    Imports,
}

/// The labels of nodes, by the nodes' numbers.
type NodeLabels<'a> = BTreeMap<usize, &'a str>;

/// Returns text in quotes, as Mermaid reads it: a sign that means something else there is its code.
fn mermaid_text(alloc: Global, words: &str) -> Result<String, AllocError> {
    let mut text = String::from_str(alloc, "\"")?;
    for letter in words.chars() {
        match letter {
            '"' => text.push_str("#quot;")?,
            '#' => text.push_str("#35;")?,
            '&' => text.push_str("#amp;")?,
            '<' => text.push_str("#lt;")?,
            '>' => text.push_str("#gt;")?,
            '`' => text.push_str("#96;")?,
            _ => text.push(letter)?,
        }
    }
    text.push('"')?;
    Ok(text)
}

impl Script {
    /// Returns the labels of nodes.
    fn node_labels(&self) -> Result<NodeLabels<'_>, AllocError> {
        let mut labels = BTreeMap::new(self.alloc);
        for (label, labelled) in self.labels.iter() {
            if let Thing::Node(id) = labelled.thing {
                labels.insert(id.0, label)?;
            }
        }
        Ok(labels)
    }

    /// Returns a node's label, or its number.
    fn drawn_text(&self, labels: &NodeLabels<'_>, id: NodeId) -> Result<String, AllocError> {
        match labels.get(&id.0) {
            Some(label) => String::from_str(self.alloc, label),
            None => format!(in self.alloc; "{id}"),
        }
    }

    /// Returns what an instance is, in words: its label and its package.
    fn instance_words(&self, label: String, node: &Node) -> io::Result<String> {
        let Some(id) = node.package() else {
            return Ok(label);
        };
        if !self.graph.has_package(id) {
            return Ok(label);
        }
        let key = self.graph[id].key()?;
        Ok(format!(in self.alloc; "{label}: {key}")?)
    }

    /// Returns what a node is, in words.
    fn node_words(&self, labels: &NodeLabels<'_>, id: NodeId, node: &Node) -> io::Result<String> {
        let alloc = self.alloc;
        let label = self.drawn_text(labels, id)?;
        let desc = node.item_kind().desc(self.graph.types());
        let mut text = match node.kind() {
            NodeKind::Definition => format!(in alloc; "{label}: definition ({desc})")?,
            NodeKind::Import(name) => format!(in alloc; "{label}: import {name} ({desc})")?,
            NodeKind::Alias => format!(in alloc; "{label} ({desc})")?,
            NodeKind::Instantiation(_) => self.instance_words(label, node)?,
        };
        if let Some(name) = node.export_name() {
            write!(text, " as {name}")?;
        }
        Ok(text)
    }

    /// Writes a node and the arrows that lead to it as DOT text.
    fn write_dot(
        &self,
        text: &mut String,
        labels: &NodeLabels<'_>,
        id: NodeId,
        node: &Node,
    ) -> io::Result<()> {
        let words = self.node_words(labels, id, node)?;
        writeln!(text, "    n{id} [label={words:?}]")?;
        if let Some((source, export)) = self.graph.get_alias_source(id) {
            writeln!(text, "    n{source} -> n{id} [label={export:?}]")?;
        }
        for (name, argument) in self.graph.get_instantiation_arguments(id) {
            writeln!(
                text,
                "    n{argument} -> n{id} [label={name:?}, style=bold]"
            )?;
        }
        let definitions = self.graph.dependencies(id)?;
        for definition in &definitions {
            writeln!(text, "    n{definition} -> n{id} [style=dashed]")?;
        }
        Ok(())
    }

    /// Writes a node and the arrows that lead to it as Mermaid text.
    fn write_mermaid(
        &self,
        text: &mut String,
        labels: &NodeLabels<'_>,
        id: NodeId,
        node: &Node,
    ) -> io::Result<()> {
        let words = self.node_words(labels, id, node)?;
        let words = mermaid_text(self.alloc, words.as_str())?;
        writeln!(text, "    n{id}[{words}]")?;
        if let Some((source, export)) = self.graph.get_alias_source(id) {
            let export = mermaid_text(self.alloc, export)?;
            writeln!(text, "    n{source} -->|{export}| n{id}")?;
        }
        for (name, argument) in self.graph.get_instantiation_arguments(id) {
            let name = mermaid_text(self.alloc, name)?;
            writeln!(text, "    n{argument} ==>|{name}| n{id}")?;
        }
        let definitions = self.graph.dependencies(id)?;
        for definition in &definitions {
            writeln!(text, "    n{definition} -.-> n{id}")?;
        }
        Ok(())
    }

    /// Returns the directed graph as DOT text.
    fn dot(&self) -> io::Result<String> {
        let labels = self.node_labels()?;
        let mut text = String::from_str(
            self.alloc,
            "digraph {\n    rankdir=LR\n    node [shape=box]\n",
        )?;
        for (id, node) in self.graph.nodes() {
            self.write_dot(&mut text, &labels, id, node)?;
        }
        text.push_str("}\n")?;
        Ok(text)
    }

    /// Returns the flowchart as Mermaid text.
    fn mermaid(&self) -> io::Result<String> {
        let labels = self.node_labels()?;
        let mut text = String::from_str(self.alloc, "flowchart LR\n")?;
        for (id, node) in self.graph.nodes() {
            self.write_mermaid(&mut text, &labels, id, node)?;
        }
        Ok(text)
    }

    /// Returns the imports, one a line.
    fn import_lines(&self) -> io::Result<String> {
        let labels = self.node_labels()?;
        let mut text = String::new(self.alloc);
        for (name, kind, node) in self.graph.imports() {
            let desc = kind.desc(self.graph.types());
            match node {
                Some(id) => {
                    let label = self.drawn_text(&labels, id)?;
                    writeln!(text, "{name} {desc} {label}")?;
                }
                None => writeln!(text, "{name} {desc}")?,
            }
        }
        Ok(text)
    }

    /// Returns a picture of the graph.
    ///
    /// # Errors
    /// If out of memory.
    pub fn picture(&self, picture: Picture) -> io::Result<String> {
        match picture {
            Picture::Dot => self.dot(),
            Picture::Mermaid => self.mermaid(),
            Picture::Imports => self.import_lines(),
        }
    }
}
