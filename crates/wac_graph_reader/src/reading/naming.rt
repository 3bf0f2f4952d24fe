//! The names of nodes as names of indexes.
ghost use Rattle.std.specs.Prelude.{◌≡◌, ◌↔◌, ◌≤◌, ◌++◌, ℕ, List, false, Some, IfOk, IsSome, IsSomeAnd, IsTrue, OnOk};
ghost use Rattle.wac_binary.specs.declared.sorts.Sort.{Sort as ASort};
ghost use Rattle.wac_edges.specs.declared.node.NodeId.{NodeId as AnId};
ghost use Rattle.wac_edges.specs.Edge.{node_number};
ghost use Rattle.wac_binary.specs.Views.{names_of};
ghost use Rattle.wac_graph_model.specs.nodes.Graph.{node_at};
ghost use Rattle.wac_graph_model.specs.meaning.Means.{AreNames};
ghost use Rattle.wac_graph_model.specs.private.meaning.Encoding.{HasRoom, index_in};
ghost use Rattle.wac_types_shapes.specs.primitives.Name.{Name as AName};
ghost use Rattle.wac_graph_reader.specs.private.writing.Naming.{AreLowest, AreNamesOf, IsNamed, IsNamedAt};
ghost use Rattle.wac_graph_reader.specs.private.writing.Sizes.{AreShortNames};

use crate::reading::encoder::sort_of;
use crate::reading::reader::GraphReader;
use std::alloc::AllocError;
use std::collections::BTreeMap;
use wac_binary::Sort;
use wac_encode_stacks::index_law;
use wac_graph_model::NodeId;

impl<'a> GraphReader<'a> {
    /// Returns the names of indexes, sort by sort and in order of index. `named` says whether any node has a name.
    ///
    /// An index of several nodes has the name of the lowest node with a name.
    pub(crate) fn index_names(
        &self,
        indexes: &[u32],
        named: bool,
    ) -> Result<Vec<(Sort, u32, &str)>, AllocError>
        requires room { HasRoom self.now indexes.now }
        requires named { named ≡ false → (sort : ASort) (n : AnId) → IsNamed self.now sort n → ⊥ }
        ensures names { IfOk result (λ names. AreNames self.now (index_in indexes.now) (names_of names.items)) }
        ensures short { IfOk result (λ names. AreShortNames (names_of names.items)) }
    {
        let end = self.names_end(named);
        let mut names = Vec::new(self.alloc);
        self.add_names(&mut names, indexes, end, Sort::Type)?;
        self.add_names(&mut names, indexes, end, Sort::Func)?;
        self.add_names(&mut names, indexes, end, Sort::Instance)?;
        self.add_names(&mut names, indexes, end, Sort::Component)?;
        self.add_names(&mut names, indexes, end, Sort::CoreModule)?;
        self.add_names(&mut names, indexes, end, Sort::Value)?;
        Ok(names)
    }

    /// Appends the names of one sort's indexes. Nodes from number `end` on have no names.
    fn add_names<'b>(
        &'b self,
        names: &mut Vec<(Sort, u32, &'b str)>,
        indexes: &[u32],
        end: usize,
        sort: Sort,
    ) -> Result<(), AllocError>
        requires room { HasRoom self.now indexes.now }
        requires end { (n : AnId) → end ≤ n.0 → IsNamed self.now sort n → ⊥ }
        ensures names { OnOk result ((more : List (ASort × ℕ × AName)) × AreNamesOf self.now (index_in indexes.now) sort more × (names_of names.new.items ≡ names_of names.old.items ++ more)) }
        ensures short { OnOk result (AreShortNames (names_of names.old.items) → AreShortNames (names_of names.new.items)) }
    {
        let mut more = self.sort_names(indexes, end, sort)?;
        names.append(&mut more)?;
        Ok(())
    }

    /// A number such that no node from it on has a name.
    fn names_end(&self, named: bool) -> usize
        requires { named ≡ false → (sort : ASort) (n : AnId) → IsNamed self.now sort n → ⊥ }
        ensures { (sort : ASort) (n : AnId) → result ≤ n.0 → IsNamed self.now sort n → ⊥ }
    {
        if !named {
            return 0;
        }
        for n in (0..self.nodes.capacity()).rev() {
            if self.has_name(n) {
                return n + 1;
            }
        }
        0
    }

    /// Whether the node with this number exists and has a name.
    pub(crate) fn has_name(&self, n: usize) -> bool
        ensures { (sort : ASort) → IsNamed self.now sort (node_number n) → IsTrue result }
    {
        match self.nodes.get(n) {
            Some(node) => node.name().is_some(),
            None => false,
        }
    }

    /// Returns the names of one sort's indexes, in order of index. Nodes from number `end` on have no names.
    fn sort_names(
        &self,
        indexes: &[u32],
        end: usize,
        sort: Sort,
    ) -> Result<Vec<(Sort, u32, &str)>, AllocError>
        requires room { HasRoom self.now indexes.now }
        requires end { (n : AnId) → end ≤ n.0 → IsNamed self.now sort n → ⊥ }
        ensures names { IfOk result (λ names. AreNamesOf self.now (index_in indexes.now) sort (names_of names.items)) }
        ensures short { IfOk result (λ names. AreShortNames (names_of names.items)) }
    {
        let lowest = self.lowest_named(indexes, end, sort)?;
        let mut names = Vec::new(self.alloc);
        for (index, n) in &lowest {
            index_law(*index); // proof only
            names.push((sort, *index, self.name_of(*n)))?;
        }
        Ok(names)
    }

    /// Returns the lowest named node of each index of a sort. Nodes from number `end` on have no names.
    fn lowest_named(
        &self,
        indexes: &[u32],
        end: usize,
        sort: Sort,
    ) -> Result<BTreeMap<u32, NodeId>, AllocError>
        requires room { HasRoom self.now indexes.now }
        requires end { (n : AnId) → end ≤ n.0 → IsNamed self.now sort n → ⊥ }
        ensures { IfOk result (AreLowest (IsNamedAt self.now (index_in indexes.now) sort) 0) }
    {
        let mut lowest = BTreeMap::new(self.alloc);
        for n in (0..end).rev() {
            let id = NodeId(n);
            if self.is_named(id, sort) {
                lowest.insert(indexes[n], id)?;
            }
        }
        Ok(lowest)
    }

    /// Whether the node exists, has a name, and has an item of this sort.
    fn is_named(&self, n: NodeId, sort: Sort) -> bool
        ensures { IsTrue result ↔ IsNamed self.now sort n }
    {
        let Some(node) = self.nodes.get(n.0) else {
            return false;
        };
        node.name().is_some() && sort_of(node.item_kind()) == sort
    }

    /// The name of a node that has one.
    fn name_of(&self, n: NodeId) -> &str
        requires { IsSomeAnd (node_at self.now n) (λ node. IsSome node.name) }
        ensures { IsSomeAnd (node_at self.now n) (λ node. node.name ≡ Some result.now) }
    {
        let Some(name) = self.nodes[n.0].name() else {
            unreachable!()
        };
        name
    }
}
