//! Whether the types that nodes need have a fault.
ghost use Rattle.std.specs.Prelude.{◌≡◌, ◌++◌, false, map, IfErr, IfOk, IsSomeAnd, OnOk};
ghost use Rattle.wac_graph_fields.specs.private.EntriesLeft.{entry_view, entries_of, IsRight, IsHeldKind, IsSettled, AsksAlike, all_with_used};
ghost use Rattle.wac_graph_model.specs.causes.Cause.{HasMerge, HasNoConflict};
ghost use Rattle.wac_graph_model.specs.private.causes.Search.{IsRefused};
ghost use Rattle.wac_graph_model.specs.causes.TypeFaults.{wanted_at, wanted_entries as wanted_of, role_of, role_of_kind, IsEntryFault, HasNoTypeFault};
ghost use Rattle.wac_edges.specs.Edge.{node_number};
ghost use Rattle.wac_edges.specs.Order.{IsAcyclic};
ghost use Rattle.wac_edges.specs.declared.node.NodeId.{NodeId as AnId};
ghost use Rattle.wac_graph_model.specs.nodes.Entries.{asked_entries};
ghost use Rattle.wac_graph_model.specs.nodes.Graph.{node_at, definition, instantiation};
ghost use Rattle.wac_graph_model.specs.nodes.Nodes.{kind_of};
ghost use Rattle.wac_graph_model.specs.declared.nodes.options.EncodeOptions.{EncodeOptions as Asked};
ghost use Rattle.wac_encode_faults.specs.private.BoundTypes.{AreBoundTypes};
ghost use Rattle.wac_encode_faults.specs.Faults.{IsLowest};
ghost use Rattle.wac_graph.specs.private.Bound.{AreBound};
ghost use Rattle.wac_graph.specs.private.Kept.{KeepsImports};
ghost use Rattle.wac_graph_encode.specs.private.places.Places.{IsMergedFor};

use crate::graph::CompositionGraph;
use indexmap::IndexSet;
use std::alloc::AllocError;
use wac_encode_faults::{BoundTypes, Role, WriteFault, lowest_fault};
use wac_graph_fields::{AskedEntry, Asking};
use wac_graph_model::{EncodeError, NodeId, NodeKind};
use wac_merge::TypeAggregator;
use wac_types::{ItemKind, ResourceId};

impl CompositionGraph {
    /// Checks that no type that a node needs has a fault. Reports the first that has one.
    ///
    /// `entries` are the graph's imports, `merge` is their merge, and `defined` says whether any node is a definition.
    pub(crate) fn check_types(
        &self,
        merge: &TypeAggregator,
        entries: Vec<AskedEntry<'_>>,
        defined: bool,
        define_components: bool,
    ) -> Result<(), EncodeError>
        requires merged { IsMergedFor self.now merge.now }
        requires kept { KeepsImports self.now merge.now }
        requires asked { map entry_view entries.items ≡ asked_entries self.now }
        requires definitions { defined ≡ false → (n : AnId) → IsSomeAnd (node_at self.now n) (λ node. node.kind ≡ definition) → ⊥ }
        requires acyclic { IsAcyclic self.now.edges }
        requires apart { HasNoConflict self.now }
        requires merges { HasMerge self.now }
        ensures none { OnOk result (HasNoTypeFault self.now define_components) }
        ensures refused { IfErr result (λ e. (o : Asked) → o.define_components ≡ define_components → IsRefused self.now o e) }
    {
        let bound = self.bound_resources(merge)?;
        self.check_wanted(&bound, entries, defined, define_components)
    }

    /// Checks that no type that a node needs has a fault, where these resources are bound.
    fn check_wanted(
        &self,
        bound: &IndexSet<ResourceId>,
        entries: Vec<AskedEntry<'_>>,
        defined: bool,
        define_components: bool,
    ) -> Result<(), EncodeError>
        requires bound { AreBound self.now bound.now.keys }
        requires asked { map entry_view entries.items ≡ asked_entries self.now }
        requires definitions { defined ≡ false → (n : AnId) → IsSomeAnd (node_at self.now n) (λ node. node.kind ≡ definition) → ⊥ }
        requires acyclic { IsAcyclic self.now.edges }
        requires apart { HasNoConflict self.now }
        requires merges { HasMerge self.now }
        ensures none { OnOk result (HasNoTypeFault self.now define_components) }
        ensures refused { IfErr result (λ e. (o : Asked) → o.define_components ≡ define_components → IsRefused self.now o e) }
    {
        self.law(); // proof only
        self.types.law(); // proof only
        let wanted = self.wanted_of_asked(entries, defined, define_components)?;
        let mut faultless = BoundTypes::new(self.alloc);
        for i in 0..wanted.len() {
            let entry = wanted[i];
            if let Some(fault) = self.entry_fault(bound, &mut faultless, entry)? {
                return Err(EncodeError::TypeNotWritable {
                    node: NodeId(entry.node),
                    fault,
                });
            }
        }
        Ok(())
    }

    /// Returns the lowest fault of a type that a node needs, if any, where these resources are bound.
    fn entry_fault(
        &self,
        bound: &IndexSet<ResourceId>,
        faultless: &mut BoundTypes,
        entry: AskedEntry<'_>,
    ) -> Result<Option<WriteFault>, AllocError>
        requires bound { AreBound self.now bound.now.keys }
        requires held { IsHeldKind self.now.types entry.kind }
        requires faultless { AreBoundTypes self.now.types bound.now.keys faultless.old }
        ensures lowest { IfOk result (IsLowest (IsEntryFault self.now (entry_view entry.entry))) }
        ensures faultless { OnOk result (AreBoundTypes self.now.types bound.now.keys faultless.new) }
    {
        if faultless.is_faultless(&self.types, bound, entry.kind)? {
            return Ok(None);
        }
        lowest_fault(&self.types, bound, self.role_at(entry.node), entry.kind)
    }

    /// Whether the types that a node needs are imported or defined.
    fn role_at(&self, n: usize) -> Role
        ensures { result ≡ role_of (node_at self.now (node_number n)) }
    {
        match self.nodes.get(n) {
            Some(node) => role(node.kind()),
            None => Role::Imported,
        }
    }

    /// Returns the types that nodes need. These are the graph's imports if no node is an import or a definition, and
    /// packages are defined.
    fn wanted_of_asked<'a>(
        &'a self,
        entries: Vec<AskedEntry<'a>>,
        defined: bool,
        define_components: bool,
    ) -> Result<Vec<AskedEntry<'a>>, AllocError>
        requires asked { map entry_view entries.items ≡ asked_entries self.now }
        requires definitions { defined ≡ false → (n : AnId) → IsSomeAnd (node_at self.now n) (λ node. node.kind ≡ definition) → ⊥ }
        ensures { IfOk result (λ v. map entry_view v.items ≡ wanted_of self.now define_components) }
    {
        if self.imports.is_empty() && !defined && define_components {
            return Ok(entries);
        }
        self.wanted_entries(define_components)
    }

    /// Returns the types that nodes need, node by node, each after the interfaces that it uses widely.
    /// No instance is repeated.
    fn wanted_entries(&self, define_components: bool) -> Result<Vec<AskedEntry<'_>>, AllocError>
        ensures { IfOk result (λ v. map entry_view v.items ≡ wanted_of self.now define_components) }
    {
        let mut asking = Asking::new(self.alloc);
        for n in 0..self.nodes.capacity() {
            self.ask_wanted(&mut asking, n, define_components)?;
        }
        Ok(asking.into_entries())
    }

    /// Appends the types that a node needs.
    fn ask_wanted<'a>(
        &'a self,
        asking: &mut Asking<'a>,
        n: usize,
        define_components: bool,
    ) -> Result<(), AllocError>
        requires right { IsRight asking.old }
        requires settled { IsSettled self.now.types asking.old }
        ensures right { OnOk result (IsRight asking.new) }
        ensures settled { OnOk result (IsSettled self.now.types asking.new) }
        ensures stands { OnOk result (AsksAlike self.now.types (entries_of asking.old ++ all_with_used self.now.types (wanted_at self.now define_components n)) (entries_of asking.new)) }
    {
        let Some(node) = self.nodes.get(n) else {
            return Ok(());
        };
        let kind = node.item_kind();
        match node.kind() {
            NodeKind::Instantiation(_) => self.ask_instance(asking, n, define_components),
            NodeKind::Import(name) => {
                let name = name.as_str();
                asking.ask(
                    &self.types,
                    AskedEntry {
                        name,
                        kind,
                        node: n,
                    },
                )
            }
            NodeKind::Definition => asking.ask(
                &self.types,
                AskedEntry {
                    name: "",
                    kind,
                    node: n,
                },
            ),
            NodeKind::Alias => Ok(()),
        }
    }

    /// Appends the types that an instantiation needs: its unsatisfied imports, then its package if that is imported.
    fn ask_instance<'a>(
        &'a self,
        asking: &mut Asking<'a>,
        n: usize,
        define_components: bool,
    ) -> Result<(), AllocError>
        requires instantiation { IsSomeAnd (node_at self.now (node_number n)) (λ node. node.kind ≡ instantiation) }
        requires right { IsRight asking.old }
        requires settled { IsSettled self.now.types asking.old }
        ensures right { OnOk result (IsRight asking.new) }
        ensures settled { OnOk result (IsSettled self.now.types asking.new) }
        ensures stands { OnOk result (AsksAlike self.now.types (entries_of asking.old ++ all_with_used self.now.types (wanted_at self.now define_components n)) (entries_of asking.new)) }
    {
        self.law(); // proof only
        self.ask_unset(asking, n)?;
        if define_components {
            return Ok(());
        }
        let (_, package) = self.package_of(n);
        let kind = ItemKind::Component(package.ty());
        asking.ask(
            &self.types,
            AskedEntry {
                name: "",
                kind,
                node: n,
            },
        )
    }
}

/// Whether the types that a node of this kind needs are imported or defined.
fn role(kind: &NodeKind) -> Role
    ensures { result ≡ role_of_kind (kind_of kind.now) }
{
    match kind {
        NodeKind::Definition => Role::Defined,
        _ => Role::Imported,
    }
}
