//! Merging the graph's imports into one import for each class.
ghost use Rattle.std.specs.Prelude.{◌≡◌, [], map, IfErr, IfOk, OnOk, string_bytes};
ghost use Rattle.std.specs.List.{AllByRecursion};
ghost use Rattle.wac_merge.specs.Aggregate.{IsFault};
ghost use Rattle.wac_merge_classes.specs.entries.Agreement.{AllMembersAgree};
ghost use Rattle.wac_merge_classes.specs.entries.Classes.{by_names};
ghost use Rattle.wac_merge_classes.specs.terms.Faults.{Disagrees};
ghost use Rattle.wac_merge_imports.specs.unions.Lighter.{IsLighter};
ghost use Rattle.wac_graph_model.specs.causes.Cause.{HasMerge, HasNoConflict};
ghost use Rattle.wac_graph_model.specs.nodes.Entries.{asked_entries, to_merge};
ghost use Rattle.wac_graph_model.specs.nodes.OuterImports.{outer_entries};
ghost use Rattle.wac_graph_fields.specs.private.EntriesLeft.{entry_view, IsHeldKind};
ghost use Rattle.wac_edges.specs.Order.{IsAcyclic};
ghost use Rattle.wac_graph_model.specs.private.causes.Search.{IsRefused};
ghost use Rattle.wac_graph_encode.specs.private.places.Places.{IsMergedFor};
ghost use Rattle.wac_graph.specs.private.Kept.{KeepsImports};
ghost use Rattle.wac_graph_reader.specs.private.reading.Seen.{open_numbers};
ghost use Rattle.wac_graph_model.specs.declared.nodes.options.EncodeOptions.{EncodeOptions as Asked};

use crate::graph::CompositionGraph;
use std::alloc::AllocError;
use wac_graph_fields::AskedEntry;
use wac_graph_model::{EncodeError, NodeId};
use wac_merge::laws::listed_law;
use wac_merge::{MergeFault, TypeAggregator};
use wac_types::Types;

impl CompositionGraph {
    /// Merges the graph's imports. Returns the merge and the imports that were merged.
    ///
    /// `instantiations` are all instantiations with unsatisfied imports.
    pub(crate) fn merged(
        &self,
        instantiations: &[usize],
    ) -> Result<(TypeAggregator, Vec<AskedEntry<'_>>), EncodeError>
        requires instantiations { instantiations.now ≡ open_numbers self.now }
        requires acyclic { IsAcyclic self.now.edges }
        requires apart { HasNoConflict self.now }
        ensures merged { IfOk result (λ a. IsMergedFor self.now a.0) }
        ensures kept { IfOk result (λ a. KeepsImports self.now a.0) }
        ensures lighter { IfOk result (λ a. IsLighter self.now.types (outer_entries self.now) a.0.merge) }
        ensures agreed { OnOk result (AllMembersAgree by_names self.now.types (outer_entries self.now)) }
        ensures asked { IfOk result (λ a. map entry_view a.1.items ≡ asked_entries self.now) }
        ensures merges { OnOk result (HasMerge self.now) }
        ensures refused { IfErr result (λ e. (o : Asked) → IsRefused self.now o e) }
    {
        self.law(); // proof only
        self.types.law(); // proof only
        let entries = self.asked_entries(instantiations)?;
        if entries.is_empty() {
            let merge = self.merged_nothing()?;
            return Ok((merge, entries));
        }
        let aggregator = self.aggregated(entries.as_slice())?;
        match aggregator.finish(&self.types) {
            Ok(merge) => {
                self.types.names_law(); // proof only
                merge.types().names_law(); // proof only
                merge.types().law(); // proof only
                listed_law(); // proof only
                Ok((merge, entries))
            }
            Err(fault) => Err(self.merge_error(entries.as_slice(), fault)?),
        }
    }

    /// The merge of no imports. It is made over an empty collection, because a merge copies the one it is made over.
    fn merged_nothing(&self) -> Result<TypeAggregator, EncodeError>
        requires { asked_entries self.now ≡ [] }
        ensures merged { IfOk result (IsMergedFor self.now) }
        ensures kept { IfOk result (KeepsImports self.now) }
        ensures lighter { IfOk result (λ a. IsLighter self.now.types (outer_entries self.now) a.merge) }
        ensures agreed { AllMembersAgree by_names self.now.types (outer_entries self.now) }
        ensures merges { HasMerge self.now }
        ensures refused { IfErr result (λ e. e ≡ EncodeError.OutOfMemory) }
    {
        self.types.law(); // proof only
        self.types.names_law(); // proof only
        let types = Types::new(self.alloc);
        match TypeAggregator::new(self.alloc).finish(&types) {
            Ok(merge) => {
                merge.types().names_law(); // proof only
                merge.types().law(); // proof only
                listed_law(); // proof only
                Ok(merge)
            }
            Err(MergeFault::OutOfMemory) => Err(EncodeError::OutOfMemory),
            Err(MergeFault::Disagree { .. } | MergeFault::UseEachOther { .. }) => unreachable!(),
        }
    }

    /// Collects the imports for a merge.
    fn aggregated(&self, entries: &[AskedEntry<'_>]) -> Result<TypeAggregator, AllocError>
        requires { AllByRecursion (λ e. IsHeldKind self.now.types e.kind) (map entry_view entries.now) }
        ensures { IfOk result (λ a. a.entries ≡ to_merge (map entry_view entries.now)) }
    {
        let mut aggregator = TypeAggregator::new(self.alloc);
        for i in 0..entries.len() {
            let entry = entries[i];
            aggregator = aggregator.aggregate(entry.name, &self.types, entry.kind)?;
        }
        Ok(aggregator)
    }

    /// Returns the error of `encode` for an error of merging.
    fn merge_error(
        &self,
        entries: &[AskedEntry<'_>],
        fault: MergeFault,
    ) -> Result<EncodeError, AllocError>
        requires acyclic { IsAcyclic self.now.edges }
        requires apart { HasNoConflict self.now }
        requires entries { map entry_view entries.now ≡ asked_entries self.now }
        requires fault { IsFault self.now.types (to_merge (asked_entries self.now)) fault }
        ensures { IfOk result (λ e. (o : Asked) → IsRefused self.now o e) }
    {
        match fault {
            MergeFault::Disagree {
                first,
                second,
                export,
            } => self.disagreement(entries, first, second, export),
            MergeFault::UseEachOther { import } => Ok(EncodeError::ImportsUseEachOther { import }),
            MergeFault::OutOfMemory => Ok(EncodeError::OutOfMemory),
        }
    }

    /// Returns the error for two imports that disagree.
    fn disagreement(
        &self,
        entries: &[AskedEntry<'_>],
        first: usize,
        second: usize,
        export: String,
    ) -> Result<EncodeError, AllocError>
        requires acyclic { IsAcyclic self.now.edges }
        requires apart { HasNoConflict self.now }
        requires entries { map entry_view entries.now ≡ asked_entries self.now }
        requires disagree { Disagrees by_names self.now.types (to_merge (asked_entries self.now)) first second (string_bytes export) }
        ensures { IfOk result (λ e. (o : Asked) → IsRefused self.now o e) }
    {
        self.law(); // proof only
        let earlier = NodeId(entries[first].node);
        let later = entries[second];
        let import = String::from_str(self.alloc, later.name)?;
        if self.import_node_at(later.node).is_some() {
            return Ok(EncodeError::ExplicitImportMergeConflict {
                import,
                node: NodeId(later.node),
                other: earlier,
            });
        }
        Ok(EncodeError::ImportTypeMergeConflict {
            import,
            first: earlier,
            second: NodeId(later.node),
            source: MergeFault::Disagree {
                first,
                second,
                export,
            },
        })
    }
}
