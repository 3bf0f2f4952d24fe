//! Encoding a graph as a component.
ghost use Rattle.std.specs.Prelude.{◌≡◌, ◌≤◌, ◌^◌, length, Bool, true, IsTrue, OnOk, IfOk, IfErr, IfSome, List, None};
ghost use Rattle.wac_binary.specs.Bytes.{bytes_of};
ghost use Rattle.wac_binary.specs.Fits.{Fits};
ghost use Rattle.wac_binary.specs.Format.{AreInFormat};
ghost use Rattle.wac_binary.specs.Items.{Item as AnItem};
ghost use Rattle.wac_encode_imports.specs.private.Imports.{AreImported};
ghost use Rattle.wac_encode_imports.specs.private.Small.{imports_cost};
ghost use Rattle.wac_encode_scopes.specs.private.Paid.{total};
ghost use Rattle.wac_graph.specs.private.Kept.{KeepsImports};
ghost use Rattle.wac_graph_model.specs.meaning.Means.{Means};
ghost use Rattle.wac_graph_encode.specs.private.places.Places.{IsMergedFor, ArePlaced};
ghost use Rattle.std.specs.Result.{IsErrAnd};
ghost use Rattle.wac_graph_model.specs.causes.Cause.{AnswersFor, Cause, CauseKind, cause_of, HasMerge, Occurs, Stands};
ghost use Rattle.wac_graph_model.specs.causes.OuterNames.{export_names, import_names};
ghost use Rattle.wac_graph_model.specs.causes.TypeFaults.{HasNoTypeFault};
ghost use Rattle.wac_graph_model.specs.declared.causes.errors.EncodeError.TheVariants.{TooLarge};
ghost use Rattle.wac_graph_model.specs.weight.GraphWeight.{bound};
ghost use Rattle.wac_names.specs.validation.Valid.{AreValid};

use crate::graph::CompositionGraph;
use wac_encode_imports::laws::distinct_classes_law;
use wac_encode_imports::{WrittenImports, write_imports};
use wac_encode_scopes::State;
use wac_graph_encode::{ImportPlaces, write};
use wac_graph_model::{EncodeError, EncodeOptions};
use wac_merge::TypeAggregator;
use wac_merge::laws::{class_laws, fault_law, import_fault_law, order_law};

impl CompositionGraph {
    /// Encodes the graph as one component and returns its bytes.
    ///
    /// The component consists of these parts, in this order:
    ///
    /// 1. The imports: one for each class of the graph's imports, under its canonical name and with its merged type.
    /// 2. The nodes except imports, the lowest number first among those whose edge sources are written.
    ///    A package is embedded or imported at its first use, and a definition is exported under its first name.
    /// 3. The other exports, in the order in which they were added.
    /// 4. The names of nodes and the processor, in custom sections.
    ///
    /// An unsatisfied import of an instantiation gets the import of its class as its argument.
    ///
    /// The clause `means` promises the order inside each part, and that the other exports, the names and the processor
    /// come last (`in_order`, `in_place` and `last` of `Means`). Where types, imports and packages are among the items
    /// before them is only tested.
    ///
    /// # Errors
    /// [`EncodeError`] says which error is returned if several apply.
    ///
    /// - [`GraphContainsCycle`](EncodeError::GraphContainsCycle) if the edges form a cycle.
    /// - [`ImplicitImportConflict`](EncodeError::ImplicitImportConflict) if an unsatisfied import has the name of an
    ///   import node.
    /// - [`ImportTypeMergeConflict`](EncodeError::ImportTypeMergeConflict) if an unsatisfied import disagrees with an
    ///   earlier import of its class.
    /// - [`ExplicitImportMergeConflict`](EncodeError::ExplicitImportMergeConflict) if an import node does.
    /// - [`ImportsUseEachOther`](EncodeError::ImportsUseEachOther) if imports depend on each other in a cycle.
    /// - [`TypeNotWritable`](EncodeError::TypeNotWritable) if a type that a node needs has a fault.
    /// - [`TooLarge`](EncodeError::TooLarge) if an index, a count or a size does not fit 32 bits. All fit if the weight is
    ///   below 2^26.
    /// - [`ValidationFailure`](EncodeError::ValidationFailure) if `validate` is set and a name of an import or export
    ///   is invalid or clashes with another.
    pub fn encode(&self, options: EncodeOptions<'_>) -> Result<Vec<u8>, EncodeError>
        // The bytes are those of items that fit 32-bit sizes, are in the format and mean this graph.
        ensures means { IfOk result (λ bytes. (items : List AnItem) × (bytes.items ≡ bytes_of items) × Fits items × AreInFormat items × Means items self.now options.entry) }
        // A reported cause exists and is the first one.
        ensures cause { IfErr result (λ e. IfSome (cause_of e) (Stands self.now options.entry)) }
        // If there is a first cause, the result is an error that reports it.
        ensures refused { (cause : Cause) → Stands self.now options.entry cause → IsErrAnd result (AnswersFor cause) }
        // If bytes are returned, there is no cause of any kind.
        ensures none { OnOk result ((kind : CauseKind) → Occurs self.now options.entry kind → ⊥) }
        // The bytes are at most 64 for each unit of the weight of the graph and the options.
        ensures short { IfOk result (λ bytes. length bytes.items ≤ bound self.now options.entry) }
        // `TooLarge` is returned only if that bound is 2 ^ 32 or more.
        ensures too_large { IfErr result (λ e. e ≡ TooLarge → 2 ^ 32 ≤ bound self.now options.entry) }
        // If names are validated, those of the component are valid together.
        ensures valid { IfOk result (λ bytes. IsTrue options.entry.validate → (items : List AnItem) × (bytes.items ≡ bytes_of items) × AreValid (import_names items) (export_names items)) }
    {
        fault_law(); // proof only
        class_laws(); // proof only
        order_law(); // proof only
        self.law(); // proof only
        wac_graph_model::weight::order_law(); // proof only
        let reader = self.reader();
        let ordered = reader.ordered()?;
        self.check_conflicts()?;
        let (merge, entries) = self.merged(ordered.open.as_slice())?;
        self.check_types(&merge, entries, ordered.defined, options.define_components)?;
        let (state, imports) = self.begin(merge)?;
        let bytes = write(
            &reader,
            state,
            &imports,
            &ordered.order,
            ordered.named,
            options,
        )?;
        self.check_names(
            &imports.merge,
            &ordered.order,
            options.define_components,
            options.validate,
        )?;
        Ok(bytes)
    }

    /// Writes the merged imports. Returns the root with them, and the place of each.
    fn begin(&self, merge: TypeAggregator) -> Result<(State, ImportPlaces), EncodeError>
        requires merged { IsMergedFor self.now merge }
        requires kept { KeepsImports self.now merge }
        requires merges { HasMerge self.now }
        requires writable { (define_components : Bool) × HasNoTypeFault self.now define_components }
        ensures imported { IfOk result (λ b. AreImported b.1.merge.merge b.1.places.items b.0) }
        ensures placed { IfOk result (λ b. ArePlaced self.now b.1) }
        ensures kept { IfOk result (λ b. KeepsImports self.now b.1.merge) }
        ensures fault { IfErr result (λ e. cause_of e ≡ None) }
        ensures small { IfOk result (λ b. total merge.merge.types true b.0 ≤ imports_cost merge.merge) }
        ensures too_large { IfErr result (λ e. e ≡ TooLarge → 2 ^ 32 ≤ imports_cost merge.merge) }
    {
        distinct_classes_law(); // proof only
        import_fault_law(); // proof only
        self.law(); // proof only
        let WrittenImports { state, places } = write_imports(&merge)?;
        Ok((state, ImportPlaces { merge, places }))
    }
}
