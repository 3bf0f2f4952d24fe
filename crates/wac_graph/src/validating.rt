//! Validation of the names of imports and exports.
ghost use Rattle.std.specs.Prelude.{◌≡◌, ◌++◌, map, string_bytes, true, Contains, IfErr, IsSome, IsTrue, OnOk};
ghost use Rattle.wac_edges.specs.declared.node.NodeId.{NodeId as AnId};
ghost use Rattle.wac_graph_model.specs.nodes.Graph.{node_at};
ghost use Rattle.wac_names.specs.private.validation.Views.{texts};
ghost use Rattle.wac_graph_model.specs.causes.OuterNames.{written_exports};
ghost use Rattle.wac_graph_model.specs.private.causes.Search.{NamesFault};
ghost use Rattle.wac_names.specs.validation.FirstFault.{Fault, IsFirstFault};
ghost use Rattle.wac_names.specs.validation.Valid.{AreValid};
ghost use Rattle.wac_graph_encode.specs.private.places.Places.{import_texts};

use crate::graph::CompositionGraph;
use std::alloc::AllocError;
use wac_graph_encode::import_names;
use wac_graph_model::{EncodeError, NodeId};
use wac_merge::TypeAggregator;
use wac_names::validation::{one_answer, validate};

impl CompositionGraph {
    /// Checks that the names of the component's imports and exports are valid together, if `asked` is true.
    ///
    /// `order` has the nodes that are no imports, in written order.
    pub(crate) fn check_names(
        &self,
        merge: &TypeAggregator,
        order: &[NodeId],
        define_components: bool,
        asked: bool,
    ) -> Result<(), EncodeError>
        requires finished { merge.now.is_finished ≡ true }
        requires nodes { (n : AnId) → Contains order.now n → IsSome (node_at self.now n) }
        ensures valid { OnOk result (IsTrue asked → AreValid (import_texts self.now merge.now.merge.imports define_components order.now) (written_exports self.now order.now)) }
        ensures none { OnOk result (IsTrue asked → (f : Fault) → ¬ IsFirstFault (import_texts self.now merge.now.merge.imports define_components order.now) (written_exports self.now order.now) f) }
        ensures fault { IfErr result (λ e. IsTrue asked × NamesFault (IsFirstFault (import_texts self.now merge.now.merge.imports define_components order.now) (written_exports self.now order.now)) e) }
    {
        if !asked {
            return Ok(());
        }
        one_answer(); // proof only
        let reader = self.reader();
        let packages = reader.package_names(order, define_components)?;
        let mut imports = import_names(self.alloc, merge.imports())?;
        push_names(&mut imports, packages.as_slice())?;
        let exports = reader.export_names(order)?;
        validate(self.alloc, &imports, &exports)?;
        Ok(())
    }
}

/// Appends these names.
fn push_names<'a>(names: &mut Vec<&'a str>, more: &'a [String]) -> Result<(), AllocError>
    ensures { OnOk result (texts names.new.items ≡ texts names.old.items ++ map string_bytes more.now) }
{
    for i in 0..more.len() {
        let name = more[i].as_str();
        names.push(name)?;
    }
    Ok(())
}
