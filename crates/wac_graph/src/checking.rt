//! Checks of names that are imported or exported, and look-ups of exports.
ghost use Rattle.std.specs.Prelude.{◌≡◌, IfErr, IfOk, IfSome, IsSome, OnOk, Err, None, Some};
ghost use Rattle.wac_edges.specs.declared.node.NodeId.{NodeId as AnId};
ghost use Rattle.wac_graph_model.specs.nodes.ExternName.{IsExportName, IsImportName};
ghost use Rattle.wac_graph_model.specs.nodes.Graph.{export_at, interface_of, node_at};
ghost use Rattle.wac_graph_model.specs.nodes.Steps.{Aliases, Exports, Imports, IsFreeImport, export_named};
ghost use Rattle.wac_types_shapes.specs.declared.shapes.component.ItemKind.{ItemKind as AnItem};

use crate::graph::CompositionGraph;
use wac_graph_model::{AliasError, ExportError, ImportError, NodeId, export_fault, import_fault};
use wac_types::ItemKind;

impl CompositionGraph {
    /// Checks that a name can be imported.
    pub(crate) fn check_import(&self, name: &str) -> Result<(), ImportError>
        ensures free { OnOk result (IsFreeImport self.now name.now) }
        ensures valid { OnOk result (IsImportName name.now) }
        ensures refused { IfErr result (λ e. (kind : AnItem) → Imports self.now name.now kind (Err e) self.now) }
    {
        if let Some(other) = self.imports.get(name) {
            let node = *other;
            let name = String::from_str(self.alloc, name)?;
            return Err(ImportError::ImportAlreadyExists { name, node });
        }
        if let Some(source) = import_fault(self.alloc, name)? {
            let name = String::from_str(self.alloc, name)?;
            return Err(ImportError::InvalidImportName { name, source });
        }
        Ok(())
    }

    /// Checks that a name can be exported.
    pub(crate) fn check_export(&self, name: &str) -> Result<(), ExportError>
        ensures free { OnOk result (export_at self.now name.now ≡ None) }
        ensures valid { OnOk result (IsExportName name.now) }
        ensures refused { IfErr result (λ e. (node : AnId) → Exports self.now node name.now (Err e) self.now) }
    {
        if let Some(other) = self.exports.get(name) {
            let node = *other;
            let name = String::from_str(self.alloc, name)?;
            return Err(ExportError::ExportAlreadyExists { name, node });
        }
        if let Some(source) = export_fault(self.alloc, name)? {
            let name = String::from_str(self.alloc, name)?;
            return Err(ExportError::InvalidExportName { name, source });
        }
        Ok(())
    }

    /// The position and type of the instance's export with this name.
    ///
    /// # Errors
    /// - [`NodeIsNotAnInstance`](AliasError::NodeIsNotAnInstance) if the node is not an instance.
    /// - [`InstanceMissingExport`](AliasError::InstanceMissingExport) if it has no export with this name.
    pub(crate) fn export_of(
        &self,
        instance: NodeId,
        export: &str,
    ) -> Result<(usize, ItemKind), AliasError>
        requires { IsSome (node_at self.now instance) }
        ensures found { IfOk result (λ e. IfSome (node_at self.now instance) (λ node. IsSome (interface_of node.item_kind) × (export_named self.now node export.now ≡ Some e))) }
        ensures refused { IfErr result (λ e. Aliases self.now instance export.now (Err e) self.now) }
    {
        let item_kind = self.nodes[instance.0].item_kind();
        let ItemKind::Instance(interface) = item_kind else {
            let kind = item_kind.desc(&self.types);
            return Err(AliasError::NodeIsNotAnInstance {
                node: instance,
                kind,
            });
        };
        let Some((position, kind)) = self.types[interface].exports.get_full(export) else {
            let export = String::from_str(self.alloc, export)?;
            return Err(AliasError::InstanceMissingExport {
                node: instance,
                export,
            });
        };
        Ok((position, *kind))
    }
}
