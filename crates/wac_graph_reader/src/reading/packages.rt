//! The packages that instantiations use, and the names under which they are imported.
ghost use Rattle.std.specs.Prelude.{◌≡◌, ◌++◌, ◌∷◌, [], map, string_bytes, Contains, IfOk, IsSome, OnOk};
ghost use Rattle.wac_edges.specs.declared.node.NodeId.{NodeId as AnId};
ghost use Rattle.wac_graph_model.specs.meaning.Means.{instantiations, used_after, used_packages as used_packages_of};
ghost use Rattle.wac_graph_model.specs.nodes.Graph.{node_at};
ghost use Rattle.wac_graph_reader.specs.private.reading.PackageNames.{package_name, package_names, packages_names};

use crate::reading::dependency::dependency_name;
use crate::reading::lookups::package_in_slots;
use crate::reading::reader::GraphReader;
use indexmap::IndexSet;
use std::alloc::AllocError;
use wac_graph_model::{NodeId, NodeKind, PackageId};

impl<'a> GraphReader<'a> {
    /// Returns the import names of the packages that these nodes instantiate, in order of first use. There are none if
    /// packages are defined.
    ///
    /// # Errors
    /// - `AllocError` if out of memory.
    pub fn package_names(
        &self,
        order: &[NodeId],
        define_components: bool,
    ) -> Result<Vec<String>, AllocError>
        requires { (n : AnId) → Contains order.now n → IsSome (node_at self.now n) }
        ensures { IfOk result (λ names. map string_bytes names.items ≡ package_names self.now define_components order.now) }
    {
        if define_components {
            return Ok(Vec::new(self.alloc));
        }
        let used = self.used_packages(order)?;
        self.names_of(used.as_slice())
    }

    /// Returns the import names of these packages.
    fn names_of(&self, ids: &[PackageId]) -> Result<Vec<String>, AllocError>
        ensures { IfOk result (λ names. map string_bytes names.items ≡ packages_names self.now ids.now) }
    {
        let mut names = Vec::new(self.alloc);
        for id in ids {
            self.add_name(&mut names, *id)?;
        }
        Ok(names)
    }

    /// Appends the import name of this package.
    fn add_name(&self, names: &mut Vec<String>, id: PackageId) -> Result<(), AllocError>
        ensures { OnOk result (map string_bytes names.new.items ≡ map string_bytes names.old.items ++ package_name self.now id) }
    {
        let Some(package) = package_in_slots(self.slots, id) else {
            return Ok(());
        };
        let name = dependency_name(self.alloc, package)?;
        names.push(name)?;
        Ok(())
    }

    /// Returns the packages that these nodes instantiate, each once, in order of first use.
    fn used_packages(&self, order: &[NodeId]) -> Result<IndexSet<PackageId>, AllocError>
        requires { (n : AnId) → Contains order.now n → IsSome (node_at self.now n) }
        ensures { IfOk result (λ used. used.keys ≡ used_packages_of self.now order.now) }
    {
        let mut used = IndexSet::new(self.alloc);
        for n in order {
            self.add_used(&mut used, *n)?;
        }
        Ok(used)
    }

    /// Adds the package of a node if it is an instantiation.
    fn add_used(&self, used: &mut IndexSet<PackageId>, n: NodeId) -> Result<(), AllocError>
        requires { IsSome (node_at self.now n) }
        ensures { OnOk result (used.new.keys ≡ used_after self.now used.old.keys (instantiations self.now (n ∷ []))) }
    {
        match self.kind(n) {
            NodeKind::Instantiation(_) => {
                let (id, _) = self.package_of(n.0);
                used.insert(id)?;
                Ok(())
            }
            _ => Ok(()),
        }
    }
}
