//! The graph's imports that are merged.
ghost use Rattle.std.specs.Prelude.{◌≡◌, ◌++◌, map, IfOk, OnOk};
ghost use Rattle.wac_graph_model.specs.nodes.Entries.{asked_entries};
ghost use Rattle.wac_graph_reader.specs.private.reading.Seen.{open_numbers};
ghost use Rattle.wac_graph_fields.specs.private.EntriesLeft.{entry_view, entries_of, IsRight, IsSettled, AsksAlike, asked_at, all_with_used, all_asked_by, all_imported_by};

use crate::graph::CompositionGraph;
use std::alloc::AllocError;
use wac_graph_fields::{AskedEntry, Asking};

impl CompositionGraph {
    /// Returns the graph's imports, each after the interfaces that it uses widely. No instance is repeated.
    ///
    /// `instantiations` are all instantiations with unsatisfied imports.
    pub(crate) fn asked_entries(
        &self,
        instantiations: &[usize],
    ) -> Result<Vec<AskedEntry<'_>>, AllocError>
        requires { instantiations.now ≡ open_numbers self.now }
        ensures { IfOk result (λ v. map entry_view v.items ≡ asked_entries self.now) }
    {
        let mut asking = Asking::new(self.alloc);
        self.ask_instantiations(&mut asking, instantiations)?;
        self.ask_nodes(&mut asking)?;
        Ok(asking.into_entries())
    }

    /// Appends the unsatisfied imports of all instantiations that have any.
    fn ask_instantiations<'a>(
        &'a self,
        asking: &mut Asking<'a>,
        instantiations: &[usize],
    ) -> Result<(), AllocError>
        requires instantiations { instantiations.now ≡ open_numbers self.now }
        requires right { IsRight asking.old }
        requires settled { IsSettled self.now.types asking.old }
        ensures right { OnOk result (IsRight asking.new) }
        ensures settled { OnOk result (IsSettled self.now.types asking.new) }
        ensures stands { OnOk result (AsksAlike self.now.types (entries_of asking.old ++ all_with_used self.now.types (all_asked_by self.now)) (entries_of asking.new)) }
    {
        for n in instantiations {
            self.ask_unset(asking, *n)?;
        }
        Ok(())
    }

    /// Appends the unsatisfied imports of a node, if it is an instantiation.
    pub(crate) fn ask_unset<'a>(
        &'a self,
        asking: &mut Asking<'a>,
        n: usize,
    ) -> Result<(), AllocError>
        requires right { IsRight asking.old }
        requires settled { IsSettled self.now.types asking.old }
        ensures right { OnOk result (IsRight asking.new) }
        ensures settled { OnOk result (IsSettled self.now.types asking.new) }
        ensures stands { OnOk result (AsksAlike self.now.types (entries_of asking.old ++ all_with_used self.now.types (asked_at self.now n)) (entries_of asking.new)) }
    {
        self.types.law(); // proof only
        let mut from = 0;
        while let Some((behind, name, kind)) = self.unset_at(n, from) {
            asking.ask(
                &self.types,
                AskedEntry {
                    name,
                    kind,
                    node: n,
                },
            )?;
            from = behind;
        }
        Ok(())
    }

    /// Appends the import nodes.
    fn ask_nodes<'a>(&'a self, asking: &mut Asking<'a>) -> Result<(), AllocError>
        requires right { IsRight asking.old }
        requires settled { IsSettled self.now.types asking.old }
        ensures right { OnOk result (IsRight asking.new) }
        ensures settled { OnOk result (IsSettled self.now.types asking.new) }
        ensures stands { OnOk result (AsksAlike self.now.types (entries_of asking.old ++ all_with_used self.now.types (all_imported_by self.now)) (entries_of asking.new)) }
    {
        if self.imports.is_empty() {
            return Ok(());
        }
        for node in 0..self.nodes.capacity() {
            if let Some((name, kind)) = self.import_node_at(node) {
                asking.ask(&self.types, AskedEntry { name, kind, node })?;
            }
        }
        Ok(())
    }
}
