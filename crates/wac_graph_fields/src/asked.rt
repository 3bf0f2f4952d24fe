//! The list of the graph's imports, each after the interfaces that it uses widely, without repeated instances.
//!
//! Interfaces wait on a stack of tasks until their uses are listed, so that long chains of uses need no recursion.
//! Each interface is visited once for the whole list: after the first visit all that it uses widely is listed.
ghost use Rattle.std.specs.Prelude.{ℕ, ◌≡◌, ◌++◌, ◌∷◌, List, [], map, OnOk};
ghost use Rattle.wac_types_collection.specs.collection.Collection.{HasInterface};
ghost use Rattle.wac_types_shapes.specs.declared.shapes.component.ItemKind.TheVariants.{Instance};
ghost use Rattle.wac_graph_fields.specs.declared.asked.Task.{Task as ATask};
ghost use Rattle.wac_graph_fields.specs.declared.asked.Task.TheVariants.{Visit, Open, Close};
ghost use Rattle.wac_graph_model.specs.nodes.Entries.{used_by, with_used};
ghost use Rattle.wac_types_collection.specs.wide.Wide.{instance_of, instances_of};
ghost use Rattle.wac_graph_fields.specs.private.EntriesLeft.{entry_view, entries_of, IsRight, IsHeldTask, IsHeldKind, IsSettled, AsksAlike, Did, has, added, by_node, instance_under, openings, visits};

use indexmap::IndexSet;
use std::alloc::{AllocError, Global};
use std::collections::HashSet;
use wac_types::{InterfaceId, ItemKind, Named, Types, UsedType};

/// An import of the graph.
#[derive(Clone, Copy)]
pub struct AskedEntry<'a> {
    /// The name of the import.
    pub name: &'a str,
    /// The type of the import.
    pub kind: ItemKind,
    /// The number of the node that needs it.
    pub node: usize,
}

/// A step for an interface that is used.
#[derive(Clone, Copy)]
enum Task {
    /// Lists what the interface uses widely.
    Visit(InterfaceId),
    /// Lists what the interface uses widely, then the interface.
    Open(InterfaceId),
    /// Lists the interface, whose uses are listed.
    Close(InterfaceId),
}

/// The imports that are listed so far.
#[derive(Drop)]
pub struct Asking<'a> {
    /// The allocator of the list.
    alloc: Global,
    /// The imports.
    entries: Vec<AskedEntry<'a>>,
    /// The names and interfaces of the instances among them.
    known: HashSet<(&'a str, InterfaceId)>,
    /// The interfaces of which all that they use widely is listed or about to be.
    visited: IndexSet<InterfaceId>,
}

/// Pushes a task for the interface of each use, the first use on top.
fn open_used(tasks: &mut Vec<Task>, uses: &Named<UsedType>) -> Result<(), AllocError>
    ensures { OnOk result (tasks.new.items ≡ tasks.old.items ++ openings uses.now) }
{
    let mut i = uses.len();
    while i > 0 {
        i -= 1;
        tasks.push(Task::Open(uses.value_at(i).interface))?;
    }
    Ok(())
}

/// Pushes a visit of the interface of an instance.
fn visit_item(tasks: &mut Vec<Task>, item: ItemKind) -> Result<(), AllocError>
    ensures { OnOk result (tasks.new.items ≡ tasks.old.items ++ visits (instance_of item)) }
{
    match item {
        ItemKind::Instance(id) => {
            tasks.push(Task::Visit(id))?;
            Ok(())
        }
        _ => Ok(()),
    }
}

/// Pushes a visit of the interface of each instance among the items, the first on top.
fn visit_instances(tasks: &mut Vec<Task>, items: &Named<ItemKind>) -> Result<(), AllocError>
    ensures { OnOk result (tasks.new.items ≡ tasks.old.items ++ visits (instances_of items.now)) }
{
    let mut left = items.len();
    while left > 0 {
        left -= 1;
        visit_item(tasks, *items.value_at(left))?;
    }
    Ok(())
}

/// Pushes the tasks that list what an interface uses widely, then the interface.
fn open(id: InterfaceId, tasks: &mut Vec<Task>) -> Result<(), AllocError>
    ensures { OnOk result (tasks.new.items ≡ tasks.old.items ++ Close id ∷ Visit id ∷ []) }
{
    tasks.push(Task::Close(id))?;
    tasks.push(Task::Visit(id))?;
    Ok(())
}

impl<'a> Asking<'a> {
    /// An empty list.
    pub fn new(alloc: Global) -> Asking<'a>
        ensures right { IsRight result }
        ensures empty { entries_of result ≡ [] }
        ensures visited { result.visited.keys ≡ [] }
    {
        Asking {
            alloc,
            entries: Vec::new(alloc),
            known: HashSet::new(alloc),
            visited: IndexSet::new(alloc),
        }
    }

    /// The listed imports, in order.
    pub fn into_entries(self) -> Vec<AskedEntry<'a>>
        ensures { map entry_view result.items ≡ entries_of self.entry }
    {
        self.entries
    }

    /// Whether the instance is listed under the name.
    fn has(&self, name: &'a str, id: InterfaceId) -> bool
        requires { IsRight self.now }
        ensures { result ≡ has (entries_of self.now) (instance_under name.now id) }
    {
        self.known.contains(&(name, id))
    }

    /// Appends the import, unless it is an instance that is listed under the same name.
    fn add(&mut self, asked: AskedEntry<'a>) -> Result<(), AllocError>
        requires { IsRight self.old }
        ensures right { OnOk result (IsRight self.new) }
        ensures entries { OnOk result (entries_of self.new ≡ added (entries_of self.old) (entry_view asked.entry)) }
        ensures visited { OnOk result (self.new.visited.keys ≡ self.old.visited.keys) }
    {
        if let ItemKind::Instance(id) = asked.kind {
            match self.known.insert((asked.name, id)) {
                Ok(true) => {}
                Ok(false) => return Ok(()),
                Err(_) => return Err(AllocError),
            }
        }
        self.entries.push(asked)?;
        Ok(())
    }

    /// Pushes the tasks that list what an interface uses widely, unless it was visited.
    fn visit(
        &mut self,
        types: &'a Types,
        id: InterfaceId,
        tasks: &mut Vec<Task>,
    ) -> Result<(), AllocError>
        requires held { HasInterface types.now id }
        requires right { IsRight self.old }
        ensures right { OnOk result (IsRight self.new) }
        ensures did { (node : ℕ) → OnOk result (Did types.now node (Visit id) (entries_of self.old) (entries_of self.new) self.old.visited.keys self.new.visited.keys tasks.old.items tasks.new.items) }
    {
        if !self.visited.insert(id)? {
            return Ok(());
        }
        let interface = &types[id];
        visit_instances(tasks, &interface.exports)?;
        open_used(tasks, &interface.uses)
    }

    /// Appends the interface under its id, if it has one.
    fn close(&mut self, types: &'a Types, node: usize, id: InterfaceId) -> Result<(), AllocError>
        requires held { HasInterface types.now id }
        requires right { IsRight self.old }
        ensures right { OnOk result (IsRight self.new) }
        ensures did { (left : List ATask) → OnOk result (Did types.now node (Close id) (entries_of self.old) (entries_of self.new) self.old.visited.keys self.new.visited.keys left left) }
    {
        let Some(name) = &types[id].id else {
            return Ok(());
        };
        self.add(AskedEntry {
            name: name.as_str(),
            kind: ItemKind::Instance(id),
            node,
        })
    }

    /// Performs one task.
    fn perform(
        &mut self,
        types: &'a Types,
        node: usize,
        task: Task,
        tasks: &mut Vec<Task>,
    ) -> Result<(), AllocError>
        requires held { IsHeldTask types.now task }
        requires right { IsRight self.old }
        ensures right { OnOk result (IsRight self.new) }
        ensures did { OnOk result (Did types.now node task (entries_of self.old) (entries_of self.new) self.old.visited.keys self.new.visited.keys tasks.old.items tasks.new.items) }
    {
        match task {
            Task::Visit(id) => self.visit(types, id, tasks),
            Task::Open(id) => open(id, tasks),
            Task::Close(id) => self.close(types, node, id),
        }
    }

    /// Appends the interfaces that an interface uses widely, each after those that it uses widely itself.
    fn ask_used(&mut self, types: &'a Types, node: usize, id: InterfaceId) -> Result<(), AllocError>
        requires held { HasInterface types.now id }
        requires right { IsRight self.old }
        requires settled { IsSettled types.now self.old }
        ensures right { OnOk result (IsRight self.new) }
        ensures settled { OnOk result (IsSettled types.now self.new) }
        ensures stands { OnOk result (AsksAlike types.now (entries_of self.old ++ map (by_node node) (used_by types.now (Instance id))) (entries_of self.new)) }
    {
        types.law(); // proof only
        let mut tasks = Vec::new(self.alloc);
        self.visit(types, id, &mut tasks)?;
        while let Some(task) = tasks.pop() {
            self.perform(types, node, task, &mut tasks)?;
        }
        Ok(())
    }

    /// Appends an import after the interfaces that it uses widely.
    pub fn ask(&mut self, types: &'a Types, asked: AskedEntry<'a>) -> Result<(), AllocError>
        requires held { IsHeldKind types.now asked.kind }
        requires right { IsRight self.old }
        requires settled { IsSettled types.now self.old }
        ensures right { OnOk result (IsRight self.new) }
        ensures settled { OnOk result (IsSettled types.now self.new) }
        ensures stands { OnOk result (AsksAlike types.now (entries_of self.old ++ with_used types.now (entry_view asked.entry)) (entries_of self.new)) }
    {
        types.law(); // proof only
        let ItemKind::Instance(id) = asked.kind else {
            return self.add(asked);
        };
        if self.has(asked.name, id) {
            return Ok(());
        }
        self.ask_used(types, asked.node, id)?;
        self.add(asked)
    }
}
