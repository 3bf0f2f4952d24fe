//! The value types and function types of a scope, put into a table.
//!
//! A definition waits in a list of tasks until its parts have numbers, so a long chain of definitions needs no stack.
//! Each definition is opened once and numbered once.
ghost use Rattle.std.specs.Prelude.{◌≡◌, ◌<◌, ◌↔◌, [], length, map, true, IsTrue, IfOk, OnOk};
ghost use Rattle.std.specs.List.{AllByRecursion};
ghost use Rattle.wac_types_collection.specs.collection.Collection.{and_maybe, HasDefined, HasFunc, HasResource, holds_value, defined_values, case_values, seconds};
ghost use Rattle.wac_types_collection.specs.collection.Held.{defined_tree};
ghost use Rattle.wac_types_shapes.specs.declared.shapes.component.DefinedType.TheVariants as def;
ghost use Rattle.wac_types_shapes.specs.declared.shapes.component.ValueType.TheVariants as val;
ghost use Rattle.wac_types_shapes.specs.declared.shapes.component.«Type».TheVariants as ty;
ghost use Rattle.wac_merge_tables.specs.private.tables.Nodes.{mentions, node_tree, tree_at, IsSorted};
ghost use Rattle.wac_merge_tables.specs.private.tables.NodeViews.{node_view};
ghost use Rattle.wac_merge_tables.specs.private.tables.Tasks.{parts_of, IsHeldTask, IsOpening};
ghost use Rattle.wac_types_collection.specs.private.subtyping.Extended.{AreHeldValues};
ghost use Rattle.wac_merge_trees.specs.private.coding.CallsView.{AreNamed};
ghost use Rattle.wac_merge_trees.specs.private.coding.Coding.{only_part, source_tree, values_of, IsGrown, HasTree, IsRight, IsMore, IsReady, AreReady, IsDone, MayBeDone, Did, HasOption, AreParts, AreFields, AreCases, Fits, Means};

use crate::coding::calls::Calls;
use crate::coding::memo::Memo;
use std::alloc::{AllocError, Global};
use wac_merge_tables::tables::nodes::{Node, Nodes};
use wac_merge_tables::tables::tasks::{Task, open_fields, open_optional, open_parts, open_value};
use wac_types_collection::subtyping::laws::trees_are_whole;
use wac_types_collection::{
    DefinedType, DefinedTypeId, FuncTypeId, Labels, Named, ResourceId, Types, ValueType,
};

/// The scope whose types are numbered: their collection, and how resources are named there.
#[derive(Clone, Copy)]
pub struct Source<'a, 'b> {
    /// The allocator.
    pub alloc: Global,
    /// The collection, from which nodes borrow names.
    pub types: &'a Types,
    /// How resources are named.
    pub calls: &'b Calls<'b>,
}

impl<'a, 'b> Source<'a, 'b> {
    /// Returns the same collection with other names of resources.
    pub fn with<'c>(&self, calls: &'c Calls<'c>) -> Source<'a, 'c>
        ensures { result ≡ record { alloc = self.now.alloc; types = self.now.types; calls = calls.entry } }
    {
        Source {
            alloc: self.alloc,
            types: self.types,
            calls,
        }
    }
}

/// The node of a definition.
#[derive(Drop)]
pub enum Meaning<'a> {
    /// A node that may not be in the table.
    New(Node<'a>),
    /// The number of the type that an alias names.
    Same(usize),
}

/// Returns the number of a node, which is appended if it is not there. Its tree is that of the node.
///
/// # Errors
/// - [`AllocError`] if out of memory.
pub fn add<'a>(nodes: &mut Nodes<'a>, node: Node<'a>) -> Result<usize, AllocError>
    requires lower { AllByRecursion (λ m. m < length nodes.old) (mentions (node_view node)) }
    requires sorted { IsSorted (node_view node) }
    ensures grown { IsGrown nodes.old nodes.new }
    ensures number { IfOk result (λ n. HasTree nodes.new (node_tree (tree_at nodes.old) (node_view node.entry)) n) }
{
    nodes.table_law(); // proof only
    match nodes.add(node) {
        Ok(number) => {
            nodes.table_law(); // proof only
            Ok(number)
        }
        Err(fault) => Err(fault),
    }
}

/// Returns the names in order.
fn names<'a>(alloc: Global, labels: &'a Labels) -> Result<Vec<&'a str>, AllocError>
    ensures { IfOk result (λ v. map (λ n. n.now) v.items ≡ labels.now) }
{
    let mut names = Vec::with_capacity(alloc, labels.len())?;
    for i in 0..labels.len() {
        names.push(labels.name_at(i))?;
    }
    Ok(names)
}

/// Returns the part of a list, option or alias.
fn only_part(definition: &DefinedType) -> Option<ValueType>
    ensures { result ≡ only_part definition.now }
{
    match definition {
        DefinedType::List(value) => Some(*value),
        DefinedType::FixedSizeList(value, _) => Some(*value),
        DefinedType::Option(value) => Some(*value),
        DefinedType::Alias(value) => Some(*value),
        _ => None,
    }
}

/// Returns the number of an `own` handle.
fn owned(nodes: &mut Nodes, source: &Source, id: ResourceId) -> Result<usize, AllocError>
    requires held { HasResource source.now.types.now id }
    requires named { AreNamed source.now.types.now source.now.calls.now }
    ensures grown { IsGrown nodes.old nodes.new }
    ensures number { IfOk result (λ n. HasTree nodes.new (source_tree source.now (ty.Value (val.Own id))) n) }
{
    let called = source.calls.called(source.alloc, source.types, id)?;
    add(nodes, Node::Own(called))
}

/// Returns the number of a `borrow` handle.
fn lent(nodes: &mut Nodes, source: &Source, id: ResourceId) -> Result<usize, AllocError>
    requires held { HasResource source.now.types.now id }
    requires named { AreNamed source.now.types.now source.now.calls.now }
    ensures grown { IsGrown nodes.old nodes.new }
    ensures number { IfOk result (λ n. HasTree nodes.new (source_tree source.now (ty.Value (val.Borrow id))) n) }
{
    let called = source.calls.called(source.alloc, source.types, id)?;
    add(nodes, Node::Borrow(called))
}

impl Memo {
    /// Returns whether a value type can be numbered: it is no definition, or a definition with a number.
    fn is_ready(&self, value: ValueType) -> bool
        ensures { IsTrue result ↔ IsReady self.now value }
    {
        match value {
            ValueType::Defined(id) => self.defined(id).is_some(),
            ValueType::Primitive(_) => true,
            ValueType::Own(_) => true,
            ValueType::Borrow(_) => true,
        }
    }

    /// Returns the number of a value type that is ready.
    fn part(
        &self,
        nodes: &mut Nodes,
        source: &Source,
        value: ValueType,
    ) -> Result<usize, AllocError>
        requires held { holds_value source.now.types.now value ≡ true }
        requires ready { IsReady self.now value }
        requires named { AreNamed source.now.types.now source.now.calls.now }
        requires right { IsRight (source_tree source.now) self.now nodes.old }
        ensures grown { IsGrown nodes.old nodes.new }
        ensures number { IfOk result (λ n. HasTree nodes.new (source_tree source.now (ty.Value value)) n) }
    {
        match value {
            ValueType::Primitive(primitive) => add(nodes, Node::Primitive(primitive)),
            ValueType::Own(id) => owned(nodes, source, id),
            ValueType::Borrow(id) => lent(nodes, source, id),
            ValueType::Defined(id) => Ok(self.defined(id).unwrap()),
        }
    }

    /// Returns the number of an optional value type that is ready.
    fn optional(
        &self,
        nodes: &mut Nodes,
        source: &Source,
        value: Option<ValueType>,
    ) -> Result<Option<usize>, AllocError>
        requires held { AreHeldValues source.now.types.now (and_maybe value []) }
        requires ready { AreReady self.now (and_maybe value []) }
        requires named { AreNamed source.now.types.now source.now.calls.now }
        requires right { IsRight (source_tree source.now) self.now nodes.old }
        ensures grown { IsGrown nodes.old nodes.new }
        ensures number { IfOk result (λ n. HasOption nodes.new (values_of (source_tree source.now)) value n) }
    {
        match value {
            Some(value) => {
                let number = self.part(nodes, source, value)?;
                Ok(Some(number))
            }
            None => Ok(None),
        }
    }

    /// Returns the numbers of value types that are ready.
    fn parts(
        &self,
        nodes: &mut Nodes,
        source: &Source,
        values: &[ValueType],
    ) -> Result<Vec<usize>, AllocError>
        requires held { AreHeldValues source.now.types.now values.now }
        requires ready { AreReady self.now values.now }
        requires named { AreNamed source.now.types.now source.now.calls.now }
        requires right { IsRight (source_tree source.now) self.now nodes.old }
        ensures grown { IsGrown nodes.old nodes.new }
        ensures numbers { IfOk result (λ ns. AreParts nodes.new (values_of (source_tree source.now)) values.now ns.items) }
    {
        let mut numbers = Vec::with_capacity(source.alloc, values.len())?;
        for i in 0..values.len() {
            let number = self.part(nodes, source, values[i])?;
            numbers.push(number)?;
        }
        Ok(numbers)
    }

    /// Returns the numbers of the types of fields or parameters that are ready.
    fn fields<'a>(
        &self,
        nodes: &mut Nodes<'a>,
        source: &Source,
        fields: &'a Named<ValueType>,
    ) -> Result<Vec<(&'a str, usize)>, AllocError>
        requires held { AreHeldValues source.now.types.now (seconds fields.now) }
        requires ready { AreReady self.now (seconds fields.now) }
        requires named { AreNamed source.now.types.now source.now.calls.now }
        requires right { IsRight (source_tree source.now) self.now nodes.old }
        ensures grown { IsGrown nodes.old nodes.new }
        ensures numbers { IfOk result (λ es. AreFields nodes.new (values_of (source_tree source.now)) fields.now es.items) }
    {
        let mut numbers = nodes.take_fields(source.alloc);
        for i in 0..fields.len() {
            let (name, value) = fields.entry_at(i);
            let number = self.part(nodes, source, *value)?;
            numbers.push((name, number))?;
        }
        Ok(numbers)
    }

    /// Returns the numbers of the payloads of cases that are ready.
    fn cases<'a>(
        &self,
        nodes: &mut Nodes,
        source: &Source,
        cases: &'a Named<Option<ValueType>>,
    ) -> Result<Vec<(&'a str, Option<usize>)>, AllocError>
        requires held { AreHeldValues source.now.types.now (case_values cases.now) }
        requires ready { AreReady self.now (case_values cases.now) }
        requires named { AreNamed source.now.types.now source.now.calls.now }
        requires right { IsRight (source_tree source.now) self.now nodes.old }
        ensures grown { IsGrown nodes.old nodes.new }
        ensures numbers { IfOk result (λ es. AreCases nodes.new (values_of (source_tree source.now)) cases.now es.items) }
    {
        let mut numbers = Vec::with_capacity(source.alloc, cases.len())?;
        for i in 0..cases.len() {
            let (name, value) = cases.entry_at(i);
            let number = self.optional(nodes, source, *value)?;
            numbers.push((name, number))?;
        }
        Ok(numbers)
    }

    /// Returns the node of a result whose payloads are ready.
    fn outcome<'a>(
        &self,
        nodes: &mut Nodes<'a>,
        source: &Source,
        ok: Option<ValueType>,
        err: Option<ValueType>,
    ) -> Result<Node<'a>, AllocError>
        requires held { AreHeldValues source.now.types.now (and_maybe ok (and_maybe err [])) }
        requires ready { AreReady self.now (and_maybe ok (and_maybe err [])) }
        requires named { AreNamed source.now.types.now source.now.calls.now }
        requires right { IsRight (source_tree source.now) self.now nodes.old }
        ensures grown { IsGrown nodes.old nodes.new }
        ensures fits { IfOk result (λ n. Fits nodes.new (defined_tree (values_of (source_tree source.now)) (def.Result ok err)) (node_view n)) }
    {
        let ok = self.optional(nodes, source, ok)?;
        let err = self.optional(nodes, source, err)?;
        Ok(Node::Result(ok, err))
    }

    /// Returns the node of a definition whose parts are ready.
    fn meaning<'a>(
        &self,
        nodes: &mut Nodes<'a>,
        source: &Source,
        definition: &'a DefinedType,
    ) -> Result<Meaning<'a>, AllocError>
        requires held { AreHeldValues source.now.types.now (defined_values definition.now) }
        requires ready { AreReady self.now (defined_values definition.now) }
        requires named { AreNamed source.now.types.now source.now.calls.now }
        requires right { IsRight (source_tree source.now) self.now nodes.old }
        ensures grown { IsGrown nodes.old nodes.new }
        ensures meaning { IfOk result (λ n. Means nodes.new (defined_tree (values_of (source_tree source.now)) definition.now) n) }
    {
        let node = match definition {
            DefinedType::Tuple(parts) => Node::Tuple(self.parts(nodes, source, parts.as_slice())?),
            DefinedType::List(value) => Node::List(self.part(nodes, source, *value)?),
            DefinedType::FixedSizeList(value, length) => {
                Node::FixedSizeList(self.part(nodes, source, *value)?, *length)
            }
            DefinedType::Option(value) => Node::Option(self.part(nodes, source, *value)?),
            DefinedType::Result { ok, err } => self.outcome(nodes, source, *ok, *err)?,
            DefinedType::Variant(variant) => {
                Node::Variant(self.cases(nodes, source, &variant.cases)?)
            }
            DefinedType::Record(record) => {
                Node::Record(self.fields(nodes, source, &record.fields)?)
            }
            DefinedType::Flags(flags) => Node::Flags(names(source.alloc, &flags.0)?),
            DefinedType::Enum(cases) => Node::Enum(names(source.alloc, &cases.0)?),
            DefinedType::Alias(value) => {
                return Ok(Meaning::Same(self.part(nodes, source, *value)?));
            }
            DefinedType::Stream(value) => Node::Stream(self.optional(nodes, source, *value)?),
            DefinedType::Future(value) => Node::Future(self.optional(nodes, source, *value)?),
        };
        Ok(Meaning::New(node))
    }

    /// Numbers a definition whose parts are ready.
    fn close<'a>(
        &mut self,
        nodes: &mut Nodes<'a>,
        source: &Source<'a, '_>,
        id: DefinedTypeId,
    ) -> Result<(), AllocError>
        requires held { HasDefined source.now.types.now id }
        requires ready { AreReady self.old (parts_of source.now.types.now id) }
        requires named { AreNamed source.now.types.now source.now.calls.now }
        requires right { IsRight (source_tree source.now) self.old nodes.old }
        ensures grown { IsGrown nodes.old nodes.new }
        ensures right { OnOk result (IsRight (source_tree source.now) self.new nodes.new) }
        ensures more { OnOk result (IsMore self.old self.new) }
        ensures done { OnOk result (IsReady self.new (val.Defined id)) }
    {
        source.types.law(); // proof only
        trees_are_whole(source.types); // proof only
        let number = match self.meaning(nodes, source, &source.types[id])? {
            Meaning::New(node) => add(nodes, node)?,
            Meaning::Same(number) => number,
        };
        self.put_defined(id, number)
    }

    /// Performs a task: numbers its definition, or pushes the definition again and its parts after it.
    ///
    /// A definition whose only part is ready is numbered at once.
    fn perform<'a>(
        &mut self,
        nodes: &mut Nodes<'a>,
        source: &Source<'a, '_>,
        task: Task,
        tasks: &mut Vec<Task>,
    ) -> Result<(), AllocError>
        requires held { IsHeldTask source.now.types.now task }
        requires ready { MayBeDone source.now.types.now self.old task }
        requires named { AreNamed source.now.types.now source.now.calls.now }
        requires right { IsRight (source_tree source.now) self.old nodes.old }
        ensures grown { IsGrown nodes.old nodes.new }
        ensures right { OnOk result (IsRight (source_tree source.now) self.new nodes.new) }
        ensures did { OnOk result (Did source.now.types.now task self.old self.new tasks.old.items tasks.new.items) }
    {
        match task {
            Task::Open(id) => {
                if let Some(_) = self.defined(id) {
                    return Ok(());
                }
                let definition = &source.types[id];
                if let Some(value) = only_part(definition) {
                    if self.is_ready(value) {
                        return self.close(nodes, source, id);
                    }
                }
                tasks.push(Task::Close(id))?;
                open_parts(tasks, definition)
            }
            Task::Close(id) => self.close(nodes, source, id),
        }
    }

    /// Numbers the definitions of the tasks, and the definitions that they reach.
    fn finish<'a>(
        &mut self,
        nodes: &mut Nodes<'a>,
        source: &Source<'a, '_>,
        mut tasks: Vec<Task>,
    ) -> Result<(), AllocError>
        requires held { AllByRecursion (IsHeldTask source.now.types.now) tasks.items }
        requires opened { AllByRecursion IsOpening tasks.items }
        requires named { AreNamed source.now.types.now source.now.calls.now }
        requires right { IsRight (source_tree source.now) self.old nodes.old }
        ensures grown { IsGrown nodes.old nodes.new }
        ensures right { OnOk result (IsRight (source_tree source.now) self.new nodes.new) }
        ensures done { OnOk result (AllByRecursion (IsDone self.new) tasks.items) }
    {
        source.types.law(); // proof only
        while let Some(task) = tasks.pop() {
            self.perform(nodes, source, task, &mut tasks)?;
        }
        self.keep_tasks(tasks);
        Ok(())
    }

    /// Returns the number of a value type.
    ///
    /// # Errors
    /// - [`AllocError`] if out of memory.
    pub fn value<'a>(
        &mut self,
        nodes: &mut Nodes<'a>,
        source: &Source<'a, '_>,
        value: ValueType,
    ) -> Result<usize, AllocError>
        requires held { holds_value source.now.types.now value ≡ true }
        requires named { AreNamed source.now.types.now source.now.calls.now }
        requires right { IsRight (source_tree source.now) self.old nodes.old }
        ensures grown { IsGrown nodes.old nodes.new }
        ensures right { OnOk result (IsRight (source_tree source.now) self.new nodes.new) }
        ensures number { IfOk result (λ n. HasTree nodes.new (source_tree source.now (ty.Value value)) n) }
    {
        if let ValueType::Defined(id) = value {
            if let Some(number) = self.defined(id) {
                return Ok(number);
            }
        }
        let mut tasks = self.take_tasks(source.alloc);
        open_value(&mut tasks, value)?;
        self.finish(nodes, source, tasks)?;
        self.part(nodes, source, value)
    }

    /// Returns the number of a function type.
    ///
    /// # Errors
    /// - [`AllocError`] if out of memory.
    pub fn func_type<'a>(
        &mut self,
        nodes: &mut Nodes<'a>,
        source: &Source<'a, '_>,
        id: FuncTypeId,
    ) -> Result<usize, AllocError>
        requires held { HasFunc source.now.types.now id }
        requires named { AreNamed source.now.types.now source.now.calls.now }
        requires right { IsRight (source_tree source.now) self.old nodes.old }
        ensures grown { IsGrown nodes.old nodes.new }
        ensures right { OnOk result (IsRight (source_tree source.now) self.new nodes.new) }
        ensures number { IfOk result (λ n. HasTree nodes.new (source_tree source.now (ty.Func id)) n) }
    {
        if let Some(number) = self.func(id) {
            return Ok(number);
        }
        source.types.law(); // proof only
        trees_are_whole(source.types); // proof only
        let func = &source.types[id];
        let mut tasks = self.take_tasks(source.alloc);
        open_optional(&mut tasks, func.result)?;
        open_fields(&mut tasks, &func.params)?;
        self.finish(nodes, source, tasks)?;
        let params = self.fields(nodes, source, &func.params)?;
        let returned = self.optional(nodes, source, func.result)?;
        let number = add(nodes, Node::Func(func.is_async, params, returned))?;
        self.put_func(id, number)?;
        Ok(number)
    }
}
