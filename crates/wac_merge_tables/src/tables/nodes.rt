//! An interning table of types. Each type is a node that mentions other types by number.
ghost use Rattle.std.specs.Prelude.{◌≡◌, ◌<◌, ℕ, [], fold, length, Some, slice_get, OnOk, OnErr, IfOk};
ghost use Rattle.std.specs.List.{AllByRecursion};
ghost use Rattle.wac_merge_tables.specs.private.tables.Nodes.{mentions, of_list, of_option, tree_at, Added, IsSorted, IsTable};
ghost use Rattle.wac_merge_tables.specs.private.tables.NodeViews.{node_view};
ghost use Rattle.wac_merge_tables.specs.private.tables.ItemHash.{item_writes, item_alike};
ghost use Rattle.wac_merge_tables.specs.private.tables.NodeHash.{node_writes, node_alike, number_writes};

use crate::tables::rounds::Numbers;
use indexmap::IndexSet;
use std::alloc::{AllocError, Global};
use std::hash::{Hash, Hasher};
use std::marker::Model;
use std::mem::replace;
use wac_types_collection::subtyping::called::Called;
use wac_types_collection::{CoreRefType, CoreType, PrimitiveType};

/// An import or export of an instance or component: its sort, and the number of its type.
#[derive(Clone, Copy, PartialEq, Eq)]
pub enum Item {
    /// A type.
    Type(usize),
    /// A function.
    Func(usize),
    /// An instance.
    Instance(usize),
    /// A component.
    Component(usize),
    /// A core module.
    Module(usize),
    /// A value.
    Value(usize),
}

// Only the number is hashed, without the sort: one write instead of two.
impl Hash for Item {
    ghost hash_input = { item_writes };

    ghost respects_eq = { λ a b e. item_alike a b e };

    fn hash<H: Hasher>(&self, state: &mut H) {
        match self {
            Item::Type(number) => number.hash(state),
            Item::Func(number) => number.hash(state),
            Item::Instance(number) => number.hash(state),
            Item::Component(number) => number.hash(state),
            Item::Module(number) => number.hash(state),
            Item::Value(number) => number.hash(state),
        }
    }
}

/// An import or export of a core module.
#[derive(PartialEq, Eq, Hash, Drop)]
pub enum Core {
    /// A function with its parameters and results.
    Func(Vec<CoreType>, Vec<CoreType>),
    /// A table: element type, whether it has 64-bit indexes, whether it is shared, its least and greatest size.
    Table(CoreRefType, bool, bool, u64, Option<u64>),
    /// A memory: whether it has 64-bit addresses, whether it is shared, its least and greatest size, its page size
    /// (log2).
    Memory(bool, bool, u64, Option<u64>, Option<u32>),
    /// A global: its type, whether it is mutable, whether it is shared.
    Global(CoreType, bool, bool),
    /// A tag with its parameters and results.
    Tag(Vec<CoreType>, Vec<CoreType>),
}

/// A type that mentions other types by their numbers in the table.
///
/// Names are borrowed from the collection; those of core modules are owned.
#[derive(PartialEq, Eq, Drop)]
pub enum Node<'a> {
    /// A resource.
    Resource(Called),
    /// A primitive type.
    Primitive(PrimitiveType),
    /// An `own` handle.
    Own(Called),
    /// A `borrow` handle.
    Borrow(Called),
    /// A record with its fields.
    Record(Vec<(&'a str, usize)>),
    /// A variant with its cases.
    Variant(Vec<(&'a str, Option<usize>)>),
    /// A list.
    List(usize),
    /// A list of fixed length.
    FixedSizeList(usize, u32),
    /// A tuple.
    Tuple(Vec<usize>),
    /// Flags.
    Flags(Vec<&'a str>),
    /// An enum.
    Enum(Vec<&'a str>),
    /// An option.
    Option(usize),
    /// A result with its `ok` and `err` types.
    Result(Option<usize>, Option<usize>),
    /// A stream.
    Stream(Option<usize>),
    /// A future.
    Future(Option<usize>),
    /// A function: whether it is async, its parameters, its result.
    Func(bool, Vec<(&'a str, usize)>, Option<usize>),
    /// An instance with its exports, sorted by name.
    Instance(Vec<(&'a str, Item)>),
    /// A component with its imports and its exports, each sorted by name.
    Component(Vec<(&'a str, Item)>, Vec<(&'a str, Item)>),
    /// A core module with its imports by module and name, and its exports, each sorted by name.
    Module(Vec<(String, Vec<(String, Core)>)>, Vec<(String, Core)>),
}

// Only the parts are hashed, without the variant: a list or an option is a single write.
impl<'a> Hash for Node<'a> {
    ghost hash_input = { node_writes };

    ghost respects_eq = { λ a b e. node_alike a b e };

    fn hash<H: Hasher>(&self, state: &mut H) {
        match self {
            Node::Resource(called) => called.hash(state),
            Node::Primitive(primitive) => primitive.hash(state),
            Node::Own(called) => called.hash(state),
            Node::Borrow(called) => called.hash(state),
            Node::Record(fields) => fields.hash(state),
            Node::Variant(cases) => cases.hash(state),
            Node::List(part) => part.hash(state),
            Node::FixedSizeList(part, _) => part.hash(state),
            Node::Tuple(parts) => parts.hash(state),
            Node::Flags(names) => names.hash(state),
            Node::Enum(names) => names.hash(state),
            Node::Option(part) => part.hash(state),
            Node::Result(ok, err) => {
                ok.hash(state);
                err.hash(state);
            }
            Node::Stream(part) => hash_number(*part, state),
            Node::Future(part) => hash_number(*part, state),
            Node::Func(_, params, result) => {
                params.hash(state);
                hash_number(*result, state);
            }
            Node::Instance(exports) => exports.hash(state),
            Node::Component(imports, exports) => {
                imports.hash(state);
                exports.hash(state);
            }
            Node::Module(_, exports) => exports.hash(state),
        }
    }
}

/// Hashes a number if there is one.
fn hash_number<H: Hasher>(number: Option<usize>, state: &mut H)
    ensures { state.new ≡ fold H.write state.old (number_writes number) }
{
    if let Some(number) = number {
        number.hash(state);
    }
}

/// The nodes of the table, each once. A node mentions only nodes with lower numbers.
///
/// A call that fails leaves the table unchanged.
pub struct Nodes<'a> {
    nodes: IndexSet<Node<'a>>,
    /// For the number of an element type, the number of its list. It may lack some lists of the table.
    lists: Numbers,
    /// For the number of a type, the number of its option. It may lack some options of the table.
    options: Numbers,
    /// A buffer that is reused for the fields of a node.
    fields: Vec<(&'a str, usize)>,
}

// By hand: a derived `Drop` is proved again wherever one goes out of scope (docs/PROOFS.md, 'Drop').
impl<'a> Drop for Nodes<'a> {
    fn drop(self) {
        let Nodes {
            nodes: _,
            lists: _,
            options: _,
            fields: _,
        } = self;
    }
}

impl<'a> Model for Nodes<'a> {
    ghost use Rattle.std.specs.Prelude.{List, map};
    ghost use Rattle.wac_merge_tables.specs.private.tables.Nodes as table;
    ghost use Rattle.wac_merge_tables.specs.private.tables.NodeViews.{node_view};
    ghost use Rattle.wac_merge_tables.specs.private.tables.NotedNodes.{IsNoted};

    ghost Value = { List table.Node };

    ghost view = { λ t. map node_view t.nodes.keys };

    ghost invariant = { λ t. IsNoted (map node_view t.nodes.keys) t.lists t.options };
}

impl<'a> Nodes<'a> {
    /// Creates an empty table.
    pub fn new(alloc: Global) -> Nodes<'a>
        ensures { result ≡ [] }
    {
        Nodes {
            nodes: IndexSet::new(alloc),
            lists: Numbers::new(alloc),
            options: Numbers::new(alloc),
            fields: Vec::new(alloc),
        }
    }

    /// The law of all tables: two numbers with equal trees are equal.
    pub fn law(&self)
        ensures { (i j : ℕ) → i < length self.now → j < length self.now → tree_at self.now i ≡ tree_at self.now j → i ≡ j }
    {
        let _ = &self.nodes;
    }

    /// The law of all tables: each node is sorted, is there once, and mentions only lower numbers.
    pub fn table_law(&self)
        ensures { IsTable self.now }
    {
        let _ = &self.nodes;
    }

    /// Returns the node with a number.
    pub fn node(&self, number: usize) -> &Node<'a>
        requires { number < length self.now }
        ensures { slice_get self.now number ≡ Some (node_view result.now) }
    {
        self.nodes.get_index(number).unwrap()
    }

    /// Takes an empty buffer for the fields of a node. `add` gives the buffer back if the node is already there.
    pub fn take_fields(&mut self, alloc: Global) -> Vec<(&'a str, usize)>
        ensures none { result.items ≡ [] }
        ensures same { self.new ≡ self.old }
    {
        let mut fields = replace(&mut self.fields, Vec::new(alloc));
        fields.clear();
        fields
    }

    /// Gives back the buffer with the fields of a node.
    fn keep_fields(&mut self, node: Node<'a>)
        ensures { self.new ≡ self.old }
    {
        match node {
            Node::Record(fields) => self.fields = fields,
            Node::Func(_, params, _) => self.fields = params,
            _ => {}
        }
    }

    /// Returns the number of a node. The node is found by its hash, and appended if it is not there.
    fn insert(&mut self, node: Node<'a>) -> Result<usize, AllocError>
        requires lower { AllByRecursion (λ m. m < length self.old) (mentions (node_view node)) }
        requires sorted { IsSorted (node_view node) }
        ensures added { OnOk result (IfOk result (λ i. Added self.old (node_view node.entry) self.new i)) }
        ensures refused { OnErr result (self.new ≡ self.old) }
    {
        let Ok((index, _)) = self.nodes.insert_full(node) else {
            return Err(AllocError);
        };
        Ok(index)
    }

    /// Returns the number of a list, which is appended if it is not there.
    fn add_list(&mut self, part: usize) -> Result<usize, AllocError>
        requires { part < length self.old }
        ensures added { OnOk result (IfOk result (λ i. Added self.old (of_list part) self.new i)) }
        ensures refused { OnErr result (self.new ≡ self.old) }
    {
        if let Some(number) = self.lists.get(part) {
            return Ok(number);
        }
        let number = self.insert(Node::List(part))?;
        // If this fails, the list is found by its hash next time.
        let _ = self.lists.put(part, number);
        Ok(number)
    }

    /// Returns the number of an option, which is appended if it is not there.
    fn add_option(&mut self, part: usize) -> Result<usize, AllocError>
        requires { part < length self.old }
        ensures added { OnOk result (IfOk result (λ i. Added self.old (of_option part) self.new i)) }
        ensures refused { OnErr result (self.new ≡ self.old) }
    {
        if let Some(number) = self.options.get(part) {
            return Ok(number);
        }
        let number = self.insert(Node::Option(part))?;
        let _ = self.options.put(part, number);
        Ok(number)
    }

    /// Returns the number of a node, which is appended if it is not there. If it is there, its buffer is given back.
    fn add_found(&mut self, node: Node<'a>) -> Result<usize, AllocError>
        requires lower { AllByRecursion (λ m. m < length self.old) (mentions (node_view node)) }
        requires sorted { IsSorted (node_view node) }
        ensures added { OnOk result (IfOk result (λ i. Added self.old (node_view node.entry) self.new i)) }
        ensures refused { OnErr result (self.new ≡ self.old) }
    {
        if let Some(number) = self.nodes.get_index_of(&node) {
            self.keep_fields(node);
            return Ok(number);
        }
        self.insert(node)
    }

    /// Returns the number of a node, which is appended if it is not there.
    ///
    /// # Errors
    /// - [`AllocError`] if out of memory.
    pub fn add(&mut self, node: Node<'a>) -> Result<usize, AllocError>
        requires lower { AllByRecursion (λ m. m < length self.old) (mentions (node_view node)) }
        requires sorted { IsSorted (node_view node) }
        ensures added { OnOk result (IfOk result (λ i. Added self.old (node_view node.entry) self.new i)) }
        ensures refused { OnErr result (self.new ≡ self.old) }
    {
        match node {
            Node::List(part) => self.add_list(part),
            Node::Option(part) => self.add_option(part),
            _ => self.add_found(node),
        }
    }
}
