//! Labels, and what they stand for.
ghost use Rattle.std.specs.Prelude.{◌≡◌, ◌<◌, ◌++◌, ◌∷◌, [], ◌↔◌, Some, OnOk, OnErr, IsTrue, IsSome, length, slice_get, vec_capacity};
ghost use Rattle.std.specs.Option.{option_copied};
ghost use Rattle.wac_types_shapes.specs.primitives.Name.{find_name};
ghost use Rattle.wac_script.specs.labels.Things.{things_of, cores_of, IsThing};
ghost use Rattle.wac_script.specs.private.Unread.{Reads};
ghost use Rattle.wac_script.specs.declared.labels.things.Thing.TheVariants.{Core as core_thing, Resource as resource_thing, Interface as interface_thing, World as world_thing, Package as package_thing, Node as node_thing};

use crate::labels::faults::{WordError, WordFault, refused};
use std::alloc::{AllocError, Global};
use wac_graph::types::{
    CoreExtern, Entries, FuncTypeId, InterfaceId, ModuleTypeId, Named, ResourceId, ValueType,
    WorldId,
};
use wac_graph::{NodeId, PackageId};

/// What a label stands for.
#[derive(Clone, Copy)]
pub(crate) enum Thing {
    /// A resource.
    Resource(ResourceId),
    /// A value type.
    Value(ValueType),
    /// A function type.
    Func(FuncTypeId),
    /// An interface.
    Interface(InterfaceId),
    /// A world.
    World(WorldId),
    /// An import or export of a core module, by its number among those of the labels.
    Core(usize),
    /// The type of a core module.
    Module(ModuleTypeId),
    /// A package.
    Package(PackageId),
    /// A node.
    Node(NodeId),
}

/// What a label stands for, and the number of the line that gave the label.
#[derive(Clone, Copy)]
pub(crate) struct Labelled {
    /// What the label stands for.
    pub thing: Thing,
    /// The line, counted from 1.
    pub line: usize,
}

/// What labels stand for.
pub(crate) struct Things {
    pub(crate) alloc: Global,
    things: Named<Labelled>,
    /// The imports and exports of core modules that have labels.
    cores: Vec<CoreExtern>,
}

// By hand: a derived `Drop` is proved again wherever one goes out of scope (docs/PROOFS.md, 'Drop').
impl Drop for Things {
    fn drop(self) {
        let Things {
            alloc: _,
            things: _,
            cores: _,
        } = self;
    }
}

impl Things {
    /// Returns no labels.
    pub(crate) fn new(alloc: Global) -> Things
        ensures things { things_of result ≡ [] }
        ensures cores { cores_of result ≡ [] }
    {
        Things {
            alloc,
            things: Named::new(alloc),
            cores: Vec::new(alloc),
        }
    }

    /// Returns an iterator over the labels and what they stand for, in the order of their lines.
    pub(crate) fn iter(&self) -> Entries<'_, Labelled>
        ensures { result ≡ things_of self.now }
    {
        self.things.iter()
    }

    /// The number of labels.
    pub(crate) fn len(&self) -> usize
        ensures { result ≡ length (things_of self.now) }
    {
        self.things.len()
    }

    /// Returns the label at `index`, which must be less than [`len`](Self::len), and what it stands for.
    pub(crate) fn entry_at(&self, index: usize) -> (&str, &Labelled)
        requires { index < length (things_of self.now) }
        ensures { slice_get (things_of self.now) index ≡ Some (result.0.now, result.1.now) }
    {
        self.things.entry_at(index)
    }

    /// Whether something has the label.
    pub(crate) fn contains(&self, label: &str) -> bool
        ensures { IsTrue result ↔ IsSome (find_name (things_of self.now) label.now) }
    {
        match self.things.get(label) {
            Some(_) => true,
            None => false,
        }
    }

    /// Returns what a label stands for.
    ///
    /// # Errors
    /// - [`UnknownLabel`](WordFault::UnknownLabel) if nothing has the label.
    pub(crate) fn thing(&self, label: &str) -> Result<Thing, WordError>
        ensures { Reads (λ t. IsThing (things_of self.now) label.now t) result }
    {
        match self.things.get(label) {
            Some(labelled) => Ok(labelled.thing),
            None => Err(refused(self.alloc, WordFault::UnknownLabel, label)),
        }
    }

    /// Gives a thing a label.
    ///
    /// # Errors
    /// - [`LabelTwice`](WordFault::LabelTwice) if something has the label.
    ///
    /// On an error nothing changes.
    pub(crate) fn insert(&mut self, label: &str, thing: Thing, line: usize) -> Result<(), WordError>
        ensures inserted { OnOk result (things_of self.new ≡ things_of self.old ++ (label.now, record { thing = thing; line = line }) ∷ []) }
        ensures kept { OnErr result (things_of self.new ≡ things_of self.old) }
        ensures cores { cores_of self.new ≡ cores_of self.old }
        ensures room { vec_capacity self.new.cores ≡ vec_capacity self.old.cores }
    {
        if self.contains(label) {
            return Err(refused(self.alloc, WordFault::LabelTwice, label));
        }
        match self
            .things
            .insert(self.alloc, label, Labelled { thing, line })
        {
            Ok(()) => Ok(()),
            Err(_) => Err(WordError::OutOfMemory),
        }
    }

    /// Gives an import or export of core modules a label.
    ///
    /// # Errors
    /// - `AllocError` if out of memory. Then nothing changes.
    pub(crate) fn insert_core(
        &mut self,
        label: &str,
        item: CoreExtern,
        line: usize,
    ) -> Result<(), AllocError>
        ensures labels { OnOk result (things_of self.new ≡ things_of self.old ++ (label.now, record { thing = core_thing (length (cores_of self.old)); line = line }) ∷ []) }
        ensures cores { OnOk result (cores_of self.new ≡ cores_of self.old ++ item ∷ []) }
        ensures kept { OnErr result ((things_of self.new ≡ things_of self.old) × (cores_of self.new ≡ cores_of self.old)) }
    {
        let number = self.cores.len();
        self.cores.reserve(1)?;
        let Ok(()) = self.insert(label, Thing::Core(number), line) else {
            return Err(AllocError);
        };
        match self.cores.push(item) {
            Ok(()) => Ok(()),
            Err(_) => unreachable!(),
        }
    }

    /// Returns the import or export of core modules with this number, if there is one.
    pub(crate) fn core_at(&self, number: usize) -> Option<&CoreExtern>
        ensures { option_copied result ≡ slice_get (cores_of self.now) number }
    {
        self.cores.get(number)
    }

    /// Returns the resource of a label.
    ///
    /// # Errors
    /// - [`UnknownLabel`](WordFault::UnknownLabel) or [`NotResource`](WordFault::NotResource).
    pub(crate) fn resource_of(&self, label: &str) -> Result<ResourceId, WordError>
        ensures { Reads (λ r. IsThing (things_of self.now) label.now (resource_thing r)) result }
    {
        let thing = self.thing(label)?;
        match thing {
            Thing::Resource(id) => Ok(id),
            _ => Err(refused(self.alloc, WordFault::NotResource, label)),
        }
    }

    /// Returns the interface of a label.
    ///
    /// # Errors
    /// - [`UnknownLabel`](WordFault::UnknownLabel) or [`NotInterface`](WordFault::NotInterface).
    pub(crate) fn interface_of(&self, label: &str) -> Result<InterfaceId, WordError>
        ensures { Reads (λ i. IsThing (things_of self.now) label.now (interface_thing i)) result }
    {
        let thing = self.thing(label)?;
        match thing {
            Thing::Interface(id) => Ok(id),
            _ => Err(refused(self.alloc, WordFault::NotInterface, label)),
        }
    }

    /// Returns the world of a label.
    ///
    /// # Errors
    /// - [`UnknownLabel`](WordFault::UnknownLabel) or [`NotWorld`](WordFault::NotWorld).
    pub(crate) fn world_of(&self, label: &str) -> Result<WorldId, WordError>
        ensures { Reads (λ w. IsThing (things_of self.now) label.now (world_thing w)) result }
    {
        let thing = self.thing(label)?;
        match thing {
            Thing::World(id) => Ok(id),
            _ => Err(refused(self.alloc, WordFault::NotWorld, label)),
        }
    }

    /// Returns the package of a label.
    ///
    /// # Errors
    /// - [`UnknownLabel`](WordFault::UnknownLabel) or [`NotPackage`](WordFault::NotPackage).
    pub(crate) fn package_of(&self, label: &str) -> Result<PackageId, WordError>
        ensures { Reads (λ p. IsThing (things_of self.now) label.now (package_thing p)) result }
    {
        let thing = self.thing(label)?;
        match thing {
            Thing::Package(id) => Ok(id),
            _ => Err(refused(self.alloc, WordFault::NotPackage, label)),
        }
    }

    /// Returns the node of a label.
    ///
    /// # Errors
    /// - [`UnknownLabel`](WordFault::UnknownLabel) or [`NotNode`](WordFault::NotNode).
    pub(crate) fn node_of(&self, label: &str) -> Result<NodeId, WordError>
        ensures { Reads (λ n. IsThing (things_of self.now) label.now (node_thing n)) result }
    {
        let thing = self.thing(label)?;
        match thing {
            Thing::Node(id) => Ok(id),
            _ => Err(refused(self.alloc, WordFault::NotNode, label)),
        }
    }
}
