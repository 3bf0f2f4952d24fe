//! The index spaces of a component (Explainer.md, "Index Spaces").

ghost use Rattle.std.specs.Prelude.{◌<◌};

use crate::cores::CoreSort;
use wac_binary::{Description, Sort};

/// An index space.
#[derive(Clone, Copy, Debug, PartialEq, Eq)]
pub enum Space {
    /// Functions.
    Func,
    /// Values.
    Value,
    /// Types.
    Type,
    /// Components.
    Component,
    /// Instances.
    Instance,
    /// Core functions.
    CoreFunc,
    /// Core tables.
    CoreTable,
    /// Core memories.
    CoreMemory,
    /// Core globals.
    CoreGlobal,
    /// Core tags.
    CoreTag,
    /// Core types.
    CoreType,
    /// Core modules.
    CoreModule,
    /// Core instances.
    CoreInstance,
}

impl Space {
    /// Returns the position of the space among the thirteen.
    fn number(self) -> usize
        ensures { result < 13 }
    {
        match self {
            Space::Func => 0,
            Space::Value => 1,
            Space::Type => 2,
            Space::Component => 3,
            Space::Instance => 4,
            Space::CoreFunc => 5,
            Space::CoreTable => 6,
            Space::CoreMemory => 7,
            Space::CoreGlobal => 8,
            Space::CoreTag => 9,
            Space::CoreType => 10,
            Space::CoreModule => 11,
            Space::CoreInstance => 12,
        }
    }

    /// Returns the words for one index of the space.
    pub fn name(self) -> &'static str {
        match self {
            Space::Func => "func",
            Space::Value => "value",
            Space::Type => "type",
            Space::Component => "component",
            Space::Instance => "instance",
            Space::CoreFunc => "core func",
            Space::CoreTable => "core table",
            Space::CoreMemory => "core memory",
            Space::CoreGlobal => "core global",
            Space::CoreTag => "core tag",
            Space::CoreType => "core type",
            Space::CoreModule => "core module",
            Space::CoreInstance => "core instance",
        }
    }
}

/// Returns the index space of a sort.
pub fn space_of(sort: Sort) -> Space {
    match sort {
        Sort::CoreModule => Space::CoreModule,
        Sort::Func => Space::Func,
        Sort::Value => Space::Value,
        Sort::Type => Space::Type,
        Sort::Component => Space::Component,
        Sort::Instance => Space::Instance,
    }
}

/// Returns the index space of a core sort.
pub fn core_space(sort: CoreSort) -> Space {
    match sort {
        CoreSort::Func => Space::CoreFunc,
        CoreSort::Table => Space::CoreTable,
        CoreSort::Memory => Space::CoreMemory,
        CoreSort::Global => Space::CoreGlobal,
        CoreSort::Tag => Space::CoreTag,
        CoreSort::Type => Space::CoreType,
        CoreSort::Module => Space::CoreModule,
        CoreSort::Instance => Space::CoreInstance,
    }
}

/// Returns the index space of what is described.
pub fn described_space(description: Description) -> Space {
    match description {
        Description::CoreModule(_) => Space::CoreModule,
        Description::Func(_) => Space::Func,
        Description::Equal(_) | Description::Fresh => Space::Type,
        Description::Component(_) => Space::Component,
        Description::Instance(_) => Space::Instance,
    }
}

/// The number of indexes in each index space.
#[derive(Drop)]
pub struct Spaces {
    counts: [usize; 13],
}

impl Spaces {
    /// Returns spaces without indexes.
    pub fn new() -> Spaces {
        Spaces { counts: [0; 13] }
    }

    /// Adds an index to a space and returns it.
    pub fn next(&mut self, space: Space) -> usize {
        let at = space.number();
        let index = self.counts[at];
        self.counts[at] = index.saturating_add(1);
        index
    }
}
