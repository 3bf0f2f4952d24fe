//! Sorts, index spaces, and the descriptions of imports and exports.

ghost use Rattle.std.specs.Prelude.{◌≡◌, ◌<◌};
ghost use Rattle.wac_binary.specs.Indexes.{space as space_of, described_sort as sort_of};
ghost use Rattle.wac_binary.specs.private.Spaces.{number as number_of};

/// A sort of definitions. Each sort has an index space.
#[derive(Clone, Copy, Debug, PartialEq, Eq)]
pub enum Sort {
    /// Core modules.
    CoreModule,
    /// Functions.
    Func,
    /// Values.
    Value,
    /// Types.
    Type,
    /// Components.
    Component,
    /// Instances.
    Instance,
}

/// The description of an import, or of an export in a component type or an instance type (`externdesc`).
#[derive(Clone, Copy, Debug)]
pub enum Description {
    /// A core module of the core type with this index.
    CoreModule(u32),
    /// A function of the type with this index.
    Func(u32),
    /// A type that is equal to the type with this index.
    Equal(u32),
    /// A new resource type.
    Fresh,
    /// A component of the type with this index.
    Component(u32),
    /// An instance of the type with this index.
    Instance(u32),
}

/// The index spaces of a scope: one for each sort, and one for core types.
#[derive(Clone, Copy, Debug)]
pub enum IndexSpace {
    /// Core modules.
    CoreModules,
    /// Functions.
    Funcs,
    /// Values.
    Values,
    /// Types.
    Types,
    /// Components.
    Components,
    /// Instances.
    Instances,
    /// Core types.
    CoreTypes,
}

/// Returns the position of an index space among the seven.
pub fn number(s: IndexSpace) -> usize
    ensures is { result ≡ number_of s }
    ensures small { result < 7 }
{
    match s {
        IndexSpace::CoreModules => 0,
        IndexSpace::Funcs => 1,
        IndexSpace::Values => 2,
        IndexSpace::Types => 3,
        IndexSpace::Components => 4,
        IndexSpace::Instances => 5,
        IndexSpace::CoreTypes => 6,
    }
}

/// Returns the index space of a sort.
pub fn space(s: Sort) -> IndexSpace
    ensures { number_of result ≡ space_of s }
{
    match s {
        Sort::CoreModule => IndexSpace::CoreModules,
        Sort::Func => IndexSpace::Funcs,
        Sort::Value => IndexSpace::Values,
        Sort::Type => IndexSpace::Types,
        Sort::Component => IndexSpace::Components,
        Sort::Instance => IndexSpace::Instances,
    }
}

/// Returns the sort of the described import or export.
pub fn described_sort(d: Description) -> Sort
    ensures { result ≡ sort_of d }
{
    match d {
        Description::CoreModule(_) => Sort::CoreModule,
        Description::Func(_) => Sort::Func,
        Description::Equal(_) => Sort::Type,
        Description::Fresh => Sort::Type,
        Description::Component(_) => Sort::Component,
        Description::Instance(_) => Sort::Instance,
    }
}
