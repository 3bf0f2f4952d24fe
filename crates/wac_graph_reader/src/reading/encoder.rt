//! The component that is being written.
ghost use Rattle.std.specs.Prelude.{◌≡◌, []};
ghost use Rattle.wac_graph_model.specs.meaning.Means.{sort_of_kind};
ghost use Rattle.wac_encode_scopes.specs.Roots.{IsRoot, items_of};

use crate::reading::components::Components;
use std::alloc::Global;
use wac_binary::{ComponentBuilder, Sort};
use wac_encode_scopes::State;
use wac_types::ItemKind;

/// The component that is being written, with the component indexes of packages and the indexes of nodes.
#[derive(Drop)]
pub struct Encoder {
    /// The root, the only open scope.
    pub state: State,
    /// The component indexes of the packages that are written.
    pub components: Components,
    /// The index of each node, by number.
    pub indexes: Vec<u32>,
}

impl Encoder {
    /// Continues this root, without any package, with these indexes of nodes.
    pub fn new(alloc: Global, state: State, indexes: Vec<u32>) -> Encoder
        ensures state { result.state ≡ state }
        ensures components { result.components ≡ [] }
        ensures indexes { result.indexes ≡ indexes }
    {
        Encoder {
            state,
            components: Components::new(alloc),
            indexes,
        }
    }

    /// Returns the component and the indexes of nodes.
    pub fn finish(self) -> (ComponentBuilder, Vec<u32>)
        requires { IsRoot self.state.here.content }
        ensures items { result.0 ≡ items_of self.state.here.content }
        ensures indexes { result.1 ≡ self.indexes }
    {
        (self.state.into_builder(), self.indexes)
    }
}

/// The sort of an item.
pub fn sort_of(kind: ItemKind) -> Sort
    ensures { result ≡ sort_of_kind kind }
{
    match kind {
        ItemKind::TypeItem(_) => Sort::Type,
        ItemKind::Func(_) => Sort::Func,
        ItemKind::Instance(_) => Sort::Instance,
        ItemKind::Component(_) => Sort::Component,
        ItemKind::Module(_) => Sort::CoreModule,
        ItemKind::Value(_) => Sort::Value,
    }
}
