//! A component that is written by hand.

ghost use Rattle.std.specs.Prelude.{◌≡◌, ◌≤◌, [], Bool, None, IfSome};
ghost use Rattle.std.specs.Borrow.{sem};
ghost use Rattle.wac_types_collection.specs.collection.Bound.{Bindings};
ghost use Rattle.wac_types_collection.specs.collection.Collection.{Collection};
ghost use Rattle.wac_encode_stacks.specs.Good.{nothing_bound};
ghost use Rattle.wac_encode.specs.Lending.{LendsComponent};
ghost use Rattle.wac_encode.specs.Root.{written_items, HasRoot, IsResourcePlace, IsStateFor};
ghost use Rattle.wac_encode.specs.private.Places.{place_in};

use std::alloc::Global;
use wac_binary::ComponentBuilder;
use wac_encode_scopes::State as Scopes;
use wac_encode_stacks::step_law;
use wac_types_collection::ResourceId;

/// Where a resource is in a component.
#[derive(Clone, Copy)]
pub struct ResourcePlace {
    /// How many scopes out it is. 0, since the component is the only open scope.
    pub out: usize,
    /// Its type index, or else the index of the instance that exports it.
    pub index: u32,
    /// Whether it has a type index. If not, it is not aliased from the instance yet.
    pub is_type: bool,
}

/// What the search for a resource finds.
#[derive(Clone, Copy)]
pub struct Found {
    /// Where the resource is, or `None` if it is not bound.
    pub place: Option<ResourcePlace>,
    /// How many scopes are searched.
    pub probes: usize,
}

/// The place of a resource that is found.
fn place_of(found: Option<(usize, u32, bool)>) -> Option<ResourcePlace>
    ensures { result ≡ place_in found }
{
    match found {
        Some((out, index, is_type)) => Some(ResourcePlace {
            out,
            index,
            is_type,
        }),
        None => None,
    }
}

/// A component that is written by hand, and what is recorded in it of the types of two collections.
///
/// In each method, `merged` says which collection the ids are of: the merged one, or else the graph's own.
///
/// After a refused call the old items are still there, perhaps with more after them. The state must then be dropped.
#[derive(Drop)]
pub struct State {
    /// The open scopes: the component, and while a type is written those inside it.
    pub(crate) scopes: Scopes,
}

impl State {
    /// Returns a component without items, in which nothing is recorded and no resource is bound.
    pub fn new(alloc: Global) -> State
        ensures state { (c : Collection) (b : Bool) → IsStateFor c b nothing_bound result }
        ensures empty { written_items result ≡ [] }
    {
        State {
            scopes: Scopes::root(alloc),
        }
    }

    /// The component that is written. Items may be appended to it. All records are kept.
    pub fn builder(&mut self) -> &mut ComponentBuilder
        requires { HasRoot self.old }
        ensures* writes_back { sem 𝓛 (LendsComponent self.entry result) }
        ensures value { result.now ≡ written_items self.old }
    {
        self.scopes.builder()
    }

    /// Finds what a resource is bound to, and counts the scopes that are searched.
    pub fn find(&self, merged: bool, resource: ResourceId) -> Found
        ensures found { IfSome result.place (λ p. (c : Collection) (m : Bindings) → IsStateFor c merged m self.now → IsResourcePlace m self.now resource p) }
        ensures none { result.place ≡ None → (c : Collection) (m : Bindings) → IsStateFor c merged m self.now → m resource ≡ None }
        ensures probes { (c : Collection) (m : Bindings) → IsStateFor c merged m self.now → result.probes ≤ 1 }
    {
        step_law(); // proof only
        wac_encode_stacks::bringing_law(); // proof only
        let (found, probes) = self.scopes.find(merged, resource);
        Found {
            place: place_of(found),
            probes,
        }
    }
}
