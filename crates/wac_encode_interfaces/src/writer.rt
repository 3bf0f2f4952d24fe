//! The writer of interfaces and component types.
ghost use Rattle.wac_encode_interfaces.specs.private.Paid.{AreSmallWorlds};
ghost use Rattle.std.specs.Prelude.{◌≡◌};
ghost use Rattle.wac_encode_scopes.specs.private.Closed.{AreClosedTypes};
ghost use Rattle.wac_encode_interfaces.specs.private.Worlds.{AreWorldTypes, written_in};
ghost use Rattle.wac_encode_interfaces.specs.private.Writers.{IsWriter};

use crate::worlds::WorldTypes;
use wac_encode_scopes::ClosedTypes;
use wac_encode_values::ValueEncoder;
use wac_types_collection::Types;

/// Writes the interfaces and component types of a collection into open scopes.
///
/// What is recorded in a scope is not written there again. Nothing that it writes may have a fault. After an error the
/// scopes must be dropped.
#[derive(Clone, Copy)]
pub struct TypeWriter<'a> {
    /// The collection.
    pub(crate) types: &'a Types,
    /// Its definitions that mention no resource.
    pub(crate) closed: &'a ClosedTypes,
    /// Whether it is the merged collection, or else the graph's own.
    pub(crate) merged: bool,
    /// The writer of its value types.
    pub(crate) values: ValueEncoder<'a>,
    /// The component types of the worlds inside what is written.
    pub(crate) worlds: &'a WorldTypes,
}

impl<'a> TypeWriter<'a> {
    /// Returns a writer of a collection's interfaces: the merged collection's, or else the graph's own.
    ///
    /// `closed` must be the definitions of that collection that mention no resource.
    pub fn new(
        types: &'a Types,
        closed: &'a ClosedTypes,
        merged: bool,
        worlds: &'a WorldTypes,
    ) -> TypeWriter<'a>
        ensures types { result.types.now ≡ types.now }
        ensures closed { result.closed.now ≡ closed.now }
        ensures merged { result.merged ≡ merged }
        ensures worlds { result.worlds.now ≡ worlds.now }
        ensures writer { AreClosedTypes types.now closed.now → AreWorldTypes types.now (written_in worlds.now) → AreSmallWorlds types.now (written_in worlds.now) → IsWriter result }
    {
        TypeWriter {
            types,
            closed,
            merged,
            values: ValueEncoder::new(types, closed, merged),
            worlds,
        }
    }
}
