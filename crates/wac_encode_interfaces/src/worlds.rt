//! The component types of worlds.
ghost use Rattle.std.specs.Prelude.{◌≡◌, cond, None, Some, IfErr, OnOk};
ghost use Rattle.std.specs.Option.{option_copied};
ghost use Rattle.wac_types_shapes.specs.contracts.shapes.component.WorldIdPartialEq.TheImpl as IdEq;
ghost use Rattle.wac_types_shapes.specs.declared.shapes.component.WorldId.{WorldId as AnyWorld};
ghost use Rattle.wac_binary.specs.declared.fault.BinaryFault.TheVariants.{OutOfMemory};
ghost use Rattle.wac_encode_interfaces.specs.private.Worlds.{written_in};

use indexmap::IndexMap;
use std::alloc::Global;
use wac_binary::{BinaryFault, ComponentType};
use wac_types_collection::WorldId;

/// The component types of worlds. Each is written once, before the scopes that mention the world.
#[derive(Drop)]
pub struct WorldTypes {
    pub(crate) written: IndexMap<WorldId, ComponentType>,
}

impl WorldTypes {
    /// Returns no component types.
    pub(crate) fn new(alloc: Global) -> WorldTypes
        ensures { (w : AnyWorld) → written_in result w ≡ None }
    {
        WorldTypes {
            written: IndexMap::new(alloc),
        }
    }

    /// Returns the component type of a world, if it is written.
    pub fn get(&self, world: WorldId) -> Option<&ComponentType>
        ensures { option_copied result ≡ written_in self.now world }
    {
        self.written.get(&world)
    }

    /// Adds the component type of a world. The types that list it share its bytes.
    pub(crate) fn insert(
        &mut self,
        world: WorldId,
        component: ComponentType,
    ) -> Result<(), BinaryFault>
        ensures put { OnOk result ((w : AnyWorld) → written_in self.new w ≡ cond ((IdEq.ghosts).eq world w) (Some component) (written_in self.old w)) }
        ensures memory { IfErr result (λ e. e ≡ OutOfMemory) }
    {
        let shared = component.share()?;
        self.written.insert(world, shared)?;
        Ok(())
    }
}
