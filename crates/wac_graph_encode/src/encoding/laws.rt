//! The laws by which the root grows.
//!
//! The function does nothing. Its contract is a law that a caller cites by a call (docs/PROOFS.md, 'Laws').
ghost use Rattle.wac_graph_encode.specs.private.encoding.Laws.{GrowthLaws};

use wac_binary::laws::{added_law, has_meaning_law, kept_law, law};
use wac_encode_interfaces::laws::{definition_law, free_law, world_law};
use wac_encode_scopes::lending_law;
use wac_encode_stacks::bringing_law;

/// Items, definitions and packages are appended to the root.
pub(crate) fn growth_law()
    ensures { GrowthLaws }
{
    lending_law();
    bringing_law();
    free_law();
    definition_law();
    world_law();
    law();
    kept_law();
    has_meaning_law();
    added_law();
}
