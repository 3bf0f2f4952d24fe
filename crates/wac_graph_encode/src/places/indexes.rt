//! The indexes of import nodes.
ghost use Rattle.std.specs.Prelude.{◌≡◌, IfOk, IfSome};
ghost use Rattle.wac_edges.specs.Edge.{node_number};
ghost use Rattle.wac_graph_model.specs.private.meaning.Encoding.{HasRoom};
ghost use Rattle.wac_graph_model.specs.meaning.Means.{sort_of_kind};
ghost use Rattle.wac_graph_model.specs.private.meaning.MergedImports.{IsFoundAt};
ghost use Rattle.wac_graph_model.specs.nodes.Graph.{node_at, import};
ghost use Rattle.wac_graph_encode.specs.private.places.Places.{ArePlaced, AreFound};
ghost use Rattle.wac_types_shapes.specs.primitives.Name.{Name as AName};

use crate::places::places::ImportPlaces;
use std::alloc::AllocError;
use wac_graph_reader::GraphReader;
use wac_merge::laws::{class_laws, order_law};

/// Returns a list with each import node's index at the node's number, and zeros at other numbers.
pub fn import_indexes(
    reader: &GraphReader<'_>,
    imports: &ImportPlaces,
) -> Result<Vec<u32>, AllocError>
    requires { ArePlaced reader.now imports.now }
    ensures room { IfOk result (λ v. HasRoom reader.now v.items) }
    ensures found { IfOk result (λ v. AreFound reader.now imports.now v.items) }
{
    let alloc = reader.allocator();
    let count = reader.capacity();
    if reader.imports_nothing() {
        let zeros = vec![in alloc; 0; count]?;
        return Ok(zeros);
    }
    let mut indexes = Vec::new(alloc);
    for n in 0..count {
        indexes.push(import_index(reader, imports, n))?;
    }
    Ok(indexes)
}

/// The index of an import node, or zero for another node.
fn import_index(reader: &GraphReader<'_>, imports: &ImportPlaces, n: usize) -> u32
    requires { ArePlaced reader.now imports.now }
    ensures { IfSome (node_at reader.now (node_number n)) (λ node. (name : AName) → node.kind ≡ import name → IsFoundAt reader.now imports.now.merge.merge imports.now.places.items name (sort_of_kind node.item_kind) result) }
{
    class_laws(); // proof only
    order_law(); // proof only
    match reader.import_node_at(n) {
        Some((name, _)) => imports.place_of(name).1,
        None => 0,
    }
}
