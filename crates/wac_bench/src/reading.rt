//! Components that are read: one that imports interfaces with resources, and one with core modules.

use crate::deep::resources;
use crate::graph::Graph;
use crate::workloads::Step;
use anyhow::Result;
use std::alloc::Global;
use wac_reader_parts::parts;

/// The number of bytes of each core module.
const MODULE_BYTES: usize = 65_536;

/// Makes a component that imports `count` interfaces, each of which uses the resource of the one before.
fn imports(alloc: Global, count: u64) -> Result<Vec<u8>> {
    let mut graph = Graph::new(alloc);
    resources(&mut graph, count)?;
    graph.encoded(true)
}

/// Makes a component with `count` core modules.
fn modules(alloc: Global, count: u64) -> Result<Vec<u8>> {
    let mut bytes = Vec::from_array(alloc, [0x00, 0x61, 0x73, 0x6d, 0x0d, 0x00, 0x01, 0x00])?;
    for _ in 0..count {
        // The section's size is 65536, in LEB128.
        bytes.extend_from_slice(&[0x01, 0x80, 0x80, 0x04])?;
        bytes.extend_from_slice(&[0x00, 0x61, 0x73, 0x6d, 0x01, 0x00, 0x00, 0x00])?;
        for _ in 8..MODULE_BYTES {
            bytes.push(0)?;
        }
    }
    Ok(bytes)
}

/// Makes a component up to a step, and reads its parts. Returns the number of its bytes if all is done, else zero.
pub fn take(alloc: Global, has_modules: bool, count: u64, last: Step) -> Result<usize> {
    if last == Step::Prepare {
        return Ok(0);
    }
    let bytes = if has_modules {
        modules(alloc, count)?
    } else {
        imports(alloc, count)?
    };
    if last != Step::Measure {
        return Ok(0);
    }
    let parts = parts(alloc, &bytes)?;
    drop(parts);
    Ok(bytes.len())
}
