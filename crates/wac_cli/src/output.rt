//! What is written.

use crate::command::{Asked, Format};
use crate::files::replace;
use crate::status::Status;
use std::io;
use std::io::{Eprint, Print, Write};
use std::rt::Files;
use wac_script::{Picture, Script};

/// Returns the picture of a format, if it is one.
pub fn picture_of(format: Format) -> Option<Picture> {
    match format {
        Format::Dot => Some(Picture::Dot),
        Format::Mermaid => Some(Picture::Mermaid),
        Format::Imports => Some(Picture::Imports),
        Format::Wasm | Format::Hex | Format::Nothing => None,
    }
}

/// Writes bytes to standard output.
fn print<R: Print>(rt: &R, bytes: &[u8]) -> io::Result<()> {
    let mut out = io::writer(rt);
    out.write_all(bytes)?;
    out.flush()
}

/// Writes bytes to the file that is asked for, or else to standard output. Tells when they cannot be written.
fn put<R: Files + Print + Eprint + AllocGlobal>(
    rt: &R,
    asked: &Asked,
    bytes: &[u8],
) -> io::Result<Status> {
    let (name, written) = match asked.output {
        Some(name) => (name, replace(rt, name, bytes)),
        None => ("standard output", print(rt, bytes)),
    };
    match written {
        Ok(()) => Ok(Status::Done),
        Err(error) => {
            eprintln!(rt; "error: {name} cannot be written: {error}")?;
            Ok(Status::Failed)
        }
    }
}

/// Writes a picture of the graph. Tells when it cannot be written.
pub fn put_picture<R: Files + Print + Eprint + AllocGlobal>(
    rt: &R,
    asked: &Asked,
    script: &Script,
    picture: Picture,
) -> io::Result<Status> {
    let text = script.picture(picture)?;
    put(rt, asked, text.as_bytes())
}

/// Writes the component. Tells when it cannot be written.
pub fn put_component<R: Files + Print + Eprint + AllocGlobal>(
    rt: &R,
    asked: &Asked,
    bytes: &[u8],
) -> io::Result<Status> {
    match asked.format {
        Format::Hex => {
            let mut text = hex::encode(rt.alloc(), bytes)?;
            text.push('\n')?;
            put(rt, asked, text.as_bytes())
        }
        Format::Nothing => Ok(Status::Done),
        _ => put(rt, asked, bytes),
    }
}
