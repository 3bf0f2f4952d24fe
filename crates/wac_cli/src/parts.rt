//! The parts of a component, a line each.

use crate::files::read_file;
use crate::status::Status;
use std::io;
use std::io::{Eprint, Input, Print, Write};
use std::rt::Files;
use wac_component::{ReadError, ReadReason};
use wac_reader_parts::parts;

/// Whether memory ran out for the parts.
fn is_memory(error: &ReadError) -> bool {
    match error.reason {
        ReadReason::OutOfMemory => true,
        ReadReason::Text(_) => false,
    }
}

/// Writes the parts of the component in a file to standard output. Tells why it cannot be read.
fn attempt<R: Files + Input + Print + Eprint + AllocGlobal>(
    rt: &R,
    name: &str,
) -> io::Result<Status> {
    let alloc = rt.alloc();
    let bytes = match read_file(rt, name) {
        Ok(bytes) => bytes,
        Err(error) => {
            eprintln!(rt; "{name}: error: the component cannot be read: {error}")?;
            return Ok(Status::Failed);
        }
    };
    match parts(alloc, &bytes) {
        Ok(parts) => {
            let text = format!(in alloc; "{parts}")?;
            let mut out = io::writer(rt);
            out.write_all(text.as_bytes())?;
            out.flush()?;
            Ok(Status::Done)
        }
        Err(error) => {
            eprintln!(rt; "{name}: error: {error}")?;
            Ok(Status::refused(is_memory(&error)))
        }
    }
}

/// Writes the parts of the component in a file. Tells when memory runs out.
pub fn list_parts<R: Files + Input + Print + Eprint + AllocGlobal>(rt: &R, name: &str) -> Status {
    match attempt(rt, name) {
        Ok(status) => status,
        Err(error) => {
            let _told = eprintln!(rt; "error: {error}");
            Status::Failed
        }
    }
}
