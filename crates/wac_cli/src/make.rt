//! From a script to what is written.

use crate::command::{Asked, Format};
use crate::files::{beside, read_file};
use crate::output::{picture_of, put_component, put_picture};
use crate::status::Status;
use std::io::{Eprint, Input, Print};
use std::rt::Files;
use std::{fs, io};
use wac_graph::{EncodeError, EncodeOptions, Processor};
use wac_script::{Script, package_file};

/// Returns the bytes of the package that a line needs, if it needs some. Tells when they cannot be read.
fn package_bytes<R: Files + Eprint + AllocGlobal>(
    rt: &R,
    asked: &Asked,
    number: usize,
    line: &str,
) -> io::Result<Option<Vec<u8>>> {
    let alloc = rt.alloc();
    let Some(file) = package_file(alloc, line)? else {
        return Ok(Some(Vec::new(alloc)));
    };
    let path = beside(alloc, asked.script, file)?;
    match fs::read(rt, path.as_str()) {
        Ok(bytes) => Ok(Some(bytes)),
        Err(error) => {
            let script = asked.script;
            eprintln!(rt; "{script}:{number}: error: `{path}` cannot be read: {error}")?;
            Ok(None)
        }
    }
}

/// Makes the calls of a script. Tells of the first that fails.
fn make_calls<R: Files + Eprint + AllocGlobal>(
    rt: &R,
    asked: &Asked,
    script: &mut Script,
    text: &str,
) -> io::Result<Status> {
    let name = asked.script;
    let mut number = 0usize;
    for line in text.lines() {
        number = number.saturating_add(1);
        let Some(bytes) = package_bytes(rt, asked, number, line)? else {
            return Ok(Status::Failed);
        };
        if let Err(refusal) = script.line(number, line, bytes) {
            eprintln!(rt; "{name}:{number}: error: {refusal}")?;
            return Ok(Status::refused(refusal.is_out_of_memory()));
        }
    }
    if let Some((socket, plugs)) = asked.plug {
        if let Err(refusal) = script.plug(socket, plugs) {
            eprintln!(rt; "{name}: error: {refusal}")?;
            return Ok(Status::refused(refusal.is_out_of_memory()));
        }
    }
    Ok(Status::Done)
}

/// Returns the options of the encoder, or none if the processor has no version.
fn options<'a>(asked: &Asked<'_, 'a>) -> Option<EncodeOptions<'a>> {
    let processor = match asked.processor {
        Some(word) => {
            let (name, version) = word.split_once('@')?;
            Some(Processor { name, version })
        }
        None => None,
    };
    Some(EncodeOptions {
        define_components: !asked.imports_packages,
        validate: asked.validates,
        processor,
    })
}

/// Whether memory ran out for a component.
fn is_memory(error: &EncodeError) -> bool {
    match error {
        EncodeError::OutOfMemory => true,
        _ => false,
    }
}

/// Encodes the graph and writes the component. Tells why it cannot be encoded or written.
fn encode<R: Files + Print + Eprint + AllocGlobal>(
    rt: &R,
    asked: &Asked,
    script: &Script,
    options: EncodeOptions<'_>,
) -> io::Result<Status> {
    match script.encode(options) {
        Ok(bytes) => put_component(rt, asked, &bytes),
        Err(error) => {
            let fault = script.encode_fault(&error)?;
            let (name, text) = (asked.script, fault.text.as_str());
            match fault.line {
                Some(line) => eprintln!(rt; "{name}:{line}: error: {text}")?,
                None => eprintln!(rt; "{name}: error: {text}")?,
            }
            Ok(Status::refused(is_memory(&error)))
        }
    }
}

/// Makes the graph of a script and writes what is asked for.
fn make<R: Files + Print + Eprint + AllocGlobal>(
    rt: &R,
    asked: &Asked,
    text: &str,
    options: EncodeOptions<'_>,
) -> io::Result<Status> {
    let mut script = Script::new(rt.alloc());
    let made = make_calls(rt, asked, &mut script, text)?;
    if made != Status::Done {
        return Ok(made);
    }
    if asked.names_nodes {
        script.name_nodes()?;
    }
    if let Some(picture) = picture_of(asked.format) {
        return put_picture(rt, asked, &script, picture);
    }
    encode(rt, asked, &script, options)
}

/// Does what the command line asks for.
///
/// # Errors
/// If standard error is closed, or memory runs out.
fn attempt<R: Files + Input + Print + Eprint + AllocGlobal>(
    rt: &R,
    asked: &Asked,
    is_terminal: bool,
) -> io::Result<Status> {
    if asked.format == Format::Wasm && asked.output.is_none() && is_terminal {
        eprintln!(rt;
            "error: the bytes of a component are not written to a terminal; use `-o FILE` or `--format hex`"
        )?;
        return Ok(Status::Usage);
    }
    let Some(options) = options(asked) else {
        eprintln!(rt; "error: the processor is NAME@VERSION")?;
        return Ok(Status::Usage);
    };
    let name = asked.script;
    let bytes = match read_file(rt, name) {
        Ok(bytes) => bytes,
        Err(error) => {
            eprintln!(rt; "{name}: error: the script cannot be read: {error}")?;
            return Ok(Status::Failed);
        }
    };
    match str::from_utf8(bytes.as_slice()) {
        Ok(text) => make(rt, asked, text, options),
        Err(_) => {
            eprintln!(rt; "{name}: error: the script is not UTF-8")?;
            Ok(Status::Refused)
        }
    }
}

/// Does what the command line asks for. Tells when memory runs out.
pub fn run<R: Files + Input + Print + Eprint + AllocGlobal>(
    rt: &R,
    asked: &Asked,
    is_terminal: bool,
) -> Status {
    match attempt(rt, asked, is_terminal) {
        Ok(status) => status,
        Err(error) => {
            let _told = eprintln!(rt; "error: {error}");
            Status::Failed
        }
    }
}
