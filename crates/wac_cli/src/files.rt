//! Files.

use std::alloc::{AllocError, Global};
use std::io::{Input, Read, Write};
use std::rt::Files;
use std::{fs, io};

/// Returns the bytes of a file, or of standard input for `-`.
pub fn read_file<R: Files + Input + AllocGlobal>(rt: &R, name: &str) -> io::Result<Vec<u8>> {
    if name != "-" {
        return fs::read(rt, name);
    }
    let mut bytes = Vec::new(rt.alloc());
    rt.reader().read_to_end(&mut bytes)?;
    Ok(bytes)
}

/// Returns the file of a package: a name relative to the folder of its script.
pub fn beside(alloc: Global, script: &str, name: &str) -> Result<String, AllocError> {
    let mut path = String::new(alloc);
    if !name.starts_with('/') {
        if let Some((folder, _)) = script.rsplit_once('/') {
            path.push_str(folder)?;
            path.push('/')?;
        }
    }
    path.push_str(name)?;
    Ok(path)
}

/// Writes a file beside the one that it replaces, and renames it. So a run that fails leaves the old file.
pub fn replace<R: Files + AllocGlobal>(rt: &R, name: &str, bytes: &[u8]) -> io::Result<()> {
    let mut beside = String::from_str(rt.alloc(), name)?;
    beside.push_str(".new")?;
    let written = write_new(rt, beside.as_str(), bytes);
    if written.is_err() {
        let _removed = fs::remove_file(rt, beside.as_str());
        return written;
    }
    fs::rename(rt, beside.as_str(), name)
}

/// Writes a new file.
fn write_new<R: Files + AllocGlobal>(rt: &R, name: &str, bytes: &[u8]) -> io::Result<()> {
    let mut file = fs::create(rt, name)?;
    file.write_all(bytes)?;
    file.flush()
}
