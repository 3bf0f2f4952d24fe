//! Prints a composition of WebAssembly components, chosen by a word, as a line of hexadecimal.
#![tactic(auto)]

mod args;
mod compositions;
mod run;
#[cfg(test)]
mod tests;

use crate::args::asked_word;
use crate::run::{refuse, run};
use std::io;
use std::process::ExitCode;

fn main(rt: HostRuntime) -> ExitCode {
    let mut out = io::writer(&rt);
    let status = match asked_word(&rt) {
        Ok(word) => run(rt.alloc(), word.as_str(), &mut out),
        Err(error) => refuse(&error.into(), &mut out),
    };
    ExitCode::from(status)
}
