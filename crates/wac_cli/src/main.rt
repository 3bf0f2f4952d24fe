//! Composes WebAssembly components from a script.
#![tactic(auto)]

mod command;
mod files;
mod make;
mod output;
mod parts;
mod status;

use crate::command::{asks_parts, command, read_words};
use crate::make::run;
use crate::parts::list_parts;
use crate::status::Status;
use std::env;
use std::io::IsTerminal;
use std::process::ExitCode;

fn main(rt: HostRuntime) -> anyhow::Result<ExitCode> {
    let alloc = rt.alloc();
    let words: Vec<String> = env::args(&rt)?.collect(alloc)?;
    let command = command(alloc)?;
    let matches = match command.try_get_matches_from(words.as_slice()) {
        Ok(matches) => matches,
        Err(error) => {
            let code = match error.print(&rt) {
                Ok(()) => error.exit_code() as u8,
                Err(_) => Status::Failed.code(),
            };
            return Ok(ExitCode::from(code));
        }
    };
    if let Some(name) = asks_parts(&matches) {
        return Ok(ExitCode::from(list_parts(&rt, name).code()));
    }
    let asked = read_words(&matches);
    let is_terminal = rt.stdout().is_terminal();
    let status = run(&rt, &asked, is_terminal);
    Ok(ExitCode::from(status.code()))
}
