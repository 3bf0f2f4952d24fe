//! The output and the exit status of the program.
ghost use Rattle.std.specs.Prelude.{◌≡◌, ◌≢◌, ◌⊎◌, ℕ, ◌<◌, ◌++◌, List, IfOk, IsOkAnd, MatchOption, string_bytes};
ghost use Rattle.std.specs.Io.KnownBytes.{Appends, Keeps};
ghost use Rattle.anyhow.specs.Error.{error_message};
ghost use Rattle.wac_demo.specs.Composed.{AreDefault, Compose, IsPrecedence, IsWord, cycle_word};
ghost use Rattle.wac_demo.specs.Printed.{hex_line, line_of, passed_line, unknown_line, IsPrinted, Prints};

use crate::compositions::{
    cycle, dependency, empty, passed, plugged, precedence, processor, readme, resource,
};
use anyhow::{Error, Result};
use std::alloc::Global;
use std::io::Write;

/// Prints the composition of a word in lower-case hexadecimal with a newline, and returns the exit status.
///
/// For `precedence` a line for the match that is passed over follows.
///
/// - 0: the composition was printed.
/// - 1: the text of an error was printed, since the composition failed.
/// - 2: `unknown composition` was printed, since no composition has the word.
/// - 3: a write failed.
pub fn run<W: Write>(alloc: Global, word: &str, out: &mut W) -> u8
    ensures statuses { result < 4 }
    ensures composed { result ≡ 0 → (text : List ℕ) × IsPrinted word.now text × Appends (W.contents out.old) (W.contents out.new) text }
    ensures cycle { word.now ≡ cycle_word → result ≢ 0 }
    ensures refused { result ≡ 1 → IsWord word.now × ((text : List ℕ) × Appends (W.contents out.old) (W.contents out.new) (line_of text)) }
    ensures unknown { (IsWord word.now → ⊥) → Prints unknown_line 2 result (W.contents out.old) (W.contents out.new) }
    ensures known { IsWord word.now → result ≢ 2 }
{
    let Some(composed) = compose(alloc, word) else {
        return print("unknown composition\n", out, 2);
    };
    match composed {
        Ok(text) => print(text.as_str(), out, 0),
        Err(error) => refuse(&error, out),
    }
}

/// Prints the text of an error with a newline. Returns 1, or 3 if a write fails.
pub fn refuse<W: Write>(error: &Error, out: &mut W) -> u8
    ensures { Prints (line_of (error_message error.now)) 1 result (W.contents out.old) (W.contents out.new) }
{
    match writeln!(out, "{error}") {
        Ok(()) => flushed(out, 1),
        Err(_) => 3,
    }
}

// Returns the bytes in lower-case hexadecimal with a newline.
fn line(alloc: Global, bytes: Result<Vec<u8>>) -> Result<String>
    ensures { IfOk result (λ line. IsOkAnd bytes (λ b. string_bytes line ≡ hex_line b.items)) }
{
    let bytes = bytes?;
    let mut line = hex::encode(alloc, &bytes)?;
    line.push('\n')?;
    Ok(line)
}

// Returns the lines of `precedence`.
fn precedence_lines(alloc: Global) -> Result<String>
    ensures { IfOk result (λ text. (bytes : List ℕ) × Compose bytes AreDefault IsPrecedence × (string_bytes text ≡ hex_line bytes ++ passed_line)) }
{
    let (bytes, passed) = precedence(alloc)?;
    let mut lines = line(alloc, Ok(bytes))?;
    lines.push_str(passed.as_str())?;
    Ok(lines)
}

// Returns what is printed of a word's composition, or `None` if the word has none.
fn compose(alloc: Global, word: &str) -> Option<Result<String>>
    ensures { MatchOption result (IsWord word.now → ⊥) (λ r. IsWord word.now × IfOk r (λ text. IsPrinted word.now (string_bytes text))) }
{
    match word {
        "empty" => Some(line(alloc, empty(alloc))),
        "processor" => Some(line(alloc, processor(alloc))),
        "function" => Some(line(alloc, passed(alloc))),
        "readme" => Some(line(alloc, readme(alloc))),
        "cycle" => Some(line(alloc, cycle(alloc))),
        "plug" => Some(line(alloc, plugged(alloc))),
        "resource" => Some(line(alloc, resource(alloc))),
        "dependency" => Some(line(alloc, dependency(alloc))),
        "precedence" => Some(precedence_lines(alloc)),
        _ => None,
    }
}

// Prints a text. Returns the status, or 3 if a write fails.
fn print<W: Write>(text: &str, out: &mut W, status: u8) -> u8
    ensures { Prints text.now status result (W.contents out.old) (W.contents out.new) }
{
    match out.write_all(text.as_bytes()) {
        Ok(()) => flushed(out, status),
        Err(_) => 3,
    }
}

// Flushes the output. Returns the status, or 3 if flushing fails.
fn flushed<W: Write>(out: &mut W, status: u8) -> u8
    ensures { (result ≡ 3) ⊎ ((result ≡ status) × Keeps (W.contents out.old) (W.contents out.new)) }
{
    match out.flush() {
        Ok(()) => status,
        Err(_) => 3,
    }
}
