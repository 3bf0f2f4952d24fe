//! The word given by the program's arguments.
ghost use Rattle.std.specs.Prelude.{◌≡◌, IfOk, string_bytes};
ghost use Rattle.std.specs.Vec.Iter.{into_iter_items};
ghost use Rattle.wac_demo.specs.private.Word.{word_of as asked};

use std::alloc::{AllocError, Global};
use std::rt::Env;
use std::{env, io};

/// Returns the program's word, or the empty text if an argument is not UTF-8. Fails if memory runs out.
pub fn asked_word<R: Env + AllocGlobal>(rt: &R) -> io::Result<String> {
    match env::args(rt) {
        Ok(args) => Ok(word_of(rt.alloc(), args)?),
        Err(error) => {
            if error.kind() == io::ErrorKind::InvalidData {
                return Ok(String::new(rt.alloc()));
            }
            Err(error)
        }
    }
}

/// Returns the argument after the program's name: `readme` if there is none, and the empty text if there are several.
pub fn word_of(alloc: Global, mut args: env::Args) -> Result<String, AllocError>
    ensures { IfOk result (λ word. string_bytes word ≡ asked (into_iter_items args)) }
{
    let _program = args.next();
    match (args.next(), args.next()) {
        (None, _) => String::from_str(alloc, "readme"),
        (Some(word), None) => Ok(word),
        (Some(_), Some(_)) => Ok(String::new(alloc)),
    }
}
