//! The lines of a script: their words, and the calls that they say.
//!
//! Names and types stay words here: what a label stands for is not known.

mod calls;
mod reading;
mod shapes;
mod words;

pub(crate) use calls::{Call, Change, Line, PackageWords};
pub(crate) use reading::{called, is_call};
pub(crate) use shapes::{CoreItem, Shape};
pub(crate) use words::{
    after_prefix, dotted, halves, number, optional, pair, small_number, words_of,
};
