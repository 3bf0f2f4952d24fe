//! Steps between numbers: whether some form a cycle, and the lowest number on one.

pub mod cycles;
mod ranks;
