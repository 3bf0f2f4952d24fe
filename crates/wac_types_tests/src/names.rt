//! Tests of names of imports and exports, and of which may stand together, through what their crates make public.

#[cfg(test)]
mod asserts;
#[cfg(test)]
mod memory;
#[cfg(test)]
mod names;
#[cfg(test)]
mod plain;
#[cfg(test)]
mod validation;
