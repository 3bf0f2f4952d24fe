//! Tests of the writers of sections and of components, through what they make public.

#[cfg(test)]
mod components;
#[cfg(test)]
mod customs;
#[cfg(test)]
mod memory;
#[cfg(test)]
mod modules;
#[cfg(test)]
mod refused;
#[cfg(test)]
mod types;
#[cfg(test)]
mod writers;
