//! Tests of the encoder: of open scopes, of the writers of types, of roots with imports and definitions, and of the faults of
//! items, through what they make public.
#![tactic(auto)]

#[cfg(test)]
mod by_hand;
#[cfg(test)]
mod component_types;
#[cfg(test)]
mod defined;
#[cfg(test)]
mod depth;
#[cfg(test)]
mod faults;
#[cfg(test)]
mod memory;
#[cfg(test)]
mod merged;
#[cfg(test)]
mod modules;
#[cfg(test)]
mod opened;
#[cfg(test)]
mod roots;
#[cfg(test)]
mod rows;
#[cfg(test)]
mod stacks;
#[cfg(test)]
mod tables;
