//! The lowest faults of items.

mod cases;
mod components;
mod definitions;
mod items;
