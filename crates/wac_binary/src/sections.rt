//! The sections of a component: items that are to be written, the finished sections, and the open section.

pub mod item;
mod item_size;
pub mod section;
