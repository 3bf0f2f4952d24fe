//! Computed examples of what items mean and of their bytes, as proofs alone; no crate stands on this one.
//!
//! They show which bytes items have, which items have a meaning and what their indexes stand for, and that items which use
//! an index that is not there, an alias of another sort than the export's, or a name twice have none.
