//! Lemmas on the trees of merged interfaces, without code.
//!
//! The tree of a union's interface is the union of the trees of its parts, and it is a subtype of each of them.
