//! Lemmas about the whole of what is written of a graph: its imports, nodes, arguments, exports and names.
