//! Computed examples of the definitions of graphs and of plugging, as proofs alone; no crate stands on this one.
//!
//! They show which items mean a graph, and that items which differ from those in one thing do not mean it (an instantiation
//! that two instances share, arguments swapped, a component written twice, exports permuted, an alias of the other
//! instance, another package's bytes, an argument under another sort); which items are in the format; what a graph asks
//! for; why what it asks for cannot be merged; what a definition may refer to, and which import lists its type; which
//! texts may be exported; and which exports of a plug match which imports of a socket.
