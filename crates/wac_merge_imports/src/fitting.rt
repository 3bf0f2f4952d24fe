//! Lemmas: the merged imports bind what a resource becomes as the entries bind the resource.
