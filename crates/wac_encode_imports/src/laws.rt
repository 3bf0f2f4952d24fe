//! Laws of the imports of a merge. Each is brought by a call, for proofs only.
ghost use Rattle.wac_encode_imports.specs.private.Distinct.{DistinctClassesLaw};

/// No two imports of a merge are of one class.
pub fn distinct_classes_law()
    ensures { DistinctClassesLaw }
{}
