//! Laws of a state, for proofs. A function here proves its law and does nothing when it runs (docs/PROOFS.md, 'Laws').

ghost use Rattle.wac_encode.specs.Growth.{AllKeepItems, StaysWhenGrown};
ghost use Rattle.wac_encode.specs.Lending.{StaysWhenLent};

/// Brings in the law of items that a caller appends to the component.
pub fn lending_law()
    ensures { StaysWhenLent }
{
    wac_encode_scopes::lending_law();
}

/// Brings in the laws of a collection that grows: a state that is right for it stays right, so types may be added between two
/// encoders.
pub fn growth_law()
    ensures grown { StaysWhenGrown }
    ensures added { AllKeepItems }
{}
