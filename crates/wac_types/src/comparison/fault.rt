//! Why an item is not known to be a subtype of another.
ghost use Rattle.std.specs.Prelude.{◌≡◌, false, Err, IfOk, IsTrue};

use thiserror::Error;

/// Why an item is not known to be a subtype of another.
#[derive(Clone, Copy, Debug, PartialEq, Eq, Error)]
pub enum TypeFault {
    /// It is not a subtype.
    #[error("Mismatch")]
    Mismatch,
    /// Out of memory.
    #[error("OutOfMemory")]
    OutOfMemory,
}

/// The result of a step of a comparison.
pub(crate) type Answer = Result<(), TypeFault>;

/// Returns `Ok` if `holds`, else `Mismatch`.
pub(crate) fn told(holds: bool) -> Answer
    ensures yes { IfOk result (λ _. IsTrue holds) }
    ensures no { result ≡ Err TypeFault.Mismatch → holds ≡ false }
{
    holds.then_some(()).ok_or(TypeFault::Mismatch)
}
