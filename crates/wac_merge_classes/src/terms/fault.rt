//! Why entries cannot be merged.
ghost use Rattle.std.specs.Prelude.{◌≡◌};

use std::alloc::{AllocError, AllocFailed};
use thiserror::Error;

/// Why entries cannot be merged, in the order in which the causes are tested.
#[derive(Debug, Drop, Error)]
pub enum MergeFault {
    /// Two entries of one class disagree. `second` is the position of the earliest entry that disagrees with an earlier
    /// one, `first` that of the earliest entry that it disagrees with. `export` has the export names down to the
    /// disagreement, joined by `/`; it is empty if the entries themselves disagree.
    #[error("Disagree")]
    Disagree {
        first: usize,
        second: usize,
        export: String,
    },
    /// Classes depend on each other in a cycle. `import` is the canonical name of the first class on a cycle.
    #[error("UseEachOther")]
    UseEachOther {
        import: String,
    },
    /// Out of memory.
    #[error("OutOfMemory")]
    OutOfMemory,
}

impl From<AllocError> for MergeFault {
    ghost use Rattle.wac_merge_classes.specs.declared.terms.fault.MergeFault.TheVariants.{OutOfMemory};

    ghost from_gives = { λ _ e. e ≡ OutOfMemory };

    fn from(_e: AllocError) -> MergeFault {
        MergeFault::OutOfMemory
    }
}

impl<T: Drop> From<AllocFailed<T>> for MergeFault {
    ghost use Rattle.wac_merge_classes.specs.declared.terms.fault.MergeFault.TheVariants.{OutOfMemory};

    ghost from_gives = { λ _ e. e ≡ OutOfMemory };

    fn from(_e: AllocFailed<T>) -> MergeFault {
        MergeFault::OutOfMemory
    }
}
