//! Component names: their grammar, which two clash, and their tracks.
//!
//! ```rust
//! let name = ComponentName::new(alloc, "wasi:io/streams@0.2.0")?;
//! assert!(rt; name.kind().is_exportable());
//! assert!(rt; are_semver_compatible(alloc, "wasi:io/streams@0.2.0", "wasi:io/streams@0.2.9")?);
//! ```
//!
//! | Text | Kind |
//! |---|---|
//! | `read-file`, `HTTP-2` | a label |
//! | `[constructor]file`, `[method]file.read`, `[static]file.open` | a function of a resource |
//! | `wasi:io/streams`, `wasi:io/streams@0.2.0` | an interface |
//! | `unlocked-dep=<a:b@{>=1.0.0 <2.0.0}>`, `locked-dep=<a:b@1.0.0>,integrity=<sha512-A>` | a dependency |
//! | `url=<https://example.com>` | the location of a component |
//! | `integrity=<sha256-AA==>` | the hash of a component |
//!
//! A label is fragments joined by `-`, the first beginning with a letter. A fragment is one or more of `a` to `z` and
//! digits, or of `A` to `Z` and digits. A package is two labels without upper-case letters. A version is what the
//! `semver` crate reads. `Grammar.antt` has the whole grammar (Explainer.md, "Import and Export Definitions").
//! `Faults.antt` has the fault of a text that is not a name. Each text has either one kind or one fault
//! (`one_answer`).
//!
//! # Memory and time
//!
//! A name borrows its text. Reading a text takes memory only for the pre-release and the build metadata of versions,
//! and so none without an `@`. `kind` and `clash` take none. Time grows with the length of the text.
#![tactic(auto)]

mod clashes;
mod fault;
mod hash;
mod kind;
mod label;
pub mod laws;
mod name;
mod reading;
mod text;
pub mod tracks;
pub mod validation;

pub use clashes::clash;
pub use fault::NameFault;
pub use kind::{
    ComponentNameKind, DependencyName, HashName, InterfaceName, PackageName, UrlName, VersionRange,
};
pub use name::ComponentName;
pub use tracks::are_semver_compatible;
