//! Keys of names. Names that clash have the same key.
ghost use Rattle.std.specs.Prelude.{◌≡◌, ◌∷◌, ◌++◌, IfOk, string_bytes};
ghost use Rattle.wac_names.specs.Clash.{lowered};
ghost use Rattle.wac_names.specs.NameView.{name_view};
ghost use Rattle.wac_names.specs.private.validation.Key.{HasKey};

use crate::{ComponentName, ComponentNameKind};
use std::alloc::{AllocError, Global};

/// Returns the key of a label, or of the constructor of a resource.
fn plain_key(alloc: Global, said: &str) -> Result<String, AllocError>
    ensures { IfOk result (λ key. string_bytes key ≡ 46 ∷ lowered said.now) }
{
    let said = said.to_ascii_lowercase(alloc)?;
    format!(in alloc; ".{said}")
}

/// Returns the key of a method or a static function.
fn function_key(alloc: Global, resource: &str, name: &str) -> Result<String, AllocError>
    ensures { IfOk result (λ key. string_bytes key ≡ 46 ∷ (lowered resource.now ++ 46 ∷ lowered name.now)) }
{
    let resource = resource.to_ascii_lowercase(alloc)?;
    let name = name.to_ascii_lowercase(alloc)?;
    format!(in alloc; ".{resource}.{name}")
}

/// Returns the key of a name that is not plain.
fn text_key(alloc: Global, text: &str) -> Result<String, AllocError>
    ensures { IfOk result (λ key. string_bytes key ≡ 61 ∷ text.now) }
{
    format!(in alloc; "={text}")
}

/// Returns the key of a name.
///
/// The key of a plain name is `.` and the name without its bracketed prefix, in lower case. The key of any other name
/// is `=` and its text.
///
/// # Errors
/// - `AllocError` if out of memory.
pub fn key_of(alloc: Global, name: &ComponentName<'_>) -> Result<String, AllocError>
    ensures { IfOk result (λ key. HasKey (name_view name.now).text (string_bytes key)) }
{
    match name.kind() {
        ComponentNameKind::Label(label) => plain_key(alloc, label),
        ComponentNameKind::Constructor(resource) => plain_key(alloc, resource),
        ComponentNameKind::Method { resource, name } => function_key(alloc, resource, name),
        ComponentNameKind::Static { resource, name } => function_key(alloc, resource, name),
        _ => text_key(alloc, name.as_str()),
    }
}
