// Which two names clash.

ghost use Rattle.std.specs.Prelude.{◌≡◌, ◌↔◌, ◌⊎◌, ℕ, List, IsTrue};
ghost use Rattle.std.specs.Option.{option_copied};
ghost use Rattle.wac_names.specs.Clash.{Clash, IsItsConstructor, plain};
ghost use Rattle.wac_names.specs.Grammar.{HasKind};
ghost use Rattle.wac_names.specs.NameView.{name_view};
ghost use Rattle.wac_names.specs.Views.{kind_view};

use crate::kind::ComponentNameKind;
use crate::name::ComponentName;
use crate::text::{same, strip};

/// Returns a plain name without its bracketed prefix. Names of other kinds are not plain.
fn plain<'a>(text: &'a str, kind: ComponentNameKind<'a>) -> Option<&'a str>
    requires { HasKind text.now (kind_view kind) }
    ensures { option_copied result ≡ plain (kind_view kind.entry) }
{
    match kind {
        ComponentNameKind::Label(label) => Some(label),
        ComponentNameKind::Constructor(resource) => Some(resource),
        ComponentNameKind::Method { .. } => strip(text, "[method]"),
        ComponentNameKind::Static { .. } => strip(text, "[static]"),
        _ => None,
    }
}

/// Whether `label` is a label, and `constructor` is the constructor of the same label.
fn is_its_constructor(label: ComponentNameKind<'_>, constructor: ComponentNameKind<'_>) -> bool
    ensures { IsTrue result ↔ IsItsConstructor (kind_view label.entry) (kind_view constructor.entry) }
{
    if let ComponentNameKind::Label(label) = label {
        if let ComponentNameKind::Constructor(resource) = constructor {
            return same(label, resource);
        }
    }
    false
}

/// Whether one of two names is a label, and the other is the constructor of the same label.
fn are_label_and_constructor(a: ComponentNameKind<'_>, b: ComponentNameKind<'_>) -> bool
    ensures { IsTrue result ↔ (IsItsConstructor (kind_view a.entry) (kind_view b.entry)
        ⊎ IsItsConstructor (kind_view b.entry) (kind_view a.entry)) }
{
    is_its_constructor(a, b) || is_its_constructor(b, a)
}

/// Whether two names clash, so that a component cannot import both or export both.
///
/// Labels, constructors, methods and static functions clash if they are equal without the bracketed prefix and in
/// lower case. A label and the constructor of the same label do not. Other names clash only if they are equal
/// (Explainer.md, "Import and Export Definitions"). Takes no memory.
pub fn clash(a: &ComponentName<'_>, b: &ComponentName<'_>) -> bool
    ensures { IsTrue result ↔ Clash (name_view a.now).text (name_view b.now).text }
{
    let one = a.kind();
    let other = b.kind();
    let Some(left) = plain(a.as_str(), one) else {
        return same(a.as_str(), b.as_str());
    };
    let Some(right) = plain(b.as_str(), other) else {
        return same(a.as_str(), b.as_str());
    };
    left.eq_ignore_ascii_case(right) && !are_label_and_constructor(one, other)
}

/// Proof only: clashing is symmetric (docs/PROOFS.md, 'Laws').
pub fn clash_is_symmetric()
    ensures { (s t : List ℕ) → Clash s t → Clash t s }
{}
