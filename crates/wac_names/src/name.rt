ghost use Rattle.std.specs.Prelude.{◌≡◌, ◌≢◌, false, ◌⊎◌, ℕ, List, IfOk, IfErr, IsOk, Ok, Err, nat_eq};
ghost use Rattle.std.proofs.Common.{ap, sym};
ghost use Rattle.std.specs.Cmp.{on_equiv, on_per, partial_equiv_from_equiv};
ghost use Rattle.std.specs.Cmp.Lexicographic.{nat_list_eq_equiv, pointwise, same_text};
ghost use Rattle.std.specs.Hash as fed;
ghost use Rattle.wac_names.specs.Faults.{HasFault};
ghost use Rattle.wac_names.specs.Grammar.{HasKind};
ghost use Rattle.wac_names.specs.Kind.{Kind};
ghost use Rattle.wac_names.specs.Name.{IsDecided};
ghost use Rattle.wac_names.specs.Plain.{IsPlainKind};
ghost use Rattle.wac_names.specs.Reading.{read};
ghost use Rattle.wac_names.specs.Text.{has};
ghost use Rattle.wac_names.specs.Views.{kind_view};
ghost use Rattle.wac_names.specs.declared.fault.NameFault.{NameFault};

use crate::fault::NameFault;
use crate::kind::ComponentNameKind;
use crate::reading;
use std::alloc::Global;
use std::hash::{Hash, Hasher};

/// A component name: a text that the grammar allows, and its kind.
#[derive(Clone, Copy, Debug)]
pub struct ComponentName<'a> {
    text: &'a str,
    kind: ComponentNameKind<'a>,
    ghost is_read: { read text.now ≡ Ok (kind_view kind) },
}

impl<'a> ComponentName<'a> {
    ghost use Rattle.wac_names.specs.NameView.{name_view};

    /// Reads a text as a component name.
    ///
    /// # Errors
    /// - The fault of a text that is not a name.
    /// - [`OutOfMemory`](NameFault::OutOfMemory) if out of memory for the pre-release or build metadata of a version.
    pub fn new(alloc: Global, text: &'a str) -> Result<Self, NameFault>
        ensures ok { IfOk result (λ n. ((name_view n).text ≡ text.now) × HasKind text.now (name_view n).kind) }
        ensures fault { IfErr result (λ f. (f ≡ NameFault.OutOfMemory) ⊎ HasFault text.now f) }

        // A text that has a kind is an error only if out of memory.
        ensures accepts { (k : Kind) → HasKind text.now k → IfErr result (λ f. f ≡ NameFault.OutOfMemory) }
        // A name whose versions have no pre-release and no build metadata takes no memory.
        ensures plain { (k : Kind) → HasKind text.now k → IsPlainKind k → IsOk result }
        // A text without an `@` takes no memory.
        ensures memory { has 64 text.now ≡ false → IfErr result (λ f. f ≢ NameFault.OutOfMemory) }
        // A text that has a fault is an error.
        ensures refuses { (f : NameFault) → HasFault text.now f
            → (result ≡ Err NameFault.OutOfMemory) ⊎ (result ≡ Err f) }
    {
        let kind = reading::kind(alloc, text)?;
        Ok(ComponentName { text, kind })
    }

    /// The kind of the name, with its pieces.
    pub fn kind(&self) -> ComponentNameKind<'a>
        ensures value { kind_view result ≡ (name_view self.now).kind }
        ensures kind { HasKind (name_view self.now).text (kind_view result) }
    {
        self.kind
    }

    /// The text of the name.
    pub fn as_str(&self) -> &'a str
        ensures value { result.now ≡ (name_view self.now).text }
    {
        self.text
    }
}

/// Names are equal if their texts are.
impl<'a> PartialEq for ComponentName<'a> {
    ghost use Rattle.wac_names.specs.NameView.{text_of};

    ghost eq = { λ a b. pointwise nat_eq (text_of a) (text_of b) };

    ghost laws = { on_per text_of (partial_equiv_from_equiv nat_list_eq_equiv) };

    fn eq(&self, other: &ComponentName<'a>) -> bool {
        self.as_str() == other.as_str()
    }
}

impl<'a> Eq for ComponentName<'a> {
    ghost use Rattle.wac_names.specs.NameView.{text_of};

    ghost laws = { on_equiv text_of nat_list_eq_equiv };
}

/// The hash of a name is the hash of its text.
impl<'a> Hash for ComponentName<'a> {
    ghost use Rattle.wac_names.specs.NameView.{text_of};

    ghost hash_input = { λ n. fed.str (text_of n) };

    ghost respects_eq = { λ a b e. ap fed.str (same_text (text_of a) (text_of b) (sym e)) };

    fn hash<H: Hasher>(&self, state: &mut H) {
        self.as_str().hash(state);
    }
}

/// Proof only: each text has either one kind or one fault (docs/PROOFS.md, 'Laws').
pub fn one_answer()
    ensures { (text : List ℕ) → IsDecided text }
{}
