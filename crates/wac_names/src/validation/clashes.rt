//! The first two names that clash.
ghost use Rattle.std.specs.Prelude.{ℕ, ◌<◌, ◌↔◌, length, IfOk, IsTrue, MatchOption};
ghost use Rattle.wac_names.specs.Clash.{Clash};
ghost use Rattle.wac_names.specs.NameView.{text_of};
ghost use Rattle.wac_names.specs.private.validation.Earlier.{AreOrdered, HasPosition};
ghost use Rattle.wac_names.specs.validation.Valid.{at, AreApart};
ghost use Rattle.wac_names.specs.validation.FirstFault.{IsFirstClash};
ghost use Rattle.wac_names.specs.private.validation.Views.{name_texts};

use crate::validation::earlier::{Alike, Earlier, with_position};
use crate::validation::keys::key_of;
use crate::{ComponentName, clash};
use std::alloc::{AllocError, Global};

/// Whether the name at `position` clashes with `name`.
fn clashes_at(names: &[ComponentName<'_>], position: usize, name: &ComponentName<'_>) -> bool
    requires { position < length names.now }
    ensures { IsTrue result ↔ Clash (at (name_texts names.now) position) (text_of name.now) }
{
    clash(&names[position], name)
}

/// Returns the earliest of the positions whose name clashes with `name`.
fn clashing(
    names: &[ComponentName<'_>],
    alike: Option<Alike>,
    name: &ComponentName<'_>,
) -> Option<usize>
    requires within { (i : ℕ) → HasPosition alike i → i < length names.now }
    requires ordered { AreOrdered alike }
    ensures { MatchOption result
        ((i : ℕ) → HasPosition alike i → ¬ Clash (at (name_texts names.now) i) (text_of name.now))
        (λ first. HasPosition alike first × Clash (at (name_texts names.now) first) (text_of name.now)
        × ((i : ℕ) → HasPosition alike i → i < first → ¬ Clash (at (name_texts names.now) i) (text_of name.now))) }
{
    let Some(Alike { first, second }) = alike else {
        return None;
    };
    if clashes_at(names, first, name) {
        return Some(first);
    }
    let Some(second) = second else {
        return None;
    };
    if clashes_at(names, second, name) {
        Some(second)
    } else {
        None
    }
}

/// Returns the positions of the first two names that clash, if any do.
///
/// The second is the earliest that clashes with a name before it, and the first is the earliest such name.
///
/// # Errors
/// - `AllocError` if out of memory.
pub fn first_clash(
    alloc: Global,
    names: &[ComponentName<'_>],
) -> Result<Option<(usize, usize)>, AllocError>
    ensures { IfOk result (λ r. MatchOption r (AreApart (name_texts names.now))
        (λ p. (p.0 < p.1) × (p.1 < length names.now)
        × IsFirstClash (name_texts names.now) (at (name_texts names.now) p.0) (at (name_texts names.now) p.1))) }
{
    crate::laws::one_answer();
    let mut earlier = Earlier::with_capacity(alloc, names.len())?;
    for (second, name) in names.iter().enumerate() {
        let key = key_of(alloc, name)?;
        let alike = earlier.at(&key);
        if let Some(first) = clashing(names, alike, name) {
            return Ok(Some((first, second)));
        }
        earlier.put(key, with_position(alike, second))?;
    }
    Ok(None)
}
