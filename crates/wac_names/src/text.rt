// Splitting of texts.

ghost use Rattle.std.specs.Prelude.{◌≡◌, true, false, MatchOption, IsTrue, ◌<◌, ◌↔◌};
ghost use Rattle.wac_names.specs.Text.{has, before, after, begins, behind, ends, front};
ghost use Rattle.wac_names.specs.Reading.{version_piece};
ghost use Rattle.std.specs.Option.{option_copied};

/// Splits at the first `at`, if there is one.
pub(crate) fn cut(text: &str, at: char) -> Option<(&str, &str)>
    requires { at < 128 }
    ensures { MatchOption result (has at text.now ≡ false)
        (λ p. (has at text.now ≡ true) × (p.0.now ≡ before at text.now) × (p.1.now ≡ after at text.now)) }
{
    text.split_once(at)
}

/// Splits at the first `at`. Without one, the whole text is before it.
pub(crate) fn halves(text: &str, at: char) -> (&str, &str)
    requires { at < 128 }
    ensures before { result.0.now ≡ before at text.now }
    ensures after { result.1.now ≡ after at text.now }
{
    match cut(text, at) {
        Some(parts) => parts,
        None => (text, ""),
    }
}

/// Splits at the first `@`. Without one, the whole text is before it, and nothing after.
pub(crate) fn versioned(text: &str) -> (&str, Option<&str>)
    ensures before { result.0.now ≡ before 64 text.now }
    ensures after { option_copied result.1 ≡ version_piece text.now }
{
    match cut(text, '@') {
        Some((name, version)) => (name, Some(version)),
        None => (text, None),
    }
}

/// Returns what follows `start`, if the text begins with it.
pub(crate) fn strip<'a>(text: &'a str, start: &str) -> Option<&'a str>
    ensures { MatchOption result (begins start.now text.now ≡ false)
        (λ rest. (begins start.now text.now ≡ true) × (rest.now ≡ behind start.now text.now)) }
{
    text.strip_prefix(start)
}

/// Returns the text without its last byte, if that is `end`.
pub(crate) fn strip_end(text: &str, end: char) -> Option<&str>
    requires { end < 128 }
    ensures { MatchOption result (ends end text.now ≡ false)
        (λ rest. (ends end text.now ≡ true) × (rest.now ≡ front text.now)) }
{
    text.strip_suffix(end)
}

/// Whether two texts are equal.
pub(crate) fn same(a: &str, b: &str) -> bool
    ensures { IsTrue result ↔ (a.now ≡ b.now) }
{
    a == b
}
