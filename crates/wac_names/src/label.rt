// Labels of the grammar.

ghost use Rattle.std.specs.Prelude.{◌≡◌, ◌==◌};
ghost use Rattle.std.specs.List.{list_all, slice_split};
ghost use Rattle.wac_names.specs.Reading.{is_label, is_lower_label, is_fragment};
ghost use Rattle.wac_names.specs.Label.{is_lower_or_digit, is_upper_or_digit, not_upper, begins_with_letter};

fn is_lower(text: &str) -> bool
    ensures { result ≡ list_all is_lower_or_digit text.now }
{
    text.as_bytes()
        .iter()
        .all(|b| b.is_ascii_lowercase() || b.is_ascii_digit())
}

fn is_upper(text: &str) -> bool
    ensures { result ≡ list_all is_upper_or_digit text.now }
{
    text.as_bytes()
        .iter()
        .all(|b| b.is_ascii_uppercase() || b.is_ascii_digit())
}

fn has_no_upper(text: &str) -> bool
    ensures { result ≡ list_all not_upper text.now }
{
    text.as_bytes().iter().all(|b| !b.is_ascii_uppercase())
}

fn begins_with_letter(text: &str) -> bool
    ensures { result ≡ begins_with_letter text.now }
{
    match text.as_bytes() {
        [first, ..] => first.is_ascii_alphabetic(),
        [] => false,
    }
}

fn is_fragment(text: &str) -> bool
    ensures { result ≡ is_fragment text.now }
{
    !text.is_empty() && (is_lower(text) || is_upper(text))
}

fn are_fragments(text: &str) -> bool
    ensures { result ≡ list_all is_fragment (slice_split (λ b. b == 45) text.now) }
{
    text.split('-').all(is_fragment)
}

/// Whether the text is a label: fragments joined by `-`, the first beginning with a letter.
#[tactic(auto, unfolding(crate::specs::Reading::is_label))]
pub(crate) fn is_label(text: &str) -> bool
    ensures { result ≡ is_label text.now }
{
    begins_with_letter(text) && are_fragments(text)
}

/// Whether the text is a label without upper-case letters.
#[tactic(auto, unfolding(crate::specs::Reading::is_lower_label))]
pub(crate) fn is_lower_label(text: &str) -> bool
    ensures { result ≡ is_lower_label text.now }
{
    is_label(text) && has_no_upper(text)
}
