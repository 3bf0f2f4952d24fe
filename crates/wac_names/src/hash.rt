// Hashes of components: items separated by one space.

ghost use Rattle.std.specs.Prelude.{◌≡◌, MatchOption, true, false, drop};
ghost use Rattle.std.specs.List.{list_all};
ghost use Rattle.wac_names.specs.Grammar.{is_base64, is_option_byte};
ghost use Rattle.wac_names.specs.Reading.{is_digest, is_padding, is_hash_item, is_hash, has_algorithm};

use crate::text::{halves, strip};

fn is_encoded(text: &str) -> bool
    ensures { result ≡ list_all is_base64 text.now }
{
    text.as_bytes()
        .iter()
        .all(|b| b.is_ascii_alphanumeric() || *b == b'+' || *b == b'/')
}

fn are_options(text: &str) -> bool
    ensures { result ≡ list_all is_option_byte text.now }
{
    text.as_bytes()
        .iter()
        .all(|b| b.is_ascii_graphic() && *b != b'<' && *b != b'>')
}

#[tactic(auto, unfolding(crate::specs::Reading::is_padding))]
fn is_padding(text: &str) -> bool
    ensures { result ≡ is_padding text.now }
{
    match strip(text, "=") {
        Some(rest) => rest.is_empty(),
        None => text.is_empty(),
    }
}

/// Whether the text is one or more letters, digits, `+` and `/`, and then at most two `=`.
#[tactic(auto, unfolding(crate::specs::Reading::is_digest))]
fn is_digest(text: &str) -> bool
    ensures { result ≡ is_digest text.now }
{
    let (digest, padding) = halves(text, '=');
    !digest.is_empty() && is_encoded(digest) && is_padding(padding)
}

/// Returns what follows the algorithm, if the text begins with one.
#[tactic(auto, unfolding(crate::specs::Reading::has_algorithm))]
fn behind_algorithm(text: &str) -> Option<&str>
    ensures { MatchOption result (has_algorithm text.now ≡ false)
        (λ rest. (has_algorithm text.now ≡ true) × (rest.now ≡ drop 7 text.now)) }
{
    if let Some(rest) = strip(text, "sha256-") {
        return Some(rest);
    }
    if let Some(rest) = strip(text, "sha384-") {
        return Some(rest);
    }
    strip(text, "sha512-")
}

#[tactic(auto, unfolding(crate::specs::Reading::is_hash_item))]
fn is_hash_item(text: &str) -> bool
    ensures { result ≡ is_hash_item text.now }
{
    let Some(rest) = behind_algorithm(text) else {
        return false;
    };
    let (digest, options) = halves(rest, '?');
    is_digest(digest) && are_options(options)
}

/// Whether the text is a hash: items separated by one space.
pub(crate) fn is_hash(text: &str) -> bool
    ensures { result ≡ is_hash text.now }
{
    text.split(' ').all(is_hash_item)
}
