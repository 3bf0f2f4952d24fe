//! The words of a line.
ghost use Rattle.std.specs.Prelude.{◌≡◌, ◌≢◌, ◌++◌, ◌∷◌, IfOk, MatchOption, codes};
ghost use Rattle.wac_script.specs.lines.Words.{spelled, AreHalves, AreWords, BeginsComment, IsPair, HasNoPair, IsDotted, HasNoDot, HasNoPrefix};
ghost use Rattle.wac_script.specs.lines.Numbers.{IsNumber};
ghost use Rattle.wac_script.specs.labels.Things.{SayNone};

use std::alloc::{AllocError, Global};

/// Returns the words of a line, up to a comment.
///
/// # Errors
/// - `AllocError` if out of memory.
pub(crate) fn words_of<'a>(alloc: Global, line: &'a str) -> Result<Vec<&'a str>, AllocError>
    ensures { IfOk result (λ words. AreWords line.now (spelled words.items)) }
{
    let mut words = Vec::new(alloc);
    for word in line.split_whitespace() {
        if let Some(_) = after_hash(word) {
            return Ok(words);
        }
        words.push(word)?;
    }
    Ok(words)
}

/// Returns what follows the `#` of a word that begins a comment.
fn after_hash(word: &str) -> Option<&str>
    ensures { MatchOption result (BeginsComment word.now → ⊥) (λ rest. word.now ≡ 35 ∷ rest.now) }
{
    word.strip_prefix('#')
}

/// Splits `NAME=WORD` at the first `=`. `None` if there is none.
pub(crate) fn pair(word: &str) -> Option<(&str, &str)>
    ensures { MatchOption result (HasNoPair word.now) (λ p. IsPair word.now p.0.now p.1.now) }
{
    word.split_once('=')
}

/// Splits `LABEL.NAME` at the first `.`. `None` if there is none.
pub(crate) fn dotted(word: &str) -> Option<(&str, &str)>
    ensures { MatchOption result (HasNoDot word.now) (λ p. IsDotted word.now p.0.now p.1.now) }
{
    word.split_once('.')
}

/// Returns the word, or none for `_`.
pub(crate) fn optional(word: &str) -> Option<&str>
    ensures { MatchOption result (word.now ≡ codes "_") (λ w. (w.now ≡ word.now) × (word.now ≢ codes "_")) }
{
    match word {
        "_" => None,
        _ => Some(word),
    }
}

/// Returns the number that a word is. `None` if it is not a number, or one of more than 64 bits.
pub(crate) fn number(word: &str) -> Option<u64>
    ensures { MatchOption result (SayNone (IsNumber 64 word.now)) (IsNumber 64 word.now) }
{
    match word.parse::<u64>() {
        Ok(number) => Some(number),
        Err(_) => None,
    }
}

/// Returns the number that a word is. `None` if it is not a number, or one of more than 32 bits.
pub(crate) fn small_number(word: &str) -> Option<u32>
    ensures { MatchOption result (SayNone (IsNumber 32 word.now)) (IsNumber 32 word.now) }
{
    match word.parse::<u32>() {
        Ok(number) => Some(number),
        Err(_) => None,
    }
}

/// Returns the word after a prefix. `None` if the word does not begin with the prefix.
pub(crate) fn after_prefix<'a>(word: &'a str, prefix: &str) -> Option<&'a str>
    ensures { MatchOption result (HasNoPrefix prefix.now word.now) (λ rest. word.now ≡ prefix.now ++ rest.now) }
{
    word.strip_prefix(prefix)
}

/// Returns the words before the first that is `mark`, and those after it.
pub(crate) fn halves<'a, 'b>(words: &'b [&'a str], mark: &str) -> (&'b [&'a str], &'b [&'a str])
    ensures { AreHalves (spelled words.now) mark.now (spelled result.0.now) (spelled result.1.now) }
{
    for i in 0..words.len() {
        if words[i] == mark {
            return (&words[..i], &words[i + 1..]);
        }
    }
    (words, &[])
}
