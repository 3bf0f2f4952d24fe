// A second implementation of names, from the grammar's table.
use crate::names::names::Sort;
use NameFault::{BadHash, BadLabel, BadPackage, BadRange, BadVersion, Empty, Trailing, Unclosed};
use semver::Version;
use std::alloc::Global;
use wac_names::NameFault;

/// Which bytes may stand in a part of a name.
#[derive(Clone, Copy)]
enum Set {
    Lower,
    Upper,
    Package,
    Base64,
    Options,
}

fn has(set: Set, byte: u8) -> bool {
    match set {
        Set::Lower => byte.is_ascii_lowercase() || byte.is_ascii_digit(),
        Set::Upper => byte.is_ascii_uppercase() || byte.is_ascii_digit(),
        Set::Package => byte == b'-' || byte.is_ascii_lowercase() || byte.is_ascii_digit(),
        Set::Base64 => byte == b'+' || byte == b'/' || byte.is_ascii_alphanumeric(),
        Set::Options => byte != b'<' && byte != b'>' && byte.is_ascii_graphic(),
    }
}

/// Whether a text has bytes of this set, and no others.
fn consists_of(text: &str, set: Set) -> bool {
    for byte in text.as_bytes() {
        if !has(set, *byte) {
            return false;
        }
    }
    !text.is_empty()
}

/// Fragments joined by `-`, each in letters of one case.
fn plain_label(text: &str) -> bool {
    for fragment in text.split('-') {
        if !consists_of(fragment, Set::Lower) && !consists_of(fragment, Set::Upper) {
            return false;
        }
    }
    !matches!(text.as_bytes().first(), Some(b'0'..=b'9'))
}

fn plain_part(text: &str) -> bool {
    plain_label(text) && consists_of(text, Set::Package)
}

fn plain_package(text: &str) -> bool {
    match text.split_once(':') {
        Some((namespace, name)) => plain_part(namespace) && plain_part(name),
        None => false,
    }
}

fn plain_version(alloc: Global, text: &str) -> bool {
    // Once more, if memory was refused.
    Version::parse(alloc, text).is_ok() || Version::parse(alloc, text).is_ok()
}

fn plain_bound(alloc: Global, text: &str, sign: &str) -> bool {
    match text.strip_prefix(sign) {
        Some(version) => plain_version(alloc, version),
        None => false,
    }
}

fn plain_bounds(alloc: Global, text: &str) -> bool {
    match text.split_once(' ') {
        Some((low, high)) => plain_bound(alloc, low, ">=") && plain_bound(alloc, high, "<"),
        None => plain_bound(alloc, text, ">=") || plain_bound(alloc, text, "<"),
    }
}

fn plain_range(alloc: Global, text: &str) -> bool {
    match text.strip_prefix('{') {
        Some(rest) => match rest.strip_suffix('}') {
            Some(bounds) => plain_bounds(alloc, bounds),
            None => false,
        },
        None => text == "*",
    }
}

fn plain_digits(text: &str) -> bool {
    let text = text.strip_suffix('=').unwrap_or(text);
    consists_of(text.strip_suffix('=').unwrap_or(text), Set::Base64)
}

fn plain_digest(text: &str) -> bool {
    match text.split_once('?') {
        Some((digits, options)) => {
            plain_digits(digits) && (options.is_empty() || consists_of(options, Set::Options))
        }
        None => plain_digits(text),
    }
}

fn plain_hash(text: &str) -> bool {
    for item in text.split(' ') {
        match item.split_once('-') {
            Some(("sha256" | "sha384" | "sha512", digest)) if plain_digest(digest) => {}
            _ => return false,
        }
    }
    true
}

/// The fault behind `integrity=<`, if one stands.
fn plain_integrity(rest: &str) -> Option<NameFault> {
    match rest.split_once('>') {
        None => Some(Unclosed),
        Some((hash, _)) if !plain_hash(hash) => Some(BadHash),
        Some((_, tail)) => (!tail.is_empty()).then_some(Trailing),
    }
}

fn plain_tail(tail: &str) -> Option<NameFault> {
    match tail.strip_prefix(",integrity=<") {
        Some(rest) => plain_integrity(rest),
        None => (!tail.is_empty()).then_some(Trailing),
    }
}

/// What stands before an `@`, and what stands behind it.
fn at_sign(text: &str) -> (&str, Option<&str>) {
    match text.split_once('@') {
        Some((before, behind)) => (before, Some(behind)),
        None => (text, None),
    }
}

fn plain_unlocked(alloc: Global, rest: &str) -> Option<NameFault> {
    let Some(inside) = rest.strip_suffix('>') else {
        return Some(Unclosed);
    };
    match at_sign(inside) {
        (package, _) if !plain_package(package) => Some(BadPackage),
        (_, Some(range)) if !plain_range(alloc, range) => Some(BadRange),
        _ => None,
    }
}

fn plain_locked(alloc: Global, rest: &str) -> Option<NameFault> {
    let Some((inside, tail)) = rest.split_once('>') else {
        return Some(Unclosed);
    };
    match at_sign(inside) {
        (package, _) if !plain_package(package) => Some(BadPackage),
        (_, Some(version)) if !plain_version(alloc, version) => Some(BadVersion),
        _ => plain_tail(tail),
    }
}

fn plain_interface(alloc: Global, text: &str) -> Option<NameFault> {
    let (name, version) = at_sign(text);
    let (package, interface) = name.split_once('/').unwrap_or((name, ""));
    match version {
        _ if !plain_package(package) => Some(BadPackage),
        _ if !plain_label(interface) => Some(BadLabel),
        Some(version) if !plain_version(alloc, version) => Some(BadVersion),
        _ => None,
    }
}

fn plain_pair(text: &str) -> bool {
    match text.split_once('.') {
        Some((resource, name)) => plain_label(resource) && plain_label(name),
        None => false,
    }
}

fn plain_bracketed(text: &str) -> Result<Sort, NameFault> {
    match text.split_once(']') {
        Some(("[constructor", label)) if plain_label(label) => Ok(Sort::Constructor),
        Some(("[method", pair)) if plain_pair(pair) => Ok(Sort::Method),
        Some(("[static", pair)) if plain_pair(pair) => Ok(Sort::Static),
        _ => Err(BadLabel),
    }
}

fn plain_url(rest: &str) -> Option<NameFault> {
    match rest.split_once('>') {
        Some((url, tail)) if !url.contains('<') => plain_tail(tail),
        _ => Some(Unclosed),
    }
}

fn or(fault: Option<NameFault>, sort: Sort) -> Result<Sort, NameFault> {
    match fault {
        Some(fault) => Err(fault),
        None => Ok(sort),
    }
}

fn plain_word(alloc: Global, text: &str) -> Result<Sort, NameFault> {
    if text.contains(':') {
        return or(plain_interface(alloc, text), Sort::Interface);
    }
    if text.is_empty() {
        return Err(Empty);
    }
    plain_label(text).then_some(Sort::Label).ok_or(BadLabel)
}

/// What a text is, or why it is no name.
pub fn plain(alloc: Global, text: &str) -> Result<Sort, NameFault> {
    if text.starts_with('[') {
        return plain_bracketed(text);
    }
    match text.split_once('<') {
        Some(("unlocked-dep=", rest)) => or(plain_unlocked(alloc, rest), Sort::Dependency),
        Some(("locked-dep=", rest)) => or(plain_locked(alloc, rest), Sort::Dependency),
        Some(("url=", rest)) => or(plain_url(rest), Sort::Url),
        Some(("integrity=", rest)) => or(plain_integrity(rest), Sort::Hash),
        _ => plain_word(alloc, text),
    }
}
