use crate::names::asserts::{assert_displayed, assert_row};
use crate::names::plain::plain;
use semver::Version;
use std::alloc::Global;
use std::cmp::Ordering;
use std::process::Abort;
use wac_names::tracks::{Track, compare_versions};
use wac_names::{
    ComponentName, ComponentNameKind, DependencyName, NameFault, VersionRange,
    are_semver_compatible, clash,
};

/// What a text is, without its pieces.
#[derive(Clone, Copy, PartialEq, Eq)]
pub enum Sort {
    Label,
    Constructor,
    Method,
    Static,
    Interface,
    Dependency,
    Url,
    Hash,
}

use NameFault::{BadHash, BadLabel, BadPackage, BadRange, BadVersion, Empty, Trailing, Unclosed};

/// Texts, each with what is answered.
const TABLE: &[(&str, Result<Sort, NameFault>)] = &[
    ("a-1b", Ok(Sort::Label)),
    ("A-b", Ok(Sort::Label)),
    ("a", Ok(Sort::Label)),
    ("a1-B2-3", Ok(Sort::Label)),
    ("aB", Err(BadLabel)),
    ("1a", Err(BadLabel)),
    ("a-", Err(BadLabel)),
    ("-a", Err(BadLabel)),
    ("a--b", Err(BadLabel)),
    ("a@1.0.0", Err(BadLabel)),
    ("\u{e9}", Err(BadLabel)),
    ("a\u{1f600}", Err(BadLabel)),
    ("", Err(Empty)),
    ("[constructor]a", Ok(Sort::Constructor)),
    ("[constructor]", Err(BadLabel)),
    ("[foo]a", Err(BadLabel)),
    ("[", Err(BadLabel)),
    ("[method]a.b", Ok(Sort::Method)),
    ("[method]a.b.c", Err(BadLabel)),
    ("[method]a", Err(BadLabel)),
    ("[static]a.B-c", Ok(Sort::Static)),
    ("[static].b", Err(BadLabel)),
    ("a:b/c", Ok(Sort::Interface)),
    ("a:b/C-d@1.0.0", Ok(Sort::Interface)),
    ("a:b/c@1.2.3-rc.1+b", Ok(Sort::Interface)),
    ("a:B/c", Err(BadPackage)),
    ("A:b/c", Err(BadPackage)),
    ("a:b", Err(BadLabel)),
    (":", Err(BadPackage)),
    ("a@b:c", Err(BadPackage)),
    ("a:b/c/d", Err(BadLabel)),
    ("a:b/c@1.0", Err(BadVersion)),
    ("a:b/c@", Err(BadVersion)),
    ("a:b/c@1.0.0@2.0.0", Err(BadVersion)),
    ("unlocked-dep=<a:b>", Ok(Sort::Dependency)),
    ("unlocked-dep=<a:b@*>", Ok(Sort::Dependency)),
    ("unlocked-dep=<a:b@{>=1.0.0}>", Ok(Sort::Dependency)),
    ("unlocked-dep=<a:b@{<2.0.0-rc}>", Ok(Sort::Dependency)),
    ("unlocked-dep=<a:b@{>=1.0.0 <2.0.0}>", Ok(Sort::Dependency)),
    ("unlocked-dep=<a:b@1.0.0>", Err(BadRange)),
    ("unlocked-dep=<a:b@{>=1.0.0 2.0.0}>", Err(BadRange)),
    ("unlocked-dep=<a:b@{>=1.0.0 <2.0}>", Err(BadRange)),
    ("unlocked-dep=<a:b", Err(Unclosed)),
    ("unlocked-dep=<a>", Err(BadPackage)),
    ("locked-dep=<a:b>", Ok(Sort::Dependency)),
    (
        "locked-dep=<a:b@1.0.0>,integrity=<sha512-a>",
        Ok(Sort::Dependency),
    ),
    ("locked-dep=<a:b@1>", Err(BadVersion)),
    ("locked-dep=<a:b@1.0.0>,integrity=<sha1-a>", Err(BadHash)),
    ("locked-dep=<a:b@1.0.0", Err(Unclosed)),
    ("url=<>", Ok(Sort::Url)),
    (
        "url=<https://a.b/\u{e9}>,integrity=<sha256-a>",
        Ok(Sort::Url),
    ),
    ("url=<u>x", Err(Trailing)),
    ("url=<u<>", Err(Unclosed)),
    ("url=<u>,integrity=<sha256-a>x", Err(Trailing)),
    ("integrity=<sha256-aa==>", Ok(Sort::Hash)),
    ("integrity=<sha384-a+/9?x!~ sha512-b=?>", Ok(Sort::Hash)),
    ("integrity=<md5-a>", Err(BadHash)),
    ("integrity=<sha256-a===>", Err(BadHash)),
    ("integrity=<sha256-a>,", Err(Trailing)),
    ("integrity=<sha256-a", Err(Unclosed)),
];

fn sort_of(kind: ComponentNameKind<'_>) -> Sort {
    match kind {
        ComponentNameKind::Label(_) => Sort::Label,
        ComponentNameKind::Constructor(_) => Sort::Constructor,
        ComponentNameKind::Method { .. } => Sort::Method,
        ComponentNameKind::Static { .. } => Sort::Static,
        ComponentNameKind::Interface(_) => Sort::Interface,
        ComponentNameKind::Dependency(_) => Sort::Dependency,
        ComponentNameKind::Url(_) => Sort::Url,
        ComponentNameKind::Hash(_) => Sort::Hash,
    }
}

fn answer_once(alloc: Global, text: &str) -> Result<Sort, NameFault> {
    Ok(sort_of(ComponentName::new(alloc, text)?.kind()))
}

/// What is answered, asked once more where memory was refused.
fn answer(alloc: Global, text: &str) -> Result<Sort, NameFault> {
    match answer_once(alloc, text) {
        Err(NameFault::OutOfMemory) => answer_once(alloc, text),
        answer => answer,
    }
}

#[test]
fn examples(rt: HostRuntime) {
    for (text, want) in TABLE {
        assert_row(&rt, answer(rt.alloc(), text) == *want, text, "");
    }
}

fn agree(rt: &impl Abort, alloc: Global, text: &str) {
    assert_row(rt, answer(alloc, text) == plain(alloc, text), text, "");
}

/// Both agree on the text up to this place, and with any byte at it.
fn agree_at(rt: &impl Abort, alloc: Global, text: &str, at: usize) {
    if let Some(prefix) = text.get(..at) {
        agree(rt, alloc, prefix);
    }
    let mut bytes = text.as_bytes().to_vec(alloc).expect(rt, "bytes");
    for byte in 0..=255 {
        if let Some(place) = bytes.get_mut(at) {
            *place = byte;
        }
        if let Ok(text) = std::str::from_utf8(bytes.as_slice()) {
            agree(rt, alloc, text);
        }
    }
}

#[test]
fn prefixes_and_one_byte_changed(rt: HostRuntime) {
    for (text, _) in TABLE {
        for at in 0..text.len() {
            agree_at(&rt, rt.alloc(), text, at);
        }
    }
}

#[test]
fn long_label(rt: HostRuntime) {
    let text = "a-".repeat(rt.alloc(), 1 << 19).expect(&rt, "a text");
    let label = text.as_str().trim_end_matches('-');
    assert_row(
        &rt,
        answer(rt.alloc(), text.as_str()) == Err(BadLabel),
        "a-",
        "",
    );
    assert_row(&rt, answer(rt.alloc(), label) == Ok(Sort::Label), "a-a", "");
}

/// What is asked of two texts, in either order.
#[derive(Clone, Copy)]
enum Asked {
    Clash,
    Track,
}

fn is_so_once(alloc: Global, asked: Asked, a: &str, b: &str) -> Option<bool> {
    match asked {
        Asked::Clash => {
            let a = ComponentName::new(alloc, a).ok()?;
            let b = ComponentName::new(alloc, b).ok()?;
            Some(clash(&a, &b))
        }
        Asked::Track => are_semver_compatible(alloc, a, b).ok(),
    }
}

/// Names that clash, and names that do not; texts on one track, and texts that are not.
const PAIRS: &[(Asked, &str, &str, bool)] = &[
    (Asked::Clash, "a", "A", true),
    (Asked::Clash, "a", "a", true),
    (Asked::Clash, "a", "[constructor]a", false),
    (Asked::Clash, "A", "[constructor]a", true),
    (Asked::Clash, "[constructor]a", "[constructor]A", true),
    (Asked::Clash, "[method]a.b", "[static]a.b", true),
    (Asked::Clash, "[method]a.b", "[method]a.c", false),
    (Asked::Clash, "a", "[method]a.a", false),
    (Asked::Clash, "a:b/c", "a:b/C", false),
    (Asked::Clash, "a:b/c", "a:b/c", true),
    (Asked::Clash, "a", "a:b/c", false),
    (Asked::Clash, "url=<u>", "url=<U>", false),
    (Asked::Track, "a:b/c@0.2.0", "a:b/c@0.2.9+x", true),
    (Asked::Track, "a:b/c@1.0.0", "a:b/c@1.9.0", true),
    (Asked::Track, "a:b/c@1.0.0", "a:b/c@2.0.0", false),
    (Asked::Track, "a:b/c@0.2.0", "a:b/c@0.3.0", false),
    (Asked::Track, "a:b/c@0.0.1", "a:b/c@0.0.2", false),
    (Asked::Track, "a:b/c@0.0.1", "a:b/c@0.0.1+x", true),
    (Asked::Track, "a:b/c@0.1.0", "a:b/c@1.0.0", false),
    (Asked::Track, "a:b/c@1.0.0-rc", "a:b/c@1.0.0", false),
    (Asked::Track, "a:b/c@1.0.0-rc", "a:b/c@1.0.0-rc", true),
    (Asked::Track, "a:b/c@1.0.0", "a:b/d@1.0.0", false),
    (Asked::Track, "a:b/c", "a:b/c", true),
    (Asked::Track, "a:b/c", "a:b/c@1.0.0", false),
    (Asked::Track, "a:b/c@1", "a:b/c@1.0.0", false),
    (Asked::Track, "A:b/c@1.0.0", "A:b/c@1.1.0", false),
];

/// Whether it is so, asked once more where memory was refused.
fn is_so(alloc: Global, asked: Asked, a: &str, b: &str) -> Option<bool> {
    match is_so_once(alloc, asked, a, b) {
        None => is_so_once(alloc, asked, a, b),
        answer => answer,
    }
}

#[test]
fn pairs(rt: HostRuntime) {
    for (asked, a, b, want) in PAIRS {
        assert_row(&rt, is_so(rt.alloc(), *asked, a, b) == Some(*want), a, b);
        assert_row(&rt, is_so(rt.alloc(), *asked, b, a) == Some(*want), b, a);
    }
}

/// Each comes before those that stand behind it.
const RISING: &[&str] = &[
    "a:b/c",
    "a:b/c@0.0.9",
    "a:b/c@1.0.0-rc.2",
    "a:b/c@1.0.0-rc.10",
    "a:b/c@1.0.0",
    "a:b/c@1.0.0+x",
    "a:b/c@1.0.1",
    "a:b/c@1.10.0",
];

#[test]
fn versions(rt: HostRuntime) {
    for (i, a) in RISING.iter().enumerate() {
        for (j, b) in RISING.iter().enumerate() {
            let order = compare_versions(rt.alloc(), a, b).expect(&rt, a);
            assert_row(&rt, order == i.cmp(&j), a, b);
        }
    }
}

/// Names, whether they may be exported, and their pieces in order.
const PIECES: &[(&str, bool, &[Option<&str>])] = &[
    (
        "wasi:io/streams@0.2.0",
        true,
        &[Some("wasi"), Some("io"), Some("streams"), Some("0.2.0")],
    ),
    (
        "url=<u>,integrity=<sha256-a>",
        false,
        &[Some("u"), Some("sha256-a"), None, None],
    ),
    (
        "unlocked-dep=<a:b@{>=1.0.0 <2.0.0}>",
        false,
        &[Some("a"), Some("b"), Some("1.0.0"), Some("2.0.0")],
    ),
    (
        "integrity=<sha256-a sha512-b>",
        false,
        &[Some("sha256-a sha512-b"), None, None, None],
    ),
];

/// The pieces of a name, as many as are looked at.
fn pieces(kind: ComponentNameKind<'_>) -> [Option<&str>; 4] {
    match kind {
        ComponentNameKind::Interface(interface) => [
            Some(interface.namespace()),
            Some(interface.package()),
            Some(interface.interface()),
            interface.version_text(),
        ],
        ComponentNameKind::Url(url) => [Some(url.url()), url.integrity(), None, None],
        ComponentNameKind::Dependency(
            DependencyName::Unlocked {
                package,
                range: Some(VersionRange::Between { low, high }),
            },
        ) => [
            Some(package.namespace()),
            Some(package.name()),
            Some(low),
            Some(high),
        ],
        ComponentNameKind::Hash(hash) => [Some(hash.integrity()), None, None, None],
        _ => [None, None, None, None],
    }
}

/// An interface has the version 0.2.0, and no other name has one.
fn has_its_version(rt: &(impl Abort + AllocGlobal), kind: ComponentNameKind<'_>) -> bool {
    match kind {
        ComponentNameKind::Interface(interface) => {
            let version = interface.version(rt.alloc()).expect(rt, "a version");
            version == Some(Version::new(0, 2, 0))
        }
        _ => true,
    }
}

#[test]
fn pieces_of_names(rt: HostRuntime) {
    for (text, is_exportable, want) in PIECES {
        let name = ComponentName::new(rt.alloc(), text).expect(&rt, text);
        assert_row(&rt, name.as_str() == *text, text, "as a text");
        let kind = name.kind();
        assert_row(
            &rt,
            kind.is_exportable() == *is_exportable,
            text,
            "exported",
        );
        assert_row(&rt, pieces(kind).as_slice() == *want, text, "in pieces");
        assert_row(&rt, has_its_version(&rt, kind), text, "of a version");
    }
}

#[test]
fn a_track_has_its_name_and_number(rt: HostRuntime) {
    let text = "a:b/c@0.2.9+x";
    let minor = Track::Minor {
        name: "a:b/c",
        minor: 2,
    };
    let track = Track::new(rt.alloc(), text).expect(&rt, text);
    assert_row(&rt, track == minor, text, "");
}

const FAULTS: &[(NameFault, &str)] = &[
    (NameFault::Empty, "Empty"),
    (NameFault::BadLabel, "BadLabel"),
    (NameFault::BadVersion, "BadVersion"),
    (NameFault::BadPackage, "BadPackage"),
    (NameFault::BadRange, "BadRange"),
    (NameFault::BadHash, "BadHash"),
    (NameFault::Unclosed, "Unclosed"),
    (NameFault::Trailing, "Trailing"),
    (NameFault::OutOfMemory, "OutOfMemory"),
    (NameFault::NotExportable, "NotExportable"),
];

#[test]
fn faults_display_their_names(rt: HostRuntime) {
    for (fault, want) in FAULTS {
        assert_displayed(&rt, fault, want);
    }
}

/// With the memory refused in turn, only a version with a pre-release or build metadata wants some.
const MEMORY: &[(&str, bool)] = &[
    ("a", false),
    ("a:b/c", false),
    ("a:b/c@1.0.0", false),
    ("locked-dep=<a:b@1.2.3>", false),
    ("url=<u>", false),
    ("a:b/c@1.0.0-rc+x", true),
    ("unlocked-dep=<a:b@{>=1.0.0-rc <2.0.0-rc}>", true),
];

fn is_answered(alloc: Global, text: &str, wants_memory: bool) -> bool {
    match answer_once(alloc, text) {
        Ok(_) => wants_memory || Track::new(alloc, text).is_ok(),
        Err(fault) => wants_memory && fault == NameFault::OutOfMemory,
    }
}

#[test]
fn memory(rt: HostRuntime) {
    for (text, wants_memory) in MEMORY {
        assert_row(&rt, is_answered(rt.alloc(), text, *wants_memory), text, "");
    }
    let order = compare_versions(rt.alloc(), "a:b/c@1.0.0-rc", "a:b/c@1.0.0+x");
    let is_less = matches!(order, Ok(Ordering::Less) | Err(_));
    assert_row(&rt, is_less, "a:b/c@1.0.0-rc", "a:b/c@1.0.0+x");
}
