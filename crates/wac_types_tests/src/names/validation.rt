//! Names that may stand together, and the first fault of others.
use crate::names::asserts::{assert_displayed, assert_row};
use std::alloc::Global;
use std::process::Abort;
use wac_names::validation::{ValidationError, ValidationFault, validate};

/// What is answered, with the names of a fault.
#[derive(Clone, Copy, PartialEq, Eq)]
enum Answer<'a> {
    Valid,
    BadName(&'a str),
    Clash(&'a str, &'a str),
    NotExportable(&'a str),
    OutOfMemory,
}

use Answer::{BadName, Clash, NotExportable, Valid};

/// The imports, the exports, and what is answered.
const TABLE: &[(&str, &str, Answer<'static>)] = &[
    ("", "", Valid),
    ("a b", "c d", Valid),
    // which names clash
    ("a A", "", Clash("a", "A")),
    ("A a", "", Clash("A", "a")),
    ("a a", "", Clash("a", "a")),
    ("a [constructor]a", "", Valid),
    ("[constructor]a a", "", Valid),
    ("a [constructor]A", "", Clash("a", "[constructor]A")),
    (
        "[constructor]a [constructor]A",
        "",
        Clash("[constructor]a", "[constructor]A"),
    ),
    (
        "[method]a.b [static]a.b",
        "",
        Clash("[method]a.b", "[static]a.b"),
    ),
    (
        "[method]a.b [static]a.B",
        "",
        Clash("[method]a.b", "[static]a.B"),
    ),
    ("[method]a.b [method]a.c", "", Valid),
    ("a [method]a.a", "", Valid),
    ("a:b/c a:b/C", "", Valid),
    ("a:b/c a:b/c", "", Clash("a:b/c", "a:b/c")),
    ("a:b/c@1.0.0 a:b/c@1.0.1", "", Valid),
    (
        "unlocked-dep=<foo:bar> unlocked-dep=<foo:bar>",
        "",
        Clash("unlocked-dep=<foo:bar>", "unlocked-dep=<foo:bar>"),
    ),
    // an import and an export never clash
    ("a", "a", Valid),
    ("a", "A", Valid),
    ("", "a A", Clash("a", "A")),
    // of two that clash the earliest second, and for it the earliest first
    ("a [constructor]a A", "", Clash("a", "A")),
    ("a A [constructor]a", "", Clash("a", "A")),
    ("[constructor]a a A", "", Clash("[constructor]a", "A")),
    ("[constructor]a A a", "", Clash("[constructor]a", "A")),
    ("A a [constructor]a", "", Clash("A", "a")),
    ("A [constructor]a a", "", Clash("A", "[constructor]a")),
    (
        "a [constructor]a [constructor]a",
        "",
        Clash("[constructor]a", "[constructor]a"),
    ),
    ("a b B A", "", Clash("b", "B")),
    ("a b [constructor]a c A", "", Clash("a", "A")),
    // names outside the grammar
    ("a!", "", BadName("a!")),
    ("a foo: 1a", "", BadName("foo:")),
    ("unlocked-dep=<foo>", "", BadName("unlocked-dep=<foo>")),
    // names that can't be exported
    ("url=<u> integrity=<sha256-a> unlocked-dep=<a:b>", "", Valid),
    ("", "a url=<u> locked-dep=<a:b>", NotExportable("url=<u>")),
    (
        "",
        "integrity=<sha256-a>",
        NotExportable("integrity=<sha256-a>"),
    ),
    // which fault comes first
    ("a A 1a", "", BadName("1a")),
    ("a A", "1a", Clash("a", "A")),
    ("", "url=<u> a A 1a", BadName("1a")),
    ("", "url=<u> a A", Clash("a", "A")),
];

fn seen(answer: &Result<(), ValidationError>) -> Answer<'_> {
    match answer {
        Ok(()) => Answer::Valid,
        Err(ValidationError::OutOfMemory) => Answer::OutOfMemory,
        Err(ValidationError::Fault { source }) => match source {
            ValidationFault::BadName { name } => Answer::BadName(name.as_str()),
            ValidationFault::Clash { first, second } => Answer::Clash(
                first.as_str(),
                second.as_str(),
            ),
            ValidationFault::NotExportable { name } => Answer::NotExportable(name.as_str()),
        },
    }
}

/// What is answered, asked once more where memory was refused.
fn answered(alloc: Global, imports: &[&str], exports: &[&str]) -> Result<(), ValidationError> {
    match validate(alloc, imports, exports) {
        Err(ValidationError::OutOfMemory) => validate(alloc, imports, exports),
        answer => answer,
    }
}

/// Names that stand apart by spaces.
fn names<'a>(rt: &(impl Abort + AllocGlobal), text: &'a str) -> Vec<&'a str> {
    text.split_whitespace()
        .collect(rt.alloc())
        .expect(rt, "names")
}

fn is_answered(alloc: Global, imports: &[&str], exports: &[&str], want: Answer<'_>) -> bool {
    seen(&answered(alloc, imports, exports)) == want
}

fn assert_answered(
    rt: &(impl Abort + AllocGlobal),
    imports: &str,
    exports: &str,
    want: Answer<'_>,
) {
    let into = names(rt, imports);
    let out = names(rt, exports);
    let holds = is_answered(rt.alloc(), into.as_slice(), out.as_slice(), want);
    assert_row(rt, holds, imports, exports);
}

#[test]
fn examples(rt: HostRuntime) {
    for (imports, exports, want) in TABLE {
        assert_answered(&rt, imports, exports, *want);
    }
}

/// Names and their constructors, and one name behind them.
fn many(rt: &(impl Abort + AllocGlobal), last: &str) -> String {
    let mut made = String::new(rt.alloc());
    for i in 0..1000u32 {
        let names = format!(in rt.alloc(); "n{i} [constructor]n{i} ").expect(rt, "names");
        made.push_str(names.as_str()).expect(rt, "room for names");
    }
    made.push_str(last).expect(rt, "room for a name");
    made
}

#[test]
fn many_names(rt: HostRuntime) {
    let valid = many(&rt, "");
    assert_answered(&rt, valid.as_str(), valid.as_str(), Answer::Valid);
    let clash = many(&rt, "N7");
    assert_answered(&rt, "", clash.as_str(), Answer::Clash("n7", "N7"));
}

const FAULTS: &[(&[&str], &[&str], &str)] = &[
    (&["1a"], &[], "BadName"),
    (&["a", "a"], &[], "Clash"),
    (&[], &["url=<>"], "NotExportable"),
];

#[test]
fn faults_display_their_names(rt: HostRuntime) {
    for (imports, exports, want) in FAULTS {
        let Err(ValidationError::Fault { source }) = answered(rt.alloc(), imports, exports) else {
            panic!(rt; "no fault: {want}");
        };
        assert_displayed(&rt, &source, want);
    }
}
