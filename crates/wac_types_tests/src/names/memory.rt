//! Names and versions where memory is refused.

use crate::names::asserts::assert_row;
use semver::Version;
use std::alloc::Global;
use std::cmp::Ordering;
use std::process::Abort;
use wac_names::tracks::{Track, compare_versions};
use wac_names::{ComponentName, ComponentNameKind, clash};

/// What is asked of a version that takes memory.
#[derive(Clone, Copy)]
enum Asked {
    Version,
    Track,
    Key,
    Order,
}

const ASKED: &[(Asked, &str)] = &[
    (Asked::Version, "its version"),
    (Asked::Track, "its track"),
    (Asked::Key, "the key of its track"),
    (Asked::Order, "its place among versions"),
];

const NAME: &str = "a:b/c@0.2.9-rc+x";

/// Whether an interface has the version of the name; none where memory was refused.
fn is_versioned(alloc: Global, kind: ComponentNameKind<'_>) -> Option<bool> {
    let want = Version::parse(alloc, "0.2.9-rc+x").ok()?;
    match kind {
        ComponentNameKind::Interface(interface) => {
            Some(interface.version(alloc).ok()? == Some(want))
        }
        _ => Some(false),
    }
}

/// Whether the key of a track is this one; none where memory was refused.
fn has_key(alloc: Global, track: Track<'_>, want: &str) -> Option<bool> {
    let key = track.to_key(alloc).ok()?;
    Some(key.as_str() == want)
}

fn is_answered_once(alloc: Global, asked: Asked) -> Option<bool> {
    match asked {
        Asked::Version => {
            let name = ComponentName::new(alloc, NAME).ok()?;
            is_versioned(alloc, name.kind())
        }
        Asked::Track => Some(Track::new(alloc, NAME).ok()? == Track::Text(NAME)),
        Asked::Key => has_key(alloc, Track::Text(NAME), "=a:b/c@0.2.9-rc+x"),
        Asked::Order => {
            let order = compare_versions(alloc, NAME, "a:b/c@0.2.9").ok()?;
            Some(order == Ordering::Less)
        }
    }
}

/// Whether it is answered rightly, asked once more where memory was refused.
fn is_answered(alloc: Global, asked: Asked) -> Option<bool> {
    match is_answered_once(alloc, asked) {
        None => is_answered_once(alloc, asked),
        answer => answer,
    }
}

#[test]
fn versions_that_take_memory_are_read_again(rt: HostRuntime) {
    for (asked, what) in ASKED {
        assert_row(
            &rt,
            is_answered(rt.alloc(), *asked) == Some(true),
            NAME,
            what,
        );
    }
}

// `tools/refused` refuses this test all growths from one on, so that what follows the last has no memory.
#[test]
fn names_are_looked_at_without_memory(rt: HostRuntime) {
    let name = ComponentName::new(rt.alloc(), NAME).expect(&rt, "out of memory");
    let _ = String::from_str(rt.alloc(), "the last growth");
    let other = ComponentName::new(rt.alloc(), "a:b/c@1.0.0").expect(&rt, "a name");
    let url = ComponentName::new(rt.alloc(), "url=<u>").expect(&rt, "a name");
    assert_row(&rt, !clash(&name, &other), NAME, "beside another");
    assert_row(&rt, name != other, NAME, "not another");
    assert_row(&rt, name.as_str() == NAME, NAME, "as a text");
    assert_row(&rt, name.kind().is_exportable(), NAME, "exported");
    assert_row(&rt, !url.kind().is_exportable(), "url=<u>", "exported");
}
